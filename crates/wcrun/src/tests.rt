// Whole calls on files and sinks in memory.
use crate::codecs::{all_codecs, coder_box, kind_of};
use crate::top;
use codec_desk::{Clock, OpenGate};
use std::alloc::Global;
use std::process::Abort;
use std::sync::Wait;
use std::test::Fail;
use std::thread::Threads;
use wc_base::{MemFiles, MemSink, NoMemory};
use wc_config::{CodecId, Role};

pub(crate) const ORDINARY: &str =
    "{\"codecs\":[{\"name\":\"d\",\"kind\":\"audio-decoder\"}],\"callers\":[{\"name\":\"a\",\"steps\":[
{\"do\":\"configure\",\"on\":\"d\",\"config\":{\"codec\":\"pcm-s16\",\"sampleRate\":8000,\"numberOfChannels\":1}},
{\"do\":\"chunk\",\"as\":\"c\",\"init\":{\"type\":\"key\",\"timestamp\":0,\"data\":\"01000200\"}},
{\"do\":\"decode\",\"on\":\"d\",\"chunk\":\"c\"},{\"do\":\"flush\",\"on\":\"d\",\"as\":\"p\"},{\"do\":\"await\",\"promise\":\"p\"}]}],
\"order\":[\"a\",\"a\",\"a\",\"a\",{\"start\":\"d\"},{\"done\":\"d\",\"at\":1},{\"turn\":\"d\"},{\"turn\":\"d\"},
{\"start\":\"d\"},{\"done\":\"d\",\"at\":2},{\"turn\":\"d\"},{\"turn\":\"d\"},{\"start\":\"d\"},{\"done\":\"d\",\"at\":3},{\"turn\":\"d\"},\"a\"]}";

pub(crate) const ORDINARY_REPORT: &str = "wcrun report 1
caller a
0 d.0 ok
1 ok
2 d.1 ok
3 d.2 ok
4 d:14 resolved
codec d audio-decoder 4
0 a.0 configure = ok
1 a.2 decode = ok
2 a.3 flush = ok
3 start 0.0
4 done 0.0 1 ran 0
5 turn unblock
6 turn process
7 start 0.1
8 done 0.1 2 ran 1
9 turn dequeue
  dequeue
10 turn output
  output audio s16 8000 1 2 0 250 01000200
11 start 0.2
12 done 0.2 3 ran 0
13 turn flushed
  resolve 2
pool
slots
0 d.3 acquire decode:pcm-s16 0
held 0
end
";

const ORDINARY_LINES: u64 = 30;

const ULAW: &str =
    "{\"codecs\":[{\"name\":\"d\",\"kind\":\"audio-decoder\"}],\"callers\":[{\"name\":\"a\",\"steps\":[
{\"do\":\"configure\",\"on\":\"d\",\"config\":{\"codec\":\"ulaw\",\"sampleRate\":8000,\"numberOfChannels\":1}},
{\"do\":\"chunk\",\"as\":\"c\",\"init\":{\"type\":\"key\",\"timestamp\":0,\"data\":\"00807fff\"}},
{\"do\":\"decode\",\"on\":\"d\",\"chunk\":\"c\"}]}],
\"order\":[\"a\",\"a\",\"a\",{\"start\":\"d\"},{\"done\":\"d\",\"at\":1},{\"turn\":\"d\"},{\"turn\":\"d\"},
{\"start\":\"d\"},{\"done\":\"d\",\"at\":2},{\"turn\":\"d\"},{\"turn\":\"d\"}]}";

const ULAW_REPORT: &str = "wcrun report 1
caller a
0 d.0 ok
1 ok
2 d.1 ok
codec d audio-decoder 4
0 a.0 configure = ok
1 a.2 decode = ok
2 start 0.0
3 done 0.0 1 ran 0
4 turn unblock
5 turn process
6 start 0.1
7 done 0.1 2 ran 1
8 turn dequeue
  dequeue
9 turn output
  output audio s16 8000 1 4 0 500 84827c7d00000000
pool
slots
0 d.2 acquire decode:ulaw 0
held 0
end
";

const UNCONFIGURED: &str =
    "{\"codecs\":[{\"name\":\"d\",\"kind\":\"audio-decoder\"}],\"callers\":[{\"name\":\"a\",\"steps\":[
{\"do\":\"chunk\",\"as\":\"c\",\"init\":{\"type\":\"key\",\"timestamp\":0,\"data\":\"0100\"}},
{\"do\":\"decode\",\"on\":\"d\",\"chunk\":\"c\"},{\"do\":\"flush\",\"on\":\"d\",\"as\":\"p\"},{\"do\":\"await\",\"promise\":\"p\"}]}],
\"order\":[\"a\",\"a\",\"a\",\"a\"]}";

const UNCONFIGURED_REPORT: &str = "wcrun report 1
caller a
0 ok
1 d.0 InvalidStateError
2 d.1 ok
3 d:2 rejected InvalidStateError
codec d audio-decoder 4
0 a.1 decode = InvalidStateError
1 a.2 flush = ok
  reject 1 InvalidStateError
pool
slots
held 0
end
";

// A script with no order, of which each run has the same report.
pub(crate) const UNORDERED: &str =
    "{\"codecs\":[],\"callers\":[{\"name\":\"a\",\"steps\":[{\"do\":\"chunk\",\"as\":\"c\",\"init\":{\"type\":\"key\",\"timestamp\":0,\"data\":\"01\"}},
{\"do\":\"copy\",\"of\":\"c\",\"size\":1}]},{\"name\":\"b\",\"steps\":[]}]}";

pub(crate) const UNORDERED_REPORT: &str =
    "wcrun report 1\ncaller a\n0 ok\n1 copied 1 01\ncaller b\npool\nslots\nheld 0\nend\n";

// Tells one moment after another.
#[derive(Clone, Copy)]
struct Ticks {
    last: u64,
}

impl Clock for Ticks {
    ghost use Rattle.work_moments.specs.Moments.{silent};

    ghost told = { λ _. silent };

    fn now(&mut self) -> u64 {
        self.last = self.last.wrapping_add(1);
        self.last
    }
}

// Ends a call on files that hold one script, with these reads and writes failing, and with twelve coders.
pub(crate) fn call(
    rt: &(impl Threads + Wait + Sync + Alloc<A = Global>),
    file: Vec<u8>,
    words: &[&str],
    reads: Vec<u64>,
    writes: Vec<u64>,
) -> Result<(u8, MemSink), Fail> {
    let alloc = rt.alloc();
    let name = String::from_str(alloc, "s.json")?;
    call_on(rt, vec![in alloc; (name, file)]?, words, reads, writes)
}

// The same on these files.
pub(crate) fn call_on(
    rt: &(impl Threads + Wait + Sync + Alloc<A = Global>),
    entries: Vec<(String, Vec<u8>)>,
    words: &[&str],
    reads: Vec<u64>,
    writes: Vec<u64>,
) -> Result<(u8, MemSink), Fail> {
    call_without(rt, entries, words, reads, writes, Some(CodecId::Alaw))
}

// The same with coders of each codec but this one, so that a configure for it is refused.
pub(crate) fn call_without(
    rt: &(impl Threads + Wait + Sync + Alloc<A = Global>),
    entries: Vec<(String, Vec<u8>)>,
    words: &[&str],
    reads: Vec<u64>,
    writes: Vec<u64>,
    lacked: Option<CodecId>,
) -> Result<(u8, MemSink), Fail> {
    let alloc = rt.alloc();
    let mut given = Vec::new(alloc);
    for word in words {
        given.push(String::from_str(alloc, word)?)?;
    }
    let mut files = MemFiles::open(alloc, entries, reads);
    let mut sink = MemSink::open(alloc, 131_072, writes)?;
    let mut coders = Vec::new(alloc);
    for role in [Role::Decode, Role::Encode] {
        for codec in all_codecs() {
            if lacked == Some(*codec) {
                continue;
            }
            let coder = coder_box!(alloc, role, kind_of(role, *codec), Err(NoMemory)?);
            coders.push(coder)?;
        }
    }
    let clocks = vec![in alloc; Ticks { last: 0 }; 34]?;
    let gates = vec![in alloc; OpenGate; 34]?;
    let status = top(
        rt, alloc, &given, &mut files, &mut sink, coders, clocks, gates,
    );
    Ok((status, sink))
}

// Replays each script, and compares the status and what is written.
pub(crate) fn each_ends(
    rt: &(impl Threads + Wait + Sync + Abort + Alloc<A = Global>),
    rows: &[(&str, u8, &str)],
) -> Result<(), Fail> {
    let alloc = rt.alloc();
    for (script, status, text) in rows {
        let file = Vec::from_slice(alloc, script.as_bytes())?;
        let words = ["replay", "s.json"];
        let (answer, sink) = call(rt, file, &words, Vec::new(alloc), Vec::new(alloc))?;
        assert_eq!(rt; sink.bytes(), text.as_bytes(), "at {text}");
        assert_eq!(rt; answer, *status, "at {text}");
    }
    Ok(())
}

#[test]
fn each_call_ends_with_its_status_and_text(rt: HostRuntime) -> Result<(), Fail> {
    let alloc = rt.alloc();
    let usage =
        "usage: wcrun replay FILE | run FILE --workers N | load START N | check SCRIPT REPORT | probe FILE\n";
    let replay = ["replay", "s.json"];
    let rows: [(&[&str], &str, u8, &str); 10] = [
        (&replay, ORDINARY, 0, ORDINARY_REPORT),
        (&replay, ULAW, 0, ULAW_REPORT),
        (&replay, UNCONFIGURED, 0, UNCONFIGURED_REPORT),
        (&replay, "{", 3, "script: not json\n"),
        (&replay, "[]", 3, "script: shape at top\n"),
        (&["replay", "other"], ORDINARY, 4, "read fault: other\n"),
        (&["replay", "-s"], ORDINARY, 2, usage),
        (&["replay"], ORDINARY, 2, usage),
        (&[], ORDINARY, 2, usage),
        (&replay, UNORDERED, 3, "script: shape at top\n"),
    ];
    for (words, script, status, text) in rows {
        let file = Vec::from_slice(alloc, script.as_bytes())?;
        let (answer, sink) = call(&rt, file, words, Vec::new(alloc), Vec::new(alloc))?;
        assert_eq!(rt; answer, status, "at {text}");
        assert_eq!(rt; sink.bytes(), text.as_bytes(), "at {text}");
    }
    Ok(())
}

#[test]
fn each_run_with_threads_ends_with_its_status_and_text(rt: HostRuntime) -> Result<(), Fail> {
    let alloc = rt.alloc();
    let usage =
        "usage: wcrun replay FILE | run FILE --workers N | load START N | check SCRIPT REPORT | probe FILE\n";
    let rows: [(&[&str], u8, &str); 13] = [
        (&["run", "s.json"], 0, UNORDERED_REPORT),
        (&["run", "s.json", "--workers", "1"], 0, UNORDERED_REPORT),
        (&["run", "s.json", "--workers=16"], 0, UNORDERED_REPORT),
        (&["run", "--workers", "2", "s.json"], 0, UNORDERED_REPORT),
        (&["run", "--workers=4", "s.json"], 0, UNORDERED_REPORT),
        (&["run", "other"], 4, "read fault: other\n"),
        (&["run"], 2, usage),
        (&["run", "-s"], 2, usage),
        (&["run", "s.json", "--workers"], 2, usage),
        (&["run", "s.json", "--workers", "0"], 2, usage),
        (&["run", "s.json", "--workers", "17"], 2, usage),
        (&["run", "s.json", "--workers=04"], 2, usage),
        (&["run", "s.json", "s.json", "--workers=4"], 2, usage),
    ];
    for (words, status, text) in rows {
        let file = Vec::from_slice(alloc, UNORDERED.as_bytes())?;
        let (answer, sink) = call(&rt, file, words, Vec::new(alloc), Vec::new(alloc))?;
        assert_eq!(rt; answer, status, "at {text}");
        assert_eq!(rt; sink.bytes(), text.as_bytes(), "at {text}");
    }
    Ok(())
}

#[test]
fn a_script_above_the_limit_is_too_long(rt: HostRuntime) -> Result<(), Fail> {
    let alloc = rt.alloc();
    let file = vec![in alloc; b' '; 16_777_217]?;
    let (answer, sink) = call(
        &rt,
        file,
        &["replay", "s.json"],
        Vec::new(alloc),
        Vec::new(alloc),
    )?;
    assert_eq!(rt; answer, 7);
    assert_eq!(rt; sink.bytes(), b"limit: script 16777217\n".as_slice());
    Ok(())
}

#[test]
fn each_failing_write_leaves_a_beginning_of_the_report(rt: HostRuntime) -> Result<(), Fail> {
    let alloc = rt.alloc();
    for n in 0..ORDINARY_LINES {
        let file = Vec::from_slice(alloc, ORDINARY.as_bytes())?;
        let writes = vec![in alloc; n]?;
        let (answer, sink) = call(&rt, file, &["replay", "s.json"], Vec::new(alloc), writes)?;
        assert_eq!(rt; answer, 5, "at {n}");
        assert!(rt;
            ORDINARY_REPORT.as_bytes().starts_with(sink.bytes()),
            "at {n}"
        );
        assert!(rt; n != 1 || sink.bytes() == b"wcrun report 1\ncall".as_slice());
    }
    Ok(())
}

#[test]
fn a_failing_read_is_answered(rt: HostRuntime) -> Result<(), Fail> {
    let alloc = rt.alloc();
    let file = Vec::from_slice(alloc, ORDINARY.as_bytes())?;
    let reads = vec![in alloc; 0]?;
    let (answer, sink) = call(&rt, file, &["replay", "s.json"], reads, Vec::new(alloc))?;
    assert_eq!(rt; answer, 4);
    assert_eq!(rt; sink.bytes(), b"read fault: s.json\n".as_slice());
    Ok(())
}
