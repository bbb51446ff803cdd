// Reports of runs in which a caller encodes what it took from a decoder, and decodes what it took from the encoder, read back
// and written again; and texts with a fault at a line that was counted by hand.
use codec_model::{Call, Entry, Handed, HeldMedium, Pair};
use report_reader::{ReportFault, read_report};
use run_model::{CodecTrace, Run};
use script_types::Script;
use std::alloc::Global;
use std::process::Abort;
use std::test::Fail;
use trace_text::write_report;
use wc_base::{MemSink, Who};
use wc_script::read_script;

const SCRIPT: &str =
    r#"{"codecs":[{"name":"d","kind":"audio-decoder"},{"name":"e","kind":"audio-encoder"}],
"callers":[{"name":"a","steps":[
{"do":"configure","on":"d","config":{"codec":"pcm-u8","sampleRate":8000,"numberOfChannels":1}},
{"do":"configure","on":"e","config":{"codec":"pcm-u8","sampleRate":8000,"numberOfChannels":1}},
{"do":"chunk","as":"c","init":{"type":"key","timestamp":0,"data":"8182"}},
{"do":"decode","on":"d","chunk":"c"},
{"do":"take","on":"d","as":"x"},
{"do":"transfer","of":"x","as":"y"},
{"do":"clone","of":"y","as":"z"},
{"do":"encode","on":"e","data":"x"},
{"do":"encode","on":"e","data":"z"},
{"do":"close-data","of":"z"},
{"do":"take","on":"e","as":"k"},
{"do":"decode","on":"d","chunk":"k"},
{"do":"copy","of":"k","size":2}]}],
"order":["a","a","a","a",{"start":"d"},{"done":"d","at":1},{"turn":"d"},{"turn":"d"},
{"start":"d"},{"done":"d","at":2},{"turn":"d"},{"turn":"d"},"a","a","a","a","a","a",
{"start":"e"},{"done":"e","at":3},{"turn":"e"},{"turn":"e"},{"start":"e"},{"done":"e","at":4},
{"turn":"e"},{"turn":"e"},"a","a","a"]}"#;

const REPORT: &str = "wcrun report 1
caller a
0 d.0 ok
1 e.0 ok
2 ok
3 d.1 ok
4 d.10 unit 0
5 ok
6 ok
7 e.1 TypeError
8 e.2 ok
9 ok
10 e.11 unit 0
11 d.11 ok
12 copied 2 8182
codec d audio-decoder 4
0 a.0 configure = ok
1 a.3 decode = ok
2 start 0.0
3 done 0.0 1 ran 0
4 turn unblock
5 turn process
6 start 0.1
7 done 0.1 2 ran 1
8 turn dequeue
  dequeue
9 turn output
  output audio u8 8000 1 2 0 250 8182
10 a.4 take = 0
11 a.11 decode = ok
codec e audio-encoder 4
0 a.1 configure = ok
1 a.7 encode = TypeError
2 a.8 encode = ok
3 start 0.0
4 done 0.0 3 ran 0
5 turn unblock
6 turn process
7 start 0.1
8 done 0.1 4 ran 1
9 turn dequeue
  dequeue
10 turn output
  output chunk key 0 250 8182
  config pcm-u8 8000 1 -
11 a.10 take = 0
pool
0 a.4 make 0 0
1 a.6 clone 0 1
2 e.2 clone 0 2
3 a.9 end 0 1 kept
4 e.8 end 0 2 kept
slots
0 d.2 acquire decode:pcm-u8 0
1 e.3 acquire encode:pcm-u8 0
held 1
end
";

// Two chunks of mu-law are decoded, encoded to FLAC in blocks of 16 frames, and decoded again; in the end all is closed.
const FLAC_SCRIPT: &str = r#"{"codecs":[{"name":"u","kind":"audio-decoder"},
{"name":"e","kind":"audio-encoder"},{"name":"f","kind":"audio-decoder"}],
"callers":[{"name":"a","steps":[
{"do":"configure","on":"u","config":{"codec":"ulaw","sampleRate":8000,"numberOfChannels":1}},
{"do":"configure","on":"e","config":{"codec":"flac","sampleRate":8000,"numberOfChannels":1,
"flac":{"blockSize":16}}},
{"do":"configure","on":"f","config":{"codec":"flac","sampleRate":8000,"numberOfChannels":1,
"description":"664c6143800000220010001000000000000001f400f00000000000000000000000000000000000000000"}},
{"do":"chunk","as":"c0","init":{"type":"key","timestamp":0,"data":"80808080808080808080"}},
{"do":"chunk","as":"c1","init":{"type":"key","timestamp":1250,"data":"80808080808080808080"}},
{"do":"decode","on":"u","chunk":"c0"},
{"do":"decode","on":"u","chunk":"c1"},
{"do":"flush","on":"u","as":"p"},
{"do":"await","promise":"p"},
{"do":"take","on":"u","as":"x0"},
{"do":"take","on":"u","as":"x1"},
{"do":"encode","on":"e","data":"x0"},
{"do":"encode","on":"e","data":"x1"},
{"do":"flush","on":"e","as":"q"},
{"do":"await","promise":"q"},
{"do":"take","on":"e","as":"k0"},
{"do":"take","on":"e","as":"k1"},
{"do":"decode","on":"f","chunk":"k0"},
{"do":"decode","on":"f","chunk":"k1"},
{"do":"flush","on":"f","as":"r"},
{"do":"await","promise":"r"},
{"do":"take","on":"f","as":"y0"},
{"do":"take","on":"f","as":"y1"},
{"do":"close-data","of":"x0"},
{"do":"close-data","of":"x1"},
{"do":"close-data","of":"y0"},
{"do":"close-data","of":"y1"}]}],
"order":["a","a","a","a","a","a","a","a",
{"start":"u"},{"done":"u","at":0},{"turn":"u"},{"turn":"u"},{"turn":"u"},
{"start":"u"},{"done":"u","at":0},{"turn":"u"},{"turn":"u"},{"turn":"u"},
{"start":"u"},{"done":"u","at":0},{"turn":"u"},{"turn":"u"},{"turn":"u"},
{"start":"u"},{"done":"u","at":0},{"turn":"u"},{"turn":"u"},{"turn":"u"},
"a","a","a","a","a","a",
{"start":"e"},{"done":"e","at":0},{"turn":"e"},{"turn":"e"},{"turn":"e"},
{"start":"e"},{"done":"e","at":0},{"turn":"e"},{"turn":"e"},{"turn":"e"},
{"start":"e"},{"done":"e","at":0},{"turn":"e"},{"turn":"e"},{"turn":"e"},
{"start":"e"},{"done":"e","at":0},{"turn":"e"},{"turn":"e"},{"turn":"e"},
"a","a","a","a","a","a",
{"start":"f"},{"done":"f","at":0},{"turn":"f"},{"turn":"f"},{"turn":"f"},
{"start":"f"},{"done":"f","at":0},{"turn":"f"},{"turn":"f"},{"turn":"f"},
{"start":"f"},{"done":"f","at":0},{"turn":"f"},{"turn":"f"},{"turn":"f"},
{"start":"f"},{"done":"f","at":0},{"turn":"f"},{"turn":"f"},{"turn":"f"},
"a","a","a","a","a","a","a"]}"#;

// The frames and their check sums are those of RFC 9639: constant blocks of 32124, which the byte 80 of mu-law is.
const FLAC_REPORT: &str = "wcrun report 1
caller a
0 u.0 ok
1 e.0 ok
2 f.0 ok
3 ok
4 ok
5 u.1 ok
6 u.2 ok
7 u.3 ok
8 u:18 resolved
9 u.18 unit 0
10 u.19 unit 1
11 e.1 ok
12 e.2 ok
13 e.3 ok
14 e:17 resolved
15 e.17 unit 0
16 e.18 unit 1
17 f.1 ok
18 f.2 ok
19 f.3 ok
20 f:18 resolved
21 f.18 unit 0
22 f.19 unit 1
23 ok
24 ok
25 ok
26 ok
codec u audio-decoder 4
0 a.0 configure = ok
1 a.5 decode = ok
2 a.6 decode = ok
3 a.7 flush = ok
4 start 0.0
5 done 0.0 0 ran 0
6 turn unblock
7 turn process
8 turn dequeue
  dequeue
9 start 0.1
10 done 0.1 0 ran 1
11 turn output
  output audio s16 8000 1 10 0 1250 7c7d7c7d7c7d7c7d7c7d7c7d7c7d7c7d7c7d7c7d
12 start 0.2
13 done 0.2 0 ran 1
14 turn output
  output audio s16 8000 1 10 1250 1250 7c7d7c7d7c7d7c7d7c7d7c7d7c7d7c7d7c7d7c7d
15 start 0.3
16 done 0.3 0 ran 0
17 turn flushed
  resolve 3
18 a.9 take = 0
19 a.10 take = 1
codec e audio-encoder 4
0 a.1 configure = ok
1 a.11 encode = ok
2 a.12 encode = ok
3 a.13 flush = ok
4 start 0.0
5 done 0.0 0 ran 0
6 turn unblock
7 turn process
8 turn dequeue
  dequeue
9 start 0.1
10 done 0.1 0 ran 0
11 start 0.2
12 done 0.2 0 ran 1
13 turn output
  output chunk key 0 2000 fff86408000fce007d7c018b
  config flac 8000 1 664c6143800000220010001000000000000001f400f00000000000000000000000000000000000000000
14 start 0.3
15 done 0.3 0 ran 1
16 turn flushed
  output chunk key 2000 500 fff864080103ff007d7cafa1
  resolve 3
17 a.15 take = 0
18 a.16 take = 1
codec f audio-decoder 4
0 a.2 configure = ok
1 a.17 decode = ok
2 a.18 decode = ok
3 a.19 flush = ok
4 start 0.0
5 done 0.0 0 ran 0
6 turn unblock
7 turn process
8 turn dequeue
  dequeue
9 start 0.1
10 done 0.1 0 ran 1
11 turn output
  output audio s16 8000 1 16 0 2000 7c7d7c7d7c7d7c7d7c7d7c7d7c7d7c7d7c7d7c7d7c7d7c7d7c7d7c7d7c7d7c7d
12 start 0.2
13 done 0.2 0 ran 1
14 turn output
  output audio s16 8000 1 4 2000 500 7c7d7c7d7c7d7c7d
15 start 0.3
16 done 0.3 0 ran 0
17 turn flushed
  resolve 3
18 a.21 take = 0
19 a.22 take = 1
pool
0 a.9 make 0 0
1 a.10 make 1 1
2 e.1 clone 0 2
3 e.2 clone 1 3
4 e.10 end 0 2 kept
5 e.12 end 1 3 kept
6 a.21 make 2 4
7 a.22 make 3 5
8 a.23 end 0 0 gone
9 a.24 end 1 1 gone
10 a.25 end 2 4 gone
11 a.26 end 3 5 gone
slots
0 u.4 acquire decode:ulaw 0
1 e.4 acquire encode:flac 0
2 f.4 acquire decode:flac 0
held 0
end
";

pub(crate) fn script_of(alloc: Global, text: &str) -> Result<Script, Fail> {
    match read_script(alloc, text.as_bytes()) {
        Ok(script) => Ok(script),
        Err(_) => Err(Fail::from("a script")),
    }
}

// That a run's report is this text.
fn is_report_of(alloc: Global, script: &Script, run: &Run, text: &[u8]) -> Result<bool, Fail> {
    let mut sink = MemSink::open(alloc, 8000, Vec::new(alloc))?;
    match write_report(alloc, script, run, &mut sink) {
        Ok(()) => Ok(sink.bytes() == text),
        Err(_) => Err(Fail::from("memory")),
    }
}

// The line at fault in a report of this script; none where it is read, and written again as it was.
fn line_at_fault(alloc: Global, script: &Script, text: &[u8]) -> Result<Option<u64>, Fail> {
    match read_report(alloc, script, &[], text) {
        Ok(run) => match is_report_of(alloc, script, &run, text)? {
            true => Ok(None),
            false => Err(Fail::from("another report")),
        },
        Err(ReportFault::BadLine { line }) => Ok(Some(line)),
        Err(ReportFault::NoMemory) => Err(Fail::from("memory")),
    }
}

// That line, where one text stands in the place of another.
fn fault_with(
    alloc: Global,
    script: &Script,
    report: &str,
    old: &str,
    new: &str,
) -> Result<Option<u64>, Fail> {
    let text = report.replace(alloc, old, new)?;
    line_at_fault(alloc, script, text.as_bytes())
}

/// In each row a text, another in its place, and the line at fault.
pub(crate) fn each_is_judged(
    rt: &impl Abort,
    alloc: Global,
    script: &Script,
    report: &str,
    rows: &[(&str, &str, Option<u64>)],
) -> Result<(), Fail> {
    for (old, new, line) in rows {
        assert_eq!(rt;
            fault_with(alloc, script, report, *old, *new)?,
            *line,
            "{new} for {old}"
        );
    }
    Ok(())
}

// What the entry with this number handed to its encoder, if it is an encode that was accepted.
fn handed_at(trace: &CodecTrace, number: usize) -> Option<(Who, &HeldMedium)> {
    match trace.entries.get(number) {
        Some(
            Entry::Call {
                who,
                call: Call::Encode(Handed::Cloned(medium)),
            },
        ) => Some((*who, medium)),
        _ => None,
    }
}

// That the second encode, and it alone, handed over what was decoded, with its own reference.
fn hands_the_second(encoder: &CodecTrace) -> bool {
    let pair = Pair {
        resource: 0,
        reference: 2,
    };
    match handed_at(encoder, 2) {
        Some((who, medium)) => {
            handed_at(encoder, 1).is_none()
                && who == Who { caller: 0, step: 8 }
                && medium.pair == pair
                && medium.bytes.as_slice() == [0x81u8, 0x82].as_slice()
        }
        None => false,
    }
}

// That of a run with a decoder and an encoder.
fn has_its_arguments(run: &Run) -> bool {
    match run.codecs.as_slice() {
        [_, encoder] => hands_the_second(encoder),
        _ => false,
    }
}

fn is_read_with_arguments(alloc: Global, script: &Script) -> bool {
    match read_report(alloc, script, &[], REPORT.as_bytes()) {
        Ok(run) => has_its_arguments(&run),
        Err(_) => false,
    }
}

#[test]
fn encodes_have_their_arguments(rt: HostRuntime) -> Result<(), Fail> {
    let alloc = rt.alloc();
    let script = script_of(alloc, SCRIPT)?;
    assert!(rt; is_read_with_arguments(alloc, &script));
    Ok(())
}

#[test]
fn encodes_by_what_they_are_given(rt: HostRuntime) -> Result<(), Fail> {
    let rows = [
        // the report as it is
        ("end\n", "end\n", None),
        // no clone by the encode's entry
        ("2 e.2 clone 0 2", "2 a.8 clone 0 2", Some(34)),
        // another exception than the codec's state has, and one that no encode has
        (
            "2 a.8 encode = ok",
            "2 a.8 encode = InvalidStateError",
            Some(34),
        ),
        ("2 a.8 encode = ok", "2 a.8 encode = DataError", Some(34)),
        // data that is detached is refused as that, and other data is not
        (
            "1 a.7 encode = TypeError",
            "1 a.7 encode = InvalidStateError",
            Some(33),
        ),
        ("1 a.7 encode = TypeError", "1 a.7 encode = ok", Some(33)),
        ("2 a.8 encode = ok", "2 a.8 encode = TypeError", Some(34)),
        // a transfer that was refused detaches nothing, and a clone that was refused gives nothing
        ("5 ok", "5 DataCloneError", Some(33)),
        ("6 ok", "6 InvalidStateError", Some(34)),
        // an output that was not shown is cloned and encoded
        ("4 d.10 unit 0", "4 d.10 unit 1", Some(34)),
        // no chunk was taken
        ("10 e.11 unit 0", "10 e:11 none", Some(30)),
        // a decode where the step encodes
        ("2 a.8 encode = ok", "2 a.8 decode = ok", Some(34)),
    ];
    let alloc = rt.alloc();
    let script = script_of(alloc, SCRIPT)?;
    each_is_judged(&rt, alloc, &script, REPORT, &rows)
}

#[test]
fn a_transcode_is_read_and_written_again(rt: HostRuntime) -> Result<(), Fail> {
    let rows = [
        // the report as it is
        ("end\n", "end\n", None),
        // an encode of data that no step took, and one with no clone
        ("9 u.18 unit 0", "9 u:18 none", Some(57)),
        ("3 e.2 clone 1 3", "3 e.3 clone 1 3", Some(58)),
        // a block more than the encoder gave, and none
        ("12 done 0.2 0 ran 1", "12 done 0.2 0 ran 2", Some(73)),
        ("15 done 0.3 0 ran 1", "15 done 0.3 0 ran 0", Some(76)),
        // a chunk that was not taken
        ("15 e.17 unit 0", "15 e:17 none", Some(82)),
    ];
    let alloc = rt.alloc();
    let script = script_of(alloc, FLAC_SCRIPT)?;
    each_is_judged(&rt, alloc, &script, FLAC_REPORT, &rows)
}

// Two frames are encoded, and each chunk is taken and decoded.
const FRAMES_SCRIPT: &str =
    r#"{"codecs":[{"name":"e","kind":"video-encoder"},{"name":"d","kind":"video-decoder"}],
"callers":[{"name":"a","steps":[
{"do":"frame","as":"f","init":{"format":"I420","codedWidth":2,"codedHeight":2,"timestamp":0,"data":"010203040506"}},
{"do":"frame","as":"g","init":{"format":"I420","codedWidth":2,"codedHeight":2,"timestamp":40000,"data":"020304050607"}},
{"do":"configure","on":"e","config":{"codec":"x-raw-i420","width":2,"height":2}},
{"do":"configure","on":"d","config":{"codec":"x-raw-i420","codedWidth":2,"codedHeight":2}},
{"do":"encode","on":"e","data":"f"},
{"do":"encode","on":"e","data":"g"},
{"do":"take","on":"e","as":"c"},
{"do":"decode","on":"d","chunk":"c"},
{"do":"take","on":"d","as":"w"},
{"do":"copy","of":"w","size":6},
{"do":"take","on":"e","as":"k"},
{"do":"decode","on":"d","chunk":"k"},
{"do":"take","on":"d","as":"x"},
{"do":"copy","of":"x","size":6}]}],
"order":["a","a","a","a","a","a",{"start":"e"},{"done":"e","at":1},{"turn":"e"},{"turn":"e"},
{"start":"e"},{"done":"e","at":2},{"turn":"e"},{"turn":"e"},{"start":"e"},{"done":"e","at":3},{"turn":"e"},"a","a",
{"start":"d"},{"done":"d","at":4},{"turn":"d"},{"turn":"d"},{"start":"d"},{"done":"d","at":5},{"turn":"d"},{"turn":"d"},
"a","a","a","a",{"start":"d"},{"done":"d","at":6},{"turn":"d"},{"turn":"d"},"a","a"]}"#;

const FRAMES_REPORT: &str = "wcrun report 1
caller a
0 ok
1 ok
2 e.0 ok
3 d.0 ok
4 e.1 ok
5 e.2 ok
6 e.14 unit 0
7 d.1 ok
8 d.10 unit 0
9 copied 6 0:2,4:1,5:1 010203040506
10 e.15 unit 1
11 d.11 ok
12 d.16 unit 1
13 copied 6 0:2,4:1,5:1 020304050607
codec e video-encoder 4
0 a.2 configure = ok
1 a.4 encode = ok
2 a.5 encode = ok
3 start 0.0
4 done 0.0 1 ran 0
5 turn unblock
6 turn process
7 start 0.1
8 done 0.1 2 ran 1
9 turn dequeue
  dequeue
10 turn output
  output chunk key 0 - 00010203040506
11 start 0.2
12 done 0.2 3 ran 1
13 turn output
  output chunk delta 40000 - 01010101010101
14 a.6 take = 0
15 a.10 take = 1
codec d video-decoder 4
0 a.3 configure = ok
1 a.7 decode = ok
2 start 0.0
3 done 0.0 4 ran 0
4 turn unblock
5 turn process
6 start 0.1
7 done 0.1 5 ran 1
8 turn dequeue
  dequeue
9 turn output
  output video I420 2 2 0 - 010203040506
10 a.8 take = 0
11 a.11 decode = ok
12 start 0.2
13 done 0.2 6 ran 1
14 turn dequeue
  dequeue
15 turn output
  output video I420 2 2 40000 - 020304050607
16 a.12 take = 1
pool
0 a.0 make 0 0
1 a.1 make 1 1
2 e.1 clone 0 2
3 e.2 clone 1 3
4 e.8 end 0 2 kept
5 e.12 end 1 3 kept
6 a.8 make 2 4
7 a.12 make 3 5
slots
0 e.3 acquire encode:x-raw-i420 0
1 d.2 acquire decode:x-raw-i420 0
held 4
end
";

#[test]
fn a_transcode_of_frames_is_read_and_written_again(rt: HostRuntime) -> Result<(), Fail> {
    let rows = [
        // the report as it is
        ("end\n", "end\n", None),
        // an encode of a frame that was not made, and one with no clone
        ("0 ok\n1 ok\n", "0 TypeError\n1 ok\n", Some(19)),
        ("2 e.1 clone 0 2", "2 e.3 clone 0 2", Some(19)),
        // a chunk more than its turn shows
        ("8 done 0.1 2 ran 1", "8 done 0.1 2 ran 2", Some(31)),
        // a chunk that carries a config
        (
            "  output chunk key 0 - 00010203040506\n",
            "  output chunk key 0 - 00010203040506\n  config x-raw-i420 1 1 -\n",
            Some(31),
        ),
        // a chunk that was not taken
        ("10 e.15 unit 1", "10 e:15 none", Some(51)),
    ];
    let alloc = rt.alloc();
    let script = script_of(alloc, FRAMES_SCRIPT)?;
    each_is_judged(&rt, alloc, &script, FRAMES_REPORT, &rows)
}
