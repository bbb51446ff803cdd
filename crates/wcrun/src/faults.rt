// Scripts and chunk files with a fault, and what is said of each.
use crate::tests::{call_on, each_ends};
use std::alloc::Global;
use std::sync::Wait;
use std::test::Fail;
use std::thread::Threads;
use wc_base::MemSink;

// The status and the text for a script, with a chunk file `f`.
fn told(
    rt: &(impl Threads + Wait + Sync + Alloc<A = Global>),
    script: &str,
    f: &[u8],
    reads: Vec<u64>,
) -> Result<(u8, MemSink), Fail> {
    let alloc = rt.alloc();
    let script = (
        String::from_str(alloc, "s.json")?,
        Vec::from_slice(alloc, script.as_bytes())?,
    );
    let f = (String::from_str(alloc, "f")?, Vec::from_slice(alloc, f)?);
    call_on(
        rt,
        vec![in alloc; script, f]?,
        &["replay", "s.json"],
        reads,
        Vec::new(alloc),
    )
}

// One caller takes the first chunk of the file `f`.
const TAKES: &str =
    "{\"codecs\":[],\"callers\":[{\"name\":\"a\",\"steps\":[{\"do\":\"chunk\",\"as\":\"c\",\"file\":\"f\",\"index\":0}]}],\"order\":[\"a\"]}";

const TAKES_REPORT: &str = "wcrun report 1\ncaller a\n0 ok\npool\nslots\nheld 0\nend\n";

// The file of one empty chunk.
const EMPTY: &[u8] =
    b"WCC1\x00\x00\x00\x00\x00\x00\x00\x00\x00\x00\x00\x00\x00\x00\x00\x00\x00\x00\x00\x00\x00\x00";

// What is said of that file, cut to so many bytes.
fn cut_text(n: usize) -> &'static str {
    match n {
        0 => "script: chunks f bad mark at 0\n",
        1 => "script: chunks f bad mark at 1\n",
        2 => "script: chunks f bad mark at 2\n",
        3 => "script: chunks f bad mark at 3\n",
        4 => "script: chunks f no index at step 0 0\n",
        5..=12 => "script: chunks f short at 5\n",
        13 => "script: chunks f short at 13\n",
        14..=21 => "script: chunks f short at 14\n",
        22..=25 => "script: chunks f short at 22\n",
        _ => TAKES_REPORT,
    }
}

#[test]
fn each_cut_of_a_chunk_file_is_named(rt: HostRuntime) -> Result<(), Fail> {
    let alloc = rt.alloc();
    for n in 0..27_usize {
        let (status, sink) = told(&rt, TAKES, &EMPTY[..n], Vec::new(alloc))?;
        assert_eq!(rt; status, if n < 26 { 3 } else { 0 }, "at {n}");
        assert_eq!(rt; sink.bytes(), cut_text(n).as_bytes(), "at {n}");
    }
    Ok(())
}

#[test]
fn other_faults_of_a_chunk_file(rt: HostRuntime) -> Result<(), Fail> {
    let alloc = rt.alloc();
    let (status, sink) = told(&rt, TAKES, b"WCC1\x02", Vec::new(alloc))?;
    assert_eq!(rt; status, 3);
    assert_eq!(rt;
        sink.bytes(),
        b"script: chunks f bad kind at 4\n".as_slice()
    );
    let (status, sink) = told(&rt, TAKES, EMPTY, vec![in alloc; 1]?)?;
    assert_eq!(rt; status, 4);
    assert_eq!(rt; sink.bytes(), b"read fault: f\n".as_slice());
    let mut long = Vec::from_slice(alloc, &EMPTY[..22])?;
    for byte in [1, 0, 0, 1] {
        long.push(byte)?;
    }
    long.resize(26 + 16_777_217, 0)?;
    let (status, sink) = told(&rt, TAKES, &long, Vec::new(alloc))?;
    assert_eq!(rt; status, 7);
    assert_eq!(rt; sink.bytes(), b"limit: chunk 16777217\n".as_slice());
    Ok(())
}

const CHUNK: &str =
    "{\"do\":\"chunk\",\"as\":\"c\",\"init\":{\"type\":\"key\",\"timestamp\":0,\"data\":\"0100\"}}";

// A script of one caller with these steps, and its order, as many times the caller as is said.
fn with_steps(alloc: Global, steps: &[&str], turns: usize) -> Result<String, Fail> {
    let mut script = String::from_str(
        alloc,
        "{\"codecs\":[{\"name\":\"d\",\"kind\":\"audio-decoder\"}],\"callers\":[{\"name\":\"a\",\"steps\":[",
    )?;
    for (j, step) in steps.iter().enumerate() {
        if j > 0 {
            script.push(',')?;
        }
        script.push_str(step)?;
    }
    script.push_str("]}],\"order\":[")?;
    for n in 0..turns {
        script.push_str(if n == 0 { "\"a\"" } else { ",\"a\"" })?;
    }
    script.push_str("]}")?;
    Ok(script)
}

const DECODE: &str = "{\"do\":\"decode\",\"on\":\"d\",\"chunk\":\"x\"}";

const TAKE: &str = "{\"do\":\"take\",\"on\":\"d\",\"as\":\"x\"}";

const POLL: &str = "{\"do\":\"poll\",\"promise\":\"c\"}";

const UNKNOWN: &str = "{\"do\":\"x\"}";

// The status and the text for two steps, or for the first alone.
fn told_of(
    rt: &(impl Threads + Wait + Sync + Alloc<A = Global>),
    first: &str,
    second: Option<&str>,
    turns: usize,
) -> Result<(u8, MemSink), Fail> {
    let alloc = rt.alloc();
    let script = match second {
        Some(second) => with_steps(alloc, &[first, second], turns)?,
        None => with_steps(alloc, &[first], turns)?,
    };
    told(rt, script.as_str(), EMPTY, Vec::new(alloc))
}

#[test]
fn each_fault_of_a_script_is_named(rt: HostRuntime) -> Result<(), Fail> {
    let rows: [(&str, Option<&str>, usize, &str); 6] = [
        (CHUNK, Some(CHUNK), 2, "script: twice at step 0 1\n"),
        (DECODE, None, 1, "script: unknown name at step 0 0\n"),
        (CHUNK, None, 2, "script: shape at top\n"),
        (CHUNK, Some(UNKNOWN), 2, "script: shape at step 0 1\n"),
        (TAKE, Some(DECODE), 2, "script: shape at step 0 1\n"),
        (POLL, None, 1, "script: unknown name at step 0 0\n"),
    ];
    for (first, second, turns, text) in rows {
        let (status, sink) = told_of(&rt, first, second, turns)?;
        assert_eq!(rt; status, 3, "at {text}");
        assert_eq!(rt; sink.bytes(), text.as_bytes(), "at {text}");
    }
    Ok(())
}

#[test]
fn faults_of_the_whole_are_named(rt: HostRuntime) -> Result<(), Fail> {
    let rows = [
        (
            "{\"codecs\":[],\"callers\":[]}",
            3,
            "script: shape at top\n",
        ),
        (
            "{\"codecs\":[{\"name\":\"e\",\"kind\":\"audio-encoder\"}],\"callers\":[]}",
            3,
            "script: shape at top\n",
        ),
        (
            "{\"codecs\":[],\"callers\":[{\"name\":\"a\",\"steps\":[]},{\"name\":\"a\",\"steps\":[]}],\"order\":[]}",
            3,
            "script: twice at caller 1\n",
        ),
        (
            "{\"codecs\":[],\"callers\":[],\"order\":[{\"turn\":\"d\"}]}",
            3,
            "script: unknown name at order 0\n",
        ),
        (
            "{\"codecs\":[],\"callers\":[0,0,0,0,0,0,0,0,0,0,0,0,0,0,0,0,0],\"order\":[]}",
            7,
            "limit: callers 17\n",
        ),
    ];
    each_ends(&rt, &rows)
}
