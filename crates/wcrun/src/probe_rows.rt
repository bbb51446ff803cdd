// Files of sound, told by `probe` and taken by scripts.
use crate::tests::{call, call_on};
use std::alloc::Global;
use std::sync::Wait;
use std::test::Fail;
use std::thread::Threads;
use wc_base::MemSink;

// A WAV file of two frames of 16 bits.
const WAV: &[u8] =
    b"RIFF\x28\x00\x00\x00WAVEfmt \x10\x00\x00\x00\x01\x00\x01\x00\x40\x1f\x00\x00\x80\x3e\x00\x00\x02\x00\x10\x00data\x04\x00\x00\x00\x01\x00\x02\x00";

// The same with a tag that names no codec.
const OTHER_TAG: &[u8] =
    b"RIFF\x28\x00\x00\x00WAVEfmt \x10\x00\x00\x00\x03\x00\x01\x00\x40\x1f\x00\x00\x80\x3e\x00\x00\x02\x00\x10\x00data\x04\x00\x00\x00\x01\x00\x02\x00";

// The description of a FLAC stream with two frames: one sample a channel, and two; and behind them a byte.
const FLAC: &[u8] =
    b"fLaC\x80\x00\x00\x22\x10\x00\x10\x00\x00\x00\x0f\x00\x00\x0f\x0a\xc4\x42\xf0\x00\x00\x00\x01\x3e\x84\xb4\x18\x07\xdc\x69\x03\x07\x58\x6a\x3d\xad\x1a\x2e\x0f\xff\xf8\x69\x18\x00\x00\xbf\x03\x58\xfd\x03\x12\x8b\xaa\x9a\xff\xf8\x60\xa8\x00\x01\xf4\x00\x00\x01\x00\x00\x01\x80\x58\x24\x00";

const FLAC_LINE: &str =
    "flac flac 44100 2 chunks 2 frames 3 664c6143800000221000100000000f00000f0ac442f0000000013e84b41807dc690307586a3dad1a2e0f\n";

// The file of one empty chunk.
const EMPTY: &[u8] =
    b"WCC1\x00\x00\x00\x00\x00\x00\x00\x00\x00\x00\x00\x00\x00\x00\x00\x00\x00\x00\x00\x00\x00\x00";

#[test]
fn each_file_is_told(rt: HostRuntime) -> Result<(), Fail> {
    let alloc = rt.alloc();
    let rows: [(&[u8], u8, &str); 8] = [
        (WAV, 0, "wav pcm-s16 8000 1 chunks 1 frames 2\n"),
        (&FLAC[..73], 0, FLAC_LINE),
        (EMPTY, 0, "chunks 1\n"),
        (FLAC, 3, "script: chunks s.json bad flac at 73\n"),
        (&FLAC[..41], 3, "script: chunks s.json bad flac at 0\n"),
        (&WAV[..36], 3, "script: chunks s.json bad wav at 36\n"),
        (OTHER_TAG, 3, "script: chunks s.json wav tag 3 bits 16\n"),
        (b"WCC2", 3, "script: chunks s.json bad mark at 3\n"),
    ];
    for (bytes, status, text) in rows {
        let file = bytes.to_vec(alloc)?;
        let words = ["probe", "s.json"];
        let (answer, sink) = call(&rt, file, &words, Vec::new(alloc), Vec::new(alloc))?;
        assert_eq!(rt; answer, status, "at {text}");
        assert_eq!(rt; sink.bytes(), text.as_bytes(), "at {text}");
    }
    Ok(())
}

// The status and the text of a probe whose read or write of this number fails.
fn failing(
    rt: &(impl Threads + Wait + Sync + Alloc<A = Global>),
    reads: Vec<u64>,
    writes: Vec<u64>,
) -> Result<(u8, MemSink), Fail> {
    let alloc = rt.alloc();
    call(rt, WAV.to_vec(alloc)?, &["probe", "s.json"], reads, writes)
}

#[test]
fn a_probe_that_fails(rt: HostRuntime) -> Result<(), Fail> {
    let alloc = rt.alloc();
    let (answer, sink) = failing(&rt, vec![in alloc; 0]?, Vec::new(alloc))?;
    assert_eq!(rt; answer, 4);
    assert_eq!(rt; sink.bytes(), b"read fault: s.json\n".as_slice());
    let (answer, sink) = failing(&rt, Vec::new(alloc), vec![in alloc; 0]?)?;
    assert_eq!(rt; answer, 5);
    assert!(rt; b"wav pcm-s16 8000 1 chunks 1 frames 2\n".starts_with(sink.bytes()));
    Ok(())
}

// One caller takes the second chunk of the file `f`.
const TAKES: &str =
    "{\"codecs\":[],\"callers\":[{\"name\":\"a\",\"steps\":[{\"do\":\"chunk\",\"as\":\"c\",\"file\":\"f\",\"index\":1},{\"do\":\"copy\",\"of\":\"c\",\"size\":16}]}],\"order\":[\"a\",\"a\"]}";

#[test]
fn scripts_take_chunks_of_sound(rt: HostRuntime) -> Result<(), Fail> {
    let alloc = rt.alloc();
    let rows: [(&[u8], u8, &str); 3] = [
        (
            &FLAC[..73],
            0,
            "wcrun report 1\ncaller a\n0 ok\n1 copied 16 fff860a80001f4000001000001805824\npool\nslots\nheld 0\nend\n",
        ),
        (WAV, 3, "script: chunks f no index at step 0 0\n"),
        (FLAC, 3, "script: chunks f bad flac at 73\n"),
    ];
    for (bytes, status, text) in rows {
        let script = (
            String::from_str(alloc, "s.json")?,
            TAKES.as_bytes().to_vec(alloc)?,
        );
        let f = (String::from_str(alloc, "f")?, bytes.to_vec(alloc)?);
        let (answer, sink) = call_on(
            &rt,
            vec![in alloc; script, f]?,
            &["replay", "s.json"],
            Vec::new(alloc),
            Vec::new(alloc),
        )?;
        assert_eq!(rt; sink.bytes(), text.as_bytes(), "at {text}");
        assert_eq!(rt; answer, status, "at {text}");
    }
    Ok(())
}
