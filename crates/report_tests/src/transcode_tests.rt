// The report of a transcode, read back as the run that was replayed: 50 chunks of mu-law are decoded, encoded as FLAC in two
// blocks, and decoded again.
ghost use Rattle.std.specs.Prelude.{◌≡◌, None, IsSome, length};
ghost use Rattle.run_model.specs.Missing.{missing_in};

use bytes::Bytes;
use coder_api::CoderBox;
use flac_decode::FlacDecoder;
use flac_encode::FlacEncoder;
use g711::Law;
use report_reader::read_report;
use run_model::Run;
use sample_coder::{Coding, SampleCoder};
use script_types::Script;
use std::alloc::Global;
use std::test::Fail;
use trace_text::write_report;
use wc_base::{List, MemSink};
use wc_chunk::Chunk;
use wc_config::Role;
use wc_replay::{missing_chunk, replay};
use wc_script::read_script;

// A piece of a text, so many times; each `#` in it stands for how many times it stood before.
type Piece = (&'static str, u64);

const SCRIPT: [Piece; 24] = [
    (
        r#"{"codecs":[{"name":"u","kind":"audio-decoder"},{"name":"e","kind":"audio-encoder"},
{"name":"f","kind":"audio-decoder"}],"callers":[{"name":"a","steps":[
{"do":"configure","on":"u","config":{"codec":"ulaw","sampleRate":8000,"numberOfChannels":1}},
{"do":"configure","on":"e","config":{"codec":"flac","sampleRate":8000,"numberOfChannels":1}},
{"do":"configure","on":"f","config":{"codec":"flac","sampleRate":8000,"numberOfChannels":1,
"description":"664c6143800000221000100000000000000001f400f000000000"#,
        1,
    ),
    ("0", 32),
    (r#""}}"#, 1),
    (r#",{"do":"chunk","as":"c#","file":"f","index":#}"#, 50),
    (r#",{"do":"decode","on":"u","chunk":"c#"}"#, 50),
    (
        r#",{"do":"flush","on":"u","as":"p"},{"do":"await","promise":"p"}"#,
        1,
    ),
    (r#",{"do":"take","on":"u","as":"x#"}"#, 50),
    (r#",{"do":"encode","on":"e","data":"x#"}"#, 50),
    (
        r#",{"do":"flush","on":"e","as":"q"},{"do":"await","promise":"q"}"#,
        1,
    ),
    (r#",{"do":"take","on":"e","as":"k#"}"#, 2),
    (r#",{"do":"decode","on":"f","chunk":"k#"}"#, 2),
    (
        r#",{"do":"flush","on":"f","as":"r"},{"do":"await","promise":"r"}"#,
        1,
    ),
    (r#",{"do":"take","on":"f","as":"y#"}"#, 2),
    (r#",{"do":"close-data","of":"x#"}"#, 50),
    (r#",{"do":"close-data","of":"y#"}"#, 2),
    (r#"]}],"order":["a""#, 1),
    (r#","a""#, 103),
    (
        r#",{"start":"u"},{"done":"u","at":0},{"turn":"u"},{"turn":"u"},{"turn":"u"}"#,
        60,
    ),
    (r#","a""#, 102),
    (
        r#",{"start":"e"},{"done":"e","at":0},{"turn":"e"},{"turn":"e"},{"turn":"e"}"#,
        60,
    ),
    (r#","a""#, 6),
    (
        r#",{"start":"f"},{"done":"f","at":0},{"turn":"f"},{"turn":"f"},{"turn":"f"}"#,
        60,
    ),
    (r#","a""#, 55),
    ("]}", 1),
];

fn text_of(alloc: Global, pieces: &[Piece]) -> Result<String, Fail> {
    let mut text = String::new(alloc);
    for (piece, times) in pieces {
        for time in 0..*times {
            let number = format!(in alloc; "{time}")?;
            for part in piece.split_inclusive('#') {
                match part.strip_suffix('#') {
                    Some(front) => {
                        text.push_str(front)?;
                        text.push_str(number.as_str())?;
                    }
                    None => text.push_str(part)?,
                }
            }
        }
    }
    Ok(text)
}

fn script_of(alloc: Global) -> Result<Script, Fail> {
    let text = text_of(alloc, &SCRIPT)?;
    match read_script(alloc, text.as_bytes()) {
        Ok(script) => Ok(script),
        Err(_) => Err(Fail::from("a script")),
    }
}

// Key chunks of the bytes 0 to 159, each 20000 microseconds after the one before.
fn chunks(alloc: Global) -> Result<List<Chunk>, Fail> {
    let mut chunks = Vec::new(alloc);
    for n in 0..50_i64 {
        let mut bytes = Vec::new(alloc);
        for byte in 0..160_u8 {
            bytes.push(byte)?;
        }
        chunks.push(Chunk {
            key: true,
            timestamp: n.saturating_mul(20000),
            duration: None,
            bytes: Bytes::from_vec(bytes)?,
        })?;
    }
    Ok(List::of(chunks))
}

// The script has an order, and `media` the chunks of its files, with each chunk that a step takes.
fn played(alloc: Global, script: &Script, media: &[List<Chunk>]) -> Result<Run, Fail>
    requires order { IsSome script.now.order }
    requires files { length media.now ≡ length script.now.chunk_files }
    requires chunks { missing_in script.now media.now ≡ None }
{
    let ulaw = SampleCoder::new(Role::Decode, Coding::G711(Law::Ulaw));
    let mut coders = Vec::new(alloc);
    coders.push(CoderBox::of(Box::new(alloc, ulaw)?))?;
    coders.push(CoderBox::of(Box::new(alloc, FlacEncoder::new())?))?;
    coders.push(CoderBox::of(Box::new(alloc, FlacDecoder::new(alloc))?))?;
    match replay(alloc, script, media, coders) {
        Ok(run) => Ok(run),
        Err(_) => Err(Fail::from("memory")),
    }
}

fn replayed(alloc: Global, script: &Script, media: &[List<Chunk>]) -> Result<Run, Fail> {
    if script.data().order.is_none() {
        return Err(Fail::from("an order"));
    }
    if media.len() != script.data().chunk_files.len() {
        return Err(Fail::from("a chunk file"));
    }
    match missing_chunk(script, media) {
        None => played(alloc, script, media),
        Some(_) => Err(Fail::from("a chunk")),
    }
}

fn report_of(alloc: Global, script: &Script, run: &Run) -> Result<Vec<u8>, Fail> {
    let mut sink = MemSink::open(alloc, 131_072, Vec::new(alloc))?;
    match write_report(alloc, script, run, &mut sink) {
        Ok(()) => Ok(Vec::from_slice(alloc, sink.bytes())?),
        Err(_) => Err(Fail::from("memory")),
    }
}

// Whether the report of a run is read as a run with the same report.
fn is_read_back(
    alloc: Global,
    script: &Script,
    media: &[List<Chunk>],
    run: &Run,
) -> Result<bool, Fail> {
    let report = report_of(alloc, script, run)?;
    match read_report(alloc, script, media, report.as_slice()) {
        Ok(read) => Ok(report_of(alloc, script, &read)?.as_slice() == report.as_slice()),
        Err(_) => Ok(false),
    }
}

#[test]
fn a_whole_transcode_is_read_back(rt: HostRuntime) -> Result<(), Fail> {
    let alloc = rt.alloc();
    let script = script_of(alloc)?;
    let media = vec![in alloc; chunks(alloc)?]?;
    let run = replayed(alloc, &script, media.as_slice())?;
    assert!(rt; run.held == 0 && run.pool.as_slice().len() == 204);
    assert!(rt; is_read_back(alloc, &script, media.as_slice(), &run)?);
    Ok(())
}
