// The chunk files of a script that mentions two, with ample memory.
ghost use Rattle.std.specs.Prelude.{◌≡◌, ◌≤◌, IfOk};
ghost use Rattle.script_types.specs.declared.steps.Step.TheVariants as step;
ghost use Rattle.script_types.specs.declared.steps.ChunkSource.TheVariants as source;
ghost use Rattle.script_tests.specs.MediaRows.{taker, two_names};

use chunk_files::{ChunkFault, DemuxFault, MediaFault};
use media_files::read_media;
use script_types::{CallerItem, ChunkSource, Counted, Fault, Script, ScriptData, Step, Stop};
use std::alloc::Global;
use std::test::Fail;
use wc_base::{List, MemFiles, Text};

fn text(alloc: Global, text: &str) -> Result<Text, Fail>
    ensures { IfOk result (λ t. t ≡ text.now) }
{
    Ok(Text::of(String::from_str(alloc, text)?))
}

fn step(alloc: Global, bind: &str, file: u32) -> Result<Step, Fail>
    ensures { IfOk result (λ s. s ≡ step.Chunk bind.now (source.File file 0)) }
{
    Ok(Step::Chunk {
        bind: text(alloc, bind)?,
        source: ChunkSource::File { file, index: 0 },
    })
}

// A caller that takes a chunk of each of the files x and y.
fn caller(alloc: Global) -> Result<CallerItem, Fail>
    ensures { IfOk result (λ c. c ≡ taker) }
{
    let first = step(alloc, "c", 0)?;
    let second = step(alloc, "e", 1)?;
    let steps = List::of(vec![in alloc; first, second]?);
    Ok(CallerItem {
        name: text(alloc, "a")?,
        steps,
    })
}

fn names(alloc: Global) -> Result<List<Text>, Fail>
    ensures { IfOk result (λ names. names ≡ two_names) }
{
    let x = text(alloc, "x")?;
    let y = text(alloc, "y")?;
    Ok(List::of(vec![in alloc; x, y]?))
}

// The script of one such caller, with so many bytes of inline data.
fn script(alloc: Global, inline: u64) -> Result<Script, Fail>
    requires { inline ≤ 268435456 }
{
    let chunk_files = names(alloc)?;
    let caller = caller(alloc)?;
    Ok(Script::of(ScriptData {
        codecs: List::empty(alloc),
        callers: List::of(vec![in alloc; caller]?),
        order: None,
        chunk_files,
        ports: List::empty(alloc),
        inline,
    }))
}

// The file of one chunk of two bytes.
const ONE: &[u8] =
    b"WCC1\x00\x00\x00\x00\x00\x00\x00\x00\x07\x00\x00\x00\x00\x00\x00\x00\x00\x00\x00\x00\x00\x02\x01\x02";

fn files(alloc: Global, y: &[u8], reads: Vec<u64>) -> Result<MemFiles, Fail> {
    let x = (String::from_str(alloc, "x")?, ONE.to_vec(alloc)?);
    let y = (String::from_str(alloc, "y")?, y.to_vec(alloc)?);
    Ok(MemFiles::open(alloc, vec![in alloc; x, y]?, reads))
}

fn fault_of(
    alloc: Global,
    inline: u64,
    y: &[u8],
    reads: Vec<u64>,
) -> Result<Option<Stop<Fault>>, Fail>
    requires { inline ≤ 268435456 }
{
    let script = script(alloc, inline)?;
    let mut files = files(alloc, y, reads)?;
    match read_media(alloc, &script, &mut files) {
        Ok(_) => Ok(None),
        Err(fault) => Ok(Some(fault)),
    }
}

#[test]
fn two_files_are_read(rt: HostRuntime) -> Result<(), Fail> {
    let alloc = rt.alloc();
    let script = script(alloc, 0)?;
    let mut files = files(alloc, b"WCC1", Vec::new(alloc))?;
    let media = read_media(alloc, &script, &mut files)?;
    assert_eq!(rt; media.len(), 2);
    assert_eq!(rt; media[0].len(), 1);
    assert_eq!(rt; media[1].len(), 0);
    let chunk = &media[0].as_slice()[0];
    assert_eq!(rt; chunk.timestamp, 7);
    assert_eq!(rt; chunk.bytes.as_slice(), b"\x01\x02".as_slice());
    Ok(())
}

// The WAV file of two frames of 16 bits.
const WAV: &[u8] =
    b"RIFF\x28\x00\x00\x00WAVEfmt \x10\x00\x00\x00\x01\x00\x01\x00\x40\x1f\x00\x00\x80\x3e\x00\x00\x02\x00\x10\x00data\x04\x00\x00\x00\x01\x00\x02\x00";

#[test]
fn a_wav_file_is_read(rt: HostRuntime) -> Result<(), Fail> {
    let alloc = rt.alloc();
    let script = script(alloc, 0)?;
    let mut files = files(alloc, WAV, Vec::new(alloc))?;
    let media = read_media(alloc, &script, &mut files)?;
    assert_eq!(rt; media.len(), 2);
    let chunks = media[1].as_slice();
    assert_eq!(rt; chunks.len(), 1);
    let chunk = &chunks[0];
    assert_eq!(rt; (chunk.timestamp, chunk.duration), (0, Some(250)));
    assert_eq!(rt; chunk.bytes.as_slice(), b"\x01\x00\x02\x00".as_slice());
    Ok(())
}

// What is told of the bytes of the file y, which are no media file.
fn fault_of_y(alloc: Global, fault: MediaFault) -> Result<Option<Stop<Fault>>, Fail> {
    let name = text(alloc, "y")?;
    Ok(Some(Stop::Fault(Fault::Chunks { name, fault })))
}

#[test]
fn each_fault_names_its_file(rt: HostRuntime) -> Result<(), Fail> {
    let alloc = rt.alloc();
    let rows = [
        (
            b"WCX1".as_slice(),
            MediaFault::Chunks(ChunkFault::BadMark { at: 2 }),
        ),
        (
            b"WCC1\x02".as_slice(),
            MediaFault::Chunks(ChunkFault::BadKind { at: 4, found: 2 }),
        ),
        (
            b"WCC1\x00\x00".as_slice(),
            MediaFault::Chunks(ChunkFault::Short { at: 5 }),
        ),
        (
            b"RIFF".as_slice(),
            MediaFault::Sound(DemuxFault::BadWav { at: 8 }),
        ),
        (
            b"fLaC".as_slice(),
            MediaFault::Sound(DemuxFault::BadFlac { at: 0 }),
        ),
    ];
    for (bytes, fault) in rows {
        let told = fault_of(alloc, 0, bytes, Vec::new(alloc))?;
        assert_eq!(rt; told, fault_of_y(alloc, fault)?);
    }
    let name = text(alloc, "y")?;
    assert_eq!(rt;
        fault_of(alloc, 0, ONE, vec![in alloc; 1]?)?,
        Some(Stop::Fault(Fault::Unread { name }))
    );
    Ok(())
}

#[test]
fn media_have_a_limit(rt: HostRuntime) -> Result<(), Fail> {
    let alloc = rt.alloc();
    assert_eq!(rt; fault_of(alloc, 268_435_452, ONE, Vec::new(alloc))?, None);
    assert_eq!(rt;
        fault_of(alloc, 268_435_453, ONE, Vec::new(alloc))?,
        Some(Stop::Fault(Fault::TooMany(Counted::Media)))
    );
    Ok(())
}
