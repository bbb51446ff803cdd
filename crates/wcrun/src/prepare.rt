// Reads a script and its chunk files, up to where it can be run.
ghost use Rattle.std.specs.Prelude.{◌≡◌, ◌≤◌, ◌⊎◌, IfOk, IfErr, OnOk, IfSome, IsSome, IsSomeAnd, Some, None, Ok, Err, length, ◌≢◌};
ghost use Rattle.run_model.specs.Missing.{missing_in};
ghost use Rattle.media_files.specs.Media.{FailedBy};
ghost use Rattle.wcrun.specs.Headline.{reading, ComesTo};
ghost use Rattle.wc_script.specs.Faults.{IsOfScript};
ghost use Rattle.wcrun.specs.Outcome.{playable_of, Becomes, Runs, name_of};
ghost use Rattle.wcrun.specs.Outcome as spec;
ghost use Rattle.wcrun.specs.Stops.{MayStop, MayStopFor};
ghost use Rattle.wcrun.specs.Words.{to_run};
ghost use Rattle.wcrun.specs.declared.command.Mode.TheVariants as modes;
ghost use Rattle.script_types.specs.Reading.{Gives};

use crate::command::Mode;
use crate::prepared::Prepared;
use media_files::read_media;
use script_types::{Counted, Fault, Place, Script, Stop, Wrong, copied, unread};
use std::alloc::Global;
use wc_base::{FileFault, Files, List};
use wc_chunk::Chunk;
use wc_replay::missing_chunk;
use wc_script::read_script;

// The most bytes of a script file.
const LIMIT: u64 = 16_777_216;

// A script that can be run so: one that is replayed has an order.
fn if_playable(mode: Mode, script: Script) -> Result<Script, Stop<Fault>>
    ensures ok { IfOk result (λ s. spec.if_playable mode script.order script ≡ Ok s) }
    ensures order { IfOk result (λ s. mode ≡ modes.InOrder → IsSome s.order) }
    ensures own { IfErr result (λ e. IsOfScript e) }
    ensures err { IfErr result (λ e. spec.if_playable mode script.order script ≡ Err e) }
{
    match mode {
        Mode::Threads(_) => Ok(script),
        Mode::InOrder => {
            if script.data().order.is_none() {
                return Err(Stop::Fault(Fault::At {
                    place: Place::Top,
                    wrong: Wrong::Shape,
                }));
            }
            Ok(script)
        }
    }
}

// The script that bytes spell, where they are no more than a script may have.
fn read_playable(alloc: Global, mode: Mode, bytes: &[u8]) -> Result<Script, Stop<Fault>>
    requires { length bytes.now ≤ 16777216 }
    ensures given { Gives result (playable_of mode bytes.now) }
    ensures order { IfOk result (λ s. mode ≡ modes.InOrder → IsSome s.order) }
    ensures own { IfErr result (λ e. IsOfScript e) }
{
    let script = read_script(alloc, bytes)?;
    if_playable(mode, script)
}

// The script of the file with this name, which can be run so.
#[tactic(auto, using(crate::proofs::Stopping::script_stops, crate::proofs::Stopping::script_is_long))]
fn read_named<F: Files>(
    alloc: Global,
    mode: Mode,
    name: &str,
    files: &mut F,
) -> Result<Script, Stop<Fault>>
    ensures kept { F.content files.new ≡ F.content files.old }
    ensures faults { F.faults files.old ≤ F.faults files.new }
    ensures bytes { F.bytes_read files.old ≤ F.bytes_read files.new }
    ensures ok { IfOk result
        (λ s. IfSome (F.content files.old)
        (λ held. IsSomeAnd (held name.now) (λ bytes. playable_of mode bytes ≡ Ok s))) }
    ensures order { IfOk result (λ s. mode ≡ modes.InOrder → IsSome s.order) }
    ensures stop { IfErr result (λ e. MayStop (reading (to_run mode name.now) (F.content files.old)
        (F.faults files.old) (F.faults files.new)
        (F.bytes_read files.old) (F.bytes_read files.new)
        (F.failed_names files.old) (F.failed_names files.new)) e) }
    ensures names { FailedBy (F.failed_names files.old) (F.failed_names files.new) result }
{
    match files.read_all(alloc, name, LIMIT) {
        Ok(bytes) => read_playable(alloc, mode, &bytes),
        Err(FileFault::Failed) => Err(unread(alloc, name)),
        Err(FileFault::TooLong) => Err(Stop::Fault(Fault::TooMany(Counted::Script))),
        Err(FileFault::NoMemory) => Err(Stop::NoMemory),
    }
}

// The name of a chunk file; an empty one where there is none of this number.
fn file_name(script: &Script, file: u32) -> &str
    ensures { result.now ≡ name_of script.now file }
{
    match script.files().get(file as usize) {
        Some(name) => name.as_str(),
        None => "",
    }
}

// The answer where a chunk file lacks the chunk of a step.
fn no_index(alloc: Global, script: &Script, file: u32, place: Place) -> Stop<Fault>
    ensures { result ≡ Stop.NoMemory
        ⊎ result ≡ Stop.Fault (Fault.NoIndex (name_of script.now file) place) }
{
    match copied(alloc, file_name(script, file)) {
        Ok(name) => Stop::Fault(Fault::NoIndex { name, place }),
        Err(_) => Stop::NoMemory,
    }
}

// The chunks of the script's chunk files, in which each chunk that a step takes is there.
#[tactic(auto, using(crate::proofs::Stopping::media_stops, crate::proofs::Stopping::chunk_files_read))]
fn read_chunk_files<F: Files>(
    alloc: Global,
    script: &Script,
    files: &mut F,
) -> Result<Vec<List<Chunk>>, Stop<Fault>>
    ensures kept { F.content files.new ≡ F.content files.old }
    ensures faults { F.faults files.old ≤ F.faults files.new }
    ensures bytes { F.bytes_read files.old ≤ F.bytes_read files.new }
    ensures ok { IfOk result
        (λ m. IfSome (F.content files.old)
        (λ held.
        Becomes held (Ok script.now) (Ok (Runs (record { script = script.now; media = m.items }))))) }
    ensures each { IfOk result (λ m. length m.items ≡ length script.now.chunk_files) }
    ensures there { IfOk result (λ m. missing_in script.now m.items ≡ None) }
    ensures stop { IfErr result (λ e. MayStopFor (F.content files.old) script.now
        (F.faults files.old) (F.faults files.new)
        (F.bytes_read files.old) (F.bytes_read files.new) e) }
    ensures names { FailedBy (F.failed_names files.old) (F.failed_names files.new) result }
{
    match read_media(alloc, script, files) {
        Err(stop) => Err(stop),
        Ok(media) => match missing_chunk(script, &media) {
            Some((file, place)) => Err(no_index(alloc, script, file, place)),
            None => Ok(media),
        },
    }
}

/// The script of the file with this name, and the chunks of its chunk files, where it can be run so.
pub fn prepare<F: Files>(
    alloc: Global,
    mode: Mode,
    name: &str,
    files: &mut F,
) -> Result<Prepared, Stop<Fault>>
    ensures kept { F.content files.new ≡ F.content files.old }
    ensures faults { F.faults files.old ≤ F.faults files.new }
    ensures bytes { F.bytes_read files.old ≤ F.bytes_read files.new }
    ensures names { OnOk result (F.failed_names files.new ≡ F.failed_names files.old) }
    ensures ok { IfOk result (λ p. ComesTo (reading (to_run mode name.now) (F.content files.old)
        (F.faults files.old) (F.faults files.new)
        (F.bytes_read files.old) (F.bytes_read files.new)
        (F.failed_names files.old) (F.failed_names files.new))
        (Ok (Runs (record { script = p.script; media = p.media.items })))) }
    ensures order { IfOk result (λ p. mode ≡ modes.InOrder → IsSome p.script.order) }
    ensures each { IfOk result (λ p. length p.media.items ≡ length p.script.chunk_files) }
    ensures there { IfOk result (λ p. missing_in p.script p.media.items ≡ None) }
    ensures stop { IfErr result (λ e. MayStop (reading (to_run mode name.now) (F.content files.old)
        (F.faults files.old) (F.faults files.new)
        (F.bytes_read files.old) (F.bytes_read files.new)
        (F.failed_names files.old) (F.failed_names files.new)) e) }
{
    let script = read_named(alloc, mode, name, files)?;
    match read_chunk_files(alloc, &script, files) {
        Ok(media) => Ok(Prepared { script, media }),
        Err(stop) => Err(stop),
    }
}
