// A replay of a script whose chunk is the second one of a file.
ghost use Rattle.std.specs.Prelude.{◌≡◌, [], ◌∷◌, IfOk};
ghost use Rattle.row_tests.specs.CodecRows.{pcm, chunk};
ghost use Rattle.script_types.specs.declared.steps.ChunkSource.TheVariants as source;
ghost use Rattle.script_types.specs.declared.script.OrderItem.TheVariants as item;
ghost use Rattle.row_tests.specs.ReportRows.{order, other, steps_with, file_script, two_chunks};

use bytes::Bytes;
use codec_model::{Call, Entry};
use coder_api::CoderBox;
use run_model::StepResult;
use script_types::{
    CallerItem, ChunkSource, CodecItem, Kind, OrderItem, Script, ScriptData, Step, Variable,
    VariableKind,
};
use std::alloc::Global;
use std::test::Fail;
use wc_base::{List, Text, Who};
use wc_chunk::Chunk;
use wc_config::{AudioDecoderConfig, Config};
use wc_replay::replay;

fn text(alloc: Global, bytes: &str) -> Result<Text, Fail>
    ensures { IfOk result (λ t. t ≡ bytes.now) }
{
    Ok(Text::of(String::from_str(alloc, bytes)?))
}

fn config(alloc: Global) -> Result<Config, Fail>
    ensures { IfOk result (λ c. c ≡ pcm) }
{
    Ok(Config::AudioDecoder(AudioDecoderConfig {
        codec: text(alloc, "pcm-s16")?,
        rate: 8000,
        channels: 1,
        description: None,
    }))
}

fn variable(alloc: Global, name: &str, step: u32, kind: VariableKind) -> Result<Variable, Fail>
    ensures { IfOk result (λ v. v ≡ record { name = name.now; step = step; kind = kind }) }
{
    Ok(Variable {
        name: text(alloc, name)?,
        step,
        kind,
    })
}

fn steps(alloc: Global) -> Result<Vec<Step>, Fail>
    ensures { IfOk result (λ steps. steps.items ≡ steps_with (source.File 0 1)) }
{
    let configure = Step::Configure {
        on: 0,
        config: config(alloc)?,
    };
    let chunk = Step::Chunk {
        bind: text(alloc, "c")?,
        source: ChunkSource::File { file: 0, index: 1 },
    };
    let decode = Step::Decode {
        on: 0,
        chunk: variable(alloc, "c", 1, VariableKind::Chunk)?,
    };
    let flush = Step::Flush {
        on: 0,
        bind: text(alloc, "p")?,
    };
    let wait = Step::Await {
        promise: variable(alloc, "p", 3, VariableKind::Promise)?,
    };
    Ok(vec![in alloc; configure, chunk, decode, flush, wait]?)
}

fn done(at: u64) -> OrderItem
    ensures { result ≡ item.Done 0 at }
{
    OrderItem::Done { codec: 0, at }
}

fn order(alloc: Global) -> Result<Vec<OrderItem>, Fail>
    ensures { IfOk result (λ items. items.items ≡ order) }
{
    let caller = OrderItem::Caller(0);
    let start = OrderItem::Start(0);
    let turn = OrderItem::Turn(0);
    Ok(vec![in alloc;
        caller,
        caller,
        caller,
        caller,
        start,
        done(1),
        turn,
        turn,
        start,
        done(2),
        turn,
        turn,
        start,
        done(3),
        turn,
        caller,
    ]?)
}

fn script(alloc: Global) -> Result<Script, Fail>
    ensures { IfOk result (λ s. s ≡ file_script) }
{
    let codec = CodecItem {
        name: text(alloc, "d")?,
        kind: Kind::AudioDecoder,
        saturation: 4,
    };
    let caller = CallerItem {
        name: text(alloc, "a")?,
        steps: List::of(steps(alloc)?),
    };
    let file = text(alloc, "a.chunks")?;
    Ok(Script::of(ScriptData {
        codecs: List::of(vec![in alloc; codec]?),
        callers: List::of(vec![in alloc; caller]?),
        order: Some(List::of(order(alloc)?)),
        chunk_files: List::of(vec![in alloc; file]?),
        ports: List::empty(alloc),
        inline: 0,
    }))
}

fn other(alloc: Global) -> Result<Chunk, Fail>
    ensures { IfOk result (λ c. c ≡ other) }
{
    Ok(Chunk {
        key: false,
        timestamp: 250,
        duration: None,
        bytes: Bytes::from_vec(vec![in alloc; 3, 0]?)?,
    })
}

fn chunk(alloc: Global) -> Result<Chunk, Fail>
    ensures { IfOk result (λ c. c ≡ chunk) }
{
    Ok(Chunk {
        key: true,
        timestamp: 0,
        duration: None,
        bytes: Bytes::from_vec(vec![in alloc; 1, 0, 2, 0]?)?,
    })
}

fn media(alloc: Global) -> Result<Vec<List<Chunk>>, Fail>
    ensures { IfOk result (λ media. media.items ≡ two_chunks ∷ []) }
{
    let chunks = vec![in alloc; other(alloc)?, chunk(alloc)?]?;
    Ok(vec![in alloc; List::of(chunks)]?)
}

fn call(place: u64) -> StepResult {
    StepResult::Call {
        codec: 0,
        place,
        error: None,
    }
}

#[test]
fn a_chunk_of_a_file_is_decoded(rt: HostRuntime) -> Result<(), Fail> {
    let alloc = rt.alloc();
    let script = script(alloc)?;
    let media = media(alloc)?;
    let coders: Vec<CoderBox> = Vec::new(alloc);
    let run = replay(alloc, &script, media.as_slice(), coders).expect(&rt, "memory");
    let caller = run.callers.as_slice().first().expect(&rt, "a caller");
    let codec = run.codecs.as_slice().first().expect(&rt, "a codec");
    let local = StepResult::Local { error: None };
    let results = vec![in alloc; call(0), local, call(1), call(2)]?;
    assert!(rt; caller.results.as_slice().starts_with(results.as_slice()));
    let decode = Entry::Call {
        who: Who { caller: 0, step: 2 },
        call: Call::Decode(chunk(alloc)?),
    };
    assert!(rt; codec.entries.get(1).is_some_and(|entry| *entry == decode));
    Ok(())
}
