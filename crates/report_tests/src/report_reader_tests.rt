// The ordinary run's report, read back, and texts with a fault at a line that was counted by hand.
ghost use Rattle.std.specs.Prelude.{◌≡◌, ◌∷◌, ◌++◌, [], IfOk, IsTrue, None, Some, codes};
ghost use Rattle.row_tests.specs.CodecRows.{pcm};
ghost use Rattle.script_types.specs.declared.steps.MediaStep.TheVariants as on_media;
ghost use Rattle.script_types.specs.declared.steps.Step.TheVariants as step;
ghost use Rattle.script_types.specs.declared.steps.VariableKind.TheVariants as holds;
ghost use Rattle.script_types.specs.declared.steps.ChunkSource.TheVariants as source;
ghost use Rattle.script_types.specs.Sound.{is_sound};
ghost use Rattle.row_tests.specs.ReportRows.{init, steps_with, takes};

use bytes::Bytes;
use codec_model::{Call, Entry};
use report_reader::{ReportFault, read_report};
use run_model::{Run, StepResult};
use script_types::{
    CallerItem, ChunkInit, ChunkSource, CodecItem, Kind, MediaStep, Script, ScriptData, Step,
    Variable, VariableKind,
};
use std::alloc::Global;
use std::process::Abort;
use std::test::Fail;
use trace_text::write_report;
use wc_base::{By, List, MemSink, Text, Who};
use wc_config::{AudioDecoderConfig, Config};
use wc_pool::{PoolEntry, PoolOp};
use wc_video::{Layouts, PlaneLayout};

const REPORT: &str =
    "wcrun report 1\ncaller a\n0 d.0 ok\n1 ok\n2 d.1 ok\n3 d.2 ok\n4 d:14 resolved\ncodec d audio-decoder 4\n0 a.0 configure = ok\n1 a.2 decode = ok\n2 a.3 flush = ok\n3 start 0.0\n4 done 0.0 1 ran 0\n5 turn unblock\n6 turn process\n7 start 0.1\n8 done 0.1 2 ran 1\n9 turn dequeue\n  dequeue\n10 turn output\n  output audio s16 8000 1 2 0 250 01000200\n11 start 0.2\n12 done 0.2 3 ran 0\n13 turn flushed\n  resolve 2\npool\nslots\n0 d.3 acquire decode:pcm-s16 0\nheld 0\nend\n";

fn text(alloc: Global, text: &str) -> Result<Text, Fail>
    ensures { IfOk result (λ t. t ≡ text.now) }
{
    Ok(Text::of(String::from_str(alloc, text)?))
}

fn configure(alloc: Global) -> Result<Step, Fail>
    ensures { IfOk result (λ s. s ≡ step.Configure 0 pcm) }
{
    Ok(Step::Configure {
        on: 0,
        config: Config::AudioDecoder(AudioDecoderConfig {
            codec: text(alloc, "pcm-s16")?,
            rate: 8000,
            channels: 1,
            description: None,
        }),
    })
}

fn chunk(alloc: Global) -> Result<Step, Fail>
    ensures { IfOk result (λ s. s ≡ step.Chunk (codes "c") (source.Init (Some init))) }
{
    Ok(Step::Chunk {
        bind: text(alloc, "c")?,
        source: ChunkSource::Init(Some(ChunkInit {
            key: true,
            timestamp: 0,
            duration: None,
            content: Bytes::from_vec(vec![in alloc; 1, 0, 2, 0]?)?,
        })),
    })
}

fn variable(alloc: Global, name: &str, step: u32, kind: VariableKind) -> Result<Variable, Fail>
    ensures { IfOk result (λ v. v ≡ record { name = name.now; step = step; kind = kind }) }
{
    Ok(Variable {
        name: text(alloc, name)?,
        step,
        kind,
    })
}

fn take(alloc: Global, name: &str) -> Result<Step, Fail>
    ensures { IfOk result (λ s. s ≡ step.Media (on_media.Take 0 name.now holds.Audio)) }
{
    Ok(Step::Media(MediaStep::Take {
        on: 0,
        bind: text(alloc, name)?,
        kind: VariableKind::Audio,
    }))
}

// The ordinary steps, and two takes behind them.
fn steps(alloc: Global) -> Result<Vec<Step>, Fail>
    ensures { IfOk result (λ v. v.items ≡ steps_with (source.Init (Some init)) ++ takes) }
{
    let decode = Step::Decode {
        on: 0,
        chunk: variable(alloc, "c", 1, VariableKind::Chunk)?,
    };
    let flush = Step::Flush {
        on: 0,
        bind: text(alloc, "p")?,
    };
    let wait = Step::Await {
        promise: variable(alloc, "p", 3, VariableKind::Promise)?,
    };
    let configure = configure(alloc)?;
    let chunk = chunk(alloc)?;
    let first = take(alloc, "o")?;
    let second = take(alloc, "q")?;
    Ok(vec![in alloc; configure, chunk, decode, flush, wait, first, second]?)
}

// What the ordinary script holds, with two takes.
fn data(alloc: Global) -> Result<ScriptData, Fail>
    ensures { IfOk result (λ s. IsTrue (is_sound s)) }
{
    let codec = CodecItem {
        name: text(alloc, "d")?,
        kind: Kind::AudioDecoder,
        saturation: 4,
    };
    let caller = CallerItem {
        name: text(alloc, "a")?,
        steps: List::of(steps(alloc)?),
    };
    Ok(ScriptData {
        codecs: List::of(vec![in alloc; codec]?),
        callers: List::of(vec![in alloc; caller]?),
        order: None,
        chunk_files: List::empty(alloc),
        ports: List::empty(alloc),
        inline: 4,
    })
}

fn script(alloc: Global) -> Result<Script, Fail> {
    Ok(Script::of(data(alloc)?))
}

// Reads the report with one text in the place of another: 0 where it is read, or the line at fault.
fn line_at_fault(alloc: Global, old: &str, new: &str) -> Result<u64, Fail> {
    let text = REPORT.replace(alloc, old, new)?;
    match read_report(alloc, &script(alloc)?, &[], text.as_bytes()) {
        Ok(_) => Ok(0),
        Err(ReportFault::BadLine { line }) => Ok(line),
        Err(ReportFault::NoMemory) => Err(Fail::from("memory")),
    }
}

fn counts(run: &Run) -> (usize, usize, usize) {
    (run.callers.len(), run.codecs.len(), run.slots.len())
}

fn report(alloc: Global, script: &Script, run: &Run) -> Result<MemSink, Fail> {
    let mut sink = MemSink::open(alloc, 2000, Vec::new(alloc))?;
    match write_report(alloc, script, run, &mut sink) {
        Ok(()) => Ok(sink),
        Err(_) => Err(Fail::from("memory")),
    }
}

#[test]
fn the_ordinary_report_is_read_and_written_again(rt: HostRuntime) -> Result<(), Fail> {
    let alloc = rt.alloc();
    let script = script(alloc)?;
    let run = read_report(alloc, &script, &[], REPORT.as_bytes()).expect(&rt, "a report");
    assert_eq!(rt; counts(&run), (1, 1, 1));
    let codec = run.codecs.as_slice().first().expect(&rt, "a codec");
    assert_eq!(rt; (codec.entries.len(), codec.shown.len()), (14, 14));
    assert_eq!(rt; report(alloc, &script, &run)?.bytes(), REPORT.as_bytes());
    Ok(())
}

// The same with copies of media behind the look, and with the history of a pool.
const LOOK: &str = "4 d:14 resolved\n";

const RESULTS: &str =
    "4 d:14 resolved\n5 copied 4 01000200\n6 copied 6 0:2,4:1,5:1 000102030405\n7 size 6\n";

const POOL: &str =
    "pool\n0 a.5 make 0 0\n1 a.6 clone 0 1\n2 d.10 end 0 0 kept\n3 a.7 end 0 1 gone\n";

fn layout(offset: u32, stride: u32) -> PlaneLayout {
    PlaneLayout { offset, stride }
}

fn copies(alloc: Global) -> Result<Vec<StepResult>, Fail> {
    let copied = StepResult::Copied {
        count: 4,
        bytes: Bytes::from_static(&[1, 0, 2, 0]),
    };
    let layouts = Layouts {
        count: 3,
        first: layout(0, 2),
        second: layout(4, 1),
        third: layout(5, 1),
    };
    let frame = StepResult::CopiedFrame {
        count: 6,
        layouts,
        bytes: Bytes::from_static(&[0, 1, 2, 3, 4, 5]),
    };
    Ok(vec![in alloc; copied, frame, StepResult::Size { size: 6 }]?)
}

fn by_step(step: u32, op: PoolOp) -> PoolEntry {
    PoolEntry {
        by: By::Caller(Who { caller: 0, step }),
        op,
    }
}

fn end_of(reference: u64, last: bool) -> PoolOp {
    PoolOp::End {
        resource: 0,
        reference,
        last,
    }
}

fn references() -> [PoolEntry; 4] {
    let make = PoolOp::Make {
        resource: 0,
        reference: 0,
    };
    let clone = PoolOp::Clone {
        resource: 0,
        reference: 1,
    };
    let by = By::Codec {
        codec: 0,
        place: 10,
    };
    let kept = PoolEntry {
        by,
        op: end_of(0, false),
    };
    [
        by_step(5, make),
        by_step(6, clone),
        kept,
        by_step(7, end_of(1, true)),
    ]
}

fn later_results(run: &Run) -> &[StepResult] {
    match run.callers.as_slice() {
        [caller, ..] => match caller.results.as_slice() {
            [_, _, _, _, _, later @ ..] => later,
            _ => &[],
        },
        [] => &[],
    }
}

#[test]
fn media_are_read_and_written_again(rt: HostRuntime) -> Result<(), Fail> {
    let alloc = rt.alloc();
    let script = script(alloc)?;
    let text = REPORT.replace(alloc, LOOK, RESULTS)?;
    let text = text.replace(alloc, "pool\n", POOL)?;
    let run = read_report(alloc, &script, &[], text.as_bytes()).expect(&rt, "a report");
    let copies = copies(alloc)?;
    assert_eq!(rt; later_results(&run), copies.as_slice());
    assert_eq!(rt; run.pool.as_slice(), references().as_slice());
    assert_eq!(rt; report(alloc, &script, &run)?.bytes(), text.as_bytes());
    Ok(())
}

const RESOLVED: &str = "13 turn flushed\n  resolve 2\n";

// The ordinary report with a take of its output behind it, and one that finds none.
fn report_of_takes(alloc: Global) -> Result<String, Fail> {
    let results = "4 d:14 resolved\n5 d.14 unit 0\n6 d:15 none\n";
    let entries = "13 turn flushed\n  resolve 2\n14 a.5 take = 0\n";
    let text = REPORT.replace(alloc, LOOK, results)?;
    let text = text.replace(alloc, RESOLVED, entries)?;
    let text = text.replace(alloc, "pool\n", "pool\n0 a.5 make 0 0\n")?;
    Ok(text.replace(alloc, "held 0", "held 1")?)
}

#[test]
fn takes_are_read_and_written_again(rt: HostRuntime) -> Result<(), Fail> {
    let alloc = rt.alloc();
    let script = script(alloc)?;
    let text = report_of_takes(alloc)?;
    let run = read_report(alloc, &script, &[], text.as_bytes()).expect(&rt, "a report");
    let found = StepResult::Unit {
        codec: 0,
        place: 14,
        number: 0,
    };
    let none = StepResult::NoUnit {
        codec: 0,
        length: 15,
    };
    assert_eq!(rt; later_results(&run), [found, none].as_slice());
    let codec = run.codecs.as_slice().first().expect(&rt, "a codec");
    let behind = codec.entries.len().saturating_sub(1);
    let last = codec.entries.get(behind).expect(&rt, "an entry");
    let who = Who { caller: 0, step: 5 };
    let call = Call::Take(0);
    assert!(rt; *last == Entry::Call { who, call });
    assert_eq!(rt; report(alloc, &script, &run)?.bytes(), text.as_bytes());
    Ok(())
}

// In each row a text, another in its place, and the line at fault.
fn each_is_refused(rt: &impl Abort, alloc: Global, rows: &[(&str, &str, u64)]) -> Result<(), Fail> {
    for (old, new, line) in rows {
        assert_eq!(rt; line_at_fault(alloc, old, new)?, *line, "{new} for {old}");
    }
    Ok(())
}

#[test]
fn lines_without_their_form(rt: HostRuntime) -> Result<(), Fail> {
    let rows = [
        (REPORT, "", 1),
        ("end\n", "", 30),
        ("end\n", "end", 30),
        ("end\n", "end\nend\n", 31),
        ("pool\n", "", 26),
        ("caller a\n", "caller b\n", 2),
        ("1 ok\n", "2 ok\n", 4),
        ("4 d:14 ", "4 a:14 ", 7),
        ("ran 1\n", "ran 01\n", 17),
        ("10 turn output", "11 turn output", 20),
        ("01000200", "0100020A", 21),
        ("0 d.3 acquire", "1 d.3 acquire", 28),
    ];
    each_is_refused(&rt, rt.alloc(), &rows)
}

#[test]
fn lines_of_the_pool_and_of_copies(rt: HostRuntime) -> Result<(), Fail> {
    let rows = [
        ("pool\n", "pool\n0 a.1 make 0 0\n", 0),
        ("pool\n", "pool\n1 a.1 make 0 0\n", 27),
        ("pool\n", "pool\n0 b.1 make 0 0\n", 27),
        ("pool\n", "0 a.1 make 0 0\npool\n", 26),
        ("held 0\n", "0 a.1 make 0 0\nheld 0\n", 29),
        (LOOK, "4 copied 2 0:1,1:1 0001\n", 0),
        (LOOK, "4 copied 2 0:1,1:1 000\n", 7),
        (LOOK, "4 size\n", 7),
    ];
    each_is_refused(&rt, rt.alloc(), &rows)
}

#[test]
fn lines_that_differ(rt: HostRuntime) -> Result<(), Fail> {
    let rows = [
        // one unit more is shown than there are outputs: the turn would show two
        ("ran 1\n", "ran 2\n", 22),
        // no unit, no turn that shows one
        ("ran 1\n", "ran 0\n", 20),
        ("  dequeue\n", "", 19),
        ("  output audio s16 8000 1 2 0 250 01000200\n", "", 21),
        (
            "11 start",
            "  output audio s16 8000 1 2 0 250 01000200\n11 start",
            22,
        ),
        // a turn that runs another task, a call whose step is none, an exception that is not thrown
        ("5 turn unblock", "5 turn process", 14),
        ("a.2 decode", "a.1 decode", 10),
        ("configure = ok", "configure = TypeError", 9),
        // a start of an item that is not the next
        ("7 start 0.1\n", "7 start 0.2\n", 16),
    ];
    each_is_refused(&rt, rt.alloc(), &rows)
}

#[test]
fn takes_and_encodes_that_no_step_makes(rt: HostRuntime) -> Result<(), Fail> {
    let rows = [
        // a step that takes nothing, an output that was not shown, and calls that no step makes
        (
            RESOLVED,
            "13 turn flushed\n  resolve 2\n14 a.4 take = 0\n",
            26,
        ),
        (
            RESOLVED,
            "13 turn flushed\n  resolve 2\n14 a.5 take = 1\n",
            26,
        ),
        (
            RESOLVED,
            "13 turn flushed\n  resolve 2\n14 a.5 encode = ok\n",
            26,
        ),
        (
            RESOLVED,
            "13 turn flushed\n  resolve 2\n14 a.5 flush = ok\n",
            26,
        ),
        ("0 a.0 configure = ok", "0 a.0 take = 0", 9),
        ("1 a.2 decode = ok", "1 a.2 encode = ok", 10),
        // a take before any output is shown
        ("9 turn dequeue", "9 a.5 take = 0", 18),
    ];
    each_is_refused(&rt, rt.alloc(), &rows)
}

#[test]
fn outputs_that_are_none_of_the_codec(rt: HostRuntime) -> Result<(), Fail> {
    let shown = "output audio s16 8000 1 2 0 250 01000200";
    let rows = [
        // an output with nothing in it is one
        (shown, "output audio u8 1 1 0 0 0 -", 0),
        (shown, "output audio s16 0 1 2 0 0 01000200", 21),
        (shown, "output video I420 1 1 0 - 00", 21),
        (shown, "output chunk key 0 250 01000200", 21),
        (shown, "output chunk delta 0 - -", 21),
    ];
    each_is_refused(&rt, rt.alloc(), &rows)
}
