// The report of one run, of each other line, and of a sink that fails.
ghost use Rattle.std.specs.Prelude.{◌≡◌, [], IfOk, codes};
ghost use Rattle.row_tests.specs.ReportRows.{decoder};

use bytes::Bytes;
use codec_model::{
    Call, CodecState, Entry, Event, Kind, Opening, Outcome, PromiseState, Shown, TurnWord,
};
use coder_api::{SlotEntry, SlotOp, Unit};
use run_model::{CallerTrace, CodecTrace, Run, StepResult};
use script_types::{CallerItem, CodecItem, Script, ScriptData};
use segmented_list::{SegmentedList, SegmentedVec};
use std::alloc::Global;
use std::test::Fail;
use trace_text::{WriteFault, write_report};
use wc_base::{
    By, DomError, List, MemSink, Picture, PictureFormat, PictureShape, SampleFormat, Samples,
    SoundShape, Text, Who,
};
use wc_chunk::Chunk;
use wc_config::{AudioDecoderConfig, CodecId, CoderId, Config, Role};
use wc_pool::{PoolEntry, PoolOp};
use wc_video::{Layouts, PlaneLayout};

const OPENING: Opening = Opening {
    kind: Kind::AudioDecoder,
    saturation: 4,
};

// Two planes; the third stays empty.
const LAYOUTS: Layouts = Layouts {
    count: 2,
    first: PlaneLayout {
        offset: 0,
        stride: 2,
    },
    second: PlaneLayout {
        offset: 2,
        stride: 1,
    },
    third: PlaneLayout {
        offset: 0,
        stride: 0,
    },
};

fn who(step: u32) -> Who {
    Who { caller: 0, step }
}

fn codec(alloc: Global) -> Result<CodecItem, Fail>
    ensures { IfOk result (λ c. c ≡ decoder) }
{
    Ok(CodecItem {
        name: Text::of(String::from_str(alloc, "d")?),
        kind: Kind::AudioDecoder,
        saturation: 4,
    })
}

fn caller(alloc: Global) -> Result<CallerItem, Fail>
    ensures { IfOk result (λ c. c ≡ record { name = codes "a"; steps = [] }) }
{
    Ok(CallerItem {
        name: Text::of(String::from_str(alloc, "a")?),
        steps: List::empty(alloc),
    })
}

fn script(alloc: Global) -> Result<Script, Fail> {
    let codecs = List::of(vec![in alloc; codec(alloc)?]?);
    let callers = List::of(vec![in alloc; caller(alloc)?]?);
    Ok(Script::of(ScriptData {
        codecs,
        callers,
        order: None,
        chunk_files: List::empty(alloc),
        ports: List::empty(alloc),
        inline: 0,
    }))
}

fn call(place: u64) -> StepResult {
    StepResult::Call {
        codec: 0,
        place,
        error: None,
    }
}

fn results(alloc: Global) -> Result<Vec<StepResult>, Fail> {
    let local = StepResult::Local { error: None };
    let look = StepResult::Look {
        codec: 0,
        length: 14,
        end: PromiseState::Resolved,
    };
    Ok(vec![in alloc; call(0), local, call(1), call(2), look]?)
}

fn start(item: u64) -> Entry {
    Entry::Start { epoch: 0, item }
}

fn done(item: u64, moment: u64, units: u64) -> Entry {
    Entry::Done {
        epoch: 0,
        item,
        moment,
        outcome: Outcome::Ran { units },
    }
}

fn called(step: u32, call: Call) -> Entry {
    Entry::Call {
        who: who(step),
        call,
    }
}

fn calls(alloc: Global) -> Result<Vec<Entry>, Fail> {
    let bytes = Bytes::from_vec(vec![in alloc; 1, 0, 2, 0]?)?;
    let chunk = Chunk {
        key: true,
        timestamp: 0,
        duration: None,
        bytes,
    };
    let configure = called(0, Call::Configure(Config::Bad));
    let decode = called(2, Call::Decode(chunk));
    let flush = called(3, Call::Flush);
    Ok(vec![in alloc; configure, decode, flush]?)
}

fn quiet(alloc: Global) -> Shown {
    Shown {
        turn: None,
        events: List::empty(alloc),
    }
}

fn turn_shown(alloc: Global, word: TurnWord) -> Shown {
    Shown {
        turn: Some(word),
        events: List::empty(alloc),
    }
}

fn showing(alloc: Global, word: TurnWord, event: Event) -> Result<Shown, Fail> {
    Ok(Shown {
        turn: Some(word),
        events: List::of(vec![in alloc; event]?),
    })
}

fn entries(alloc: Global) -> Result<Vec<Entry>, Fail> {
    let mut entries = calls(alloc)?;
    for entry in vec![in alloc; start(0), done(0, 1, 0), Entry::Turn, Entry::Turn]? {
        entries.push(entry)?;
    }
    for entry in vec![in alloc; start(1), done(1, 2, 1), Entry::Turn, Entry::Turn]? {
        entries.push(entry)?;
    }
    for entry in vec![in alloc; start(2), done(2, 3, 0), Entry::Turn]? {
        entries.push(entry)?;
    }
    Ok(entries)
}

fn output(alloc: Global) -> Result<Event, Fail> {
    let shape = SoundShape {
        format: SampleFormat::S16,
        rate: 8000,
        channels: 1,
        frames: 2,
        timestamp: 0,
    };
    let bytes = Bytes::from_vec(vec![in alloc; 1, 0, 2, 0]?)?;
    let unit = Unit::Sound(Samples { shape, bytes });
    Ok(Event::Output { number: 0, unit })
}

fn shown(alloc: Global) -> Result<Vec<Shown>, Fail> {
    let mut shown = Vec::new(alloc);
    for _ in 0..5 {
        shown.push(quiet(alloc))?;
    }
    shown.push(turn_shown(alloc, TurnWord::Unblock))?;
    shown.push(turn_shown(alloc, TurnWord::Process))?;
    shown.push(quiet(alloc))?;
    shown.push(quiet(alloc))?;
    shown.push(showing(alloc, TurnWord::Dequeue, Event::Dequeue)?)?;
    shown.push(showing(alloc, TurnWord::Output, output(alloc)?)?)?;
    shown.push(quiet(alloc))?;
    shown.push(quiet(alloc))?;
    shown.push(showing(alloc, TurnWord::Flushed, Event::Resolve(2))?)?;
    Ok(shown)
}

fn in_segments<T: Drop>(alloc: Global, items: Vec<T>) -> Result<SegmentedList<T>, Fail> {
    let mut list = SegmentedVec::new(alloc);
    for item in items {
        list.try_push(item)?;
    }
    Ok(SegmentedList::of(list))
}

fn ordinary_run(alloc: Global) -> Result<Run, Fail> {
    let caller = CallerTrace {
        results: List::of(results(alloc)?),
    };
    let codec = CodecTrace {
        opening: OPENING,
        entries: in_segments(alloc, entries(alloc)?)?,
        shown: in_segments(alloc, shown(alloc)?)?,
    };
    let acquire = SlotEntry {
        by: By::Codec { codec: 0, place: 3 },
        op: SlotOp::Acquire {
            id: CoderId {
                role: Role::Decode,
                codec: CodecId::PcmS16,
            },
            number: 0,
        },
    };
    Ok(Run {
        callers: List::of(vec![in alloc; caller]?),
        codecs: List::of(vec![in alloc; codec]?),
        pool: List::empty(alloc),
        slots: List::of(vec![in alloc; acquire]?),
        held: 0,
    })
}

const ORDINARY: &str =
    "wcrun report 1\ncaller a\n0 d.0 ok\n1 ok\n2 d.1 ok\n3 d.2 ok\n4 d:14 resolved\ncodec d audio-decoder 4\n0 a.0 configure = ok\n1 a.2 decode = ok\n2 a.3 flush = ok\n3 start 0.0\n4 done 0.0 1 ran 0\n5 turn unblock\n6 turn process\n7 start 0.1\n8 done 0.1 2 ran 1\n9 turn dequeue\n  dequeue\n10 turn output\n  output audio s16 8000 1 2 0 250 01000200\n11 start 0.2\n12 done 0.2 3 ran 0\n13 turn flushed\n  resolve 2\npool\nslots\n0 d.3 acquire decode:pcm-s16 0\nheld 0\nend\n";

#[test]
fn the_ordinary_runs_report(rt: HostRuntime) -> Result<(), Fail> {
    let alloc = rt.alloc();
    let script = script(alloc)?;
    let run = ordinary_run(alloc)?;
    let mut sink = MemSink::open(alloc, 1000, Vec::new(alloc))?;
    assert_eq!(rt; write_report(alloc, &script, &run, &mut sink), Ok(()));
    assert_eq!(rt; sink.bytes(), ORDINARY.as_bytes());
    Ok(())
}

#[test]
fn a_sink_that_fails_has_a_beginning(rt: HostRuntime) -> Result<(), Fail> {
    let alloc = rt.alloc();
    let script = script(alloc)?;
    let run = ordinary_run(alloc)?;
    let mut sink = MemSink::open(alloc, 1000, vec![in alloc; 1]?)?;
    assert_eq!(rt;
        write_report(alloc, &script, &run, &mut sink),
        Err(WriteFault::Failed)
    );
    assert_eq!(rt; sink.bytes(), b"wcrun report 1\ncall".as_slice());
    Ok(())
}

fn other_results(alloc: Global) -> Result<Vec<StepResult>, Fail> {
    let refused = StepResult::Call {
        codec: 0,
        place: 0,
        error: Some(DomError::TypeErr),
    };
    let local = StepResult::Local {
        error: Some(DomError::RangeErr),
    };
    let look = StepResult::Look {
        codec: 0,
        length: 2,
        end: PromiseState::Rejected(DomError::Abort),
    };
    let state = StepResult::State {
        codec: 0,
        length: 5,
        state: CodecState::Configured,
        size: 1,
    };
    let copied = StepResult::Copied {
        count: 2,
        bytes: Bytes::from_static(&[171, 205, 0]),
    };
    let frame = StepResult::CopiedFrame {
        count: 3,
        layouts: LAYOUTS,
        bytes: Bytes::from_static(&[1, 2, 3]),
    };
    let size = StepResult::Size { size: 12 };
    let absent = StepResult::Absent;
    Ok(vec![in alloc; refused, local, look, state, copied, frame, size, absent]?)
}

fn references(alloc: Global) -> Result<Vec<PoolEntry>, Fail> {
    let make = PoolEntry {
        by: By::Caller(who(4)),
        op: PoolOp::Make {
            resource: 0,
            reference: 0,
        },
    };
    let clone = PoolEntry {
        by: By::Caller(who(5)),
        op: PoolOp::Clone {
            resource: 0,
            reference: 1,
        },
    };
    let end = PoolEntry {
        by: By::Codec { codec: 0, place: 3 },
        op: PoolOp::End {
            resource: 0,
            reference: 0,
            last: false,
        },
    };
    Ok(vec![in alloc; make, clone, end]?)
}

fn failed(item: u64, outcome: Outcome) -> Entry {
    Entry::Done {
        epoch: 1,
        item,
        moment: 5,
        outcome,
    }
}

fn other_entries(alloc: Global) -> Result<Vec<Entry>, Fail> {
    let reset = called(0, Call::Reset);
    let close = called(1, Call::Close);
    let refused = failed(0, Outcome::Refused);
    let none = failed(1, Outcome::NoSlot { entry: 7 });
    let memory = failed(2, Outcome::NoMemory);
    let reclaim = Entry::Reclaim { moment: 9 };
    Ok(vec![in alloc; reset, close, refused, none, memory, Entry::Turn, reclaim]?)
}

fn picture(alloc: Global) -> Result<Event, Fail> {
    let shape = PictureShape {
        format: PictureFormat::Nv12,
        width: 2,
        height: 1,
        timestamp: -3,
        duration: None,
    };
    let bytes = Bytes::from_vec(vec![in alloc; 171, 205]?)?;
    let unit = Unit::Image(Picture { shape, bytes });
    Ok(Event::Output { number: 0, unit })
}

fn coded(alloc: Global) -> Result<Event, Fail> {
    let chunk = Chunk {
        key: false,
        timestamp: 7,
        duration: Some(125),
        bytes: Bytes::from_vec(Vec::new(alloc))?,
    };
    let config = AudioDecoderConfig {
        codec: Text::of(String::from_str(alloc, "flac")?),
        rate: 8000,
        channels: 1,
        description: None,
    };
    let unit = Unit::Coded {
        chunk,
        config: Some(config),
    };
    Ok(Event::Output { number: 1, unit })
}

fn shown_alone(alloc: Global, event: Event) -> Result<Shown, Fail> {
    Ok(Shown {
        turn: None,
        events: List::of(vec![in alloc; event]?),
    })
}

fn closed(alloc: Global) -> Result<Shown, Fail> {
    let mut events = vec![in alloc; picture(alloc)?]?;
    events.push(coded(alloc)?)?;
    events.push(Event::ErrorCall(DomError::Encoding))?;
    Ok(Shown {
        turn: Some(TurnWord::Close(DomError::Encoding)),
        events: List::of(events),
    })
}

fn other_shown(alloc: Global) -> Result<Vec<Shown>, Fail> {
    let mut shown = Vec::new(alloc);
    shown.push(shown_alone(alloc, Event::Refusal(DomError::InvalidState))?)?;
    let rejected = Event::Reject {
        promise: 1,
        error: DomError::Abort,
    };
    shown.push(shown_alone(alloc, rejected)?)?;
    for _ in 0..3 {
        shown.push(quiet(alloc))?;
    }
    shown.push(closed(alloc)?)?;
    shown.push(quiet(alloc))?;
    Ok(shown)
}

fn other_run(alloc: Global) -> Result<Run, Fail> {
    let caller = CallerTrace {
        results: List::of(other_results(alloc)?),
    };
    let codec = CodecTrace {
        opening: OPENING,
        entries: in_segments(alloc, other_entries(alloc)?)?,
        shown: in_segments(alloc, other_shown(alloc)?)?,
    };
    let id = CoderId {
        role: Role::Encode,
        codec: CodecId::Flac,
    };
    let none = SlotEntry {
        by: By::Codec { codec: 0, place: 3 },
        op: SlotOp::Refused {
            id,
            out: 8,
            made: 8,
        },
    };
    let give = SlotEntry {
        by: By::Caller(who(1)),
        op: SlotOp::Give { id, number: 2 },
    };
    Ok(Run {
        callers: List::of(vec![in alloc; caller]?),
        codecs: List::of(vec![in alloc; codec]?),
        pool: List::of(references(alloc)?),
        slots: List::of(vec![in alloc; none, give]?),
        held: 3,
    })
}

const OTHER: &str =
    "wcrun report 1\ncaller a\n0 d.0 TypeError\n1 RangeError\n2 d:2 rejected AbortError\n3 d:5 configured 1\n4 copied 2 abcd00\n5 copied 3 0:2,2:1 010203\n6 size 12\n7 absent\ncodec d audio-decoder 4\n0 a.0 reset = InvalidStateError\n1 a.1 close = ok\n  reject 1 AbortError\n2 done 1.0 5 refused\n3 done 1.1 5 no-slot 7\n4 done 1.2 5 no-memory\n5 turn close EncodingError\n  output video NV12 2 1 -3 - abcd\n  output chunk delta 7 125 -\n  config flac 8000 1 -\n  error EncodingError\n6 reclaim 9\npool\n0 a.4 make 0 0\n1 a.5 clone 0 1\n2 d.3 end 0 0 kept\nslots\n0 d.3 acquire encode:flac none 8 8\n1 a.1 give encode:flac 2\nheld 3\nend\n";

#[test]
fn the_other_lines(rt: HostRuntime) -> Result<(), Fail> {
    let alloc = rt.alloc();
    let script = script(alloc)?;
    let run = other_run(alloc)?;
    let mut sink = MemSink::open(alloc, 1000, Vec::new(alloc))?;
    assert_eq!(rt; write_report(alloc, &script, &run, &mut sink), Ok(()));
    assert_eq!(rt; sink.bytes(), OTHER.as_bytes());
    Ok(())
}
