// Each line once, with its text.
use bytes::Bytes;
use codec_model::{CodecState, Kind, Opening, Outcome};
use coder_api::{SlotEntry, SlotOp};
use report_text::{
    CallWord, EntryLine, EventLine, Line, StepResult, caller_name, codec_name, line_text,
};
use script_types::{CallerItem, CodecItem, ScriptData};
use std::alloc::Global;
use std::process::Abort;
use std::test::Fail;
use wc_base::{
    By, DomError, Ground, List, Picture, PictureFormat, PictureShape, SampleFormat, Samples,
    SoundShape, Text, Who,
};
use wc_chunk::Chunk;
use wc_config::{CodecId, CoderId, Role};
use wc_pool::{PoolEntry, PoolOp};
use wc_video::{Layouts, PlaneLayout};

fn codec(alloc: Global) -> Result<CodecItem, Fail> {
    Ok(CodecItem {
        name: Text::of(String::from_str(alloc, "d")?),
        kind: Kind::AudioDecoder,
        saturation: 4,
    })
}

fn caller(alloc: Global) -> Result<CallerItem, Fail> {
    Ok(CallerItem {
        name: Text::of(String::from_str(alloc, "a")?),
        steps: List::empty(alloc),
    })
}

fn script(alloc: Global) -> Result<ScriptData, Fail> {
    let codecs = List::of(vec![in alloc; codec(alloc)?]?);
    let callers = List::of(vec![in alloc; caller(alloc)?]?);
    Ok(ScriptData {
        codecs,
        callers,
        order: None,
        chunk_files: List::empty(alloc),
        ports: List::empty(alloc),
        inline: 0,
    })
}

// In each row a line and its text.
fn each_is_written(rt: &impl Abort, alloc: Global, rows: &[(Line, &str)]) -> Result<(), Fail> {
    let script = script(alloc)?;
    for (line, text) in rows {
        assert_eq!(rt;
            line_text(alloc, &script, line)?.as_slice(),
            text.as_bytes(),
            "{text}"
        );
    }
    Ok(())
}

fn event(event: EventLine) -> Line {
    Line::Event(event)
}

#[test]
fn lines_of_callers_and_codecs(rt: HostRuntime) -> Result<(), Fail> {
    let state = StepResult::State {
        codec: 0,
        length: 14,
        state: CodecState::Closed,
        size: 2,
    };
    let opening = Opening {
        kind: Kind::VideoDecoder,
        saturation: 4,
    };
    let done = EntryLine::Done {
        epoch: 1,
        item: 0,
        moment: 7,
        outcome: Outcome::NoSlot { entry: 2 },
    };
    let rows = [
        (Line::Header, "wcrun report 1\n"),
        (Line::Caller(0), "caller a\n"),
        (
            Line::Result {
                step: 3,
                answer: state,
            },
            "3 d:14 closed 2\n",
        ),
        (
            Line::Codec { codec: 0, opening },
            "codec d video-decoder 4\n",
        ),
        (
            Line::Entry {
                place: 4,
                entry: done,
            },
            "4 done 1.0 7 no-slot 2\n",
        ),
    ];
    each_is_written(&rt, rt.alloc(), &rows)
}

fn plane(offset: u32, stride: u32) -> PlaneLayout {
    PlaneLayout { offset, stride }
}

// A copy of two planes, and one of three.
fn copies_of_frames() -> (StepResult, StepResult) {
    let two = StepResult::CopiedFrame {
        count: 9,
        layouts: Layouts {
            count: 2,
            first: plane(0, 4),
            second: plane(8, 4),
            third: plane(0, 0),
        },
        bytes: Bytes::new(),
    };
    let three = StepResult::CopiedFrame {
        count: 6,
        layouts: Layouts {
            count: 3,
            first: plane(0, 2),
            second: plane(4, 1),
            third: plane(5, 1),
        },
        bytes: Bytes::from_static(&[0, 1, 2, 3, 4, 255]),
    };
    (two, three)
}

fn result(step: u64, answer: StepResult) -> Line {
    Line::Result { step, answer }
}

#[test]
fn lines_of_copies(rt: HostRuntime) -> Result<(), Fail> {
    let (two, three) = copies_of_frames();
    let samples = StepResult::Copied {
        count: 4,
        bytes: Bytes::from_static(&[1, 0, 160, 255, 9]),
    };
    let nothing = StepResult::Copied {
        count: 0,
        bytes: Bytes::new(),
    };
    let rows = [
        (result(7, samples), "7 copied 4 0100a0ff09\n"),
        (result(8, nothing), "8 copied 0 -\n"),
        (result(9, two), "9 copied 9 0:4,8:4 -\n"),
        (result(10, three), "10 copied 6 0:2,4:1,5:1 0001020304ff\n"),
        (result(11, StepResult::Size { size: 640 }), "11 size 640\n"),
        (result(12, StepResult::Absent), "12 absent\n"),
    ];
    each_is_written(&rt, rt.alloc(), &rows)
}

// A take that found an output, and one that found none.
fn takes() -> (StepResult, StepResult) {
    let found = StepResult::Unit {
        codec: 0,
        place: 7,
        number: 2,
    };
    let none = StepResult::NoUnit {
        codec: 0,
        length: 8,
    };
    (found, none)
}

#[test]
fn lines_of_takes_and_encodes(rt: HostRuntime) -> Result<(), Fail> {
    let (found, none) = takes();
    let who = Who { caller: 0, step: 4 };
    let take = EntryLine::Take { who, unit: 2 };
    let encode = EntryLine::Call {
        who,
        call: CallWord::Encode,
        error: Some(DomError::Data),
    };
    let rows = [
        (result(4, found), "4 d.7 unit 2\n"),
        (result(5, none), "5 d:8 none\n"),
        (
            Line::Entry {
                place: 7,
                entry: take,
            },
            "7 a.4 take = 2\n",
        ),
        (
            Line::Entry {
                place: 8,
                entry: encode,
            },
            "8 a.4 encode = DataError\n",
        ),
        (
            Line::Entry {
                place: 9,
                entry: EntryLine::Ground {
                    who,
                    to: Ground::Foreground,
                },
            },
            "9 a.4 ground foreground = ok\n",
        ),
    ];
    each_is_written(&rt, rt.alloc(), &rows)
}

#[test]
fn results_are_copied(rt: HostRuntime) -> Result<(), Fail> {
    let (two, three) = copies_of_frames();
    let (found, none) = takes();
    let local = StepResult::Local {
        error: Some(DomError::TypeErr),
    };
    let size = StepResult::Size { size: 640 };
    for answer in [two, three, found, none, local, size].iter() {
        let copy = answer.copy()?;
        assert!(rt; copy == *answer);
    }
    Ok(())
}

fn reference(place: u64, by: By, op: PoolOp) -> Line {
    let entry = PoolEntry { by, op };
    Line::Reference { place, entry }
}

#[test]
fn lines_of_the_pool(rt: HostRuntime) -> Result<(), Fail> {
    let by = By::Codec { codec: 0, place: 3 };
    let make = PoolOp::Make {
        resource: 0,
        reference: 1,
    };
    let clone = PoolOp::Clone {
        resource: 0,
        reference: 2,
    };
    let kept = PoolOp::End {
        resource: 0,
        reference: 1,
        last: false,
    };
    let gone = PoolOp::End {
        resource: 0,
        reference: 2,
        last: true,
    };
    let rows = [
        (reference(0, by, make), "0 d.3 make 0 1\n"),
        (reference(1, by, clone), "1 d.3 clone 0 2\n"),
        (reference(2, by, kept), "2 d.3 end 0 1 kept\n"),
        (reference(3, by, gone), "3 d.3 end 0 2 gone\n"),
    ];
    each_is_written(&rt, rt.alloc(), &rows)
}

#[test]
fn names_are_empty_beyond_the_script(rt: HostRuntime) -> Result<(), Fail> {
    let script = script(rt.alloc())?;
    assert_eq!(rt; caller_name(script.callers.as_slice(), 0), "a");
    assert_eq!(rt; codec_name(script.codecs.as_slice(), 1), "");
    Ok(())
}

#[test]
fn lines_of_the_registry(rt: HostRuntime) -> Result<(), Fail> {
    let entry = SlotEntry {
        by: By::Codec { codec: 0, place: 3 },
        op: SlotOp::Refused {
            id: CoderId {
                role: Role::Encode,
                codec: CodecId::RawNv12,
            },
            out: 2,
            made: 3,
        },
    };
    let rows = [
        (Line::Pool, "pool\n"),
        (Line::Slots, "slots\n"),
        (
            Line::Slot { place: 1, entry },
            "1 d.3 acquire encode:x-raw-nv12 none 2 3\n",
        ),
        (Line::Held(5), "held 5\n"),
        (Line::End, "end\n"),
    ];
    each_is_written(&rt, rt.alloc(), &rows)
}

#[test]
fn lines_of_outputs(rt: HostRuntime) -> Result<(), Fail> {
    let alloc = rt.alloc();
    let sound = Samples {
        shape: SoundShape {
            format: SampleFormat::S16,
            rate: 8000,
            channels: 1,
            frames: 2,
            timestamp: 0,
        },
        bytes: Bytes::from_static(&[1, 0, 160, 255]),
    };
    let picture = Picture {
        shape: PictureShape {
            format: PictureFormat::I420,
            width: 4,
            height: 2,
            timestamp: -5,
            duration: None,
        },
        bytes: Bytes::new(),
    };
    let chunk = Chunk {
        key: false,
        timestamp: 3,
        duration: Some(20),
        bytes: Bytes::from_static(&[171]),
    };
    let config = EventLine::Config {
        codec: Bytes::from_static(b"flac"),
        rate: 8000,
        channels: 2,
        description: Bytes::from_static(&[102, 76]),
    };
    let rows = [
        (
            event(EventLine::Sound(sound)),
            "  output audio s16 8000 1 2 0 250 0100a0ff\n",
        ),
        (
            event(EventLine::Image(picture)),
            "  output video I420 4 2 -5 - -\n",
        ),
        (
            event(EventLine::Chunk(chunk)),
            "  output chunk delta 3 20 ab\n",
        ),
        (event(config), "  config flac 8000 2 664c\n"),
    ];
    each_is_written(&rt, alloc, &rows)
}

#[test]
fn lines_of_events(rt: HostRuntime) -> Result<(), Fail> {
    let rejected = EventLine::Reject {
        promise: 3,
        error: DomError::Abort,
    };
    let rows = [
        (event(EventLine::Resolve(2)), "  resolve 2\n"),
        (event(rejected), "  reject 3 AbortError\n"),
        (event(EventLine::Dequeue), "  dequeue\n"),
        (
            event(EventLine::Error(DomError::OutOfMemory)),
            "  error OutOfMemory\n",
        ),
    ];
    each_is_written(&rt, rt.alloc(), &rows)
}
