// A text with each line of a report, and lines that are not written so.
use bytes::Bytes;
use report_lines::{FieldFault, line_at};
use report_text::{EntryLine, Line, StepResult, line_text};
use script_types::{CallerItem, CodecItem, Kind, ScriptData};
use std::alloc::Global;
use std::test::Fail;
use wc_base::{By, Ground, List, Text, Who};
use wc_pool::PoolOp;
use wc_video::{Layouts, PlaneLayout};

const LINES: &str =
    "wcrun report 1\ncaller a\n0 d.0 ok\n1 QuotaExceededError\n2 d.1 DataError\n3 d:14 pending\n4 d:15 rejected AbortError\n5 d:15 closed 3\n6 absent\n7 copied 4 01000200\n8 copied 6 0:2,4:1,5:1 0001020304ff\n9 copied 0 0:4,8:4 -\n10 size 640\n11 d.7 unit 2\n12 d:8 none\ncodec d audio-decoder 4\n0 a.0 configure = ok\n1 a.2 decode = TypeError\n2 start 0.1\n3 done 0.1 250 ran 1\n4 done 1.0 7 no-slot 2\n5 done 1.1 8 no-memory\n6 turn -\n7 turn close EncodingError\n8 reclaim 9\n9 a.3 encode = DataError\n10 a.4 take = 2\n  output audio s16 8000 1 2 0 250 01000200\n  output video NV12 2 2 -5 - 0001\n  output chunk delta 3 20 ff\n  config pcm-s16 8000 2 -\n  resolve 2\n  reject 3 AbortError\n  error OutOfMemory\n  dequeue\npool\n0 d.3 make 0 0\n1 a.2 clone 0 1\n2 a.1 end 0 0 kept\n3 d.4 end 0 1 gone\nslots\n0 d.3 acquire decode:pcm-s16 0\n1 d.4 acquire encode:x-raw-nv12 none 2 2\n2 a.1 give decode:flac 1\nheld 0\nend\n";

fn script(alloc: Global) -> Result<ScriptData, Fail> {
    let codec = CodecItem {
        name: Text::of(String::from_str(alloc, "d")?),
        kind: Kind::AudioDecoder,
        saturation: 4,
    };
    let caller = CallerItem {
        name: Text::of(String::from_str(alloc, "a")?),
        steps: List::empty(alloc),
    };
    Ok(ScriptData {
        codecs: List::of(vec![in alloc; codec]?),
        callers: List::of(vec![in alloc; caller]?),
        order: None,
        chunk_files: List::empty(alloc),
        ports: List::empty(alloc),
        inline: 0,
    })
}

fn fault(alloc: Global, script: &ScriptData, text: &str) -> Option<FieldFault> {
    line_at(alloc, script, text.as_bytes()).err()
}

#[test]
fn each_line_is_read_and_written_again(rt: HostRuntime) -> Result<(), Fail> {
    let alloc = rt.alloc();
    let script = script(alloc)?;
    let mut rest = LINES.as_bytes();
    let mut again = Vec::new(alloc);
    let mut count = 0_u8;
    for _ in 0..46 {
        let (line, more) = line_at(alloc, &script, rest).expect(&rt, "a line");
        let text = line_text(alloc, &script, &line)?;
        again.extend_from_slice(text.as_slice())?;
        rest = more;
        count = count.wrapping_add(1);
    }
    assert_eq!(rt; count, 46);
    assert_eq!(rt; rest.len(), 0);
    assert_eq!(rt; again.as_slice(), LINES.as_bytes());
    Ok(())
}

#[test]
fn what_a_line_tells_is_read(rt: HostRuntime) -> Result<(), Fail> {
    let alloc = rt.alloc();
    let script = script(alloc)?;
    let (look, rest) = line_at(alloc, &script, b"3 d:14 closed 2\nend\n").expect(&rt, "a look");
    assert_eq!(rt; rest, b"end\n".as_slice());
    match look {
        Line::Result {
            step,
            answer: StepResult::State { length, size, .. },
        } => {
            assert_eq!(rt; step, 3);
            assert_eq!(rt; length, 14);
            assert_eq!(rt; size, 2);
        }
        _ => assert!(rt; false),
    }
    let (slot, _) = line_at(alloc, &script, b"1 a.2 give decode:flac 0\n").expect(&rt, "a slot");
    match slot {
        Line::Slot { place, entry } => {
            assert_eq!(rt; place, 1);
            assert!(rt; matches!(entry.by, By::Caller(who) if who.step == 2));
        }
        _ => assert!(rt; false),
    }
    Ok(())
}

fn told(step: u64, answer: StepResult) -> Line {
    Line::Result { step, answer }
}

#[test]
fn what_a_copy_tells_is_read(rt: HostRuntime) -> Result<(), Fail> {
    let alloc = rt.alloc();
    let script = script(alloc)?;
    let (audio, _) = line_at(alloc, &script, b"7 copied 2 00ff\n").expect(&rt, "a copy");
    let expected = StepResult::Copied {
        count: 2,
        bytes: Bytes::from_static(&[0, 255]),
    };
    assert!(rt; audio == told(7, expected));
    let (frame, _) = line_at(alloc, &script, b"8 copied 9 0:2,4:1 -\n").expect(&rt, "a frame");
    let expected = StepResult::CopiedFrame {
        count: 9,
        layouts: Layouts {
            count: 2,
            first: PlaneLayout {
                offset: 0,
                stride: 2,
            },
            second: PlaneLayout {
                offset: 4,
                stride: 1,
            },
            third: PlaneLayout {
                offset: 0,
                stride: 0,
            },
        },
        bytes: Bytes::new(),
    };
    assert!(rt; frame == told(8, expected));
    Ok(())
}

#[test]
fn what_a_take_tells_is_read(rt: HostRuntime) -> Result<(), Fail> {
    let alloc = rt.alloc();
    let script = script(alloc)?;
    let (found, _) = line_at(alloc, &script, b"4 d.7 unit 2\n").expect(&rt, "an output");
    let expected = StepResult::Unit {
        codec: 0,
        place: 7,
        number: 2,
    };
    assert!(rt; found == told(4, expected));
    let (none, _) = line_at(alloc, &script, b"5 d:8 none\n").expect(&rt, "no output");
    let expected = StepResult::NoUnit {
        codec: 0,
        length: 8,
    };
    assert!(rt; none == told(5, expected));
    let (line, _) = line_at(alloc, &script, b"7 a.4 take = 2\n").expect(&rt, "a take");
    let who = Who { caller: 0, step: 4 };
    let entry = EntryLine::Take { who, unit: 2 };
    assert!(rt; line == Line::Entry { place: 7, entry });
    Ok(())
}

#[test]
fn what_a_ground_tells_is_read(rt: HostRuntime) -> Result<(), Fail> {
    let alloc = rt.alloc();
    let script = script(alloc)?;
    let text = b"7 a.4 ground background-encoding = ok\n";
    let (line, _) = line_at(alloc, &script, text).expect(&rt, "a ground");
    let who = Who { caller: 0, step: 4 };
    let to = Ground::BackgroundEncoding;
    let entry = EntryLine::Ground { who, to };
    assert!(rt; line == Line::Entry { place: 7, entry });
    Ok(())
}

#[test]
fn what_an_entry_of_the_pool_tells_is_read(rt: HostRuntime) -> Result<(), Fail> {
    let alloc = rt.alloc();
    let script = script(alloc)?;
    let (line, _) = line_at(alloc, &script, b"3 d.4 end 2 5 gone\n").expect(&rt, "an end");
    let expected = PoolOp::End {
        resource: 2,
        reference: 5,
        last: true,
    };
    match line {
        Line::Reference { place, entry } => {
            assert_eq!(rt; place, 3);
            assert_eq!(rt; entry.by, By::Codec { codec: 0, place: 4 });
            assert_eq!(rt; entry.op, expected);
        }
        _ => assert!(rt; false),
    }
    Ok(())
}

#[test]
fn other_lines_are_refused(rt: HostRuntime) -> Result<(), Fail> {
    let alloc = rt.alloc();
    let script = script(alloc)?;
    let rows = [
        "",
        "end",
        "wcrun report 2\n",
        "caller b\n",
        "00 a.0 configure = ok\n",
        "0 d.0 configure = ok\n",
        "0 a.0  configure = ok\n",
        "  output audio s16 8000 1 2 0 251 01000200\n",
        "  output chunk key 0 - FF\n",
        "0 d.3 acquire decode:pcm-s16 full 1 1\n",
        "  config pcm\n-s16 8000 2 -\n",
        "0 copied 4\n",
        "0 copied 2 FF\n",
        "0 copied 4 0:2 00\n",
        "0 copied 4 0:1,1:1,2:1,3:1 00\n",
        "0 copied 4 0:1,4294967296:1 00\n",
        "0 size -\n",
        "0 d.1 make 0\n",
        "0 d.1 end 0 0 lost\n",
        "0 a.1 unit 2\n",
        "0 d.1 unit -\n",
        "0 d:1 none 2\n",
        "0 d.1 take = 2\n",
        "0 a.1 take 2\n",
    ];
    for row in rows {
        assert_eq!(rt;
            fault(alloc, &script, row),
            Some(FieldFault::NoField),
            "{row}"
        );
    }
    Ok(())
}
