// Scripts that are read, and what is refused.
use script_types::{ChunkSource, OrderItem, Step};
use std::alloc::Global;
use std::test::Fail;
use wc_base::Text;
use wc_script::{Counted, Fault, Place, Script, Stop, Wrong, read_script};

// Two codecs and two callers; three mentions of two chunk files.
const ORDINARY: &str = r#"{"codecs":[{"name":"d","kind":"audio-decoder"},
  {"name":"v","kind":"video-decoder","saturation":64}],
 "callers":[{"name":"a","steps":[
  {"do":"configure","on":"d","config":{"codec":"pcm-s16","sampleRate":8000,"numberOfChannels":1}},
  {"do":"chunk","as":"c","file":"b.wcch","index":3},
  {"do":"decode","on":"d","chunk":"c"},
  {"do":"flush","on":"d","as":"p"},
  {"do":"await","promise":"p"}]},
 {"name":"b","steps":[
  {"do":"chunk","as":"c","file":"a.wcch","index":0},
  {"do":"chunk","as":"e","file":"b.wcch","index":18446744073709551615},
  {"do":"chunk","as":"f","init":{"type":"key","timestamp":-7,"data":"01000aFf"}}]}],
 "order":["a","a","b",{"start":"d"},{"done":"d","at":18446744073709551615},{"turn":"v"},"a","b","a","b","a",
  {"reclaim":"v","at":7}]}"#;

fn step_of(script: &Script, caller: usize, step: usize) -> Option<&Step> {
    let caller = script.data().callers.as_slice().get(caller)?;
    caller.steps.as_slice().get(step)
}

// The chunk file and the number of the chunk, of a step that takes a chunk from a file.
fn file_of(script: &Script, caller: usize, step: usize) -> Option<(u32, u64)> {
    match step_of(script, caller, step)? {
        Step::Chunk { bind: _, source } => match source {
            ChunkSource::File { file, index } => Some((*file, *index)),
            ChunkSource::Init(_) => None,
        },
        _ => None,
    }
}

#[test]
fn files_are_numbered_over_all_callers(rt: HostRuntime) -> Result<(), Fail> {
    let script = read_script(rt.alloc(), ORDINARY.as_bytes()).expect(&rt, "a script");
    assert_eq!(rt; script.files().len(), 2);
    assert_eq!(rt; script.files().get(0).map(Text::as_str), Some("b.wcch"));
    assert_eq!(rt; script.files().get(1).map(Text::as_str), Some("a.wcch"));
    let rows = [
        (0, 1, Some((0, 3))),
        (1, 0, Some((1, 0))),
        (1, 1, Some((0, u64::MAX))),
        (1, 2, None),
    ];
    for (caller, step, file) in rows {
        assert_eq!(rt; file_of(&script, caller, step), file, "{caller} {step}");
    }
    Ok(())
}

fn order_of(script: &Script, i: usize) -> Option<OrderItem> {
    match &script.data().order {
        Some(order) => order.as_slice().get(i).copied(),
        None => None,
    }
}

#[test]
fn all_is_where_it_was_written(rt: HostRuntime) -> Result<(), Fail> {
    let script = read_script(rt.alloc(), ORDINARY.as_bytes()).expect(&rt, "a script");
    assert_eq!(rt; script.data().codecs.len(), 2);
    assert_eq!(rt; script.data().callers.len(), 2);
    let await_step = step_of(&script, 0, 4);
    assert!(rt; matches!(await_step, Some(Step::Await { promise }) if promise.step == 3));
    assert_eq!(rt; order_of(&script, 2), Some(OrderItem::Caller(1)));
    let done = OrderItem::Done {
        codec: 0,
        at: u64::MAX,
    };
    assert_eq!(rt; order_of(&script, 4), Some(done));
    assert_eq!(rt; order_of(&script, 5), Some(OrderItem::Turn(1)));
    Ok(())
}

// What is told of this wrong at a place.
fn told_at(place: Place, wrong: Wrong) -> Option<Stop<Fault>> {
    Some(Stop::Fault(Fault::At { place, wrong }))
}

fn told(rt: &HostRuntime, text: &[u8]) -> Option<Stop<Fault>> {
    read_script(rt.alloc(), text).err()
}

#[test]
fn the_top_value_has_its_shape(rt: HostRuntime) -> Result<(), Fail> {
    for text in ["{", "", "\u{feff}{}"] {
        let fault = Some(Stop::Fault(Fault::NotJson));
        assert_eq!(rt; told(&rt, text.as_bytes()), fault, "{text}");
    }
    let rows = [
        ("[]", true),
        (r#"{"codecs":[]}"#, true),
        (r#"{"callers":[]}"#, true),
        (r#"{"codecs":[],"callers":[]}"#, false),
        (r#"{"codecs":[],"callers":[],"order":[]}"#, false),
        (r#"{"codecs":[],"callers":[],"order":null}"#, true),
        (r#"{"codecs":[],"callers":[],"order":{}}"#, true),
    ];
    for (text, is_faulty) in rows {
        let fault = if is_faulty {
            told_at(Place::Top, Wrong::Shape)
        } else {
            None
        };
        assert_eq!(rt; told(&rt, text.as_bytes()), fault, "{text}");
    }
    Ok(())
}

#[test]
fn bytes_that_are_no_text_are_no_json(rt: HostRuntime) -> Result<(), Fail> {
    let fault = Some(Stop::Fault(Fault::NotJson));
    assert_eq!(rt; told(&rt, &[0x22, 0xff, 0x22]), fault);
    Ok(())
}

#[test]
fn a_script_may_have_no_order(rt: HostRuntime) -> Result<(), Fail> {
    let text = r#"{"codecs":[{"name":"d","kind":"audio-encoder"}],
     "callers":[{"name":"a","steps":[{"do":"close","on":"d"}]}]}"#;
    let script = read_script(rt.alloc(), text.as_bytes()).expect(&rt, "a script");
    assert!(rt; script.data().order.is_none());
    Ok(())
}

// The ordinary script with one text in another's place.
fn read_changed(rt: &HostRuntime, old: &str, new: &str) -> Result<Option<Stop<Fault>>, Fail> {
    let text = ORDINARY.replace(rt.alloc(), old, new)?;
    Ok(read_script(rt.alloc(), text.as_bytes()).err())
}

#[test]
fn shape_is_told_with_its_place(rt: HostRuntime) -> Result<(), Fail> {
    let rows = [
        ("audio-decoder", "flac", Place::Codec(0)),
        ("\"saturation\":64", "\"saturation\":65", Place::Codec(1)),
        ("\"saturation\":64", "\"saturation\":1.5", Place::Codec(1)),
        ("{\"name\":\"b\",", "{\"name\":\"B\",", Place::Caller(1)),
        ("\"do\":\"await\"", "\"do\":\"wait\"", Place::Step(0, 4)),
        ("\"promise\":\"p\"", "\"promise\":\"c\"", Place::Step(0, 4)),
        ("\"index\":0", "\"index\":-1", Place::Step(1, 0)),
        ("01000aFf", "01000aF", Place::Step(1, 2)),
        (
            "{\"turn\":\"v\"}",
            "{\"turn\":\"v\",\"start\":\"d\"}",
            Place::Order(5),
        ),
        ("\"at\":7", "\"at\":7.0", Place::Order(11)),
        ("{\"turn\":\"v\"}", "\"a\"", Place::Top),
    ];
    for (old, new, place) in rows {
        assert_eq!(rt;
            read_changed(&rt, old, new)?,
            told_at(place, Wrong::Shape),
            "{new}"
        );
    }
    Ok(())
}

#[test]
fn names_are_told_with_their_place(rt: HostRuntime) -> Result<(), Fail> {
    let rows = [
        ("\"name\":\"v\"", "\"name\":\"d\"", true, Place::Codec(1)),
        ("\"name\":\"b\"", "\"name\":\"a\"", true, Place::Caller(1)),
        ("\"name\":\"b\"", "\"name\":\"v\"", true, Place::Caller(1)),
        ("\"as\":\"p\"", "\"as\":\"c\"", true, Place::Step(0, 3)),
        ("\"as\":\"f\"", "\"as\":\"e\"", true, Place::Step(1, 2)),
        (
            "\"on\":\"d\",\"as\"",
            "\"on\":\"x\",\"as\"",
            false,
            Place::Step(0, 3),
        ),
        (
            "\"promise\":\"p\"",
            "\"promise\":\"x\"",
            false,
            Place::Step(0, 4),
        ),
        (
            "{\"turn\":\"v\"}",
            "{\"turn\":\"a\"}",
            false,
            Place::Order(5),
        ),
        ("{\"turn\":\"v\"}", "\"d\"", false, Place::Order(5)),
    ];
    for (old, new, twice, place) in rows {
        let wrong = if twice {
            Wrong::Twice
        } else {
            Wrong::UnknownName
        };
        assert_eq!(rt;
            read_changed(&rt, old, new)?,
            told_at(place, wrong),
            "{new}"
        );
    }
    Ok(())
}

// A codec, a caller, and ports.
const PORTED: &str = r#"{"codecs":[{"name":"d","kind":"audio-decoder"}],
 "callers":[{"name":"a","steps":[]}],"ports":PORTS}"#;

#[test]
fn ports_are_told_at_the_top(rt: HostRuntime) -> Result<(), Fail> {
    let rows = [
        ("[]", None),
        (
            r#"[{"name":"p","of":"audio"},{"name":"q","of":"frame"}]"#,
            None,
        ),
        ("null", Some(Wrong::Shape)),
        ("{}", Some(Wrong::Shape)),
        ("[7]", Some(Wrong::Shape)),
        (r#"[{"name":"P","of":"audio"}]"#, Some(Wrong::Shape)),
        (r#"[{"name":"p"}]"#, Some(Wrong::Shape)),
        (r#"[{"name":"p","of":"chunk"}]"#, Some(Wrong::Shape)),
        (
            r#"[{"name":"p","of":"audio"},{"name":"p","of":"frame"}]"#,
            Some(Wrong::Twice),
        ),
        (r#"[{"name":"a","of":"audio"}]"#, Some(Wrong::Twice)),
        (r#"[{"name":"d","of":"audio"}]"#, Some(Wrong::Twice)),
        (r#"[{"name":"d","of":"audio"},{}]"#, Some(Wrong::Shape)),
    ];
    for (ports, wrong) in rows {
        let text = PORTED.replace(rt.alloc(), "PORTS", ports)?;
        let fault = match wrong {
            Some(wrong) => told_at(Place::Top, wrong),
            None => None,
        };
        assert_eq!(rt; told(&rt, text.as_bytes()), fault, "{ports}");
    }
    Ok(())
}

// A caller that receives and posts, with an order and ports.
const POSTED: &str = r#"{"codecs":[],"callers":[{"name":"a","steps":[
  {"do":"receive","from":"p","as":"x"},
  {"do":"post","to":"q","data":"x"}]}],"order":ORDER,"ports":PORTS}"#;

#[test]
fn ports_are_told_between_the_items_and_the_turns(rt: HostRuntime) -> Result<(), Fail> {
    let right = r#"[{"name":"p","of":"audio"},{"name":"q","of":"audio"}]"#;
    let shape = r#"[{"name":"p","of":"audio"},{"name":"q","of":"audio"},7]"#;
    let twice =
        r#"[{"name":"p","of":"audio"},{"name":"q","of":"audio"},{"name":"a","of":"audio"}]"#;
    let both =
        r#"[{"name":"p","of":"audio"},{"name":"q","of":"audio"},{"name":"a","of":"audio"},7]"#;
    let rows = [
        (r#"["a","a"]"#, right, None),
        (r#"["a"]"#, right, told_at(Place::Top, Wrong::Shape)),
        (r#"["a"]"#, twice, told_at(Place::Top, Wrong::Twice)),
        (r#"["a","a"]"#, twice, told_at(Place::Top, Wrong::Twice)),
        (r#"["a","a"]"#, both, told_at(Place::Top, Wrong::Shape)),
        (
            r#"["b"]"#,
            shape,
            told_at(Place::Order(0), Wrong::UnknownName),
        ),
        (r#"["a",7]"#, twice, told_at(Place::Order(1), Wrong::Shape)),
    ];
    for (order, ports, fault) in rows {
        let text = POSTED.replace(rt.alloc(), "ORDER", order)?;
        let text = text.replace(rt.alloc(), "PORTS", ports)?;
        assert_eq!(rt; told(&rt, text.as_bytes()), fault, "{order} {ports}");
    }
    Ok(())
}

#[test]
fn steps_name_the_first_port_that_is_one(rt: HostRuntime) -> Result<(), Fail> {
    let rows = [
        ("[]", Place::Step(0, 0), Wrong::UnknownName),
        (
            r#"[7,{"name":"q","of":"audio"}]"#,
            Place::Step(0, 0),
            Wrong::UnknownName,
        ),
        (
            r#"[{"name":"p","of":"audio"},{"name":"q","of":"chunk"}]"#,
            Place::Step(0, 1),
            Wrong::UnknownName,
        ),
        (
            r#"[{"name":"p","of":"audio"},{"name":"q","of":"frame"},{"name":"q","of":"audio"}]"#,
            Place::Step(0, 1),
            Wrong::Shape,
        ),
        (
            r#"[{"name":"p","of":"audio"},{"name":"q","of":"chunk"},{"name":"q","of":"audio"}]"#,
            Place::Top,
            Wrong::Shape,
        ),
    ];
    for (ports, place, wrong) in rows {
        let text = POSTED.replace(rt.alloc(), "ORDER", r#"["a","a"]"#)?;
        let text = text.replace(rt.alloc(), "PORTS", ports)?;
        assert_eq!(rt;
            told(&rt, text.as_bytes()),
            told_at(place, wrong),
            "{ports}"
        );
    }
    Ok(())
}

#[test]
fn there_are_at_most_64_ports(rt: HostRuntime) -> Result<(), Fail> {
    for (many, is_faulty) in [(64, false), (65, true)] {
        let mut ports = String::from_str(rt.alloc(), "[")?;
        for i in 0..many {
            let comma = if i == 0 { "" } else { "," };
            let port = format!(in rt.alloc(); "{comma}{{\"name\":\"p{i}\",\"of\":\"frame\"}}")?;
            ports.push_str(&port)?;
        }
        ports.push_str("]")?;
        let text = PORTED.replace(rt.alloc(), "PORTS", &ports)?;
        let fault = if is_faulty {
            told_at(Place::Top, Wrong::Shape)
        } else {
            None
        };
        assert_eq!(rt; told(&rt, text.as_bytes()), fault, "{many}");
    }
    Ok(())
}

// So many pieces of text, each with a comma before it but the first.
fn push_many(text: &mut String, many: usize, piece: &str) -> Result<(), Fail> {
    for i in 0..many {
        text.push_str(if i == 0 { "" } else { "," })?;
        text.push_str(piece)?;
    }
    Ok(())
}

fn push_codecs(alloc: Global, text: &mut String, codecs: usize) -> Result<(), Fail> {
    for i in 0..codecs {
        let comma = if i == 0 { "" } else { "," };
        let codec = format!(in alloc; "{comma}{{\"name\":\"d{i}\",\"kind\":\"audio-decoder\"}}")?;
        text.push_str(&codec)?;
    }
    Ok(())
}

fn push_callers(
    alloc: Global,
    text: &mut String,
    callers: usize,
    steps: usize,
) -> Result<(), Fail> {
    for i in 0..callers {
        let comma = if i == 0 { "" } else { "," };
        let caller = format!(in alloc; "{comma}{{\"name\":\"c{i}\",\"steps\":[")?;
        text.push_str(&caller)?;
        push_many(text, steps, "{\"do\":\"reset\",\"on\":\"d0\"}")?;
        text.push_str("]}")?;
    }
    Ok(())
}

// A script with so many codecs, callers, and steps of each caller.
fn read_many(
    rt: &HostRuntime,
    codecs: usize,
    callers: usize,
    steps: usize,
) -> Result<Option<Stop<Fault>>, Fail> {
    let mut text = String::from_str(rt.alloc(), "{\"codecs\":[")?;
    push_codecs(rt.alloc(), &mut text, codecs)?;
    text.push_str("],\"callers\":[")?;
    push_callers(rt.alloc(), &mut text, callers, steps)?;
    text.push_str("]}")?;
    Ok(read_script(rt.alloc(), text.as_bytes()).err())
}

#[test]
fn counts_have_their_limits(rt: HostRuntime) -> Result<(), Fail> {
    let rows = [
        (64, 16, 1, None),
        (65, 17, 1, Some(Counted::Codecs)),
        (64, 17, 1, Some(Counted::Callers)),
        (1, 2, 50_001, Some(Counted::Steps)),
    ];
    for (codecs, callers, steps, what) in rows {
        assert_eq!(rt;
            read_many(&rt, codecs, callers, steps)?,
            what.map(|what| Stop::Fault(Fault::TooMany(what))),
            "{codecs} {callers} {steps}"
        );
    }
    Ok(())
}
