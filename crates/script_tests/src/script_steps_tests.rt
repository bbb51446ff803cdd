// Steps that are read, and what is refused.
use json_data::Scratch;
use script_steps::{
    Files, Ports, StepWord, Stop, Variables, Wrong, copied, read_inline_data, read_step,
    word_member,
};
use script_types::{
    ChunkSource, CodecItem, InitData, Kind, MediaStep, Options, PortItem, PortKind, Step,
    VariableKind,
};
use std::alloc::Global;
use std::test::Fail;

fn codec(alloc: Global, name: &str, kind: Kind) -> Result<CodecItem, Stop<Wrong>> {
    Ok(CodecItem {
        name: copied(alloc, name)?,
        kind,
        saturation: 4,
    })
}

// A codec of each kind.
fn codecs(alloc: Global) -> Result<[CodecItem; 4], Stop<Wrong>> {
    Ok([
        codec(alloc, "decoder", Kind::AudioDecoder)?,
        codec(alloc, "encoder", Kind::AudioEncoder)?,
        codec(alloc, "video", Kind::VideoDecoder)?,
        codec(alloc, "pictures", Kind::VideoEncoder)?,
    ])
}

// A port of each kind.
fn ports(alloc: Global) -> Result<Ports, Stop<Wrong>> {
    let mut ports = Ports::new(alloc);
    for (name, of) in [("sounds", PortKind::Audio), ("views", PortKind::Frame)] {
        let name = copied(alloc, name)?;
        ports.push(Some(PortItem { name, of }))?;
    }
    Ok(ports)
}

fn read(
    alloc: Global,
    files: &mut Files,
    before: &Variables,
    text: &str,
) -> Result<Step, Stop<Wrong>> {
    let mut scratch = Scratch::new(alloc);
    let value = json_data::read(alloc, text.as_bytes(), &mut scratch)?.ok_or(Stop::NoMemory)?;
    let codecs = codecs(alloc)?;
    let ports = ports(alloc)?;
    let word = word_member(&value);
    let content = read_inline_data(alloc, word, &value)?;
    if before.len() > 100_000 || files.len() > 100_000 {
        return Err(Stop::NoMemory);
    }
    match word {
        Some(word) => read_step(alloc, &codecs, &ports, files, before, &value, word, content),
        None => Err(Stop::Fault(Wrong::Shape)),
    }
}

// Steps that define one variable of each kind: `chunk`, `promise`, `audio`, `frame` and `buffer`.
const BEFORE: [&str; 5] = [
    r#"{"do":"chunk","as":"chunk","file":"f","index":1}"#,
    r#"{"do":"flush","on":"decoder","as":"promise"}"#,
    r#"{"do":"audio","as":"audio","init":{}}"#,
    r#"{"do":"frame","as":"frame","init":{}}"#,
    r#"{"do":"buffer","as":"buffer","data":"00"}"#,
];

fn before(alloc: Global, files: &mut Files) -> Result<Variables, Stop<Wrong>> {
    let mut variables = Variables::new(alloc);
    for text in BEFORE {
        let step = read(alloc, files, &variables, text)?;
        variables.push(step)?;
    }
    Ok(variables)
}

fn read_after(alloc: Global, text: &str) -> Result<Step, Stop<Wrong>> {
    let mut files = Files::new(alloc);
    let before = before(alloc, &mut files)?;
    read(alloc, &mut files, &before, text)
}

// One step of each word, and an encode on either kind of encoder.
const EACH: [&str; 27] = [
    r#"{"do":"configure","on":"decoder","config":{}}"#,
    r#"{"do":"chunk","as":"x","init":{"type":"key","timestamp":1,"data":"00"}}"#,
    r#"{"do":"decode","on":"decoder","chunk":"chunk"}"#,
    r#"{"do":"flush","on":"encoder","as":"x"}"#,
    r#"{"do":"poll","promise":"promise"}"#,
    r#"{"do":"await","promise":"promise"}"#,
    r#"{"do":"reset","on":"video"}"#,
    r#"{"do":"close","on":"video"}"#,
    r#"{"do":"state","on":"encoder"}"#,
    r#"{"do":"ground","on":"encoder","to":"background-encoding"}"#,
    r#"{"do":"audio","as":"x","init":{"format":"u8"}}"#,
    r#"{"do":"frame","as":"x","init":{"format":"I420"}}"#,
    r#"{"do":"encode","on":"encoder","data":"audio"}"#,
    r#"{"do":"encode","on":"pictures","data":"frame"}"#,
    r#"{"do":"take","on":"decoder","as":"x"}"#,
    r#"{"do":"clone","of":"audio","as":"x"}"#,
    r#"{"do":"transfer","of":"frame","as":"x"}"#,
    r#"{"do":"close-data","of":"frame"}"#,
    r#"{"do":"copy","of":"frame","size":16777216,"options":{"rect":{}}}"#,
    r#"{"do":"size","of":"audio"}"#,
    r#"{"do":"size","of":"buffer"}"#,
    r#"{"do":"buffer","as":"x","data":""}"#,
    r#"{"do":"chunk","as":"x","init":{"data":{"buffer":"buffer"},"transfer":["buffer"]}}"#,
    r#"{"do":"audio","as":"x","init":{"data":{"buffer":"buffer"}}}"#,
    r#"{"do":"frame","as":"x","init":{"data":"00","transfer":["buffer","buffer"]}}"#,
    r#"{"do":"post","to":"sounds","data":"audio"}"#,
    r#"{"do":"receive","from":"views","as":"x"}"#,
];

#[test]
fn each_step_is_read(rt: HostRuntime) -> Result<(), Fail> {
    for text in EACH {
        let wrong = read_after(rt.alloc(), text).err();
        assert_eq!(rt; wrong, None, "{text}");
    }
    Ok(())
}

#[test]
fn others_are_wrong_in_shape(rt: HostRuntime) -> Result<(), Fail> {
    let rows = [
        "{}",
        r#"{"do":"sleep"}"#,
        r#"{"do":"reset","on":"Video"}"#,
        r#"{"do":"ground","on":"nobody"}"#,
        r#"{"do":"ground","on":"video","to":"Background"}"#,
        r#"{"do":"configure","on":"nobody","config":[]}"#,
        r#"{"do":"decode","on":"encoder","chunk":"chunk"}"#,
        r#"{"do":"decode","on":"nobody","chunk":"audio"}"#,
        r#"{"do":"encode","on":"decoder","data":"audio"}"#,
        r#"{"do":"encode","on":"encoder","data":"frame"}"#,
        r#"{"do":"encode","on":"pictures","data":"audio"}"#,
        r#"{"do":"encode","on":"video","data":"frame"}"#,
        r#"{"do":"encode","on":"nobody","data":"chunk"}"#,
        r#"{"do":"decode","on":"pictures","chunk":"chunk"}"#,
        r#"{"do":"poll","promise":"chunk"}"#,
        r#"{"do":"await","promise":"audio"}"#,
        r#"{"do":"audio","as":"audio","init":7}"#,
        r#"{"do":"frame","as":"x"}"#,
        r#"{"do":"clone","of":"chunk","as":"audio"}"#,
        r#"{"do":"transfer","of":"promise","as":"x"}"#,
        r#"{"do":"close-data","of":"chunk"}"#,
        r#"{"do":"copy","of":"promise","size":0}"#,
        r#"{"do":"copy","of":"frame","size":16777217}"#,
        r#"{"do":"copy","of":"frame"}"#,
        r#"{"do":"copy","of":"chunk","size":0,"options":0}"#,
        r#"{"do":"copy","of":"nobody","size":0,"options":0}"#,
        r#"{"do":"size","of":"chunk"}"#,
        r#"{"do":"copy","of":"buffer","size":1}"#,
        r#"{"do":"buffer","as":"x","data":{"buffer":"buffer"}}"#,
        r#"{"do":"audio","as":"x","init":{"data":{"buffer":"audio"}}}"#,
        r#"{"do":"audio","as":"x","init":{"data":{"buffer":"nobody"},"transfer":["chunk"]}}"#,
        r#"{"do":"frame","as":"x","init":{"transfer":"buffer"}}"#,
        r#"{"do":"frame","as":"x","init":{"transfer":[7,"nobody"]}}"#,
        r#"{"do":"frame","as":"x","init":{"transfer":["buffer","frame"]}}"#,
        r#"{"do":"frame","as":"x","init":{"transfer":null}}"#,
        r#"{"do":"audio","as":"x","init":{"data":{}}}"#,
        r#"{"do":"audio","as":"x","init":{"data":{"buffer":"A"}}}"#,
        r#"{"do":"audio","as":"audio","init":{"data":{"buffer":"promise"}}}"#,
        r#"{"do":"chunk","as":"x","init":{"data":[]}}"#,
        r#"{"do":"chunk","as":"x","file":"f","init":{"transfer":["buffer"]}}"#,
        r#"{"do":"buffer","as":"x"}"#,
        r#"{"do":"buffer","as":"x","data":"0"}"#,
        r#"{"do":"clone","of":"buffer","as":"x"}"#,
        r#"{"do":"close-data","of":"buffer"}"#,
        r#"{"do":"encode","on":"encoder","data":"buffer"}"#,
        r#"{"do":"post","to":"sounds","data":"frame"}"#,
        r#"{"do":"post","to":"views","data":"audio"}"#,
        r#"{"do":"post","to":"nowhere","data":"buffer"}"#,
        r#"{"do":"post","to":"sounds","data":"chunk"}"#,
        r#"{"do":"post","data":"audio"}"#,
        r#"{"do":"post","to":"nowhere"}"#,
        r#"{"do":"receive","from":"sounds"}"#,
        r#"{"do":"receive","from":"Sounds","as":"audio"}"#,
        r#"{"do":"chunk","as":"x","file":"f"}"#,
    ];
    for text in rows {
        let wrong = read_after(rt.alloc(), text).err();
        assert_eq!(rt; wrong, Some(Stop::Fault(Wrong::Shape)), "{text}");
    }
    Ok(())
}

#[test]
fn names_stand_twice_or_are_unknown(rt: HostRuntime) -> Result<(), Fail> {
    let rows = [
        (r#"{"do":"chunk","as":"chunk","init":{}}"#, Wrong::Twice),
        (r#"{"do":"flush","on":"nobody","as":"audio"}"#, Wrong::Twice),
        (r#"{"do":"audio","as":"frame","init":{}}"#, Wrong::Twice),
        (r#"{"do":"frame","as":"frame","init":{}}"#, Wrong::Twice),
        (
            r#"{"do":"take","on":"decoder","as":"promise"}"#,
            Wrong::Twice,
        ),
        (r#"{"do":"clone","of":"nobody","as":"audio"}"#, Wrong::Twice),
        (
            r#"{"do":"configure","on":"nobody","config":{"codec":7}}"#,
            Wrong::UnknownName,
        ),
        (
            r#"{"do":"decode","on":"nobody","chunk":"chunk"}"#,
            Wrong::UnknownName,
        ),
        (
            r#"{"do":"decode","on":"video","chunk":"nobody"}"#,
            Wrong::UnknownName,
        ),
        (
            r#"{"do":"encode","on":"encoder","data":"nobody"}"#,
            Wrong::UnknownName,
        ),
        (
            r#"{"do":"encode","on":"nobody","data":"frame"}"#,
            Wrong::UnknownName,
        ),
        (r#"{"do":"poll","promise":"decoder"}"#, Wrong::UnknownName),
        (r#"{"do":"reset","on":"audio"}"#, Wrong::UnknownName),
        (
            r#"{"do":"ground","on":"audio","to":"foreground"}"#,
            Wrong::UnknownName,
        ),
        (
            r#"{"do":"take","on":"nobody","as":"x"}"#,
            Wrong::UnknownName,
        ),
        (r#"{"do":"transfer","of":"x","as":"x"}"#, Wrong::UnknownName),
        (r#"{"do":"close-data","of":"nobody"}"#, Wrong::UnknownName),
        (
            r#"{"do":"copy","of":"nobody","size":0,"options":{"rect":7}}"#,
            Wrong::UnknownName,
        ),
        (r#"{"do":"size","of":"nobody"}"#, Wrong::UnknownName),
        (r#"{"do":"buffer","as":"buffer","data":""}"#, Wrong::Twice),
        (
            r#"{"do":"audio","as":"x","init":{"data":{"buffer":"nobody"}}}"#,
            Wrong::UnknownName,
        ),
        (
            r#"{"do":"frame","as":"x","init":{"transfer":["buffer","nobody"]}}"#,
            Wrong::UnknownName,
        ),
        (
            r#"{"do":"chunk","as":"x","init":{"data":{"buffer":"x"},"transfer":["x"]}}"#,
            Wrong::UnknownName,
        ),
        (
            r#"{"do":"frame","as":"frame","init":{"transfer":["nobody"]}}"#,
            Wrong::Twice,
        ),
        (
            r#"{"do":"audio","as":"buffer","init":{"data":{"buffer":"nobody"}}}"#,
            Wrong::Twice,
        ),
        (
            r#"{"do":"post","to":"sounds","data":"nobody"}"#,
            Wrong::UnknownName,
        ),
        (
            r#"{"do":"post","to":"nowhere","data":"frame"}"#,
            Wrong::UnknownName,
        ),
        (
            r#"{"do":"post","to":"audio","data":"audio"}"#,
            Wrong::UnknownName,
        ),
        (
            r#"{"do":"receive","from":"nowhere","as":"x"}"#,
            Wrong::UnknownName,
        ),
        (
            r#"{"do":"receive","from":"nowhere","as":"audio"}"#,
            Wrong::Twice,
        ),
    ];
    for (text, wrong) in rows {
        let stop = Some(Stop::Fault(wrong));
        assert_eq!(rt; read_after(rt.alloc(), text).err(), stop, "{text}");
    }
    Ok(())
}

fn file_of(step: &Option<Step>) -> Option<(u32, u64)> {
    match step {
        Some(
            Step::Chunk {
                bind: _,
                source: ChunkSource::File { file, index },
            },
        ) => Some((*file, *index)),
        _ => None,
    }
}

#[test]
fn files_are_numbered(rt: HostRuntime) -> Result<(), Fail> {
    let mut files = Files::new(rt.alloc());
    let before = before(rt.alloc(), &mut files).expect(&rt, "steps");
    let rows = [
        (r#"{"do":"chunk","as":"x","file":"g","index":7}"#, (1, 7)),
        (r#"{"do":"chunk","as":"y","file":"f","index":0}"#, (0, 0)),
        (r#"{"do":"chunk","as":"z","file":"g","index":8}"#, (1, 8)),
    ];
    for (text, file) in rows {
        let step = read(rt.alloc(), &mut files, &before, text).ok();
        assert_eq!(rt; file_of(&step), Some(file), "{text}");
    }
    assert_eq!(rt; files.len(), 2);
    Ok(())
}

fn kind_of(step: &Option<Step>) -> Option<VariableKind> {
    match step {
        Some(Step::Media(MediaStep::Take { kind, .. })) => Some(*kind),
        Some(Step::Media(MediaStep::Receive { kind, .. })) => Some(*kind),
        Some(
            Step::Media(
                MediaStep::Copy {
                    of,
                    options: Options::Nothing,
                    size: 3,
                },
            ),
        ) => Some(of.kind),
        _ => None,
    }
}

#[test]
fn kinds_come_with_what_is_found(rt: HostRuntime) -> Result<(), Fail> {
    let rows = [
        (
            r#"{"do":"take","on":"encoder","as":"x"}"#,
            VariableKind::Chunk,
        ),
        (
            r#"{"do":"take","on":"video","as":"x"}"#,
            VariableKind::Frame,
        ),
        (
            r#"{"do":"take","on":"pictures","as":"x"}"#,
            VariableKind::Chunk,
        ),
        (
            r#"{"do":"copy","of":"chunk","size":3}"#,
            VariableKind::Chunk,
        ),
        (
            r#"{"do":"receive","from":"sounds","as":"x"}"#,
            VariableKind::Audio,
        ),
        (
            r#"{"do":"receive","from":"views","as":"x"}"#,
            VariableKind::Frame,
        ),
    ];
    for (text, kind) in rows {
        let step = read_after(rt.alloc(), text).ok();
        assert_eq!(rt; kind_of(&step), Some(kind), "{text}");
    }
    Ok(())
}

// How many buffers an init lists, and whether its data is a buffer's.
fn buffers_of(step: &Option<Step>) -> Option<(usize, bool)> {
    match step {
        Some(Step::Media(MediaStep::Buffered { bind: _, init })) => {
            let is_named = matches!(init.content, InitData::Buffer(_));
            Some((init.transfer.len(), is_named))
        }
        _ => None,
    }
}

#[test]
fn inits_name_buffers(rt: HostRuntime) -> Result<(), Fail> {
    let rows = [
        (r#","data":{"buffer":"buffer"}"#, Some((0, true))),
        (r#","data":"00","transfer":[]"#, Some((0, false))),
        (
            r#","data":"00","transfer":["buffer","buffer"]"#,
            Some((2, false)),
        ),
        (
            r#","data":{"buffer":"buffer"},"transfer":["buffer"]"#,
            Some((1, true)),
        ),
        (r#","data":"00""#, None),
        (r#","transfer":["buffer"]"#, None),
    ];
    for (members, buffers) in rows {
        let start = r#"{"do":"chunk","as":"x","init":{"type":"key","timestamp":0"#;
        let text = format!(in rt.alloc(); "{start}{members}}}}}")?;
        let step = read_after(rt.alloc(), &text).ok();
        assert_eq!(rt; buffers_of(&step), buffers, "{members}");
    }
    Ok(())
}

#[test]
fn a_list_has_at_most_16_buffers(rt: HostRuntime) -> Result<(), Fail> {
    for (many, wrong) in [(16, None), (17, Some(Stop::Fault(Wrong::Shape)))] {
        let mut text = String::from_str(
            rt.alloc(),
            r#"{"do":"frame","as":"x","init":{"transfer":["buffer""#,
        )?;
        for _ in 1..many {
            text.push_str(r#","buffer""#)?;
        }
        text.push_str("]}}")?;
        assert_eq!(rt; read_after(rt.alloc(), &text).err(), wrong, "{many}");
    }
    Ok(())
}
