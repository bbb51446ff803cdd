// What single objects spell: a value, no value, where a rule of WebIDL is broken, or a fault of shape.
use json_data::{Scratch, Value};
use script_steps::{
    SourceWords, Stop, Wrong, object_member, read_options, read_picture_init, read_sound_init,
    read_source, read_step_data,
};
use script_types::{FrameOptions, Options, PictureInit, RectWords, SoundInit, VariableKind};
use std::alloc::Global;
use std::test::Fail;
use wc_base::{PictureFormat, SampleFormat};

fn parse<'a>(
    alloc: Global,
    text: &'a str,
    scratch: &'a mut Scratch,
) -> Result<Value<'a>, Stop<Wrong>> {
    json_data::read(alloc, text.as_bytes(), scratch)?.ok_or(Stop::NoMemory)
}

fn sound(alloc: Global, text: &str) -> Result<Option<SoundInit>, Stop<Wrong>> {
    let mut scratch = Scratch::new(alloc);
    let value = parse(alloc, text, &mut scratch)?;
    let content = read_step_data(alloc, &value)?;
    read_sound_init(object_member(&value, "init")?, content)
}

const SOUND: &str = r#"{"init":{"format":"s16-planar","sampleRate":8000,"numberOfFrames":2,
 "numberOfChannels":1,"timestamp":-7,"data":"01000aFf"}}"#;

#[test]
fn audio_data_is_read(rt: HostRuntime) -> Result<(), Fail> {
    let init = sound(rt.alloc(), SOUND).expect(&rt, "no fault");
    let init = init.expect(&rt, "an init");
    assert_eq!(rt; init.shape.format, SampleFormat::S16Planar);
    assert_eq!(rt;
        (init.shape.rate, init.shape.frames, init.shape.channels),
        (8000, 2, 1)
    );
    assert_eq!(rt; init.shape.timestamp, -7);
    assert_eq!(rt; init.content.as_slice(), [1, 0, 10, 255].as_slice());
    Ok(())
}

#[test]
fn audio_data_breaks_rules(rt: HostRuntime) -> Result<(), Fail> {
    let rows = [
        ("s16-planar", "f32", Ok(false)),
        ("\"s16-planar\"", "7", Err(Stop::Fault(Wrong::Shape))),
        ("\"format\"", "\"\"", Ok(false)),
        ("8000", "4294967295", Ok(true)),
        ("8000", "4294967296", Ok(false)),
        ("8000", "-1", Ok(false)),
        ("8000", "8e3", Err(Stop::Fault(Wrong::Shape))),
        ("\"sampleRate\"", "\"\"", Ok(false)),
        ("\"numberOfFrames\"", "\"\"", Ok(false)),
        ("\"numberOfChannels\"", "\"\"", Ok(false)),
        ("\"timestamp\"", "\"\"", Ok(false)),
        ("-7", "-9007199254740992", Ok(false)),
        ("-7", "\"-7\"", Err(Stop::Fault(Wrong::Shape))),
        ("\"data\"", "\"\"", Ok(false)),
        ("01000aFf", "01000aF", Err(Stop::Fault(Wrong::Shape))),
        (
            "s16-planar\",\"sampleRate\":8000",
            "\",\"sampleRate\":null",
            Err(Stop::Fault(Wrong::Shape)),
        ),
        ("\"init\"", "\"\"", Err(Stop::Fault(Wrong::Shape))),
    ];
    for (old, new, answer) in rows {
        let text = SOUND.replace(rt.alloc(), old, new)?;
        let init = sound(rt.alloc(), text.as_str()).map(|init| init.is_some());
        assert_eq!(rt; init, answer, "{new}");
    }
    Ok(())
}

fn picture(alloc: Global, text: &str) -> Result<Option<PictureInit>, Stop<Wrong>> {
    let mut scratch = Scratch::new(alloc);
    let value = parse(alloc, text, &mut scratch)?;
    let content = read_step_data(alloc, &value)?;
    read_picture_init(object_member(&value, "init")?, content)
}

const PICTURE: &str = r#"{"init":{"format":"NV12","codedWidth":2,"codedHeight":1,"timestamp":9,
 "duration":5,"data":""}}"#;

#[test]
fn a_frame_is_read(rt: HostRuntime) -> Result<(), Fail> {
    let init = picture(rt.alloc(), PICTURE).expect(&rt, "no fault");
    let init = init.expect(&rt, "an init");
    assert_eq!(rt; init.shape.format, PictureFormat::Nv12);
    assert_eq!(rt; (init.shape.width, init.shape.height), (2, 1));
    assert_eq!(rt; (init.shape.timestamp, init.shape.duration), (9, Some(5)));
    assert_eq!(rt; init.content.as_slice().len(), 0);
    Ok(())
}

#[test]
fn a_frame_breaks_rules(rt: HostRuntime) -> Result<(), Fail> {
    let rows = [
        ("NV12", "nv12", Ok(false)),
        ("\"NV12\"", "null", Err(Stop::Fault(Wrong::Shape))),
        ("\"format\"", "\"\"", Ok(false)),
        ("\"codedWidth\"", "\"\"", Ok(false)),
        ("\"codedHeight\"", "\"\"", Ok(false)),
        (
            "\"codedHeight\":1",
            "\"codedHeight\":1.0",
            Err(Stop::Fault(Wrong::Shape)),
        ),
        ("\"timestamp\"", "\"\"", Ok(false)),
        ("\"duration\"", "\"\"", Ok(true)),
        ("\"duration\":5", "\"duration\":-5", Ok(false)),
        (
            "\"duration\":5",
            "\"duration\":[]",
            Err(Stop::Fault(Wrong::Shape)),
        ),
        ("\"data\"", "\"\"", Ok(false)),
    ];
    for (old, new, answer) in rows {
        let text = PICTURE.replace(rt.alloc(), old, new)?;
        let init = picture(rt.alloc(), text.as_str()).map(|init| init.is_some());
        assert_eq!(rt; init, answer, "{new}");
    }
    Ok(())
}

fn options(alloc: Global, kind: VariableKind, text: &str) -> Result<Options, Stop<Wrong>> {
    let mut scratch = Scratch::new(alloc);
    let value = parse(alloc, text, &mut scratch)?;
    read_options(alloc, kind, Some(&value))
}

fn audio_options(alloc: Global, text: &str) -> Result<bool, Stop<Wrong>> {
    match options(alloc, VariableKind::Audio, text)? {
        Options::Audio(options) => Ok(options.is_some()),
        _ => Err(Stop::Fault(Wrong::Shape)),
    }
}

#[test]
fn audio_options_are_read(rt: HostRuntime) -> Result<(), Fail> {
    let rows = [
        (r#"{"planeIndex":0}"#, Ok(true)),
        ("{}", Ok(false)),
        ("[]", Err(Stop::Fault(Wrong::Shape))),
        (r#"{"planeIndex":-1}"#, Ok(false)),
        (r#"{"planeIndex":"0"}"#, Err(Stop::Fault(Wrong::Shape))),
        (r#"{"planeIndex":0,"frameOffset":4294967296}"#, Ok(false)),
        (r#"{"planeIndex":0,"frameCount":-1}"#, Ok(false)),
        (
            r#"{"planeIndex":0,"frameCount":null}"#,
            Err(Stop::Fault(Wrong::Shape)),
        ),
        (r#"{"planeIndex":0,"format":"f32-planar"}"#, Ok(true)),
        (r#"{"planeIndex":0,"format":"f64"}"#, Ok(false)),
        (r#"{"format":32}"#, Err(Stop::Fault(Wrong::Shape))),
    ];
    for (text, answer) in rows {
        assert_eq!(rt; audio_options(rt.alloc(), text), answer, "{text}");
    }
    Ok(())
}

fn frame_options(alloc: Global, text: &str) -> Result<Option<FrameOptions>, Stop<Wrong>> {
    match options(alloc, VariableKind::Frame, text)? {
        Options::Frame(options) => Ok(options),
        _ => Err(Stop::Fault(Wrong::Shape)),
    }
}

#[test]
fn frame_options_are_read(rt: HostRuntime) -> Result<(), Fail> {
    let rows = [
        ("{}", Ok(true)),
        (r#"{"rect":{}}"#, Ok(true)),
        (r#"{"rect":{"x":-1}}"#, Ok(false)),
        (r#"{"rect":{"height":0.5}}"#, Err(Stop::Fault(Wrong::Shape))),
        (r#"{"rect":[]}"#, Err(Stop::Fault(Wrong::Shape))),
        (r#"{"layout":[]}"#, Ok(true)),
        (r#"{"layout":{}}"#, Err(Stop::Fault(Wrong::Shape))),
        (
            r#"{"layout":[{"offset":0,"stride":2},{"offset":8}]}"#,
            Ok(false),
        ),
        (
            r#"{"layout":[{"stride":2},7]}"#,
            Err(Stop::Fault(Wrong::Shape)),
        ),
    ];
    for (text, answer) in rows {
        let options = frame_options(rt.alloc(), text).map(|o| o.is_some());
        assert_eq!(rt; options, answer, "{text}");
    }
    let text =
        r#"{"rect":{"y":3,"width":2},"layout":[{"offset":1,"stride":2},{"offset":8,"stride":4}]}"#;
    let options = frame_options(rt.alloc(), text).expect(&rt, "no fault");
    let options = options.expect(&rt, "options");
    let rect = RectWords {
        x: 0,
        y: 3,
        width: 2,
        height: 0,
    };
    assert_eq!(rt; options.rect, Some(rect));
    assert_eq!(rt; options.layout.map(|l| l.len()), Some(2));
    Ok(())
}

#[test]
fn absent_options_are_an_empty_object(rt: HostRuntime) -> Result<(), Fail> {
    let audio = read_options(rt.alloc(), VariableKind::Audio, None);
    assert_eq!(rt; audio, Ok(Options::Audio(None)));
    let frame = read_options(rt.alloc(), VariableKind::Frame, None);
    let empty = FrameOptions {
        rect: None,
        layout: None,
    };
    assert_eq!(rt; frame, Ok(Options::Frame(Some(empty))));
    let chunk = options(rt.alloc(), VariableKind::Chunk, r#"{"planeIndex":"?"}"#);
    assert_eq!(rt; chunk, Ok(Options::Nothing));
    let chunk = options(rt.alloc(), VariableKind::Chunk, "0");
    assert_eq!(rt; chunk, Err(Stop::Fault(Wrong::Shape)));
    Ok(())
}

// Whether a chunk is made, with a value or without, or taken from a file.
fn source(alloc: Global, text: &str) -> Result<&'static str, Stop<Wrong>> {
    let mut scratch = Scratch::new(alloc);
    let value = parse(alloc, text, &mut scratch)?;
    let content = read_step_data(alloc, &value)?;
    match read_source(alloc, &value, content)? {
        SourceWords::Init(Some(_)) => Ok("made"),
        SourceWords::Init(None) => Ok("broken"),
        SourceWords::File { name: _, index: _ } => Ok("file"),
    }
}

#[test]
fn sources_are_read(rt: HostRuntime) -> Result<(), Fail> {
    let rows = [
        (
            r#"{"init":{"type":"key","timestamp":1,"data":"00"}}"#,
            Ok("made"),
        ),
        (
            r#"{"init":{"type":"keys","timestamp":1,"data":"00"}}"#,
            Ok("broken"),
        ),
        (r#"{"init":{}}"#, Ok("broken")),
        (r#"{"init":[]}"#, Err(Stop::Fault(Wrong::Shape))),
        (r#"{"file":"","index":18446744073709551615}"#, Ok("file")),
        (r#"{"file":"f","index":-1}"#, Err(Stop::Fault(Wrong::Shape))),
        (r#"{"file":7,"index":0}"#, Err(Stop::Fault(Wrong::Shape))),
        (r#"{"file":"f"}"#, Err(Stop::Fault(Wrong::Shape))),
        (r#"{"index":0}"#, Err(Stop::Fault(Wrong::Shape))),
        (
            r#"{"init":{},"file":"f","index":0}"#,
            Err(Stop::Fault(Wrong::Shape)),
        ),
        ("{}", Err(Stop::Fault(Wrong::Shape))),
    ];
    for (text, answer) in rows {
        assert_eq!(rt; source(rt.alloc(), text), answer, "{text}");
    }
    Ok(())
}
