// Reads how media are copied.
ghost use Rattle.std.specs.Prelude.{◌≡◌, ◌≢◌, [], IfOk, IfErr, Some, None, option_map, codes};
ghost use Rattle.json_data.specs.View.{view, items_view};
ghost use Rattle.serde_json.specs.Find.{get};
ghost use Rattle.script_steps.specs.Members.{word_of, optional};
ghost use Rattle.script_steps.specs.CopyOptions.{format_of, audio_options_of, rect_of, plane_of, planes_of, layout_of, frame_options_of, options_by, options_for};
ghost use Rattle.script_types.specs.Reading.{Gives};

use crate::members::{
    as_checked_object, as_text, optional_object, optional_u32_member, u32_member, u32_member_or,
};
use crate::{Stop, Wrong};
use json_data::{Value, as_items, member};
use script_types::{
    AudioOptions, FormatWord, FrameOptions, LayoutWords, Options, RectWords, VariableKind,
};
use std::alloc::Global;
use wc_base::List;

fn read_format(text: &str) -> Option<FormatWord>
    ensures { result ≡ format_of text.now }
{
    match text {
        "u8" => Some(FormatWord::U8),
        "s16" => Some(FormatWord::S16),
        "s32" => Some(FormatWord::S32),
        "u8-planar" => Some(FormatWord::U8Planar),
        "s16-planar" => Some(FormatWord::S16Planar),
        "s32-planar" => Some(FormatWord::S32Planar),
        "f32" => Some(FormatWord::F32),
        "f32-planar" => Some(FormatWord::F32Planar),
        _ => None,
    }
}

fn format_member(value: &Value<'_>) -> Result<Option<Option<FormatWord>>, Stop<Wrong>>
    ensures { result ≡ optional (word_of format_of) (get (codes "format") (view value.now)) }
{
    match member(value, "format") {
        None => Ok(Some(None)),
        Some(word) => Ok(read_format(as_text(word)?).map(Some)),
    }
}

fn read_audio_options(object: Option<&Value<'_>>) -> Result<Option<AudioOptions>, Stop<Wrong>>
    ensures { result ≡ audio_options_of (option_map (λ v. view v.now) object.entry) }
{
    let Some(object) = object else {
        return Ok(None);
    };
    let plane = u32_member(object, "planeIndex")?;
    let offset = u32_member_or(Some(object), "frameOffset", 0)?;
    let count = optional_u32_member(object, "frameCount")?;
    let format = format_member(object)?;
    match (plane, offset, count, format) {
        (Some(plane), Some(offset), Some(count), Some(format)) => Ok(Some(AudioOptions {
            plane,
            offset,
            count,
            format,
        })),
        _ => Ok(None),
    }
}

fn read_rect(value: &Value<'_>) -> Result<Option<RectWords>, Stop<Wrong>>
    ensures { result ≡ rect_of (view value.now) }
{
    let object = as_checked_object(value)?;
    let x = u32_member_or(Some(object), "x", 0)?;
    let y = u32_member_or(Some(object), "y", 0)?;
    let width = u32_member_or(Some(object), "width", 0)?;
    let height = u32_member_or(Some(object), "height", 0)?;
    match (x, y, width, height) {
        (Some(x), Some(y), Some(width), Some(height)) => Ok(Some(RectWords {
            x,
            y,
            width,
            height,
        })),
        _ => Ok(None),
    }
}

fn rect_member(value: &Value<'_>) -> Result<Option<Option<RectWords>>, Stop<Wrong>>
    ensures { result ≡ optional rect_of (get (codes "rect") (view value.now)) }
{
    match member(value, "rect") {
        None => Ok(Some(None)),
        Some(rect) => Ok(read_rect(rect)?.map(Some)),
    }
}

fn read_plane(value: &Value<'_>) -> Result<Option<LayoutWords>, Stop<Wrong>>
    ensures { result ≡ plane_of (view value.now) }
{
    let object = as_checked_object(value)?;
    let offset = u32_member(object, "offset")?;
    let stride = u32_member(object, "stride")?;
    match (offset, stride) {
        (Some(offset), Some(stride)) => Ok(Some(LayoutWords { offset, stride })),
        _ => Ok(None),
    }
}

fn read_planes(alloc: Global, items: &[Value<'_>]) -> Result<Option<List<LayoutWords>>, Stop<Wrong>>
    ensures { Gives result (planes_of (Some []) (items_view items.now)) }
{
    let mut planes = Vec::new(alloc);
    let mut all_right = true;
    for value in items {
        match read_plane(value)? {
            Some(plane) => planes.push(plane)?,
            None => all_right = false,
        }
    }
    Ok(if all_right {
        Some(List::of(planes))
    } else {
        None
    })
}

fn read_layout(alloc: Global, value: &Value<'_>) -> Result<Option<List<LayoutWords>>, Stop<Wrong>>
    ensures { Gives result (layout_of (view value.now)) }
{
    match as_items(value) {
        Some(items) => read_planes(alloc, items),
        None => Err(Stop::Fault(Wrong::Shape)),
    }
}

fn layout_member(
    alloc: Global,
    value: &Value<'_>,
) -> Result<Option<Option<List<LayoutWords>>>, Stop<Wrong>>
    ensures { Gives result (optional layout_of (get (codes "layout") (view value.now))) }
{
    match member(value, "layout") {
        None => Ok(Some(None)),
        Some(layout) => Ok(read_layout(alloc, layout)?.map(Some)),
    }
}

fn read_frame_options(
    alloc: Global,
    object: Option<&Value<'_>>,
) -> Result<Option<FrameOptions>, Stop<Wrong>>
    ensures { Gives result (frame_options_of (option_map (λ v. view v.now) object.entry)) }
{
    let Some(object) = object else {
        return Ok(Some(FrameOptions {
            rect: None,
            layout: None,
        }));
    };
    let rect = rect_member(object)?;
    let layout = layout_member(alloc, object)?;
    match (rect, layout) {
        (Some(rect), Some(layout)) => Ok(Some(FrameOptions { rect, layout })),
        _ => Ok(None),
    }
}

/// Reads the options of a copy of what is of this kind. Absent options are an empty object; those of a chunk or a buffer
/// have no members that are looked at. `Shape` where they are no object, or a member is of another JSON kind.
pub fn read_options(
    alloc: Global,
    kind: VariableKind,
    value: Option<&Value<'_>>,
) -> Result<Options, Stop<Wrong>>
    ensures { Gives result (options_for kind (option_map (λ v. view v.now) value.entry)) }
{
    let object = optional_object(value)?;
    match kind {
        VariableKind::Audio => Ok(Options::Audio(read_audio_options(object)?)),
        VariableKind::Frame => Ok(Options::Frame(read_frame_options(alloc, object)?)),
        VariableKind::Chunk | VariableKind::Promise | VariableKind::Buffer => Ok(Options::Nothing),
    }
}
