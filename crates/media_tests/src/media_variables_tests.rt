// Steps on the media of two callers, with ample memory, each with its answer, and the history of the pool after all.
ghost use Rattle.std.specs.Prelude.{◌≡◌, false, length, IfOk};
ghost use Rattle.media_variables.specs.Variables.{Media, uses_port};

use bytes::Bytes;
use media_variables::CallerMedia;
use report_text::StepResult;
use script_types::{
    AudioOptions, CallerItem, FormatWord, FrameOptions, LayoutWords, MediaStep, Options,
    PictureInit, RectWords, SoundInit, Variable, VariableKind, copied,
};
use std::alloc::Global;
use std::process::Abort;
use std::test::Fail;
use wc_base::{By, DomError, List, PictureFormat, PictureShape, SampleFormat, SoundShape, Who};
use wc_chunk::Chunk;
use wc_pool::{PoolEntry, PoolOp};
use wc_video::{Layouts, PlaneLayout};

/// A step on media. A variable is named by the number of the step that defines it.
#[derive(Clone, Copy)]
pub(crate) enum Act {
    /// Makes audio data with two frames of two channels, of this content; without one the init breaks a rule
    /// of WebIDL.
    Audio(Option<&'static [u8]>),
    /// Makes a picture of 3 by 3 pixels, likewise.
    Frame(Option<&'static [u8]>),
    Clone(u32),
    Transfer(u32),
    CloseData(u32),
    /// Without options they break a rule of WebIDL.
    CopyAudio(u32, Option<AudioOptions>, u64),
    SizeAudio(u32, Option<AudioOptions>),
    /// With a layout of these planes, or in the tight one.
    CopyFrame(u32, Option<RectWords>, &'static [LayoutWords], u64),
    SizeFrame(u32, Option<RectWords>),
    CopyChunk(Option<&'static [u8]>, u64),
    Take,
}

/// What a step is to answer.
#[derive(Clone, Copy)]
pub(crate) enum Wanted {
    Done,
    Refused(DomError),
    Absent,
    Size(u64),
    /// So many bytes were written; the whole destination.
    Copied(u64, &'static [u8]),
    /// So many bytes are needed; the whole destination.
    CopiedFrame(u64, Layouts, &'static [u8]),
    /// The step is the codec's.
    Nothing,
}

pub(crate) const SOUND: &[u8] = &[1, 0, 2, 0, 3, 0, 4, 0];

pub(crate) const PICTURE: &[u8] = &[0, 1, 2, 3, 4, 5, 6, 7, 8, 9, 10, 11, 12, 13, 14, 15, 16];

pub(crate) fn shared(alloc: Global, content: &[u8]) -> Result<Bytes, Fail> {
    Ok(Bytes::from_vec(Vec::from_slice(alloc, content)?)?)
}

fn variable(alloc: Global, step: u32) -> Result<Variable, Fail> {
    Ok(Variable {
        name: copied(alloc, "v")?,
        step,
        kind: VariableKind::Audio,
    })
}

fn sound(alloc: Global, content: &[u8]) -> Result<SoundInit, Fail> {
    Ok(SoundInit {
        shape: SoundShape {
            format: SampleFormat::S16,
            rate: 48000,
            channels: 2,
            frames: 2,
            timestamp: 0,
        },
        content: shared(alloc, content)?,
    })
}

fn audio(alloc: Global, content: Option<&[u8]>) -> Result<MediaStep, Fail>
    ensures { IfOk result (λ x. uses_port x ≡ false) }
{
    let init = match content {
        Some(content) => Some(sound(alloc, content)?),
        None => None,
    };
    Ok(MediaStep::Audio {
        bind: copied(alloc, "v")?,
        init,
    })
}

fn picture(alloc: Global, content: &[u8]) -> Result<PictureInit, Fail> {
    Ok(PictureInit {
        shape: PictureShape {
            format: PictureFormat::I420,
            width: 3,
            height: 3,
            timestamp: 0,
            duration: None,
        },
        content: shared(alloc, content)?,
    })
}

fn frame(alloc: Global, content: Option<&[u8]>) -> Result<MediaStep, Fail>
    ensures { IfOk result (λ x. uses_port x ≡ false) }
{
    let init = match content {
        Some(content) => Some(picture(alloc, content)?),
        None => None,
    };
    Ok(MediaStep::Frame {
        bind: copied(alloc, "v")?,
        init,
    })
}

fn clone(alloc: Global, of: u32) -> Result<MediaStep, Fail>
    ensures { IfOk result (λ x. uses_port x ≡ false) }
{
    Ok(MediaStep::Clone {
        of: variable(alloc, of)?,
        bind: copied(alloc, "v")?,
    })
}

fn transfer(alloc: Global, of: u32) -> Result<MediaStep, Fail>
    ensures { IfOk result (λ x. uses_port x ≡ false) }
{
    Ok(MediaStep::Transfer {
        of: variable(alloc, of)?,
        bind: copied(alloc, "v")?,
    })
}

fn close_data(alloc: Global, of: u32) -> Result<MediaStep, Fail>
    ensures { IfOk result (λ x. uses_port x ≡ false) }
{
    Ok(MediaStep::CloseData {
        of: variable(alloc, of)?,
    })
}

fn copy(alloc: Global, of: u32, options: Options, size: u64) -> Result<MediaStep, Fail>
    ensures { IfOk result (λ x. uses_port x ≡ false) }
{
    Ok(MediaStep::Copy {
        of: variable(alloc, of)?,
        options,
        size,
    })
}

fn size(alloc: Global, of: u32, options: Options) -> Result<MediaStep, Fail>
    ensures { IfOk result (λ x. uses_port x ≡ false) }
{
    Ok(MediaStep::Size {
        of: variable(alloc, of)?,
        options,
    })
}

fn layouts_of(alloc: Global, planes: &[LayoutWords]) -> Result<Option<List<LayoutWords>>, Fail> {
    if planes.is_empty() {
        return Ok(None);
    }
    Ok(Some(List::of(Vec::from_slice(alloc, planes)?)))
}

fn copy_frame(
    alloc: Global,
    of: u32,
    rect: Option<RectWords>,
    planes: &[LayoutWords],
    size: u64,
) -> Result<MediaStep, Fail>
    ensures { IfOk result (λ x. uses_port x ≡ false) }
{
    let layout = layouts_of(alloc, planes)?;
    copy(
        alloc,
        of,
        Options::Frame(Some(FrameOptions { rect, layout })),
        size,
    )
}

fn take(alloc: Global) -> Result<MediaStep, Fail>
    ensures { IfOk result (λ x. uses_port x ≡ false) }
{
    Ok(MediaStep::Take {
        on: 0,
        bind: copied(alloc, "v")?,
        kind: VariableKind::Audio,
    })
}

fn step_of(alloc: Global, act: Act) -> Result<MediaStep, Fail>
    ensures { IfOk result (λ x. uses_port x ≡ false) }
{
    match act {
        Act::Audio(content) => audio(alloc, content),
        Act::Frame(content) => frame(alloc, content),
        Act::Clone(of) => clone(alloc, of),
        Act::Transfer(of) => transfer(alloc, of),
        Act::CloseData(of) => close_data(alloc, of),
        Act::CopyAudio(of, options, size) => copy(alloc, of, Options::Audio(options), size),
        Act::SizeAudio(of, options) => size(alloc, of, Options::Audio(options)),
        Act::CopyFrame(of, rect, planes, size) => copy_frame(alloc, of, rect, planes, size),
        Act::SizeFrame(of, rect) => {
            let options = FrameOptions { rect, layout: None };
            size(alloc, of, Options::Frame(Some(options)))
        }
        Act::CopyChunk(_, size) => copy(alloc, 0, Options::Nothing, size),
        Act::Take => take(alloc),
    }
}

/// The chunk that a step copies.
fn chunk_of(alloc: Global, act: Act) -> Result<Option<Chunk>, Fail> {
    match act {
        Act::CopyChunk(Some(content), _) => Ok(Some(Chunk {
            key: true,
            timestamp: 0,
            duration: None,
            bytes: shared(alloc, content)?,
        })),
        _ => Ok(None),
    }
}

fn is_answer(answer: &Option<StepResult>, wanted: Wanted) -> bool {
    match (answer, wanted) {
        (Some(StepResult::Local { error: None }), Wanted::Done) => true,
        (Some(StepResult::Local { error: Some(e) }), Wanted::Refused(other)) => *e == other,
        (Some(StepResult::Absent), Wanted::Absent) => true,
        (Some(StepResult::Size { size }), Wanted::Size(other)) => *size == other,
        (Some(StepResult::Copied { count, bytes }), Wanted::Copied(n, to)) => {
            *count == n && bytes.as_slice() == to
        }
        (
            Some(
                StepResult::CopiedFrame {
                    count,
                    layouts,
                    bytes,
                },
            ),
            Wanted::CopiedFrame(n, planes, to),
        ) => *count == n && *layouts == planes && bytes.as_slice() == to,
        (None, Wanted::Nothing) => true,
        _ => false,
    }
}

fn caller(alloc: Global, name: &str) -> Result<CallerItem, Fail> {
    Ok(CallerItem {
        name: copied(alloc, name)?,
        steps: List::empty(alloc),
    })
}

/// The media of two callers.
pub(crate) fn opened(alloc: Global) -> Result<CallerMedia, Fail>
    ensures { IfOk result (λ m. length m.variables ≡ 2) }
{
    let callers = vec![in alloc; caller(alloc, "a")?, caller(alloc, "b")?]?;
    Ok(CallerMedia::open(alloc, &callers)?)
}

/// Makes a step of the first or the second caller, and tells whether this is its answer.
#[tactic(auto, using(crate::proofs::Kept::callers_kept))]
pub(crate) fn comes_to(
    alloc: Global,
    media: &mut CallerMedia,
    who: Who,
    act: Act,
    wanted: Wanted,
) -> Result<bool, Fail>
    requires callers { length media.old.variables ≡ 2 }
    ensures callers { IfOk result (λ b. length media.new.variables ≡ 2) }
{
    if who.caller >= 2 {
        return Ok(false);
    }
    let chunk = chunk_of(alloc, act)?;
    let step = step_of(alloc, act)?;
    let answer = media.step(alloc, who, chunk, &step)?;
    Ok(is_answer(&answer, wanted))
}

/// Makes each of these steps, of the caller with the number beside it, and compares the answers, and then what the pool
/// holds and its history.
fn each_comes_to(
    rt: &impl Abort,
    alloc: Global,
    rows: &[(u32, Act, Wanted)],
    held: u64,
    entries: &[PoolEntry],
) -> Result<(), Fail> {
    let mut media = opened(alloc)?;
    for (j, (caller, act, wanted)) in rows.iter().enumerate() {
        let who = Who {
            caller: *caller,
            step: u32::try_from(j).expect(rt, "a number of 32 bits"),
        };
        let right = comes_to(alloc, &mut media, who, *act, *wanted)?;
        assert!(rt; right, "at {j}");
    }
    assert_eq!(rt; media.held(), held);
    let made = media.into_entries();
    assert!(rt; made.as_slice() == entries);
    Ok(())
}

pub(crate) fn plain(plane: u32, format: Option<FormatWord>) -> Option<AudioOptions> {
    Some(AudioOptions {
        plane,
        offset: 0,
        count: None,
        format,
    })
}

fn rect(x: u32, y: u32, width: u32, height: u32) -> Option<RectWords> {
    Some(RectWords {
        x,
        y,
        width,
        height,
    })
}

fn planes(first: (u32, u32), second: (u32, u32), third: (u32, u32)) -> Layouts {
    Layouts {
        count: 3,
        first: PlaneLayout {
            offset: first.0,
            stride: first.1,
        },
        second: PlaneLayout {
            offset: second.0,
            stride: second.1,
        },
        third: PlaneLayout {
            offset: third.0,
            stride: third.1,
        },
    }
}

const LAID: &[LayoutWords] = &[
    LayoutWords {
        offset: 1,
        stride: 2,
    },
    LayoutWords {
        offset: 0,
        stride: 1,
    },
    LayoutWords {
        offset: 5,
        stride: 1,
    },
];

/// Its last plane begins in the last row of the first one.
const MEETING: &[LayoutWords] = &[
    LayoutWords {
        offset: 1,
        stride: 2,
    },
    LayoutWords {
        offset: 0,
        stride: 1,
    },
    LayoutWords {
        offset: 4,
        stride: 1,
    },
];

pub(crate) fn entry(caller: u32, step: u32, op: PoolOp) -> PoolEntry {
    PoolEntry {
        by: By::Caller(Who { caller, step }),
        op,
    }
}

pub(crate) fn make(resource: u64, reference: u64) -> PoolOp {
    PoolOp::Make {
        resource,
        reference,
    }
}

pub(crate) fn cloned(resource: u64, reference: u64) -> PoolOp {
    PoolOp::Clone {
        resource,
        reference,
    }
}

pub(crate) fn end(resource: u64, reference: u64, last: bool) -> PoolOp {
    PoolOp::End {
        resource,
        reference,
        last,
    }
}

#[test]
fn each_kind_of_step_is_answered(rt: HostRuntime) -> Result<(), Fail> {
    let u8s = Some(FormatWord::U8);
    let s32s = Some(FormatWord::S32);
    let plane = Some(FormatWord::S16Planar);
    let tight = planes((0, 3), (9, 2), (13, 2));
    let corner = planes((0, 1), (1, 1), (2, 1));
    let laid = planes((1, 2), (0, 1), (5, 1));
    let rows = [
        (0, Act::Audio(Some(SOUND)), Wanted::Done),
        (0, Act::Clone(0), Wanted::Done),
        (0, Act::Transfer(0), Wanted::Done),
        (
            0,
            Act::CopyAudio(2, plain(0, None), 8),
            Wanted::Copied(8, SOUND),
        ),
        (
            0,
            Act::CopyAudio(1, plain(1, plane), 6),
            Wanted::Copied(4, &[2, 0, 4, 0, 0, 0]),
        ),
        (
            0,
            Act::CopyAudio(2, plain(0, u8s), 4),
            Wanted::Copied(4, &[128, 128, 128, 128]),
        ),
        (0, Act::SizeAudio(1, plain(0, s32s)), Wanted::Size(16)),
        (0, Act::CloseData(2), Wanted::Done),
        (0, Act::CloseData(2), Wanted::Done),
        (1, Act::Frame(Some(PICTURE)), Wanted::Done),
        (1, Act::SizeFrame(9, None), Wanted::Size(17)),
        (
            1,
            Act::CopyFrame(9, None, &[], 17),
            Wanted::CopiedFrame(17, tight, PICTURE),
        ),
        (
            1,
            Act::CopyFrame(9, rect(2, 2, 1, 1), &[], 4),
            Wanted::CopiedFrame(3, corner, &[8, 12, 16, 0]),
        ),
        (
            1,
            Act::CopyFrame(9, rect(0, 0, 1, 2), LAID, 7),
            Wanted::CopiedFrame(6, laid, &[9, 0, 0, 3, 0, 13, 0]),
        ),
        (1, Act::Clone(9), Wanted::Done),
        (1, Act::CloseData(9), Wanted::Done),
        (1, Act::Transfer(14), Wanted::Done),
        (1, Act::SizeFrame(16, rect(2, 0, 1, 1)), Wanted::Size(3)),
        (
            1,
            Act::CopyChunk(Some(&[1, 2]), 3),
            Wanted::Copied(2, &[1, 2, 0]),
        ),
        (0, Act::Take, Wanted::Nothing),
    ];
    let entries = [
        entry(0, 0, make(0, 0)),
        entry(0, 1, cloned(0, 1)),
        entry(0, 7, end(0, 0, false)),
        entry(1, 9, make(1, 2)),
        entry(1, 14, cloned(1, 3)),
        entry(1, 15, end(1, 2, false)),
    ];
    each_comes_to(&rt, rt.alloc(), &rows, 2, &entries)
}

#[test]
fn steps_are_refused_or_absent(rt: HostRuntime) -> Result<(), Fail> {
    let refused = Wanted::Refused(DomError::TypeErr);
    let detached = Wanted::Refused(DomError::InvalidState);
    let beyond = Wanted::Refused(DomError::RangeErr);
    let no_clone = Wanted::Refused(DomError::DataClone);
    let rows = [
        (0, Act::Audio(None), refused),
        (0, Act::Audio(Some(&[1, 0, 2, 0, 3, 0, 4])), refused),
        (0, Act::Frame(None), refused),
        (0, Act::Frame(Some(&[0; 16])), refused),
        (0, Act::Audio(Some(SOUND)), Wanted::Done),
        (0, Act::CloseData(4), Wanted::Done),
        (0, Act::Clone(4), detached),
        (0, Act::Transfer(4), no_clone),
        (0, Act::CopyAudio(4, plain(0, None), 8), detached),
        (0, Act::CopyAudio(4, None, 8), refused),
        (0, Act::SizeAudio(4, plain(0, None)), detached),
        (0, Act::SizeAudio(4, None), refused),
        (0, Act::Clone(1), Wanted::Absent),
        (0, Act::Transfer(6), Wanted::Absent),
        (0, Act::CloseData(0), Wanted::Absent),
        (0, Act::CopyAudio(7, plain(0, None), 8), Wanted::Absent),
        (0, Act::SizeFrame(3, None), Wanted::Absent),
        (0, Act::Clone(99), Wanted::Absent),
        (1, Act::Clone(4), Wanted::Absent),
        (1, Act::Audio(Some(SOUND)), Wanted::Done),
        (1, Act::CopyAudio(19, plain(0, None), 7), beyond),
        (1, Act::CopyFrame(19, None, &[], 8), refused),
        (1, Act::SizeAudio(19, plain(1, None)), beyond),
        (1, Act::Frame(Some(PICTURE)), Wanted::Done),
        (1, Act::CopyFrame(23, None, &[], 16), refused),
        (1, Act::SizeFrame(23, rect(1, 0, 2, 2)), refused),
        (1, Act::CopyFrame(23, rect(0, 0, 1, 2), MEETING, 7), refused),
        (1, Act::Transfer(23), Wanted::Done),
        (1, Act::CopyFrame(23, rect(0, 0, 0, 0), &[], 17), detached),
        (1, Act::SizeFrame(23, None), detached),
        (1, Act::CloseData(23), Wanted::Done),
        (1, Act::CopyChunk(None, 8), Wanted::Absent),
        (1, Act::CopyChunk(Some(&[1, 2]), 1), refused),
    ];
    let entries = [
        entry(0, 4, make(0, 0)),
        entry(0, 5, end(0, 0, true)),
        entry(1, 19, make(1, 1)),
        entry(1, 23, make(2, 2)),
    ];
    each_comes_to(&rt, rt.alloc(), &rows, 2, &entries)
}
