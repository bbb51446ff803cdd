// References that codecs are lent and let go, and chunks in variables, with ample memory, each with its answer.
ghost use Rattle.std.specs.Prelude.{◌≡◌, length, IfOk};

use crate::media_variables_tests::{
    Act, PICTURE, SOUND, Wanted, cloned, comes_to, end, entry, make, opened, plain, shared,
};
use codec_definitions::Unit;
use codec_model::{HeldMedium, MediaShape, Pair};
use media_variables::{CallerMedia, MediumFound};
use report_text::StepResult;
use std::alloc::Global;
use std::test::Fail;
use wc_base::{By, DomError, PictureFormat, PictureShape, SampleFormat, SoundShape, Who};
use wc_chunk::Chunk;
use wc_pool::{MediaRef, PoolEntry, PoolOp};

fn first(step: u32) -> Who
    ensures { result.caller ≡ 0 }
{
    Who { caller: 0, step }
}

fn codec(place: u64) -> By {
    By::Codec { codec: 3, place }
}

fn codec_entry(place: u64, op: PoolOp) -> PoolEntry {
    PoolEntry {
        by: codec(place),
        op,
    }
}

/// The shape of the sound of a step.
const SOUND_SHAPE: MediaShape = MediaShape::Sound(SoundShape {
    format: SampleFormat::S16,
    rate: 48000,
    channels: 2,
    frames: 2,
    timestamp: 0,
});

/// The shape of the picture of a step.
const PICTURE_SHAPE: MediaShape = MediaShape::Image(PictureShape {
    format: PictureFormat::I420,
    width: 3,
    height: 3,
    timestamp: 0,
    duration: None,
});

/// Whether a variable lent this, by the first resource.
fn is_medium(medium: &HeldMedium, r: &MediaRef, shape: MediaShape, content: &[u8]) -> bool {
    let pair = Pair {
        resource: r.resource(),
        reference: r.number(),
    };
    medium.shape == shape
        && medium.bytes.as_slice() == content
        && medium.pair == pair
        && r.resource() == 0
        && r.bytes().as_slice() == content
}

/// Lends the medium of the first variable, and ends the reference, alone or among others; tells whether
/// that was this.
fn is_lent(
    alloc: Global,
    media: &mut CallerMedia,
    lent: u64,
    ended: u64,
    alone: bool,
    shape: MediaShape,
    content: &[u8],
) -> Result<bool, Fail>
    requires { length media.old.variables ≡ 2 }
    ensures { IfOk result (λ b. length media.new.variables ≡ 2) }
{
    match media.find_medium(0, 0) {
        MediumFound::Open => {
            let (medium, r) = media.lend(codec(lent), 0, 0)?;
            let right = is_medium(&medium, &r, shape, content);
            if alone {
                media.end_one(codec(ended), Some(r));
            } else {
                media.end_all(codec(ended), vec![in alloc; r]?);
            }
            Ok(right)
        }
        MediumFound::Detached => Ok(false),
        MediumFound::Absent => Ok(false),
    }
}

#[test]
fn open_audio_data_is_lent(rt: HostRuntime) -> Result<(), Fail> {
    let alloc = rt.alloc();
    let mut media = opened(alloc)?;
    let audio = Act::Audio(Some(SOUND));
    assert!(rt; comes_to(alloc, &mut media, first(0), audio, Wanted::Done)?);
    assert!(rt; is_lent(alloc, &mut media, 0, 1, true, SOUND_SHAPE, SOUND)?);
    assert!(rt; is_lent(alloc, &mut media, 2, 3, false, SOUND_SHAPE, SOUND)?);
    assert_eq!(rt; media.held(), 1);
    assert!(rt; comes_to(alloc, &mut media, first(1), Act::CloseData(0), Wanted::Done)?);
    assert_eq!(rt; media.find_medium(0, 0), MediumFound::Detached);
    assert_eq!(rt; media.find_medium(0, 1), MediumFound::Absent);
    assert_eq!(rt; media.find_medium(1, 0), MediumFound::Absent);
    assert_eq!(rt; media.find_medium(2, 0), MediumFound::Absent);
    media.end_one(codec(4), None);
    media.end_all(codec(5), Vec::new(alloc));
    assert_eq!(rt; media.held(), 0);
    let wanted = [
        entry(0, 0, make(0, 0)),
        codec_entry(0, cloned(0, 1)),
        codec_entry(1, end(0, 1, false)),
        codec_entry(2, cloned(0, 2)),
        codec_entry(3, end(0, 2, false)),
        entry(0, 1, end(0, 0, true)),
    ];
    let made = media.into_entries();
    assert!(rt; made.as_slice() == wanted.as_slice());
    Ok(())
}

#[test]
fn an_open_frame_is_lent(rt: HostRuntime) -> Result<(), Fail> {
    let alloc = rt.alloc();
    let mut media = opened(alloc)?;
    let frame = Act::Frame(Some(PICTURE));
    assert!(rt; comes_to(alloc, &mut media, first(0), frame, Wanted::Done)?);
    assert!(rt; is_lent(alloc, &mut media, 0, 1, true, PICTURE_SHAPE, PICTURE)?);
    assert!(rt; comes_to(alloc, &mut media, first(1), Act::CloseData(0), Wanted::Done)?);
    assert_eq!(rt; media.find_medium(0, 0), MediumFound::Detached);
    assert_eq!(rt; media.held(), 0);
    Ok(())
}

/// The chunk of this content.
fn coded(alloc: Global, content: &[u8]) -> Result<Chunk, Fail> {
    Ok(Chunk {
        key: true,
        timestamp: 7,
        duration: Some(2),
        bytes: shared(alloc, content)?,
    })
}

/// The first step of the first caller takes a chunk of this content.
fn takes_chunk(alloc: Global, media: &mut CallerMedia, content: &[u8]) -> Result<bool, Fail>
    requires { length media.old.variables ≡ 2 }
    ensures { IfOk result (λ b. length media.new.variables ≡ 2) }
{
    let unit = Unit::Coded {
        chunk: coded(alloc, content)?,
        config: None,
    };
    let answer = media.take(
        first(0),
        unit,
        StepResult::Unit {
            codec: 3,
            place: 4,
            number: 5,
        },
    )?;
    match answer {
        StepResult::Unit {
            codec,
            place,
            number,
        } => Ok(codec == 3 && place == 4 && number == 5),
        _ => Ok(false),
    }
}

/// Whether a variable holds the chunk of this content, or none.
fn holds(
    alloc: Global,
    media: &CallerMedia,
    caller: u32,
    variable: u32,
    content: Option<&[u8]>,
) -> Result<bool, Fail> {
    match (media.chunk(caller, variable)?, content) {
        (Some(chunk), Some(content)) => Ok(chunk == coded(alloc, content)?),
        (None, None) => Ok(true),
        _ => Ok(false),
    }
}

/// Makes each of these steps of the first caller, and tells whether all have these answers.
fn each_comes_to(
    alloc: Global,
    media: &mut CallerMedia,
    rows: &[(Act, Wanted)],
) -> Result<bool, Fail>
    requires { length media.old.variables ≡ 2 }
    ensures { IfOk result (λ b. length media.new.variables ≡ 2) }
{
    for (act, wanted) in rows {
        if !comes_to(alloc, media, first(9), *act, *wanted)? {
            return Ok(false);
        }
    }
    Ok(true)
}

#[test]
fn a_chunk_that_was_taken_stays(rt: HostRuntime) -> Result<(), Fail> {
    let alloc = rt.alloc();
    let mut media = opened(alloc)?;
    assert!(rt; takes_chunk(alloc, &mut media, &[1, 2])?);
    let rows = [
        (Act::CopyChunk(None, 3), Wanted::Copied(2, &[1, 2, 0])),
        (Act::CopyChunk(None, 1), Wanted::Refused(DomError::TypeErr)),
        (Act::Clone(0), Wanted::Refused(DomError::InvalidState)),
        (Act::Transfer(0), Wanted::Refused(DomError::DataClone)),
        (
            Act::SizeAudio(0, plain(0, None)),
            Wanted::Refused(DomError::TypeErr),
        ),
        (
            Act::CopyAudio(0, plain(0, None), 8),
            Wanted::Refused(DomError::TypeErr),
        ),
        (Act::CloseData(0), Wanted::Done),
    ];
    assert!(rt; each_comes_to(alloc, &mut media, &rows)?);
    assert!(rt; holds(alloc, &media, 0, 0, Some(&[1, 2]))?);
    assert!(rt; holds(alloc, &media, 0, 9, None)?);
    assert!(rt; holds(alloc, &media, 1, 0, None)?);
    assert_eq!(rt; media.find_medium(0, 0), MediumFound::Absent);
    let made = media.into_entries();
    assert!(rt; made.as_slice().is_empty());
    Ok(())
}
