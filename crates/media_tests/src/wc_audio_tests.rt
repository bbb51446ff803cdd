// Audio data with ample memory, and each refusal of its copies in order.
ghost use Rattle.std.specs.Prelude.{◌≤◌, length, IfOk};
ghost use Rattle.wc_audio.specs.Sound.{needed};

use bytes::Bytes;
use std::alloc::Global;
use std::test::Fail;
use wc_audio::{AudioData, CopyFormat, CopyOptions};
use wc_base::{By, DomError, SampleFormat, Samples, SoundShape, Who};
use wc_pool::{MediaFault, Pool, PoolOp};

fn by(step: u32) -> By {
    By::Caller(Who { caller: 0, step })
}

fn stereo(frames: u32) -> SoundShape {
    SoundShape {
        format: SampleFormat::S16,
        rate: 48000,
        channels: 2,
        frames,
        timestamp: 0,
    }
}

const CONTENT: [u8; 8] = [1, 0, 2, 0, 3, 0, 4, 0];

fn options(plane: u32, offset: u32, count: Option<u32>, format: Option<CopyFormat>) -> CopyOptions {
    CopyOptions {
        plane,
        offset,
        count,
        format,
    }
}

/// A copy into so many bytes, at most 8: what stands in front of them then, or the refusal that left
/// them as they were.
fn is_copy(
    data: &AudioData,
    o: &CopyOptions,
    room: usize,
    wanted: Result<&[u8], DomError>,
) -> bool {
    let mut dst = [9_u8; 8];
    if room > 8 {
        return false;
    }
    match (data.copy_to(&mut dst[..room], o), wanted) {
        (Ok(n), Ok(bytes)) => &dst[..n] == bytes,
        (Err(e), Err(other)) => e == other && dst == [9; 8],
        _ => false,
    }
}

#[test]
fn copies_and_refusals(rt: HostRuntime) -> Result<(), Fail> {
    let mut pool = Pool::open(rt.alloc());
    let data = AudioData::new(rt.alloc(), stereo(2), &CONTENT, &mut pool, by(0))?;
    let range = Err(DomError::RangeErr);
    let planar = Some(CopyFormat::S16Planar);
    let floats = Some(CopyFormat::F32);
    let float_planes = Some(CopyFormat::F32Planar);
    let rows: [(CopyOptions, usize, Result<&[u8], DomError>); 14] = [
        (options(0, 0, None, None), 8, Ok(&CONTENT)),
        (options(0, 0, None, None), 7, range),
        (options(1, 0, None, None), 8, range),
        (options(0, 2, None, None), 8, range),
        (options(0, 1, None, None), 8, Ok(&[3, 0, 4, 0])),
        (options(0, 0, Some(3), None), 8, range),
        (options(0, 1, Some(1), None), 4, Ok(&[3, 0, 4, 0])),
        (options(0, 0, Some(0), None), 0, Ok(&[])),
        (options(1, 0, None, planar), 4, Ok(&[2, 0, 4, 0])),
        (options(2, 0, None, planar), 8, range),
        (
            options(0, 0, None, Some(CopyFormat::U8)),
            4,
            Ok(&[128, 128, 128, 128]),
        ),
        (options(0, 2, None, floats), 0, Err(DomError::NotSupported)),
        (options(1, 0, None, floats), 8, range),
        (options(2, 0, None, float_planes), 8, range),
    ];
    for (o, room, wanted) in rows {
        assert!(rt; is_copy(&data, &o, room, wanted));
    }
    Ok(())
}

#[test]
fn sizes_are_those_of_copies(rt: HostRuntime) -> Result<(), Fail> {
    let mut pool = Pool::open(rt.alloc());
    let data = AudioData::new(rt.alloc(), stereo(2), &CONTENT, &mut pool, by(0))?;
    let wide = options(0, 0, None, Some(CopyFormat::S32));
    let plane = options(1, 1, None, Some(CopyFormat::S32Planar));
    let beyond = options(0, 2, None, None);
    assert_eq!(rt; data.allocation_size(&wide), Ok(16));
    assert_eq!(rt; data.allocation_size(&plane), Ok(4));
    assert_eq!(rt; data.allocation_size(&beyond), Err(DomError::RangeErr));
    Ok(())
}

#[test]
fn a_clone_holds_its_own_reference(rt: HostRuntime) -> Result<(), Fail> {
    let mut pool = Pool::open(rt.alloc());
    let mut data = AudioData::new(rt.alloc(), stereo(2), &CONTENT, &mut pool, by(0))?;
    let mut clone = data.clone_data(&mut pool, by(1))?;
    assert!(rt; data.close_data(&mut pool, by(2)).is_none());
    assert_eq!(rt; pool.held(), 1);
    assert_eq!(rt; clone.content(), CONTENT.as_slice());
    assert!(rt; clone.close_data(&mut pool, by(3)).is_some());
    assert_eq!(rt; pool.held(), 0);
    let o = options(0, 0, None, None);
    assert_eq!(rt; data.allocation_size(&o), Err(DomError::InvalidState));
    let mut dst = [9_u8; 8];
    assert_eq!(rt; data.copy_to(&mut dst, &o), Err(DomError::InvalidState));
    assert_eq!(rt; dst, [9; 8]);
    let ops = [
        PoolOp::Make {
            resource: 0,
            reference: 0,
        },
        PoolOp::Clone {
            resource: 0,
            reference: 1,
        },
        PoolOp::End {
            resource: 0,
            reference: 0,
            last: false,
        },
        PoolOp::End {
            resource: 0,
            reference: 1,
            last: true,
        },
    ];
    assert_eq!(rt; pool.entries().len(), 4);
    for (entry, op) in pool.entries().iter().zip(ops) {
        assert!(rt; entry.op == op);
    }
    Ok(())
}

#[test]
fn a_transfer_detaches(rt: HostRuntime) -> Result<(), Fail> {
    let mut pool = Pool::open(rt.alloc());
    let mut data = AudioData::new(rt.alloc(), stereo(1), &CONTENT, &mut pool, by(0))?;
    let mut other = data.transfer()?;
    assert!(rt; data.is_detached());
    assert_eq!(rt; data.content(), [].as_slice());
    assert_eq!(rt; other.content(), [1, 0, 2, 0].as_slice());
    match data.clone_data(&mut pool, by(1)) {
        Ok(_) => assert!(rt; false),
        Err(e) => assert_eq!(rt; e, MediaFault::Dom(DomError::InvalidState)),
    }
    match data.transfer() {
        Ok(_) => assert!(rt; false),
        Err(e) => assert_eq!(rt; e, DomError::DataClone),
    }
    assert!(rt; data.close_data(&mut pool, by(2)).is_none());
    assert!(rt; other.close_data(&mut pool, by(3)).is_some());
    assert_eq!(rt; pool.entries().len(), 2);
    Ok(())
}

#[test]
fn invalid_inits_are_refused(rt: HostRuntime) -> Result<(), Fail> {
    let mut pool = Pool::open(rt.alloc());
    let whole = stereo(2);
    let rows: [(SoundShape, &[u8]); 4] = [
        (whole, &[1, 0, 2, 0, 3, 0, 4]),
        (SoundShape { rate: 0, ..whole }, &CONTENT),
        (
            SoundShape {
                channels: 0,
                ..whole
            },
            &CONTENT,
        ),
        (SoundShape { frames: 0, ..whole }, &CONTENT),
    ];
    for (shape, content) in rows {
        match AudioData::new(rt.alloc(), shape, content, &mut pool, by(0)) {
            Ok(_) => assert!(rt; false),
            Err(e) => assert_eq!(rt; e, MediaFault::Dom(DomError::TypeErr)),
        }
    }
    assert_eq!(rt; pool.entries().len(), 0);
    Ok(())
}

fn samples(alloc: Global) -> Result<Samples, Fail>
    ensures { IfOk result (λ s. needed s.shape ≤ length s.bytes) }
{
    Ok(Samples {
        shape: SoundShape {
            format: SampleFormat::S16,
            rate: 48000,
            channels: 2,
            frames: 2,
            timestamp: 0,
        },
        bytes: Bytes::from_vec(vec![in alloc; 1, 0, 2, 0, 3, 0, 4, 0]?)?,
    })
}

#[test]
fn samples_of_a_decoder_are_a_resource(rt: HostRuntime) -> Result<(), Fail> {
    let mut pool = Pool::open(rt.alloc());
    let given = samples(rt.alloc())?;
    let data = AudioData::of_samples(given, &mut pool, by(0))?;
    assert_eq!(rt; *data.shape(), stereo(2));
    assert_eq!(rt; data.content(), CONTENT.as_slice());
    assert_eq!(rt; pool.held(), 1);
    assert!(rt; data.into_reference().is_some());
    Ok(())
}
