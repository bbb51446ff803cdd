// Array buffers with ample memory, each refusal, and media over the resource of a buffer.
use array_buffers::{ArrayBuffer, check_transfer};
use std::alloc::Global;
use std::test::Fail;
use wc_audio::AudioData;
use wc_base::{By, DomError, PictureFormat, PictureShape, SampleFormat, SoundShape, Who};
use wc_pool::{MediaFault, MediaRef, Pool, PoolOp};
use wc_video::VideoFrame;

const CONTENT: [u8; 8] = [1, 0, 2, 0, 3, 0, 4, 0];

fn by(step: u32) -> By {
    By::Caller(Who { caller: 0, step })
}

fn stereo(frames: u32) -> SoundShape {
    SoundShape {
        format: SampleFormat::S16,
        rate: 48000,
        channels: 2,
        frames,
        timestamp: 0,
    }
}

fn picture(width: u32, height: u32) -> PictureShape {
    PictureShape {
        format: PictureFormat::I420,
        width,
        height,
        timestamp: 0,
        duration: None,
    }
}

#[test]
fn a_clone_holds_its_own_reference(rt: HostRuntime) -> Result<(), Fail> {
    let mut pool = Pool::open(rt.alloc());
    let mut buffer = ArrayBuffer::new(rt.alloc(), &CONTENT, &mut pool, by(0))?;
    let mut clone = buffer.clone_buffer(&mut pool, by(1))?;
    assert_eq!(rt; buffer.bytes(), CONTENT.as_slice());
    assert!(rt; buffer.close_buffer(&mut pool, by(2)).is_none());
    assert!(rt; buffer.is_detached());
    assert_eq!(rt; clone.bytes(), CONTENT.as_slice());
    assert_eq!(rt; pool.held(), 1);
    match clone.close_buffer(&mut pool, by(3)) {
        Some(bytes) => assert_eq!(rt; bytes.as_slice(), CONTENT.as_slice()),
        None => assert!(rt; false),
    }
    assert_eq!(rt; pool.held(), 0);
    let ops = [
        PoolOp::Make {
            resource: 0,
            reference: 0,
        },
        PoolOp::Clone {
            resource: 0,
            reference: 1,
        },
        PoolOp::End {
            resource: 0,
            reference: 0,
            last: false,
        },
        PoolOp::End {
            resource: 0,
            reference: 1,
            last: true,
        },
    ];
    assert_eq!(rt; pool.entries().len(), 4);
    for (entry, op) in pool.entries().iter().zip(ops) {
        assert!(rt; entry.op == op);
    }
    Ok(())
}

#[test]
fn a_transfer_detaches(rt: HostRuntime) -> Result<(), Fail> {
    let mut pool = Pool::open(rt.alloc());
    let mut buffer = ArrayBuffer::new(rt.alloc(), &CONTENT, &mut pool, by(0))?;
    let mut other = buffer.transfer()?;
    assert!(rt; buffer.is_detached() && !other.is_detached());
    assert!(rt; buffer.bytes().is_empty() && buffer.reference().is_none());
    assert_eq!(rt; other.bytes(), CONTENT.as_slice());
    match buffer.clone_buffer(&mut pool, by(1)) {
        Ok(_) => assert!(rt; false),
        Err(e) => assert_eq!(rt; e, MediaFault::Dom(DomError::InvalidState)),
    }
    match buffer.transfer() {
        Ok(_) => assert!(rt; false),
        Err(e) => assert_eq!(rt; e, DomError::DataClone),
    }
    assert!(rt; buffer.close_buffer(&mut pool, by(2)).is_none());
    assert!(rt; buffer.detach().is_none());
    assert!(rt; other.close_buffer(&mut pool, by(3)).is_some());
    assert_eq!(rt; pool.entries().len(), 2);
    Ok(())
}

#[test]
fn lists_are_transferred_together(rt: HostRuntime) -> Result<(), Fail> {
    let alloc = rt.alloc();
    let mut pool = Pool::open(alloc);
    let first = ArrayBuffer::new(alloc, &CONTENT, &mut pool, by(0))?;
    let mut second = ArrayBuffer::new(alloc, &[], &mut pool, by(1))?;
    let third = second.transfer()?;
    let buffers = [first, second, third];
    let refused = Err(DomError::DataClone);
    let rows: [(&[u32], Result<(), DomError>); 6] = [
        (&[], Ok(())),
        (&[0], Ok(())),
        (&[2, 0], Ok(())),
        (&[1], refused),
        (&[0, 2, 0], refused),
        (&[0, 1], refused),
    ];
    for (list, wanted) in rows {
        let all_there = list.iter().all(|n| *n < 3);
        assert!(rt; all_there);
        assert_eq!(rt; check_transfer(list, &buffers), wanted);
    }
    Ok(())
}

/// Whether no other reference shares its bytes.
fn is_alone(held: Option<&MediaRef>) -> bool {
    match held {
        Some(reference) => reference.bytes().is_unique(),
        None => false,
    }
}

/// The reference of a new buffer, and another buffer over the same resource.
fn handed_out(alloc: Global, pool: &mut Pool) -> Result<(MediaRef, ArrayBuffer), Fail> {
    let mut buffer = ArrayBuffer::new(alloc, &CONTENT, pool, by(0))?;
    let clone = buffer.clone_buffer(pool, by(1))?;
    let held = buffer.detach().ok_or(DomError::DataClone)?;
    Ok((held, clone))
}

#[test]
fn audio_data_adopts_a_buffer(rt: HostRuntime) -> Result<(), Fail> {
    let mut pool = Pool::open(rt.alloc());
    let (held, clone) = handed_out(rt.alloc(), &mut pool)?;
    match AudioData::adopt(stereo(1), held) {
        Ok(data) => {
            assert_eq!(rt; *data.shape(), stereo(1));
            assert_eq!(rt; data.content(), &CONTENT[..4]);
            assert!(rt; !is_alone(data.reference()));
            drop(clone);
            assert!(rt; is_alone(data.reference()));
        }
        Err(_) => assert!(rt; false),
    }
    assert_eq!(rt; pool.entries().len(), 2);
    assert_eq!(rt; pool.held(), 1);
    Ok(())
}

#[test]
fn a_frame_adopts_a_buffer(rt: HostRuntime) -> Result<(), Fail> {
    let mut pool = Pool::open(rt.alloc());
    let (held, clone) = handed_out(rt.alloc(), &mut pool)?;
    match VideoFrame::adopt(picture(2, 2), held) {
        Ok(frame) => {
            assert_eq!(rt; *frame.shape(), picture(2, 2));
            assert_eq!(rt; frame.content(), &CONTENT[..6]);
            assert!(rt; !is_alone(frame.reference()));
            drop(clone);
            assert!(rt; is_alone(frame.reference()));
        }
        Err(_) => assert!(rt; false),
    }
    assert_eq!(rt; pool.entries().len(), 2);
    assert_eq!(rt; pool.held(), 1);
    Ok(())
}

/// The reference comes back from each refusal.
#[test]
fn invalid_inits_adopt_nothing(rt: HostRuntime) -> Result<(), Fail> {
    let mut pool = Pool::open(rt.alloc());
    let (held, _clone) = handed_out(rt.alloc(), &mut pool)?;
    let (e, held) = AudioData::adopt(stereo(3), held)
        .err()
        .ok_or(DomError::DataClone)?;
    assert_eq!(rt; e, DomError::TypeErr);
    let (e, held) = VideoFrame::adopt(picture(3, 2), held)
        .err()
        .ok_or(DomError::DataClone)?;
    assert_eq!(rt; e, DomError::TypeErr);
    assert_eq!(rt; (held.resource(), held.number()), (0, 0));
    assert_eq!(rt; held.bytes().as_slice(), CONTENT.as_slice());
    assert_eq!(rt; pool.entries().len(), 2);
    Ok(())
}

#[test]
fn inits_are_valid_or_not(rt: HostRuntime) -> Result<(), Fail> {
    let whole = stereo(2);
    let no_channel = SoundShape {
        channels: 0,
        ..whole
    };
    assert!(rt; AudioData::is_valid(&whole, 8));
    assert!(rt; !AudioData::is_valid(&whole, 7));
    assert!(rt; !AudioData::is_valid(&SoundShape { rate: 0, ..whole }, 8));
    assert!(rt; !AudioData::is_valid(&SoundShape { frames: 0, ..whole }, 8));
    assert!(rt; !AudioData::is_valid(&no_channel, 8));
    assert!(rt; VideoFrame::is_valid(&picture(3, 3), 17));
    assert!(rt; !VideoFrame::is_valid(&picture(3, 3), 16));
    assert!(rt; !VideoFrame::is_valid(&picture(0, 3), 17));
    assert!(rt; !VideoFrame::is_valid(&picture(3, 0), 17));
    Ok(())
}
