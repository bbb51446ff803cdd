// Audio data over a resource that is there already, and the same with a copy of the bytes.
use array_buffers::ArrayBuffer;
use std::alloc::Global;
use wc_audio::AudioData;
use wc_base::{By, NoMemory, SampleFormat, SoundShape, Who};
use wc_pool::{MediaFault, MediaRef, Pool};

fn bytes_of(alloc: Global, size: u32) -> Result<Vec<u8>, NoMemory> {
    Ok(vec![in alloc; 0x5A_u8; size as usize]?)
}

/// Of one channel of bytes.
fn shape_of(frames: u32) -> SoundShape {
    SoundShape {
        format: SampleFormat::U8,
        rate: 48000,
        channels: 1,
        frames,
        timestamp: 0,
    }
}

fn by() -> By {
    By::Caller(Who { caller: 0, step: 0 })
}

/// Data over a resource, and its reference again; how many bytes the data saw.
fn adopt_round(shape: SoundShape, held: MediaRef) -> (Option<MediaRef>, u64) {
    match AudioData::adopt(shape, held) {
        Ok(data) => {
            let size = data.content().len() as u64;
            (data.into_reference(), size)
        }
        Err((_, held)) => (Some(held), 0),
    }
}

/// Audio data takes over the resource of one buffer again and again.
pub fn adopt_rounds(alloc: Global, size: u32, rounds: u32) -> Result<u64, NoMemory> {
    let bytes = bytes_of(alloc, size)?;
    let mut pool = Pool::open(alloc);
    let mut buffer = ArrayBuffer::new(alloc, bytes.as_slice(), &mut pool, by())?;
    let mut held = buffer.detach();
    let mut sum: u64 = 0;
    for _ in 0..rounds {
        let Some(reference) = held else {
            return Ok(sum);
        };
        let round = adopt_round(shape_of(size), reference);
        sum = sum.wrapping_add(round.1);
        held = round.0;
    }
    Ok(sum)
}

fn new_round(alloc: Global, bytes: &[u8], size: u32, pool: &mut Pool) -> Result<u64, MediaFault> {
    let mut data = AudioData::new(alloc, shape_of(size), bytes, pool, by())?;
    match data.close_data(pool, by()) {
        Some(bytes) => Ok(bytes.len() as u64),
        None => Ok(0),
    }
}

/// Audio data is made with a copy of the same bytes again and again, and closed.
pub fn new_rounds(alloc: Global, size: u32, rounds: u32) -> Result<u64, MediaFault> {
    let bytes = bytes_of(alloc, size)?;
    let mut pool = Pool::open(alloc);
    let mut sum: u64 = 0;
    for _ in 0..rounds {
        sum = sum.wrapping_add(new_round(alloc, bytes.as_slice(), size, &mut pool)?);
    }
    Ok(sum)
}
