// The 36 pairs of formats: four samples of two channels, with values worked by hand, and 0 to 70 samples of one channel,
// which are these again and again. From more bits to fewer they are divided and rounded down, so that -1 stays -1.
use std::alloc::Global;
use std::test::Fail;
use wc_audio::{AudioData, CopyFormat, CopyOptions};
use wc_base::{By, NoMemory, SampleFormat, SoundShape, Who};
use wc_pool::{MediaFault, Pool};

/// Two frames in a format of each layout: frame by frame, and channel by channel.
#[derive(Clone, Copy)]
struct Sound {
    rows: SampleFormat,
    row_bytes: &'static [u8],
    planes: SampleFormat,
    plane_bytes: &'static [u8],
}

/// What a copy gives in a format of each layout: frame by frame, the first channel, and the second one.
#[derive(Clone, Copy)]
struct Conversion {
    rows: CopyFormat,
    row_bytes: &'static [u8],
    planes: CopyFormat,
    first: &'static [u8],
    second: &'static [u8],
}

fn of_bytes(row_bytes: &'static [u8], first: &'static [u8], second: &'static [u8]) -> Conversion {
    Conversion {
        rows: CopyFormat::U8,
        row_bytes,
        planes: CopyFormat::U8Planar,
        first,
        second,
    }
}

fn of_shorts(row_bytes: &'static [u8], first: &'static [u8], second: &'static [u8]) -> Conversion {
    Conversion {
        rows: CopyFormat::S16,
        row_bytes,
        planes: CopyFormat::S16Planar,
        first,
        second,
    }
}

fn of_longs(row_bytes: &'static [u8], first: &'static [u8], second: &'static [u8]) -> Conversion {
    Conversion {
        rows: CopyFormat::S32,
        row_bytes,
        planes: CopyFormat::S32Planar,
        first,
        second,
    }
}

fn data_of(
    alloc: Global,
    pool: &mut Pool,
    format: SampleFormat,
    channels: u32,
    frames: u32,
    content: &[u8],
) -> Result<AudioData, MediaFault> {
    let shape = SoundShape {
        format,
        rate: 48000,
        channels,
        frames,
        timestamp: 0,
    };
    AudioData::new(
        alloc,
        shape,
        content,
        pool,
        By::Caller(Who { caller: 0, step: 0 }),
    )
}

fn gives(data: &AudioData, format: CopyFormat, plane: u32, wanted: &[u8]) -> bool {
    let mut dst = [9_u8; 16];
    let o = CopyOptions {
        plane,
        offset: 0,
        count: None,
        format: Some(format),
    };
    match data.copy_to(&mut dst, &o) {
        Ok(n) => &dst[..n] == wanted,
        Err(_) => false,
    }
}

fn gives_all(data: &AudioData, copy: &Conversion) -> bool {
    gives(data, copy.rows, 0, copy.row_bytes)
        && gives(data, copy.planes, 0, copy.first)
        && gives(data, copy.planes, 1, copy.second)
}

fn converts(alloc: Global, sound: &Sound, copies: &[Conversion; 3]) -> Result<bool, MediaFault> {
    let mut pool = Pool::open(alloc);
    let rows = data_of(alloc, &mut pool, sound.rows, 2, 2, sound.row_bytes)?;
    let planes = data_of(alloc, &mut pool, sound.planes, 2, 2, sound.plane_bytes)?;
    for copy in copies {
        if !gives_all(&rows, copy) || !gives_all(&planes, copy) {
            return Ok(false);
        }
    }
    Ok(true)
}

/// 70 samples: four again and again.
fn content_of(alloc: Global, four: &[u8]) -> Result<Vec<u8>, NoMemory> {
    let mut content = Vec::new(alloc);
    for _ in 0..17 {
        content.extend_from_slice(four)?;
    }
    content.extend_from_slice(&four[..four.len() / 2])?;
    Ok(content)
}

/// Whether these are the wanted bytes again and again.
fn repeats(found: &[u8], wanted: &[u8]) -> bool {
    if wanted.is_empty() {
        return false;
    }
    for i in 0..found.len() {
        if found[i] != wanted[i % wanted.len()] {
            return false;
        }
    }
    true
}

/// Whether copies of 0 to 70 samples are of the wanted four again and again, and leave what stands behind.
fn gives_each(data: &AudioData, format: CopyFormat, four: &[u8]) -> bool {
    for count in 0..71 {
        let mut dst = [9_u8; 284];
        let o = CopyOptions {
            plane: 0,
            offset: 0,
            count: Some(count),
            format: Some(format),
        };
        let Ok(n) = data.copy_to(&mut dst, &o) else {
            return false;
        };
        let size = (count as usize).saturating_mul(four.len() / 4);
        if n != size || !repeats(&dst[..n], four) || !repeats(&dst[n..], &[9]) {
            return false;
        }
    }
    true
}

fn converts_each(
    alloc: Global,
    sound: &Sound,
    copies: &[Conversion; 3],
) -> Result<bool, MediaFault> {
    let mut pool = Pool::open(alloc);
    let content = content_of(alloc, sound.row_bytes)?;
    let rows = data_of(alloc, &mut pool, sound.rows, 1, 70, content.as_slice())?;
    let planes = data_of(alloc, &mut pool, sound.planes, 1, 70, content.as_slice())?;
    for copy in copies {
        for format in [copy.rows, copy.planes] {
            if !gives_each(&rows, format, copy.row_bytes)
                || !gives_each(&planes, format, copy.row_bytes)
            {
                return Ok(false);
            }
        }
    }
    Ok(true)
}

/// Both of one format's samples.
fn converts_all(
    alloc: Global,
    sound: &Sound,
    copies: &[Conversion; 3],
) -> Result<bool, MediaFault> {
    Ok(converts(alloc, sound, copies)? && converts_each(alloc, sound, copies)?)
}

#[test]
fn unsigned_bytes_are_converted(rt: HostRuntime) -> Result<(), Fail> {
    let sound = Sound {
        rows: SampleFormat::U8,
        row_bytes: &[0, 0x80, 0xff, 0x7f],
        planes: SampleFormat::U8Planar,
        plane_bytes: &[0, 0xff, 0x80, 0x7f],
    };
    let copies = [
        of_bytes(&[0, 0x80, 0xff, 0x7f], &[0, 0xff], &[0x80, 0x7f]),
        of_shorts(
            &[0, 0x80, 0, 0, 0, 0x7f, 0, 0xff],
            &[0, 0x80, 0, 0x7f],
            &[0, 0, 0, 0xff],
        ),
        of_longs(
            &[0, 0, 0, 0x80, 0, 0, 0, 0, 0, 0, 0, 0x7f, 0, 0, 0, 0xff],
            &[0, 0, 0, 0x80, 0, 0, 0, 0x7f],
            &[0, 0, 0, 0, 0, 0, 0, 0xff],
        ),
    ];
    assert!(rt; converts_all(rt.alloc(), &sound, &copies)?);
    Ok(())
}

#[test]
fn numbers_of_16_bits_are_converted(rt: HostRuntime) -> Result<(), Fail> {
    let sound = Sound {
        rows: SampleFormat::S16,
        row_bytes: &[1, 0, 0xff, 0xff, 0, 0x80, 0xff, 0x7f],
        planes: SampleFormat::S16Planar,
        plane_bytes: &[1, 0, 0, 0x80, 0xff, 0xff, 0xff, 0x7f],
    };
    let copies = [
        of_bytes(&[0x80, 0x7f, 0, 0xff], &[0x80, 0], &[0x7f, 0xff]),
        of_shorts(
            &[1, 0, 0xff, 0xff, 0, 0x80, 0xff, 0x7f],
            &[1, 0, 0, 0x80],
            &[0xff, 0xff, 0xff, 0x7f],
        ),
        of_longs(
            &[
                0, 0, 1, 0, 0, 0, 0xff, 0xff, 0, 0, 0, 0x80, 0, 0, 0xff, 0x7f,
            ],
            &[0, 0, 1, 0, 0, 0, 0, 0x80],
            &[0, 0, 0xff, 0xff, 0, 0, 0xff, 0x7f],
        ),
    ];
    assert!(rt; converts_all(rt.alloc(), &sound, &copies)?);
    Ok(())
}

#[test]
fn numbers_of_32_bits_are_converted(rt: HostRuntime) -> Result<(), Fail> {
    let sound = Sound {
        rows: SampleFormat::S32,
        row_bytes: &[
            1, 0, 0, 0, 0xff, 0xff, 0xff, 0xff, 0, 0, 0, 0x80, 0x78, 0x56, 0x34, 0x12,
        ],
        planes: SampleFormat::S32Planar,
        plane_bytes: &[
            1, 0, 0, 0, 0, 0, 0, 0x80, 0xff, 0xff, 0xff, 0xff, 0x78, 0x56, 0x34, 0x12,
        ],
    };
    let copies = [
        of_bytes(&[0x80, 0x7f, 0, 0x92], &[0x80, 0], &[0x7f, 0x92]),
        of_shorts(
            &[0, 0, 0xff, 0xff, 0, 0x80, 0x34, 0x12],
            &[0, 0, 0, 0x80],
            &[0xff, 0xff, 0x34, 0x12],
        ),
        of_longs(
            &[
                1, 0, 0, 0, 0xff, 0xff, 0xff, 0xff, 0, 0, 0, 0x80, 0x78, 0x56, 0x34, 0x12,
            ],
            &[1, 0, 0, 0, 0, 0, 0, 0x80],
            &[0xff, 0xff, 0xff, 0xff, 0x78, 0x56, 0x34, 0x12],
        ),
    ];
    assert!(rt; converts_all(rt.alloc(), &sound, &copies)?);
    Ok(())
}
