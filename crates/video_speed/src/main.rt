//! Measures copies of an I420 frame: `video_speed WIDTH HEIGHT LAYOUT ROUNDS` copies it in a layout, `tight`
//! or with strides of a multiple of 256 bytes (`padded`), and prints how many bytes the copies needed. With
//! no round it only makes the frame.
#![tactic(auto)]

use std::alloc::Global;
use std::process::ExitCode;
use std::rt::Env;
use std::{env, io};
use wc_base::{By, NoMemory, PictureFormat, PictureShape, Who};
use wc_pool::{MediaFault, Pool};
use wc_video::{PlaneLayout, VideoFrame};

/// A stride of a multiple of 256 bytes.
fn padded(row: u32) -> u32 {
    (row / 256).saturating_add(1).saturating_mul(256)
}

fn padded_layout(width: u32, height: u32) -> [PlaneLayout; 3] {
    let y = padded(width);
    let uv = padded(width / 2);
    let u = y.saturating_mul(height);
    let v = u.saturating_add(uv.saturating_mul(height / 2));
    [
        PlaneLayout {
            offset: 0,
            stride: y,
        },
        PlaneLayout {
            offset: u,
            stride: uv,
        },
        PlaneLayout {
            offset: v,
            stride: uv,
        },
    ]
}

fn copy_round(frame: &VideoFrame, layout: Option<&[PlaneLayout]>, out: &mut [u8]) -> u64 {
    let size = frame.allocation_size(None, layout).unwrap_or(0);
    match frame.copy_to(out, None, layout) {
        Ok(_) => size,
        Err(_) => 0,
    }
}

fn bytes_of(alloc: Global, byte: u8, size: usize) -> Result<Vec<u8>, NoMemory> {
    Ok(vec![in alloc; byte; size]?)
}

fn run(
    alloc: Global,
    width: u32,
    height: u32,
    layout: Option<&[PlaneLayout]>,
    rounds: u32,
) -> Result<u64, MediaFault> {
    let shape = PictureShape {
        format: PictureFormat::I420,
        width,
        height,
        timestamp: 0,
        duration: None,
    };
    let size = (width as usize)
        .saturating_mul(height as usize)
        .saturating_mul(2);
    let bytes = bytes_of(alloc, 0x5A, size)?;
    let mut pool = Pool::open(alloc);
    let by = By::Caller(Who { caller: 0, step: 0 });
    let frame = VideoFrame::new(alloc, shape, bytes.as_slice(), &mut pool, by)?;
    let mut out = bytes_of(
        alloc,
        0,
        frame.allocation_size(None, layout).unwrap_or(0) as usize,
    )?;
    let mut sum: u64 = 0;
    for _ in 0..rounds {
        sum = sum.wrapping_add(copy_round(&frame, layout, out.as_mut_slice()));
    }
    Ok(sum)
}

fn words(rt: &(impl Env + Alloc<A = Global>)) -> io::Result<Vec<String>> {
    let mut words = Vec::new(rt.alloc());
    for word in env::args(rt)?.skip(1) {
        words.push(word)?;
    }
    Ok(words)
}

fn measure(alloc: Global, words: &[String]) -> Option<u64> {
    match words {
        [width, height, layout, rounds] => {
            let width: u32 = width.as_str().parse().ok()?;
            let height: u32 = height.as_str().parse().ok()?;
            let rounds: u32 = rounds.as_str().parse().ok()?;
            let planes = padded_layout(width, height);
            match layout.as_str() {
                "tight" => run(alloc, width, height, None, rounds).ok(),
                "padded" => run(alloc, width, height, Some(&planes), rounds).ok(),
                _ => None,
            }
        }
        _ => None,
    }
}

fn main(rt: HostRuntime) -> ExitCode {
    let Ok(words) = words(&rt) else {
        return ExitCode::from(1);
    };
    match measure(rt.alloc(), words.as_slice()) {
        Some(sum) => match println!(rt; "{sum}") {
            Ok(()) => ExitCode::from(0),
            Err(_) => ExitCode::from(5),
        },
        None => ExitCode::from(2),
    }
}
