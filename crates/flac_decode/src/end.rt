// Where a frame ends, and the frame in front of bytes.
ghost use Rattle.std.specs.Prelude.{◌≡◌, ◌<◌, ◌*◌, ◌^◌, take, IfOk, IfSome, length, Err};
ghost use Rattle.codec_definitions.specs.Flac.{sample_size};
ghost use Rattle.flac_definitions.specs.Bits.{start_of};
ghost use Rattle.flac_definitions.specs.Frame.{frame_at};
ghost use Rattle.flac_decode.specs.FrameEnd.{most, EndsAt, FramesAreFound, IsFront, front_of};
ghost use Rattle.flac_decode.specs.Reading.{DecodesFront};

use crate::fault::ReadFault;
use crate::frame::{read_frame, write_frame};
use flac_bits::BitReader;
use flac_laws::frames_are_spelled;
use std::alloc::Global;
use wc_base::NoMemory;
use wc_config::StreamInfo;

/// A frame in front of bytes: how many bytes it has, and how many samples a channel.
#[derive(Clone, Copy, Debug, PartialEq, Eq)]
pub struct FrontFrame {
    pub size: usize,
    pub block: u32,
}

/// The frame with which bytes begin: the first so many bytes are a frame of the stream that is described (RFC 9639,
/// section 9), and for no other number they are one. None exactly where no first bytes are a frame; `NoMemory` only where
/// memory is wanted. `residual` and `samples` are room to work in, which a further call may use again.
pub fn front_frame(
    bytes: &[u8],
    info: &StreamInfo,
    residual: &mut Vec<i32>,
    samples: &mut Vec<i64>,
) -> Result<Option<FrontFrame>, NoMemory>
    ensures { IfOk result (IsFront info.now bytes.now) }
{
    frames_are_spelled();
    front_in(front(bytes), info, residual, samples)
}

/// After how many bytes the frame ends with which they begin: the first so many bytes are a frame of the stream that is
/// described (RFC 9639, section 9), and for no other number they are one. None exactly where no first bytes are a frame;
/// `NoMemory` only where memory is wanted.
pub fn frame_end(alloc: Global, bytes: &[u8], info: &StreamInfo) -> Result<Option<u64>, NoMemory>
    ensures { IfOk result (EndsAt info.now bytes.now) }
{
    let (mut residual, mut samples) = (Vec::new(alloc), Vec::new(alloc));
    match front_frame(bytes, info, &mut residual, &mut samples) {
        Ok(Some(frame)) => Ok(Some(frame.size as u64)),
        Ok(None) => Ok(None),
        Err(e) => Err(e),
    }
}

/// Decodes the frame with which bytes begin, in one pass, of the stream that is described (RFC 9639, section 9): how many
/// bytes it has, as `front_frame` says, and how many samples a channel. What `out` held is replaced by its samples' bytes,
/// as `decode_frame` has them. Where no first bytes are a frame, `Short` exactly where reading them ends for want of bits,
/// so that more bytes may make one, and else `Refused`; `out` stays then. `NoMemory` only where memory is wanted. `residual`
/// and `samples` are room to work in, which a further call may use again.
pub fn decode_front(
    bytes: &[u8],
    info: &StreamInfo,
    residual: &mut Vec<i32>,
    samples: &mut Vec<i64>,
    out: &mut Vec<u8>,
) -> Result<FrontFrame, ReadFault>
    ensures decoded { DecodesFront info.now bytes.now result out.new.items }
    ensures size { IfOk result
        (λ f. length out.new.items ≡ f.block * (info.now.channels * sample_size info.now.depth)) }
    ensures kept { result ≡ Err ReadFault.Refused → out.new ≡ out.old }
    ensures kept_short { result ≡ Err ReadFault.Short → out.new ≡ out.old }
{
    frames_are_spelled();
    let mut r = BitReader::new(front(bytes));
    let header = match read_frame(&mut r, info, residual, samples) {
        Ok(h) => h,
        Err(e) => return Err(e),
    };
    match write_frame(&header, samples.as_slice(), out) {
        Ok(()) => {
            let (size, block) = ((r.at() / 8) as usize, header.block);
            Ok(FrontFrame { size, block })
        }
        Err(NoMemory) => Err(ReadFault::NoMemory),
    }
}

/// Bytes begin with one frame of a stream at most, and with one or with none. A frame has a byte at least, and fewer than
/// 65,536 samples a channel (RFC 9639, section 9.1.6).
pub fn frames_are_found()
    ensures { FramesAreFound }
{
    frames_are_spelled();
}

/// The bytes of which a frame's end is looked for.
fn front(bytes: &[u8]) -> &[u8]
    ensures { result.now ≡ take most bytes.now }
{
    if bytes.len() < 1 << 61 {
        bytes
    } else {
        &bytes[..(1 << 61) - 1]
    }
}

fn front_in(
    bytes: &[u8],
    info: &StreamInfo,
    residual: &mut Vec<i32>,
    samples: &mut Vec<i64>,
) -> Result<Option<FrontFrame>, NoMemory>
    requires { length bytes.now < 2 ^ 61 }
    ensures { IfOk result (λ o. o ≡ front_of (frame_at info.now (start_of bytes.now))) }
{
    let mut r = BitReader::new(bytes);
    match read_frame(&mut r, info, residual, samples) {
        Ok(header) => Ok(Some(FrontFrame {
            size: (r.at() / 8) as usize,
            block: header.block,
        })),
        Err(ReadFault::Refused | ReadFault::Short) => Ok(None),
        Err(ReadFault::NoMemory) => Err(NoMemory),
    }
}
