// Whether a block can be written.
ghost use Rattle.std.specs.Prelude.{◌≡◌, ◌≤◌, ◌-◌, ◌*◌, ◌^◌, ◌==◌, ◌||◌, ◌&&◌, ◌≤ℤ◌, pos, nat_le, true, false, length};
ghost use Rattle.flac_definitions.specs.FixedPredictors.{at};
ghost use Rattle.flac_definitions.specs.SubframeWriting.{HasDepth, HaveDepth};
ghost use Rattle.flac_definitions.specs.Modes.{IsFormat, IsBlock};

use flac_definitions::BlockFormat;

/// Whether blocks of a format can be written: 1 to 8 channels of 8, 16, 24 or 32 bits a sample, at a level of 0 to 8.
pub fn is_format(format: BlockFormat) -> bool
    ensures yes { result ≡ true → IsFormat format }
    ensures no { result ≡ false → IsFormat format → ⊥ }
{
    is_depth(format.depth) && is_count(format.channels) && format.level <= 8
}

fn is_count(channels: u8) -> bool
    ensures { result ≡ (nat_le 1 channels && nat_le channels 8) }
{
    channels >= 1 && channels <= 8
}

fn is_depth(depth: u8) -> bool
    ensures { result ≡ ((depth == 8) || (depth == 16) || (depth == 24) || (depth == 32)) }
{
    depth == 8 || depth == 16 || depth == 24 || depth == 32
}

/// Whether samples are a block of so many frames, 1 to 65535, of a format.
pub fn is_block(format: BlockFormat, block: u32, samples: &[i32]) -> bool
    requires { IsFormat format }
    ensures yes { result ≡ true → IsBlock format block samples.now }
    ensures no { result ≡ false → IsBlock format block samples.now → ⊥ }
{
    if block < 1 || block > 65535 {
        return false;
    }
    if samples.len() != format.channels as usize * block as usize {
        return false;
    }
    have_depth(samples, format.depth as u32)
}

/// Whether all samples have so many bits, 1 to 33.
pub fn have_depth(samples: &[i32], depth: u32) -> bool
    requires some { 1 ≤ depth }
    requires few { depth ≤ 33 }
    ensures yes { result ≡ true → HaveDepth depth samples.now }
    ensures no { result ≡ false → HaveDepth depth samples.now → ⊥ }
{
    for sample in samples {
        if !has_depth(*sample, depth) {
            return false;
        }
    }
    true
}

#[inline]
fn has_depth(sample: i32, depth: u32) -> bool
    requires some { 1 ≤ depth }
    requires few { depth ≤ 33 }
    ensures yes { result ≡ true → HasDepth depth sample }
    ensures no { result ≡ false → HasDepth depth sample → ⊥ }
{
    let limit = limit(depth);
    -limit <= sample as i64 && (sample as i64) < limit
}

/// The first number above those of so many bits.
#[inline]
fn limit(depth: u32) -> i64
    requires some { 1 ≤ depth }
    requires few { depth ≤ 33 }
    ensures value { result ≡ pos (2 ^ (depth - 1)) }
    ensures small { result ≤ℤ pos (2 ^ 32) }
{
    1 << (depth - 1)
}
