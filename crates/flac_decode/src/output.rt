// Samples as bytes.
ghost use Rattle.std.specs.Prelude.{◌≡◌, ◌⊎◌, ◌*ℤ◌, ◌+◌, ◌*◌, ◌<◌, ◌≤◌, ◌^◌, pos, length, unsigned_abs};
ghost use Rattle.codec_definitions.specs.Pcm.{unsigned, spelled};
ghost use Rattle.flac_decode.specs.Bounds.{AreSmall};
ghost use Rattle.codec_definitions.specs.Flac.{interchannel_bytes, interleaved_bytes};

/// Writes samples that stand channel by channel, frame by frame.
pub fn write_samples(
    channels: usize,
    size: usize,
    block: usize,
    up: u32,
    samples: &[i64],
    out: &mut [u8],
)
    requires channels { channels ≤ 8 }
    requires some { 0 < channels }
    requires size { (size ≡ 2) ⊎ (size ≡ 4) }
    requires samples { length samples.now ≡ channels * block }
    requires places { length out.old ≡ block * (channels * size) }
    requires up { up ≤ 16 }
    requires small { AreSmall 32 samples.now }
    ensures { out.new ≡ interleaved_bytes size up channels block samples.now }
{
    if size == 2 {
        match channels {
            1 => write_interleaved::<1, 2>(block, up, samples, out),
            2 => write_interleaved::<2, 2>(block, up, samples, out),
            3 => write_interleaved::<3, 2>(block, up, samples, out),
            4 => write_interleaved::<4, 2>(block, up, samples, out),
            5 => write_interleaved::<5, 2>(block, up, samples, out),
            6 => write_interleaved::<6, 2>(block, up, samples, out),
            7 => write_interleaved::<7, 2>(block, up, samples, out),
            _ => write_interleaved::<8, 2>(block, up, samples, out),
        }
    } else {
        match channels {
            1 => write_interleaved::<1, 4>(block, up, samples, out),
            2 => write_interleaved::<2, 4>(block, up, samples, out),
            3 => write_interleaved::<3, 4>(block, up, samples, out),
            4 => write_interleaved::<4, 4>(block, up, samples, out),
            5 => write_interleaved::<5, 4>(block, up, samples, out),
            6 => write_interleaved::<6, 4>(block, up, samples, out),
            7 => write_interleaved::<7, 4>(block, up, samples, out),
            _ => write_interleaved::<8, 4>(block, up, samples, out),
        }
    }
}

#[inline(never)]
fn write_interleaved<const N: usize, const SIZE: usize>(
    block: usize,
    up: u32,
    samples: &[i64],
    out: &mut [u8],
)
    requires channels { N ≤ 8 }
    requires size { (SIZE ≡ 2) ⊎ (SIZE ≡ 4) }
    requires samples { length samples.now ≡ N * block }
    requires places { length out.old ≡ block * (N * SIZE) }
    requires up { up ≤ 16 }
    requires small { AreSmall 32 samples.now }
    ensures { out.new ≡ interleaved_bytes SIZE up N block samples.now }
{
    for i in 0..block {
        let from = i * (N * SIZE);
        write_interchannel::<N, SIZE>(i, block, up, samples, &mut out[from..from + N * SIZE]);
    }
}

/// One frame's samples.
#[inline(always)]
fn write_interchannel<const N: usize, const SIZE: usize>(
    i: usize,
    block: usize,
    up: u32,
    samples: &[i64],
    out: &mut [u8],
)
    requires channels { N ≤ 8 }
    requires size { (SIZE ≡ 2) ⊎ (SIZE ≡ 4) }
    requires there { i < block }
    requires samples { length samples.now ≡ N * block }
    requires places { length out.old ≡ N * SIZE }
    requires up { up ≤ 16 }
    requires small { AreSmall 32 samples.now }
    ensures { out.new ≡ interchannel_bytes SIZE up N block samples.now i }
{
    for channel in 0..N {
        let from = channel * SIZE;
        put_sample(
            SIZE,
            shift_up(samples[channel * block + i], up),
            &mut out[from..from + SIZE],
        );
    }
}

/// A sample times a power of two.
#[inline(always)]
fn shift_up(sample: i64, up: u32) -> i64
    requires small { unsigned_abs sample ≤ 2 ^ 32 }
    requires up { up ≤ 16 }
    ensures { result ≡ sample *ℤ pos (2 ^ up) }
{
    sample * (1 << up)
}

/// Writes one sample.
#[inline(always)]
fn put_sample(size: usize, sample: i64, out: &mut [u8])
    requires size { (size ≡ 2) ⊎ (size ≡ 4) }
    requires places { length out.old ≡ size }
    ensures { out.new ≡ spelled size sample }
{
    if size == 2 {
        let [a, b] = low_16(sample).to_le_bytes();
        out[0] = a;
        out[1] = b;
    } else {
        let [a, b, c, d] = low_32(sample).to_le_bytes();
        out[0] = a;
        out[1] = b;
        out[2] = c;
        out[3] = d;
    }
}

#[inline(always)]
fn low_16(sample: i64) -> u16
    ensures { result ≡ unsigned 16 sample }
{
    (sample & 0xffff) as u16
}

#[inline(always)]
fn low_32(sample: i64) -> u32
    ensures { result ≡ unsigned 32 sample }
{
    (sample & 0xffff_ffff) as u32
}
