// The sum of a stream's samples.
ghost use Rattle.std.specs.Prelude.{◌≡◌, ◌≤◌, ◌++◌, ℕ, List, []};
ghost use Rattle.std.specs.List.{flat_map};
ghost use Rattle.md5.specs.Md5.{Holds, md5};
ghost use Rattle.flac_stream.specs.Sums.{SumsUp, sample_bytes, sample_sum, summed_bytes};

use md5::{Digest, Md5};

/// The MD5 sum of a stream's samples in the making, which takes them block by block. What `finish` gives is compared with
/// `StreamInfo::md5`, where zeros stand for unknown.
#[derive(Drop)]
pub struct SampleSum {
    hasher: Md5,
}

impl SampleSum {
    /// The sum of no samples so far.
    pub fn new() -> SampleSum
        ensures { SumsUp result [] }
    {
        SampleSum { hasher: Md5::new() }
    }

    /// Takes further samples of so many bits (RFC 9639, section 8.2), frame by frame, one of each channel.
    pub fn add(&mut self, depth: u32, samples: &[i32])
        requires some { 1 ≤ depth }
        requires few { depth ≤ 32 }
        ensures { (message : List ℕ) → SumsUp self.old message
            → SumsUp self.new (message ++ summed_bytes depth samples.now) }
    {
        add_samples(&mut self.hasher, (depth as usize + 7) / 8, samples);
    }

    /// The sum.
    pub fn finish(self) -> [u8; 16]
        ensures { (message : List ℕ) → SumsUp self message → result ≡ md5 message }
    {
        self.hasher.finalize()
    }
}

/// The MD5 sum of all samples of a stream, of so many bits, frame by frame (RFC 9639, section 8.2).
pub fn sum_samples(depth: u32, samples: &[i32]) -> [u8; 16]
    requires some { 1 ≤ depth }
    requires few { depth ≤ 32 }
    ensures { result ≡ sample_sum depth samples.now }
{
    let mut sum = SampleSum::new();
    sum.add(depth, samples);
    sum.finish()
}

fn add_samples(hasher: &mut Md5, size: usize, samples: &[i32])
    requires { size ≤ 4 }
    ensures { (message : List ℕ) → Holds hasher.old message
        → Holds hasher.new (message ++ flat_map (sample_bytes size) samples.now) }
{
    for i in 0..samples.len() {
        add_sample(hasher, size, samples[i]);
    }
}

fn add_sample(hasher: &mut Md5, size: usize, sample: i32)
    requires { size ≤ 4 }
    ensures { (message : List ℕ) → Holds hasher.old message
        → Holds hasher.new (message ++ sample_bytes size sample) }
{
    let bytes = sample.to_le_bytes();
    hasher.update(&bytes[..size]);
}
