// Samples in another size.
ghost use Rattle.std.specs.Prelude.{◌≡◌, ◌≢◌, ◌%◌, length, IfOk};
ghost use Rattle.codec_definitions.specs.Pcm.{resized};
ghost use Rattle.sample_conversion.specs.Sizes.{size_of};
ghost use Rattle.sample_conversion.specs.declared.size.SampleSize.TheVariants.{Three};

use crate::size::SampleSize;
use std::alloc::Global;
use wc_base::NoMemory;

/// A law: in their own size, samples of 8, 16 or 32 bits are spelled by the bytes that spell them.
pub fn stays(size: SampleSize, bytes: &[u8])
    requires whole { length bytes.now % size_of size ≡ 0 }
    requires size { size ≢ Three }
    ensures { bytes.now ≡ resized (size_of size) (size_of size) bytes.now }
{}

/// Samples of 24 bits in 32: each is multiplied by 256.
pub fn widened(alloc: Global, bytes: &[u8]) -> Result<Vec<u8>, NoMemory>
    requires { length bytes.now % 3 ≡ 0 }
    ensures { IfOk result (λ v. v.items ≡ resized 3 4 bytes.now) }
{
    let mut wide = Vec::new(alloc);
    for i in 0..bytes.len() / 3 {
        wide.extend_from_slice(&[0])?;
        wide.extend_from_slice(&bytes[3 * i..3 * i + 3])?;
    }
    Ok(wide)
}
