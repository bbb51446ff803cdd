// Sums of samples.
use flac_stream::{SampleSum, sum_samples};
use std::process::Abort;
use std::test::Fail;

// The sum that stands in the description of the first example file of RFC 9639 (appendix D.1).
const EXAMPLE: [u8; 16] = [
    0x3e, 0x84, 0xb4, 0x18, 0x07, 0xdc, 0x69, 0x03, 0x07, 0x58, 0x6a, 0x3d, 0xad, 0x1a, 0x2e, 0x0f,
];

// MD5 sums of the same samples' bytes by `md5sum`.
const OF_8_BITS: [u8; 16] = [
    203, 68, 139, 60, 2, 16, 244, 251, 59, 207, 248, 182, 63, 147, 179, 166,
];

const OF_16_BITS: [u8; 16] = [
    125, 131, 51, 50, 10, 129, 171, 23, 173, 238, 251, 32, 112, 94, 226, 197,
];

const OF_24_BITS: [u8; 16] = [
    6, 40, 251, 59, 45, 96, 184, 78, 24, 176, 36, 125, 116, 154, 57, 131,
];

fn is_sum(rt: &impl Abort, depth: u32, samples: &[i32], sum: [u8; 16]) {
    if depth < 1 || 32 < depth {
        return;
    }
    assert_eq!(rt; sum_samples(depth, samples), sum);
    let mut blocks = SampleSum::new();
    for sample in samples {
        blocks.add(depth, &[*sample]);
    }
    assert_eq!(rt; blocks.finish(), sum);
}

#[test]
fn each_sum_is_that_of_the_bytes(rt: HostRuntime) -> Result<(), Fail> {
    is_sum(&rt, 16, &[25588, 10416], EXAMPLE);
    is_sum(&rt, 8, &[-128, 127, 0, 1], OF_8_BITS);
    is_sum(&rt, 16, &[1, -1, 256, -32768, 32767, 0], OF_16_BITS);
    is_sum(&rt, 24, &[1, -1, -8_388_608, 8_388_607], OF_24_BITS);
    // a depth takes whole bytes
    is_sum(&rt, 20, &[1, -1, -8_388_608, 8_388_607], OF_24_BITS);
    Ok(())
}
