use flac_blocks::{BlockFormat, encode_block, is_block, is_format};
use std::alloc::Global;

/// A block, its number, and the bytes of its frame.
#[derive(Drop)]
struct Row<'a> {
    format: BlockFormat,
    block: u32,
    number: u32,
    samples: &'a [i32],
    bytes: &'a [u8],
}

const HIGHEST: i32 = 0x7fff_ffff;

const LOWEST: i32 = -0x7fff_ffff - 1;

fn format(rate: u32, channels: u8, depth: u8, level: u8) -> BlockFormat {
    BlockFormat {
        rate,
        channels,
        depth,
        level,
    }
}

/// Whether the frame of a row has these bytes.
fn is_written(alloc: Global, row: &Row) -> bool {
    if !is_format(row.format) || !is_block(row.format, row.block, row.samples) {
        return false;
    }
    if row.number > HIGHEST as u32 {
        return false;
    }
    match encode_block(alloc, row.format, row.block, row.number, row.samples) {
        Ok(bytes) => &bytes[..] == row.bytes,
        Err(_) => false,
    }
}

/// The frames that a list of all candidates gives, which libFLAC decodes to the samples.
#[test]
fn frames_of_best_blocks(rt: HostRuntime) {
    let alloc = rt.alloc();
    let rows = [
        // Each channel by itself is shortest.
        Row {
            format: format(48000, 2, 8, 4),
            block: 8,
            number: 3,
            samples: &[
                -34, -12, -78, -7, 0, -45, 22, -59, -7, 12, -38, 39, 11, -57, 37, -31,
            ],
            bytes: &[
                0xff, 0xf8, 0x6a, 0x12, 0x03, 0x07, 0x28, 0x02, 0xde, 0xf4, 0xb2, 0xf9, 0x00, 0xd3,
                0x16, 0xc5, 0x02, 0xf9, 0x0c, 0xda, 0x27, 0x0b, 0xc7, 0x25, 0xe1, 0x3a, 0xe9,
            ],
        },
        // Left and side are.
        Row {
            format: format(48000, 2, 8, 4),
            block: 8,
            number: 3,
            samples: &[
                19, -28, 34, -15, 41, 28, 60, 47, 19, -28, 34, -15, 41, 28, 60, 47,
            ],
            bytes: &[
                0xff, 0xf8, 0x6a, 0x82, 0x03, 0x07, 0x81, 0x02, 0x13, 0xe4, 0x22, 0xf1, 0x29, 0x1c,
                0x3c, 0x2f, 0x00, 0x00, 0x00, 0xfe, 0x9d,
            ],
        },
        // Side and right are.
        Row {
            format: format(48000, 2, 8, 4),
            block: 8,
            number: 3,
            samples: &[
                1, 0, 56, -4, -9, 26, 18, -38, -5, -7, 67, -2, -9, 13, 6, -25,
            ],
            bytes: &[
                0xff, 0xf8, 0x6a, 0x92, 0x03, 0x07, 0x23, 0x10, 0x01, 0x39, 0xe5, 0x67, 0x06, 0x98,
                0x64, 0x40, 0x04, 0xcf, 0x40, 0x2d, 0x34, 0x5a, 0xe0, 0x88, 0x0c, 0xb6,
            ],
        },
        // Mid and side are.
        Row {
            format: format(48000, 2, 8, 4),
            block: 8,
            number: 3,
            samples: &[
                56, 56, 24, 25, 44, 36, 41, -1, 59, 57, 21, 25, 16, 18, 34, 0,
            ],
            bytes: &[
                0xff, 0xf8, 0x6a, 0xa2, 0x03, 0x07, 0xc2, 0x12, 0x39, 0x01, 0x22, 0x13, 0xb6, 0xaa,
                0xa0, 0x6c, 0x40, 0x11, 0x3c, 0x52, 0x0c, 0x14, 0xf4, 0x40, 0xe2, 0x91,
            ],
        },
        // At level 1 the same has no pairs.
        Row {
            format: format(48000, 2, 8, 1),
            block: 8,
            number: 3,
            samples: &[
                56, 56, 24, 25, 44, 36, 41, -1, 59, 57, 21, 25, 16, 18, 34, 0,
            ],
            bytes: &[
                0xff, 0xf8, 0x6a, 0x12, 0x03, 0x07, 0x28, 0x12, 0x38, 0x01, 0x20, 0x3f, 0x22, 0xdf,
                0xd0, 0x26, 0x04, 0x76, 0x72, 0x2a, 0x32, 0x20, 0x24, 0x44, 0x00, 0xaa, 0x80,
            ],
        },
        // One channel.
        Row {
            format: format(44100, 1, 16, 0),
            block: 5,
            number: 0,
            samples: &[1000, 1000, 1000, 1000, 1000],
            bytes: &[
                0xff, 0xf8, 0x69, 0x08, 0x00, 0x04, 0x01, 0x00, 0x03, 0xe8, 0x99, 0xb2,
            ],
        },
        // Three, with a long number, at a rate without a code.
        Row {
            format: format(11025, 3, 24, 5),
            block: 4,
            number: 70000,
            samples: &[8388607, -8388608, 5, 6, 1, 2, 3, 4, 7, 7, 7, 7],
            bytes: &[
                0xff, 0xf8, 0x60, 0x2c, 0xf0, 0x91, 0x85, 0xb0, 0x03, 0x5d, 0x02, 0x7f, 0xff, 0xff,
                0x80, 0x00, 0x00, 0x00, 0x00, 0x05, 0x00, 0x00, 0x06, 0x10, 0x00, 0xb2, 0x31, 0x00,
                0x00, 0x00, 0x01, 0xc0, 0x1b, 0x14,
            ],
        },
        // A pair of 32 bits, with the longest number.
        Row {
            format: format(192000, 2, 32, 8),
            block: 4,
            number: 2147483647,
            samples: &[
                HIGHEST, LOWEST, HIGHEST, LOWEST, HIGHEST, LOWEST, HIGHEST, LOWEST,
            ],
            bytes: &[
                0xff, 0xf8, 0x63, 0x1e, 0xfd, 0xbf, 0xbf, 0xbf, 0xbf, 0xbf, 0x03, 0x1f, 0x02, 0x7f,
                0xff, 0xff, 0xff, 0x80, 0x00, 0x00, 0x00, 0x7f, 0xff, 0xff, 0xff, 0x80, 0x00, 0x00,
                0x00, 0x02, 0x7f, 0xff, 0xff, 0xff, 0x80, 0x00, 0x00, 0x00, 0x7f, 0xff, 0xff, 0xff,
                0x80, 0x00, 0x00, 0x00, 0xaa, 0x81,
            ],
        },
    ];
    for row in &rows {
        assert!(rt; is_written(alloc, row));
    }
}

/// What is no block.
#[test]
fn samples_that_are_no_block(rt: HostRuntime) {
    let stereo = format(8000, 2, 8, 0);
    assert!(rt; is_format(stereo));
    assert!(rt; !is_format(format(8000, 0, 8, 0)));
    assert!(rt; !is_format(format(8000, 9, 8, 0)));
    assert!(rt; !is_format(format(8000, 2, 20, 0)));
    assert!(rt; !is_format(format(8000, 2, 8, 9)));
    if is_format(stereo) {
        assert!(rt; is_block(stereo, 1, &[127, -128]));
        assert!(rt; !is_block(stereo, 1, &[128, -128]));
        assert!(rt; !is_block(stereo, 1, &[127, -129]));
        assert!(rt; !is_block(stereo, 1, &[127]));
        assert!(rt; !is_block(stereo, 0, &[]));
    }
}
