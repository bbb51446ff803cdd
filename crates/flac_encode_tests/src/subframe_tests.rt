use crate::bytes_tests::holds;
use flac_blocks::have_depth;
use flac_subframes::{best_choice, write_subframe};
use flac_write::BitWriter;
use std::alloc::Global;

/// Whether the subframe of the best choice for samples has these bytes, filled up with zeros.
fn is_written(alloc: Global, samples: &[i32], depth: u32, level: u32, bytes: &[u8]) -> bool {
    if samples.len() < 1 || samples.len() > 100 || level > 8 || depth < 1 || depth > 33 {
        return false;
    }
    if !have_depth(samples, depth) {
        return false;
    }
    let Ok(choice) = best_choice(alloc, samples, depth, level) else {
        return false;
    };
    let mut w = BitWriter::new(alloc);
    write_subframe(alloc, &mut w, samples, depth, &choice).is_ok() && holds(w, bytes)
}

/// The subframes that a list of all candidates has first of the least length.
#[test]
fn subframes_of_least_length(rt: HostRuntime) {
    let alloc = rt.alloc();
    let rows: [(&[i32], u32, u32, &[u8]); 4] = [
        (&[1000, 1000, 1000, 1000], 16, 5, &[0x00, 0x03, 0xe8]),
        (
            &[127, -128, 127, -128],
            8,
            8,
            &[0x02, 0x7f, 0x80, 0x7f, 0x80],
        ),
        (
            &[1, 2, 3, 4, 5, 6, 7, 8],
            8,
            5,
            &[0x14, 0x01, 0x02, 0x00, 0x3f],
        ),
        (&[5, -6, 7], 33, 0, &[0x10, 0x00, 0xd4, 0xb7, 0x00]),
    ];
    for (samples, depth, level, bytes) in &rows {
        assert!(rt; is_written(alloc, samples, *depth, *level, bytes));
    }
}
