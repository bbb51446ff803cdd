use flac_subframes::{Candidate, best_choice};
use std::alloc::Global;

/// Whether the best candidate of samples is this one, with so many bits.
fn is_best(
    alloc: Global,
    samples: &[i32],
    depth: u32,
    level: u32,
    candidate: Candidate,
    bits: u64,
) -> bool {
    if samples.len() < 1 || samples.len() > 100 || depth > 33 || level > 8 {
        return false;
    }
    match best_choice(alloc, samples, depth, level) {
        Ok(choice) => choice.candidate == candidate && choice.bits == bits,
        Err(_) => false,
    }
}

fn fixed(order: u32, partition: u32) -> Candidate {
    Candidate::Fixed { order, partition }
}

const SQUARES: [i32; 16] = [
    0, 1, 4, 9, 16, 25, 36, 49, 64, 81, 100, 121, 144, 169, 196, 225,
];

const CUBES: [i32; 16] = [
    0, 1, 8, 27, 64, 125, 216, 343, 512, 729, 1000, 1331, 1728, 2197, 2744, 3375,
];

const LOWEST: i32 = -0x7fff_ffff - 1;

/// The candidates that a list of all of them has first of the least length.
#[test]
fn candidates_of_least_length(rt: HostRuntime) {
    let alloc = rt.alloc();
    let rows: [(&[i32], u32, u32, Candidate, u64); 12] = [
        (&[1000; 16], 16, 5, Candidate::Constant, 24),
        (&[0, 0, 0], 16, 0, fixed(0, 0), 21),
        (&[3, 3], 8, 8, Candidate::Constant, 16),
        (&[127, -128, 127, -128], 8, 8, Candidate::Verbatim, 40),
        (&[1, 2, 3, 4, 5, 6, 7, 8], 8, 5, fixed(2, 0), 40),
        (&SQUARES, 16, 5, fixed(3, 0), 79),
        (&SQUARES, 16, 1, fixed(1, 0), 130),
        (&CUBES, 16, 8, fixed(4, 0), 94),
        (&[5, 6, 7, 8, 30, 20, 10, 0], 8, 2, fixed(1, 1), 64),
        (&[7, -7, 8, -8, 7, -7, 8, -8], 16, 0, fixed(0, 0), 60),
        (
            &[LOWEST, LOWEST, LOWEST, LOWEST],
            32,
            8,
            Candidate::Constant,
            40,
        ),
        (
            &[0x7fff_ffff, LOWEST, 0x7fff_ffff, LOWEST],
            32,
            8,
            Candidate::Verbatim,
            136,
        ),
    ];
    for (samples, depth, level, candidate, bits) in &rows {
        assert!(rt; is_best(alloc, samples, *depth, *level, *candidate, *bits));
    }
}

/// Samples of 32 bits whose differences are in range, though they are not.
#[test]
fn large_samples_are_predicted(rt: HostRuntime) {
    let samples = [
        0x7fff_ffff,
        0x7fff_fffe,
        0x7fff_fffd,
        0x7fff_fffc,
        0x7fff_fffb,
        0x7fff_fffa,
        0x7fff_fff9,
        0x7fff_fff8,
    ];
    assert!(rt; is_best(rt.alloc(), &samples, 32, 3, fixed(1, 0), 64));
}
