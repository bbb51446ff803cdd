// Codes of subframes (RFC 9639, section 9.2): those that are reserved or forbidden, and their neighbours, which are taken. The
// frames and their sums were made in Python, bit by bit.
use crate::row_tests::{decoded, described};
use std::alloc::Global;
use std::test::Fail;

/// The header of a frame of 192 samples in one channel of 16 bits, at 44100 Hz.
const HEADER: [u8; 6] = [0xff, 0xf8, 0x19, 0x08, 0x00, 0xba];

/// Whether that header with these bytes behind it is decoded, into silence.
fn is_silence(alloc: Global, rest: &[u8]) -> Result<bool, Fail> {
    let mut frame = Vec::from_slice(alloc, &HEADER)?;
    frame.extend_from_slice(rest)?;
    match decoded(alloc, &frame, &described(44100, 1, 16))? {
        Some((block, bytes)) => Ok(block == 192 && bytes.as_slice() == [0u8; 384].as_slice()),
        None => Ok(false),
    }
}

/// Whether that header with these bytes behind it is refused.
fn is_refused(alloc: Global, rest: &[u8]) -> Result<bool, Fail> {
    let mut frame = Vec::from_slice(alloc, &HEADER)?;
    frame.extend_from_slice(rest)?;
    Ok(decoded(alloc, &frame, &described(44100, 1, 16))?.is_none())
}

#[test]
fn codes_that_are_not_reserved(rt: HostRuntime) -> Result<(), Fail> {
    for rest in [
        // constant
        [0x00, 0x00, 0x00, 0x30, 0xb2].as_slice(),
        // a fixed predictor, residual methods 0 and 1, each with an escape of no bits
        &[0x10, 0x03, 0xc0, 0xb9, 0x71],
        &[0x10, 0x43, 0xe0, 0xb9, 0xb4],
        // a linear predictor with coefficients of 1 and of 15 bits
        &[0x40, 0x00, 0x00, 0x00, 0x00, 0xf0, 0x00, 0xad, 0xee],
        &[0x40, 0x00, 0x00, 0xe0, 0x00, 0x00, 0x03, 0xc0, 0xc4, 0xae],
    ] {
        assert!(rt; is_silence(rt.alloc(), rest)?);
    }
    Ok(())
}

#[test]
fn each_reserved_code_of_a_subframe_is_refused(rt: HostRuntime) -> Result<(), Fail> {
    for rest in [
        // the bit that must be 0
        [0x80, 0x00, 0x00, 0xba, 0xb1].as_slice(),
        // residual methods 2 and 3
        &[0x10, 0x83, 0xc0, 0x39, 0x78],
        &[0x10, 0xc3, 0xc0, 0xb9, 0x7e],
        // the precision code 15
        &[0x40, 0x00, 0x00, 0xf0, 0x00, 0x00, 0x01, 0xe0, 0x4f, 0xed],
        // shifts of -1 and -16
        &[0x40, 0x00, 0x00, 0x0f, 0x80, 0xf0, 0x00, 0xeb, 0xed],
        &[0x40, 0x00, 0x00, 0x08, 0x00, 0xf0, 0x00, 0x8d, 0xed],
    ] {
        assert!(rt; is_refused(rt.alloc(), rest)?);
    }
    Ok(())
}

/// A constant subframe but for its type, 2 to 7 and 13 to 31: its first byte, and the frame's sum.
const RESERVED_TYPES: [(u8, [u8; 2]); 25] = [
    (0x04, [0xb0, 0xe1]),
    (0x06, [0x30, 0xca]),
    (0x08, [0xb0, 0x11]),
    (0x0a, [0x30, 0x3a]),
    (0x0c, [0x30, 0x42]),
    (0x0e, [0xb0, 0x69]),
    (0x1a, [0xb1, 0x79]),
    (0x1c, [0xb1, 0x01]),
    (0x1e, [0x31, 0x2a]),
    (0x20, [0xb2, 0x31]),
    (0x22, [0x32, 0x1a]),
    (0x24, [0x32, 0x62]),
    (0x26, [0xb2, 0x49]),
    (0x28, [0x32, 0x92]),
    (0x2a, [0xb2, 0xb9]),
    (0x2c, [0xb2, 0xc1]),
    (0x2e, [0x32, 0xea]),
    (0x30, [0x33, 0x72]),
    (0x32, [0xb3, 0x59]),
    (0x34, [0xb3, 0x21]),
    (0x36, [0x33, 0x0a]),
    (0x38, [0xb3, 0xd1]),
    (0x3a, [0x33, 0xfa]),
    (0x3c, [0x33, 0x82]),
    (0x3e, [0xb3, 0xa9]),
];

#[test]
fn each_reserved_type_is_refused(rt: HostRuntime) -> Result<(), Fail> {
    for (kind, [high, low]) in RESERVED_TYPES {
        assert!(rt; is_refused(rt.alloc(), &[kind, 0, 0, high, low])?, "{kind}");
    }
    Ok(())
}
