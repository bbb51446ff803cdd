use flac_bits::BitReader;
use flac_definitions::ResidualFault;
use flac_rice::read_residual;
use std::alloc::Global;

/// Reads a residual behind some bits, and gives the place behind it; none for bytes that no row has.
fn read(
    bytes: &[u8],
    skipped: u32,
    block: u32,
    order: u32,
    out: &mut Vec<i32>,
) -> Option<(Result<(), ResidualFault>, u64)> {
    if bytes.len() > 100 || skipped > 64 {
        return None;
    }
    let mut reader = BitReader::new(bytes);
    if reader.take(skipped).is_err() {
        return None;
    }
    let result = read_residual(&mut reader, block, order, out);
    Some((result, reader.at()))
}

/// Whether the bits behind the skipped ones are a residual of these values, which ends at a place.
fn is_residual(
    alloc: Global,
    bytes: &[u8],
    skipped: u32,
    order: u32,
    values: &[i32],
    end: u64,
) -> bool {
    if values.len() > 100 || order > 32 {
        return false;
    }
    let mut out = Vec::new(alloc);
    match read(bytes, skipped, values.len() as u32 + order, order, &mut out) {
        Some((Ok(()), at)) => at == end && &out[..] == values,
        _ => false,
    }
}

fn is_fault(alloc: Global, bytes: &[u8], block: u32, order: u32, fault: ResidualFault) -> bool {
    let mut out = Vec::new(alloc);
    match read(bytes, 0, block, order, &mut out) {
        Some((Err(found), _)) => found == fault,
        _ => false,
    }
}

/// The first residual of RFC 9639, appendix D.2, from its eleventh byte on.
#[test]
fn the_residual_of_the_standards_example(rt: HostRuntime) {
    let bytes = [
        0x01, 0x62, 0x3d, 0x14, 0x42, 0x99, 0x8f, 0x5d, 0xf7, 0x0d, 0x6f, 0xe0, 0x0c, 0x17, 0xca,
        0xeb, 0x21, 0x00, 0x0e, 0xe7, 0xa7, 0x7a, 0x24, 0xa1, 0x59, 0x0c,
    ];
    let values = [
        3194, -1297, 1228, -943, 952, -696, 768, -524, 599, -401, -13172, -316, 274, -267, 134,
    ];
    assert!(rt; is_residual(rt.alloc(), &bytes, 1, 1, &values, 208));
}

/// Both methods, two partitions, an escape of three bits and one of none, and the greatest and least values. The bits
/// were put together field by field, in Python.
#[test]
fn methods_escapes_and_the_ends_of_the_range(rt: HostRuntime) {
    let alloc = rt.alloc();
    assert!(rt; is_residual(alloc, &[0x44, 0x45, 0xf8, 0xe3], 0, 1, &[-5, -4, 3], 32));
    assert!(rt; is_residual(alloc, &[0x03, 0xc0], 0, 0, &[0, 0, 0], 15));
    let greatest = [0x43, 0xc3, 0xff, 0xff, 0xff, 0xf0];
    assert!(rt; is_residual(alloc, &greatest, 0, 0, &[0x7fff_ffff], 45));
    let least = [0x43, 0xc3, 0xff, 0xff, 0xff, 0xe8];
    assert!(rt; is_residual(alloc, &least, 0, 0, &[-0x7fff_ffff], 45));
}

#[test]
fn faults_are_named_with_their_places(rt: HostRuntime) {
    let alloc = rt.alloc();
    for (first, block, order, fault) in [
        (0x80, 4, 0, ResidualFault::Reserved { bit: 0 }), // reserved coding methods
        (0xc0, 4, 0, ResidualFault::Reserved { bit: 0 }),
        (0x0c, 4, 0, ResidualFault::Reserved { bit: 2 }), // eight partitions of four values
        (0x04, 4, 2, ResidualFault::Reserved { bit: 2 }), // a first partition of none
        (0x04, 4, 3, ResidualFault::Reserved { bit: 2 }), // and of fewer than none
        (0x00, 4, 0, ResidualFault::Short { bit: 6 }),
    ] {
        assert!(rt; is_fault(alloc, &[first], block, order, fault), "{first}");
    }
    assert!(rt; is_fault(alloc, &[], 4, 0, ResidualFault::Short { bit: 0 }));
    assert!(rt; is_fault(alloc, &[0, 0], 4, 0, ResidualFault::Short { bit: 10 }));
    let past = [0x43, 0xc3, 0xff, 0xff, 0xff, 0xf8];
    assert!(rt; is_fault(alloc, &past, 1, 0, ResidualFault::Range { bit: 11 }));
}
