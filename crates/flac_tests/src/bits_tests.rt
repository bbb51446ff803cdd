use flac_bits::{BitReader, End, crc8, crc16};

/// The check values of the catalogue of CRC algorithms (CRC-8/SMBUS, CRC-16/UMTS), and the sums that stand in the frames
/// of RFC 9639, appendices D.1 and D.2.
#[test]
fn sums_as_others_have_them(rt: HostRuntime) {
    let digits: [u8; 9] = *b"123456789";
    assert_eq!(rt; crc8(&digits), 0xF4);
    assert_eq!(rt; crc16(&digits), 0xFEE8);
    assert_eq!(rt; crc8(&[]), 0);
    assert_eq!(rt; crc16(&[]), 0);
    assert_eq!(rt; crc8(&FRAME[..6]), 0xBF);
    assert_eq!(rt; crc16(&FRAME), 0);
    assert_eq!(rt; crc16(&LONG_FRAME), 0);
    assert_eq!(rt; crc16(&LONG_FRAME[..66]), 0xB810);
}

/// RFC 9639, appendix D.1.
const FRAME: [u8; 15] = [
    0xff, 0xf8, 0x69, 0x18, 0x00, 0x00, 0xbf, 0x03, 0x58, 0xfd, 0x03, 0x12, 0x8b, 0xaa, 0x9a,
];

/// RFC 9639, appendix D.2, the first frame.
const LONG_FRAME: [u8; 68] = [
    0xff, 0xf8, 0x69, 0x98, 0x00, 0x0f, 0x99, 0x12, 0x08, 0x67, 0x01, 0x62, 0x3d, 0x14, 0x42, 0x99,
    0x8f, 0x5d, 0xf7, 0x0d, 0x6f, 0xe0, 0x0c, 0x17, 0xca, 0xeb, 0x21, 0x00, 0x0e, 0xe7, 0xa7, 0x7a,
    0x24, 0xa1, 0x59, 0x0c, 0x12, 0x17, 0xb6, 0x03, 0x09, 0x7b, 0x78, 0x4f, 0xaa, 0x9a, 0x33, 0xd2,
    0x85, 0xe0, 0x70, 0xad, 0x5b, 0x1b, 0x48, 0x51, 0xb4, 0x01, 0x0d, 0x99, 0xd2, 0xcd, 0x1a, 0x68,
    0xf1, 0xe6, 0xb8, 0x10,
];

#[test]
fn bits_come_in_order(rt: HostRuntime) {
    let bytes = [0xA5, 0x0F];
    let mut reader = BitReader::new(&bytes);
    assert_eq!(rt; reader.at(), 0);
    assert!(rt; reader.take(4) == Ok(10));
    assert!(rt; reader.unary() == Ok(1));
    assert!(rt; reader.take(2) == Ok(1));
    assert!(rt; reader.unary() == Ok(4));
    assert!(rt; reader.take(4) == Err(End));
    assert!(rt; reader.take(3) == Ok(7));
    assert!(rt; reader.take(0) == Ok(0));
    assert!(rt; reader.unary() == Err(End));
    assert_eq!(rt; reader.at(), 16);
}

#[test]
fn a_number_of_64_bits_across_bytes(rt: HostRuntime) {
    let bytes = [0x01, 0x23, 0x45, 0x67, 0x89, 0xAB, 0xCD, 0xEF, 0x01];
    let mut reader = BitReader::new(&bytes);
    assert!(rt; reader.take(4) == Ok(0));
    assert!(rt; reader.take(64) == Ok(0x1234_5678_9ABC_DEF0));
    assert!(rt; reader.unary() == Ok(3));
    assert_eq!(rt; reader.at(), 72);
}
