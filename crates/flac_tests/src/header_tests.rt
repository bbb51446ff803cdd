use flac_bits::BitReader;
use flac_definitions::{FrameHeader, HeaderFault, HeaderField};
use flac_frame::read_header;
use wc_config::StreamInfo;

/// The description of a stream of so many frames a second, channels, and bits a sample.
fn stream(rate: u32, channels: u32, depth: u32) -> StreamInfo {
    StreamInfo {
        min_block: 16,
        max_block: 65535,
        min_frame: 0,
        max_frame: 0,
        rate,
        channels,
        depth,
        total: 0,
        md5: [0; 16],
    }
}

/// What reading a header of a stream gives, and the place behind it; none for more bytes than a row has.
fn read(bytes: &[u8], info: &StreamInfo) -> Option<(Result<FrameHeader, HeaderFault>, u64)> {
    if bytes.len() > 100 {
        return None;
    }
    let mut reader = BitReader::new(bytes);
    let header = read_header(&mut reader, info);
    Some((header, reader.at()))
}

/// Whether reading a header has the fault, and leaves the reader where it stood.
fn is_fault(bytes: &[u8], info: &StreamInfo, fault: HeaderFault) -> bool {
    match read(bytes, info) {
        Some((Err(found), at)) => found == fault && at == 0,
        _ => false,
    }
}

/// Whether all of the bytes are a header of the stream.
fn is_header(bytes: &[u8], info: &StreamInfo, header: FrameHeader) -> bool {
    match read(bytes, info) {
        Some((Ok(found), at)) => found == header && at / 8 == bytes.len() as u64 && at % 8 == 0,
        _ => false,
    }
}

/// The header of the frame of RFC 9639, appendix D.1.
const HEADER: [u8; 7] = [0xff, 0xf8, 0x69, 0x18, 0x00, 0x00, 0xbf];

/// Whether that header with another byte has a fault in its stream.
fn is_fault_with(index: usize, byte: u8, fault: HeaderFault) -> bool {
    let mut bytes = HEADER;
    if let Some(place) = bytes.get_mut(index) {
        *place = byte;
    }
    is_fault(&bytes, &stream(44100, 2, 16), fault)
}

#[test]
fn the_header_of_the_standards_example(rt: HostRuntime) {
    let header = FrameHeader {
        block: 1,
        rate: 44100,
        assignment: 1,
        depth: 16,
        number: 0,
    };
    assert!(rt; is_header(&HEADER, &stream(44100, 2, 16), header));
}

#[test]
fn each_reserved_code_is_named_with_its_place(rt: HostRuntime) {
    for (index, byte, bit) in [
        (2, 0x09, 16), // the block size code 0
        (2, 0x6f, 20), // the sample rate code 15
        (3, 0xb8, 24), // the channel codes 11 to 15
        (3, 0xc8, 24),
        (3, 0xd8, 24),
        (3, 0xe8, 24),
        (3, 0xf8, 24),
        (3, 0x16, 28), // the depth code 3
        (3, 0x19, 31), // the bit that must be 0
        (3, 0xb7, 24), // the first of several
    ] {
        let fault = HeaderFault::Reserved { bit };
        assert!(rt; is_fault_with(index, byte, fault), "{byte} at {index}");
    }
}

#[test]
fn other_faults_of_one_byte(rt: HostRuntime) {
    for (index, byte, fault) in [
        (0, 0x7f, HeaderFault::Sync),
        (1, 0xfa, HeaderFault::Sync),
        (4, 0x80, HeaderFault::Number),
        (4, 0xbf, HeaderFault::Number),
        (4, 0xff, HeaderFault::Number),
        (4, 0xc0, HeaderFault::Number),
        (
            6,
            0xbe,
            HeaderFault::HeaderSum {
                kept: 0xbe,
                counted: 0xbf,
            },
        ),
    ] {
        assert!(rt; is_fault_with(index, byte, fault), "{byte} at {index}");
    }
}

#[test]
fn the_longest_block_size_is_forbidden(rt: HostRuntime) {
    let bytes = [0xff, 0xf8, 0x79, 0x18, 0x00, 0xff, 0xff, 0x00];
    let fault = HeaderFault::Reserved { bit: 40 };
    assert!(rt; is_fault(&bytes, &stream(44100, 2, 16), fault));
}

#[test]
fn each_cut_of_a_header_is_named(rt: HostRuntime) {
    let info = stream(44100, 2, 16);
    for (length, bit) in [(0, 0), (1, 0), (2, 16), (3, 24), (4, 32), (5, 40), (6, 48)] {
        let Some(front) = HEADER.get(..length) else {
            continue;
        };
        assert!(rt;
            is_fault(front, &info, HeaderFault::Short { bit }),
            "{length} bytes"
        );
    }
}

#[test]
fn what_a_description_says_otherwise(rt: HostRuntime) {
    for (info, field) in [
        (stream(48000, 2, 16), HeaderField::Rate),
        (stream(44100, 1, 16), HeaderField::Channels),
        (stream(44100, 2, 24), HeaderField::Depth),
        (stream(48000, 1, 24), HeaderField::Rate),
    ] {
        assert!(rt; is_fault(&HEADER, &info, HeaderFault::Differs { field }));
    }
}

/// That header, whose depth is the description's.
const HEADER_WITHOUT_DEPTH: [u8; 7] = [0xff, 0xf8, 0x69, 0x10, 0x00, 0x00, 0xee];

#[test]
fn a_described_depth_is_1_to_32(rt: HostRuntime) {
    let fault = HeaderFault::Differs {
        field: HeaderField::Depth,
    };
    for depth in [0, 33, 256, 272] {
        assert!(rt;
            is_fault(&HEADER_WITHOUT_DEPTH, &stream(44100, 2, depth), fault),
            "{depth}"
        );
    }
    for depth in [1u8, 12, 32] {
        let header = FrameHeader {
            block: 1,
            rate: 44100,
            assignment: 1,
            depth,
            number: 0,
        };
        assert!(rt;
            is_header(
                &HEADER_WITHOUT_DEPTH,
                &stream(44100, 2, u32::from(depth)),
                header
            ),
            "{depth}"
        );
    }
}

/// A header of 44100 frames a second, two channels and 16 bits, with these last bytes, which end in its sum.
fn is_block(code: u8, rest: &[u8], block: u32) -> bool {
    let mut bytes = [0xff, 0xf8, code << 4 | 9, 0x18, 0x00, 0, 0, 0];
    let end = 5 + rest.len();
    if end > 8 {
        return false;
    }
    bytes[5..end].copy_from_slice(rest);
    let header = FrameHeader {
        block,
        rate: 44100,
        assignment: 1,
        depth: 16,
        number: 0,
    };
    is_header(&bytes[..end], &stream(44100, 2, 16), header)
}

/// The sums were made by long division of the header's bits, in Python; the sizes are those of RFC 9639, section 9.1.1.
#[test]
fn each_block_size_code(rt: HostRuntime) {
    for (code, sum, block) in [
        (1, 0xed, 192),
        (2, 0x0c, 576),
        (3, 0xae, 1152),
        (4, 0xc9, 2304),
        (5, 0x6b, 4608),
        (8, 0x44, 256),
        (9, 0xe6, 512),
        (10, 0x07, 1024),
        (11, 0xa5, 2048),
        (12, 0xc2, 4096),
        (13, 0x60, 8192),
        (14, 0x81, 16384),
        (15, 0x23, 32768),
    ] {
        assert!(rt; is_block(code, &[sum], block), "code {code}");
    }
    assert!(rt; is_block(6, &[0x0f, 0x92], 16));
    assert!(rt; is_block(7, &[0x0f, 0xff, 0x36], 4096));
}

/// Whether a header of 192 frames with a rate code, and these last bytes, has the rate.
fn is_rate(code: u8, rest: &[u8], rate: u32) -> bool {
    let mut bytes = [0xff, 0xf8, 0x10 | code, 0x18, 0x00, 0, 0, 0];
    let end = 5 + rest.len();
    if end > 8 {
        return false;
    }
    bytes[5..end].copy_from_slice(rest);
    let header = FrameHeader {
        block: 192,
        rate,
        assignment: 1,
        depth: 16,
        number: 0,
    };
    is_header(&bytes[..end], &stream(rate, 2, 16), header)
}

/// The rates are those of RFC 9639, section 9.1.2.
#[test]
fn each_sample_rate_code(rt: HostRuntime) {
    for (code, sum, rate) in [
        (0, 0xd7, 44056),
        (1, 0xbc, 88200),
        (2, 0x01, 176_400),
        (3, 0x6a, 192_000),
        (4, 0x7c, 8000),
        (5, 0x17, 16000),
        (6, 0xaa, 22050),
        (7, 0xc1, 24000),
        (8, 0x86, 32000),
        (9, 0xed, 44100),
        (10, 0x50, 48000),
        (11, 0x3b, 96000),
    ] {
        assert!(rt; is_rate(code, &[sum], rate), "code {code}");
    }
    assert!(rt; is_rate(12, &[0x30, 0x53], 48000));
    assert!(rt; is_rate(13, &[0x93, 0xa8, 0xaa], 37800));
    assert!(rt; is_rate(14, &[0x25, 0x80, 0xe5], 96000));
}

/// The channel and depth codes of RFC 9639, sections 9.1.3 and 9.1.4.
#[test]
fn each_channel_and_depth_code(rt: HostRuntime) {
    for (byte, sum, assignment, channels, depth) in [
        (0x08, 0xba, 0, 1, 16),
        (0x18, 0xed, 1, 2, 16),
        (0x28, 0x14, 2, 3, 16),
        (0x38, 0x43, 3, 4, 16),
        (0x48, 0xe1, 4, 5, 16),
        (0x58, 0xb6, 5, 6, 16),
        (0x68, 0x4f, 6, 7, 16),
        (0x78, 0x18, 7, 8, 16),
        (0x88, 0x0c, 8, 2, 16),
        (0x98, 0x5b, 9, 2, 16),
        (0xa8, 0xa2, 10, 2, 16),
        (0x10, 0x45, 1, 2, 7),
        (0x12, 0x6f, 1, 2, 8),
        (0x14, 0x11, 1, 2, 12),
        (0x1a, 0xc7, 1, 2, 20),
        (0x1c, 0xb9, 1, 2, 24),
        (0x1e, 0x93, 1, 2, 32),
    ] {
        let bytes = [0xff, 0xf8, 0x19, byte, 0x00, sum];
        let header = FrameHeader {
            block: 192,
            rate: 44100,
            assignment,
            depth,
            number: 0,
        };
        assert!(rt;
            is_header(&bytes, &stream(44100, channels, u32::from(depth)), header),
            "{byte}"
        );
    }
}

/// Whether the bytes of a coded number and a sum, behind the first four of a header, have a number.
fn is_number(rest: &[u8], number: u64) -> bool {
    let mut bytes = [0xff, 0xf8, 0x19, 0x18, 0, 0, 0, 0, 0, 0, 0, 0];
    let end = 4 + rest.len();
    if end > 12 {
        return false;
    }
    bytes[4..end].copy_from_slice(rest);
    let header = FrameHeader {
        block: 192,
        rate: 44100,
        assignment: 1,
        depth: 16,
        number,
    };
    is_header(&bytes[..end], &stream(44100, 2, 16), header)
}

/// The ends of each length of a coded number (RFC 9639, section 9.1.5).
#[test]
fn each_length_of_a_coded_number(rt: HostRuntime) {
    assert!(rt; is_number(&[0x7f, 0x97], 127));
    assert!(rt; is_number(&[0xc2, 0x80, 0xc3], 128));
    assert!(rt; is_number(&[0xdf, 0xbf, 0xc0], 2047));
    assert!(rt; is_number(&[0xe0, 0xa0, 0x80, 0xf5], 2048));
    assert!(rt; is_number(&[0xef, 0xbf, 0xbf, 0x9b], 65535));
    assert!(rt; is_number(&[0xf0, 0x90, 0x80, 0x80, 0xca], 65536));
    assert!(rt; is_number(&[0xf7, 0xbf, 0xbf, 0xbf, 0x2b], 2_097_151));
    assert!(rt; is_number(&[0xfb, 0xbf, 0xbf, 0xbf, 0xbf, 0x73], 67_108_863));
    assert!(rt; is_number(&[0xfd, 0xbf, 0xbf, 0xbf, 0xbf, 0xbf, 0x9c], 0x7fff_ffff));
    assert!(rt;
        is_number(
            &[0xfe, 0xbf, 0xbf, 0xbf, 0xbf, 0xbf, 0xbf, 0x8f],
            0xf_ffff_ffff
        )
    );
}
