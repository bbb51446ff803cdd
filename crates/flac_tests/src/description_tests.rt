use flac_description::{can_be_written, write_streaminfo};
use wc_config::{StreamInfo, read_streaminfo};

/// The description of the file of RFC 9639, appendix D.1.
const EXAMPLE: [u8; 42] = [
    0x66, 0x4c, 0x61, 0x43, 0x80, 0x00, 0x00, 0x22, 0x10, 0x00, 0x10, 0x00, 0x00, 0x00, 0x0f, 0x00,
    0x00, 0x0f, 0x0a, 0xc4, 0x42, 0xf0, 0x00, 0x00, 0x00, 0x01, 0x3e, 0x84, 0xb4, 0x18, 0x07, 0xdc,
    0x69, 0x03, 0x07, 0x58, 0x6a, 0x3d, 0xad, 0x1a, 0x2e, 0x0f,
];

fn example() -> StreamInfo {
    let mut md5 = [0; 16];
    md5.copy_from_slice(&EXAMPLE[26..]);
    StreamInfo {
        min_block: 4096,
        max_block: 4096,
        min_frame: 15,
        max_frame: 15,
        rate: 44100,
        channels: 2,
        depth: 16,
        total: 1,
        md5,
    }
}

/// The bytes of a description, where each of its fields fits.
fn written(info: &StreamInfo) -> Option<[u8; 42]> {
    if !can_be_written(info) {
        return None;
    }
    let mut bytes = [0; 42];
    write_streaminfo(info, &mut bytes);
    Some(bytes)
}

#[test]
fn the_description_of_the_standards_example(rt: HostRuntime) {
    assert_eq!(rt; written(&example()), Some(EXAMPLE));
    assert_eq!(rt; read_streaminfo(&EXAMPLE), Some(example()));
}

#[test]
fn the_greatest_fields_fill_their_bits(rt: HostRuntime) {
    let info = StreamInfo {
        min_block: 65535,
        max_block: 65535,
        min_frame: 0xff_ffff,
        max_frame: 0xff_ffff,
        rate: 0xf_ffff,
        channels: 8,
        depth: 32,
        total: 0xf_ffff_ffff,
        md5: [0xff; 16],
    };
    let mut all = [0xff; 42];
    all[..8].copy_from_slice(b"fLaC\x80\0\0\x22");
    assert_eq!(rt; written(&info), Some(all));
    assert_eq!(rt; read_streaminfo(&all), Some(info));
}

#[test]
fn a_field_past_its_bits_is_refused(rt: HostRuntime) {
    let rows = [
        StreamInfo {
            min_block: 65536,
            ..example()
        },
        StreamInfo {
            max_block: 65536,
            ..example()
        },
        StreamInfo {
            min_frame: 0x100_0000,
            ..example()
        },
        StreamInfo {
            max_frame: 0x100_0000,
            ..example()
        },
        StreamInfo {
            rate: 0x10_0000,
            ..example()
        },
        StreamInfo {
            channels: 0,
            ..example()
        },
        StreamInfo {
            channels: 9,
            ..example()
        },
        StreamInfo {
            depth: 0,
            ..example()
        },
        StreamInfo {
            depth: 33,
            ..example()
        },
        StreamInfo {
            total: 0x10_0000_0000,
            ..example()
        },
    ];
    for row in &rows {
        assert_eq!(rt; written(row), None, "in {row:?}");
    }
}
