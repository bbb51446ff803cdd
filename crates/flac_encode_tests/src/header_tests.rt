use crate::bytes_tests::holds;
use flac_write::{BitWriter, FrameHeader, write_header};
use std::alloc::Global;

/// Whether the bytes are what is written of a header; false for a header that cannot be written.
fn is_written(alloc: Global, h: &FrameHeader, bytes: &[u8]) -> bool {
    if h.block < 1 || h.block > 65535 || h.assignment > 10 || h.number >= 1 << 31 {
        return false;
    }
    if h.depth != 8 && h.depth != 16 && h.depth != 24 && h.depth != 32 {
        return false;
    }
    let mut w = BitWriter::new(alloc);
    write_header(&mut w, h).is_ok() && holds(w, bytes)
}

fn header(block: u32, rate: u32, assignment: u8, depth: u8, number: u64) -> FrameHeader {
    FrameHeader {
        block,
        rate,
        assignment,
        depth,
        number,
    }
}

/// The first frames of RFC 9639, appendices D.1, D.2 and D.3, and those of a stream of 8000 Hz.
#[test]
fn headers_as_others_have_them(rt: HostRuntime) {
    let alloc = rt.alloc();
    let rows: [(FrameHeader, &[u8]); 5] = [
        (
            header(1, 44100, 1, 16, 0),
            &[0xff, 0xf8, 0x69, 0x18, 0x00, 0x00, 0xbf],
        ),
        (
            header(16, 44100, 9, 16, 0),
            &[0xff, 0xf8, 0x69, 0x98, 0x00, 0x0f, 0x99],
        ),
        (
            header(24, 32000, 0, 8, 0),
            &[0xff, 0xf8, 0x68, 0x02, 0x00, 0x17, 0xe9],
        ),
        (
            header(4096, 8000, 0, 16, 0),
            &[0xff, 0xf8, 0xc4, 0x08, 0x00, 0x04],
        ),
        (
            header(1, 8000, 0, 16, 1),
            &[0xff, 0xf8, 0x64, 0x08, 0x01, 0x00, 0xf6],
        ),
    ];
    for (h, bytes) in &rows {
        assert!(rt; is_written(alloc, h, bytes));
    }
}

/// Whether the bytes from the fifth on are these, up to the sum.
fn has_number(alloc: Global, number: u64, bytes: &[u8]) -> bool {
    if number >= 1 << 31 {
        return false;
    }
    let header = FrameHeader {
        block: 4096,
        rate: 48000,
        assignment: 0,
        depth: 24,
        number,
    };
    let mut w = BitWriter::new(alloc);
    if write_header(&mut w, &header).is_err() || w.pad().is_err() {
        return false;
    }
    let all = w.into_bytes();
    all.len() == bytes.len() + 5 && &all[4..4 + bytes.len()] == bytes
}

/// The first and last numbers of each length, as RFC 2279 (UTF-8) has them.
#[test]
fn numbers_in_their_shortest_forms(rt: HostRuntime) {
    let alloc = rt.alloc();
    let rows: [(u64, &[u8]); 9] = [
        (0x7f, &[0x7f]),
        (0x80, &[0xc2, 0x80]),
        (0x7ff, &[0xdf, 0xbf]),
        (0x800, &[0xe0, 0xa0, 0x80]),
        (0xffff, &[0xef, 0xbf, 0xbf]),
        (0x10000, &[0xf0, 0x90, 0x80, 0x80]),
        (0x1f_ffff, &[0xf7, 0xbf, 0xbf, 0xbf]),
        (0x3ff_ffff, &[0xfb, 0xbf, 0xbf, 0xbf, 0xbf]),
        (0x7fff_ffff, &[0xfd, 0xbf, 0xbf, 0xbf, 0xbf, 0xbf]),
    ];
    for (number, bytes) in &rows {
        assert!(rt; has_number(alloc, *number, bytes));
    }
}
