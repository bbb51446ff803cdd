use flac_write::BitWriter;
use std::alloc::Global;

/// Whether the bytes of a writer, filled up with zeros, are these.
pub fn holds(mut w: BitWriter, bytes: &[u8]) -> bool {
    if w.pad().is_err() {
        return false;
    }
    let all = w.into_bytes();
    &all[..] == bytes
}

/// Some fields, across the end of a word.
fn fields(alloc: Global) -> Option<BitWriter> {
    let mut w = BitWriter::new(alloc);
    w.put(4, 0xA).ok()?;
    w.put(64, 0x0123_4567_89AB_CDEF).ok()?;
    w.put(0, 0).ok()?;
    w.put(1, 1).ok()?;
    Some(w)
}

#[test]
fn bits_go_in_order(rt: HostRuntime) {
    let bytes = [0xA0, 0x12, 0x34, 0x56, 0x78, 0x9A, 0xBC, 0xDE, 0xF8];
    let written = match fields(rt.alloc()) {
        Some(w) => holds(w, &bytes),
        None => false,
    };
    assert!(rt; written);
    assert!(rt; holds(BitWriter::new(rt.alloc()), &[]));
}
