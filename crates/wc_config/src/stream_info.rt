// What a FLAC stream says of itself.
ghost use Rattle.std.specs.Prelude.{◌≡◌, ◌≤◌, ◌<◌, ◌^◌, ◌*◌, length};
ghost use Rattle.wc_config.specs.Streams.{big_endian, stream_info_of, streaminfo_of};

/// The STREAMINFO block of a FLAC stream (RFC 9639, section 8.2): block sizes in frames, frame sizes in bytes, `rate`
/// in frames a second, `depth` in bits a sample, and the `total` count of frames, with 0 for unknown.
#[derive(Clone, Copy, Debug, PartialEq, Eq)]
pub struct StreamInfo {
    pub min_block: u32,
    pub max_block: u32,
    pub min_frame: u32,
    pub max_frame: u32,
    pub rate: u32,
    pub channels: u32,
    pub depth: u32,
    pub total: u64,
    pub md5: [u8; 16],
}

/// What the description of a FLAC decoder's config says (W3C registration for FLAC): the stream's mark, and then its
/// STREAMINFO block. None where a part of them is missing or is another, the rate is 0, or the depth is below 4.
pub fn read_streaminfo(description: &[u8]) -> Option<StreamInfo>
    ensures { result ≡ streaminfo_of description.now }
{
    if description.len() < 42 || &description[..4] != b"fLaC".as_slice() {
        return None;
    }
    // The first bit marks the last block of its kind, and does not matter.
    if big_endian(&description[4..8]) % 0x8000_0000 != 34 {
        return None;
    }
    let info = stream_info(&description[8..42]);
    if info.rate >= 1 && info.depth >= 4 {
        Some(info)
    } else {
        None
    }
}

/// The fields of the block's bytes.
fn stream_info(block: &[u8]) -> StreamInfo
    requires { length block.now ≡ 34 }
    ensures { result ≡ stream_info_of block.now }
{
    let blocks = big_endian(&block[..4]);
    let frames = big_endian(&block[4..10]);
    let rest = big_endian(&block[10..18]);
    let mut md5 = [0; 16];
    md5.copy_from_slice(&block[18..34]);
    StreamInfo {
        min_block: (blocks >> 16) as u32,
        max_block: (blocks % 0x1_0000) as u32,
        min_frame: (frames >> 24) as u32,
        max_frame: (frames % 0x100_0000) as u32,
        rate: (rest >> 44) as u32,
        channels: (rest >> 41) as u32 % 8 + 1,
        depth: (rest >> 36) as u32 % 32 + 1,
        total: rest % (1 << 36),
        md5,
    }
}

/// The number that at most eight bytes spell, the most significant first.
fn big_endian(bytes: &[u8]) -> u64
    requires { length bytes.now ≤ 8 }
    ensures value { result ≡ big_endian bytes.now }
    ensures bound { result < 256 ^ length bytes.now }
{
    let mut number = 0u64;
    for byte in bytes {
        number = number * 256 + *byte as u64;
    }
    number
}
