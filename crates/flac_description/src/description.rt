// Descriptions, written.
ghost use Rattle.std.specs.Prelude.{◌≡◌, ◌≤◌, ◌<◌, ◌+◌, ◌-◌, ◌*◌, ◌++◌, length, take, true, false, Some};
ghost use Rattle.flac_definitions.specs.Bits.{bits_of, bits_in};
ghost use Rattle.wc_config.specs.Streams.{is_usable, streaminfo_of};
ghost use Rattle.flac_definitions.specs.Descriptions.{CanBeWritten, description_bits};

use wc_config::StreamInfo;

/// How many bytes a description has.
pub const DESCRIPTION_SIZE: usize = 42;

/// Whether each field fits its bits: block sizes below 2^16, frame sizes below 2^24, a rate below 2^20, 1 to 8 channels, a
/// depth of 1 to 32, and a total below 2^36.
pub fn can_be_written(info: &StreamInfo) -> bool
    ensures yes { result ≡ true → CanBeWritten info.now }
    ensures no { result ≡ false → CanBeWritten info.now → ⊥ }
{
    let sizes = info.min_block < 1 << 16
        && info.max_block < 1 << 16
        && info.min_frame < 1 << 24
        && info.max_frame < 1 << 24;
    let sound = info.rate < 1 << 20
        && (1..=8).contains(&info.channels)
        && (1..=32).contains(&info.depth)
        && info.total < 1 << 36;
    sizes && sound
}

/// Writes the description of a stream: the mark `fLaC`, and the block STREAMINFO with its header, as the last block (RFC
/// 9639, sections 6, 8.1 and 8.2). `read_streaminfo` reads it again where the rate is above 0 and the depth at least 4.
pub fn write_streaminfo(info: &StreamInfo, out: &mut [u8; 42])
    requires { CanBeWritten info.now }
    ensures bits { bits_in out.new ≡ description_bits true info.now }
    ensures read { is_usable info.now ≡ true → streaminfo_of out.new ≡ Some info.now }
{
    put(out, 0, b"fLaC\x80\0\0\x22");
    put_number(out, 8, 4, block_sizes(info));
    put_number(out, 12, 6, frame_sizes(info));
    put_number(out, 18, 8, sound(info));
    put(out, 26, &info.md5);
    written_is_read(info, &info.md5, out);
}

/// A law: bytes that spell a description are read as it.
fn written_is_read(info: &StreamInfo, sum: &[u8], bytes: &[u8])
    requires fields { CanBeWritten info.now }
    requires sum { sum.now ≡ info.now.md5 }
    requires sum_length { length sum.now ≡ 16 }
    requires length { length bytes.now ≡ 42 }
    requires bits { bits_in bytes.now ≡ description_bits true info.now }
    ensures { is_usable info.now ≡ true → streaminfo_of bytes.now ≡ Some info.now }
{
    let _lengths = sum.len() + bytes.len();
}

/// Least and greatest block size.
fn block_sizes(info: &StreamInfo) -> u64
    requires { CanBeWritten info.now }
    ensures { bits_of 32 result ≡ bits_of 16 info.now.min_block ++ bits_of 16 info.now.max_block }
{
    info.min_block as u64 * 0x1_0000 + info.max_block as u64
}

/// Least and greatest frame size.
fn frame_sizes(info: &StreamInfo) -> u64
    requires { CanBeWritten info.now }
    ensures { bits_of 48 result ≡ bits_of 24 info.now.min_frame ++ bits_of 24 info.now.max_frame }
{
    info.min_frame as u64 * 0x100_0000 + info.max_frame as u64
}

/// The rate, the channels, the depth and the total count of frames.
fn sound(info: &StreamInfo) -> u64
    requires { CanBeWritten info.now }
    ensures { bits_of 64 result ≡ bits_of 20 info.now.rate ++ bits_of 3 (info.now.channels - 1)
        ++ bits_of 5 (info.now.depth - 1) ++ bits_of 36 info.now.total }
{
    let channels = info.rate as u64 * 8 + (info.channels as u64 - 1);
    let depth = channels * 32 + (info.depth as u64 - 1);
    depth * 0x10_0000_0000 + info.total
}

/// Puts the low bytes of a number behind what stands before a place, the most significant first.
fn put_number(room: &mut [u8], at: usize, size: usize, number: u64)
    requires size { size ≤ 8 }
    requires room { at + size ≤ length room.old }
    ensures { bits_in (take (at + size) room.new)
        ≡ bits_in (take at room.old) ++ bits_of (8 * size) number }
{
    put(room, at, &number.to_be_bytes()[8 - size..]);
}

/// Puts bytes behind what stands before a place.
fn put(room: &mut [u8], at: usize, bytes: &[u8])
    requires { at + length bytes.now ≤ length room.old }
    ensures { take (at + length bytes.now) room.new ≡ take at room.old ++ bytes.now }
{
    room[at..at + bytes.len()].copy_from_slice(bytes);
}
