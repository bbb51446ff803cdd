// The next frame of a stream, behind damage.
ghost use Rattle.std.specs.Prelude.{◌≡◌, ◌≤◌, length, take, is_ok};
ghost use Rattle.flac_decode.specs.FrameEnd.{most};
ghost use Rattle.flac_stream.specs.Next.{IsNextFrame, IsFirst, IsFirstHeader, has_header, has_cut_header, is_cut};

use crate::head::tail;
use flac_bits::BitReader;
use flac_frame::{FrameHeader, HeaderFault, read_header};
use wc_config::StreamInfo;

/// Where the next frame of a stream may begin.
#[derive(Clone, Copy, Debug, PartialEq, Eq)]
pub enum NextFrame {
    /// The header of a frame begins at `at`.
    Found { at: usize },
    /// No header is whole in these bytes. All before `from` can be dropped: it is the first place at which a header may
    /// begin that the end of the bytes cuts, at most that end.
    Missing { from: usize },
}

/// Finds the next frame of the stream that is described, at a place of its bytes or behind it: the first place at which a
/// frame's header reads (RFC 9639, section 9.1), with its sync code, its fields and its sum. A stream is taken up so again
/// behind bytes that are no frame. That a frame goes on behind its header is not looked at: sound may spell a header too.
pub fn next_frame(bytes: &[u8], from: usize, info: &StreamInfo) -> NextFrame
    ensures { IsNextFrame info.now bytes.now from result }
{
    match first_header(bytes, from, info) {
        Some(at) => NextFrame::Found { at },
        None => NextFrame::Missing {
            from: first_cut_header(bytes, from, info),
        },
    }
}

fn first_header(bytes: &[u8], from: usize, info: &StreamInfo) -> Option<usize>
    ensures { IsFirstHeader info.now bytes.now from result }
{
    let mut at = from;
    while at < bytes.len() {
        if has_header(bytes, at, info) {
            return Some(at);
        }
        at += 1;
    }
    None
}

/// The first place from another on at which a header may begin that the end of the bytes cuts.
fn first_cut_header(bytes: &[u8], from: usize, info: &StreamInfo) -> usize
    ensures { IsFirst (has_cut_header info.now bytes.now) from result }
{
    let mut at = from;
    while at < bytes.len() {
        if has_cut_header(bytes, at, info) {
            return at;
        }
        at += 1;
    }
    at
}

fn has_header(bytes: &[u8], at: usize, info: &StreamInfo) -> bool
    requires { at ≤ length bytes.now }
    ensures { result ≡ has_header info.now bytes.now at }
{
    match header_from(bytes, at, info) {
        Ok(_) => true,
        Err(_) => false,
    }
}

fn has_cut_header(bytes: &[u8], at: usize, info: &StreamInfo) -> bool
    requires { at ≤ length bytes.now }
    ensures { result ≡ has_cut_header info.now bytes.now at }
{
    match header_from(bytes, at, info) {
        Err(HeaderFault::Short { .. }) => true,
        Err(_) => false,
        Ok(_) => false,
    }
}

/// Reads the header that begins at a place.
fn header_from(bytes: &[u8], at: usize, info: &StreamInfo) -> Result<FrameHeader, HeaderFault>
    requires { at ≤ length bytes.now }
    ensures header { is_ok result ≡ has_header info.now bytes.now at }
    ensures cut { is_cut result ≡ has_cut_header info.now bytes.now at }
{
    let rest = tail(bytes, at);
    let mut r = BitReader::new(front(rest));
    read_header(&mut r, info)
}

/// The bytes in which a header is looked for.
fn front(bytes: &[u8]) -> &[u8]
    ensures { result.now ≡ take most bytes.now }
{
    if bytes.len() < 1 << 61 {
        bytes
    } else {
        &bytes[..(1 << 61) - 1]
    }
}
