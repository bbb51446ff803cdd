// Heads of FLAC streams, frames found behind damage, and sums of samples.
ghost use Rattle.std.specs.Prelude.{◌≡◌, true, false};
ghost use Rattle.flac_definitions.specs.Header.{is_stream_depth};
ghost use Rattle.c_library.specs.Descriptions.{IsWriteStatus, stream_of, has_depth};
ghost use Rattle.c_library.specs.Frames.{HasValues};
ghost use Rattle.c_library.specs.Status.{done, refused, invalid, need_more};
ghost use Rattle.c_library.specs.Streams.{places_of, IsWholeHead, IsCutHead, IsNoHead, IsFound, IsMissing, IsSummed, IsHeadStatus, IsNextStatus};

use crate::description::{FlacDescription, description_of, has_depth, stream_of};
use crate::status::{DONE, INVALID, NEED_MORE, REFUSED, put_bytes};
use flac_stream::{HeadRead, NextFrame, StreamHead, next_frame, read_head, sum_samples};

/// Where the parts of a native FLAC stream begin, in bytes from its first on: the first frame, and the first of the
/// `seek_points` of its seek table (RFC 9639, section 8.5), or 0 where there is none.
#[repr(C)]
#[derive(Clone, Copy, Debug, PartialEq, Eq)]
pub struct FlacPlaces {
    pub first_frame: usize,
    pub seek_table: usize,
    pub seek_points: usize,
}

/// Reads the head of a native FLAC stream at the front of `bytes`, which may end within it: the stream's mark and its
/// metadata blocks. `head`, `more` and `refused` are the clause of `flac_stream::read_head`.
#[unsafe(no_mangle)]
pub extern "C" fn zemirako_flac_read_head(
    bytes: &[u8],
    description: &mut FlacDescription,
    places: &mut FlacPlaces,
) -> u32
    ensures head { result ≡ done → IsWholeHead bytes.now description.new places.new }
    ensures more { result ≡ need_more → IsCutHead bytes.now }
    ensures refused { result ≡ refused → IsNoHead bytes.now }
    ensures kept { (result ≡ done → ⊥) → description.new ≡ description.old }
    ensures kept_places { (result ≡ done → ⊥) → places.new ≡ places.old }
    ensures status { IsHeadStatus result }
{
    match read_head(bytes) {
        HeadRead::Head(head) => {
            *description = description_of(&head.info);
            *places = places_of(&head);
            DONE
        }
        HeadRead::NeedMore => NEED_MORE,
        HeadRead::Refused => REFUSED,
    }
}

fn places_of(head: &StreamHead) -> FlacPlaces
    ensures { result ≡ places_of head.now }
{
    match head.seek_table {
        Some(table) => FlacPlaces {
            first_frame: head.first_frame,
            seek_table: table.at,
            seek_points: table.count,
        },
        None => FlacPlaces {
            first_frame: head.first_frame,
            seek_table: 0,
            seek_points: 0,
        },
    }
}

/// Finds the next frame of the described stream from a place of `bytes` on, by its header. `found` and `missing` are the
/// clause of `flac_stream::next_frame`.
#[unsafe(no_mangle)]
pub extern "C" fn zemirako_flac_next_frame(
    bytes: &[u8],
    from: usize,
    description: &FlacDescription,
    place: &mut usize,
) -> u32
    ensures found { result ≡ done → IsFound (stream_of description.now) bytes.now from place.new }
    ensures missing { result ≡ need_more
        → IsMissing (stream_of description.now) bytes.now from place.new }
    ensures kept { result ≡ invalid → place.new ≡ place.old }
    ensures valid { has_depth description.now ≡ true → result ≡ invalid → ⊥ }
    ensures invalid { has_depth description.now ≡ false → result ≡ invalid }
    ensures status { IsNextStatus result }
{
    if !has_depth(description) {
        return INVALID;
    }
    match next_frame(bytes, from, &stream_of(description)) {
        NextFrame::Found { at } => {
            *place = at;
            DONE
        }
        NextFrame::Missing { from } => {
            *place = from;
            NEED_MORE
        }
    }
}

/// Puts the MD5 sum of the samples of a stream at the front of some room. `summed` is the clause of
/// `flac_stream::sum_samples`.
#[unsafe(no_mangle)]
pub extern "C" fn zemirako_flac_sum_samples(samples: &[i32], depth: u32, sum: &mut [u8]) -> u32
    ensures summed { HasValues result → IsSummed depth samples.now result sum.old sum.new }
    ensures kept { (HasValues result → ⊥) → sum.new ≡ sum.old }
    ensures valid { is_stream_depth depth ≡ true → result ≡ invalid → ⊥ }
    ensures invalid { is_stream_depth depth ≡ false → result ≡ invalid }
    ensures status { IsWriteStatus result }
{
    if depth < 1 || depth > 32 {
        return INVALID;
    }
    put_bytes(&sum_samples(depth, samples), sum)
}
