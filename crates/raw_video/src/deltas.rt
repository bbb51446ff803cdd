// The bytes of chunks.
ghost use Rattle.std.specs.Prelude.{◌≡◌, ◌<◌, ◌≤◌, ◌+◌, ◌∷◌, ◌++◌, [], true, length, IfOk, IfSome, IfNone, unwrap_or};
ghost use Rattle.codec_definitions.specs.RawVideoEncoder.{coded_bytes, less_bytes};

use bytes::Bytes;
use std::alloc::Global;
use wc_base::NoMemory;

/// The bytes of a picture's chunk: a key chunk, or one that is added to the last picture.
pub(crate) fn coded_bytes(
    alloc: Global,
    key: bool,
    last: &Option<Bytes>,
    picture: &Bytes,
) -> Result<Bytes, NoMemory>
    requires first { IfNone last.now (key ≡ true) }
    requires size { IfSome last.now (λ p. length p ≡ length picture.now) }
    ensures { IfOk result (λ b. b ≡ coded_bytes key (unwrap_or last.now []) picture.now) }
{
    if key {
        return key_bytes(alloc, picture.as_slice());
    }
    match last {
        Some(last) => delta_bytes(alloc, last.as_slice(), picture.as_slice()),
        None => unreachable!(),
    }
}

/// A byte 0 and the picture.
fn key_bytes(alloc: Global, picture: &[u8]) -> Result<Bytes, NoMemory>
    ensures { IfOk result (λ b. b ≡ 0 ∷ picture.now) }
{
    shared(behind(alloc, 0, picture)?)
}

/// A byte 1 and the picture less the last one.
fn delta_bytes(alloc: Global, last: &[u8], picture: &[u8]) -> Result<Bytes, NoMemory>
    requires { length last.now ≡ length picture.now }
    ensures { IfOk result (λ b. b ≡ 1 ∷ less_bytes picture.now last.now) }
{
    let mut bytes = room_behind(alloc, 1, picture.len())?;
    append_less(alloc, &mut bytes, picture, last)?;
    shared(bytes)
}

/// How many bytes are subtracted before they are copied: a piece that is in the nearest cache then.
const PIECE: usize = 4096;

/// Appends a picture less the last one, piece by piece.
fn append_less(
    alloc: Global,
    bytes: &mut Vec<u8>,
    picture: &[u8],
    last: &[u8],
) -> Result<(), NoMemory>
    requires { length last.now ≡ length picture.now }
    ensures { IfOk result (λ _. bytes.new.items
        ≡ bytes.old.items ++ less_bytes picture.now last.now) }
{
    let mut room = vec![in alloc; 0; PIECE]?;
    let mut from = 0;
    while from < picture.len() {
        let to = end_of_piece(from, picture.len());
        append_piece(bytes, &mut room, &picture[from..to], &last[from..to])?;
        from = to;
    }
    Ok(())
}

/// Where a piece ends that begins there.
fn end_of_piece(from: usize, size: usize) -> usize
    requires { from < size }
    ensures more { from < result }
    ensures within { result ≤ size }
    ensures piece { result ≤ from + 4096 }
{
    if size - from > PIECE {
        from + PIECE
    } else {
        size
    }
}

/// Appends one piece of it, by a room to work in.
fn append_piece(
    bytes: &mut Vec<u8>,
    room: &mut Vec<u8>,
    picture: &[u8],
    last: &[u8],
) -> Result<(), NoMemory>
    requires same { length last.now ≡ length picture.now }
    requires within { length picture.now ≤ length room.old.items }
    ensures long { length room.new.items ≡ length room.old.items }
    ensures items { IfOk result (λ _. bytes.new.items
        ≡ bytes.old.items ++ less_bytes picture.now last.now) }
{
    let piece = &mut room[..picture.len()];
    subtract(piece, picture, last);
    bytes.extend_from_slice(piece)?;
    Ok(())
}

/// The byte that says a chunk's kind, with room for so many behind it.
fn room_behind(alloc: Global, kind: u8, count: usize) -> Result<Vec<u8>, NoMemory>
    ensures { IfOk result (λ v. v.items ≡ kind ∷ []) }
{
    let mut bytes = Vec::new(alloc);
    bytes.reserve(count.saturating_add(1))?;
    if bytes.push(kind).is_err() {
        return Err(NoMemory);
    }
    Ok(bytes)
}

/// A picture behind the byte that says its kind.
fn behind(alloc: Global, kind: u8, picture: &[u8]) -> Result<Vec<u8>, NoMemory>
    ensures { IfOk result (λ v. v.items ≡ kind ∷ picture.now) }
{
    let mut bytes = room_behind(alloc, kind, picture.len())?;
    bytes.extend_from_slice(picture)?;
    Ok(bytes)
}

fn shared(bytes: Vec<u8>) -> Result<Bytes, NoMemory>
    ensures { IfOk result (λ b. b ≡ bytes.items) }
{
    match Bytes::from_vec(bytes) {
        Ok(bytes) => Ok(bytes),
        Err(_) => Err(NoMemory),
    }
}

/// Writes each byte less the one at its place, modulo 256.
fn subtract(to: &mut [u8], picture: &[u8], last: &[u8])
    requires long { length to.old ≡ length picture.now }
    requires same { length last.now ≡ length picture.now }
    ensures { to.new ≡ less_bytes picture.now last.now }
{
    for i in 0..to.len() {
        to[i] = picture[i].wrapping_sub(last[i]);
    }
}
