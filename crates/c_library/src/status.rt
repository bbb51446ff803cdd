// What calls answer.
ghost use Rattle.std.specs.Prelude.{◌≡◌};
ghost use Rattle.c_library.specs.Status.{fill_status, filled};

/// It is done.
pub const DONE: u32 = 0;
/// What was handed in is not coded data of its kind.
pub const REFUSED: u32 = 1;
/// Memory was wanted.
pub const NO_MEMORY: u32 = 2;
/// What there is to write does not fit the room.
pub const TOO_SMALL: u32 = 3;
/// An argument is out of its range.
pub const INVALID: u32 = 4;
/// What was handed in ends before it is whole. 5 to 7 are of the engine.
pub const NEED_MORE: u32 = 8;

/// Puts bytes at the front of some room, if they fit.
pub fn put_bytes(bytes: &[u8], room: &mut [u8]) -> u32
    ensures status { result ≡ fill_status bytes.now room.old }
    ensures room { room.new ≡ filled bytes.now room.old }
{
    if bytes.len() > room.len() {
        return TOO_SMALL;
    }
    room[..bytes.len()].copy_from_slice(bytes);
    DONE
}
