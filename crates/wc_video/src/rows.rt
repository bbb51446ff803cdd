// Rows of planes, copied.
ghost use Rattle.std.specs.Prelude.{ℕ, ◌≡◌, ◌<◌, ◌≤◌, ◌*◌, ◌+◌, true, length, [], ◌∷◌};
ghost use Rattle.wc_video.specs.Layouts.{is_fit, end_of};
ghost use Rattle.wc_video.specs.Copies.{copy_of, IsThere};

use crate::layout::PlaneCopy;

/// Copies the rows of a plane: in one piece where they have no space between them, here and there.
pub(crate) fn copy_plane(c: &PlaneCopy, bytes: &[u8], to: &mut [u8])
    requires fits { is_fit c.now ≡ true }
    requires there { IsThere (length bytes.now) c.now }
    requires room { end_of c.now ≤ length to.old }
    ensures { to.new ≡ copy_of (c.now ∷ []) bytes.now to.old }
{
    if c.row == c.layout.stride as usize && c.row == c.step {
        copy_straight(c, bytes, to);
    } else {
        copy_rows(c, bytes, to);
    }
}

fn copy_straight(c: &PlaneCopy, bytes: &[u8], to: &mut [u8])
    requires whole { c.now.row ≡ c.now.layout.stride }
    requires tight { c.now.row ≡ c.now.step }
    requires there { IsThere (length bytes.now) c.now }
    requires room { end_of c.now ≤ length to.old }
    ensures { to.new ≡ copy_of (c.now ∷ []) bytes.now to.old }
{
    let at = c.layout.offset as usize;
    let size = c.row * c.rows;
    to[at..at + size].copy_from_slice(&bytes[c.from..c.from + size]);
}

fn copy_rows(c: &PlaneCopy, bytes: &[u8], to: &mut [u8])
    requires fits { is_fit c.now ≡ true }
    requires there { IsThere (length bytes.now) c.now }
    requires room { end_of c.now ≤ length to.old }
    ensures { to.new ≡ copy_of (c.now ∷ []) bytes.now to.old }
{
    let offset = c.layout.offset as usize;
    let stride = c.layout.stride as usize;
    for r in 0..c.rows {
        let at = offset + stride * r;
        let from = c.from + c.step * r;
        to[at..at + c.row].copy_from_slice(&bytes[from..from + c.row]);
    }
}
