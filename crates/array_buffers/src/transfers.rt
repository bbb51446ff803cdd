// Lists of buffers that are transferred together.
ghost use Rattle.std.specs.Prelude.{◌≡◌, ◌<◌, ℕ, true, false, All, length, MatchResult};
ghost use Rattle.wc_base.specs.declared.error.DomError.TheVariants as dom;
ghost use Rattle.array_buffers.specs.Transfers.{is_open_at, may_transfer};

use crate::ArrayBuffer;
use wc_base::DomError;

/// Whether these buffers may be transferred together (HTML, 'StructuredSerializeWithTransfer'): `DataClone` comes exactly
/// where the list names a buffer twice or names a detached one.
pub fn check_transfer(list: &[u32], buffers: &[ArrayBuffer]) -> Result<(), DomError>
    requires { All (λ n. n < length buffers.now) list.now }
    ensures { let may = may_transfer (is_open_at buffers.now) list.now in
        MatchResult result (λ u. may ≡ true) (λ e. (e ≡ dom.DataClone) × (may ≡ false)) }
{
    for (i, number) in list.iter().enumerate() {
        if !is_open(buffers, *number) || list[i + 1..].contains(number) {
            return Err(DomError::DataClone);
        }
    }
    Ok(())
}

/// Whether the buffer with this number is there, and open.
fn is_open(buffers: &[ArrayBuffer], number: u32) -> bool
    ensures { result ≡ is_open_at buffers.now number }
{
    match buffers.get(number as usize) {
        Some(buffer) => !buffer.is_detached(),
        None => false,
    }
}
