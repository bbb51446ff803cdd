// The references that wait.
ghost use Rattle.std.specs.Prelude.{◌&&◌, is_none, ◌≡◌, ◌≤◌, ◌<◌, ◌+◌, ◌++◌, [], OnOk, IfSome, is_some, option_map, if◌then◌else◌, vec_len, vec_capacity};
ghost use Rattle.std.specs.VecDeque.{deque_len, deque_capacity};
ghost use Rattle.codec_media.specs.Holding.{TakesIf, without_media};

use crate::reply::Removed;
use coder_api::Coder;
use std::alloc::Global;
use std::collections::VecDeque;
use std::mem;
use wc_base::{DomError, NoMemory};
use wc_pool::MediaRef;

/// Moves all references to the end of a list that has places for them, in order.
pub(crate) fn move_all(from: &mut VecDeque<MediaRef>, to: &mut Vec<MediaRef>)
    requires { vec_len to.old + deque_len from.old ≤ vec_capacity to.old }
    ensures items { to.new.items ≡ to.old.items ++ from.old.items }
    ensures none { from.new.items ≡ [] }
    ensures len { deque_len from.new ≡ 0 }
{
    while let Some(r) = from.pop_front() {
        to.push_reserved(r);
    }
}

/// Takes a place for one reference more, and a place for each that waits in the list in which all are let go at once.
pub(crate) fn room_for(
    waiting: &mut VecDeque<MediaRef>,
    freed: &mut Vec<MediaRef>,
) -> Result<(), NoMemory>
    ensures waiting { waiting.new.items ≡ waiting.old.items }
    ensures len { deque_len waiting.new ≡ deque_len waiting.old }
    ensures freed { freed.new.items ≡ freed.old.items }
    ensures freed_len { vec_len freed.new ≡ vec_len freed.old }
    ensures place { OnOk result (deque_len waiting.new < deque_capacity waiting.new) }
    ensures places { OnOk result
        (vec_len freed.new + deque_len waiting.new + 1 ≤ vec_capacity freed.new) }
    ensures grows { vec_capacity freed.old ≤ vec_capacity freed.new }
{
    waiting.reserve(1)?;
    freed.reserve(waiting.len() + 1)?;
    Ok(())
}

/// All references leave, with no memory taken.
pub(crate) fn let_go(
    alloc: Global,
    waiting: &mut VecDeque<MediaRef>,
    freed: &mut Vec<MediaRef>,
) -> Vec<MediaRef>
    requires none { freed.old.items ≡ [] }
    requires places { vec_len freed.old + deque_len waiting.old ≤ vec_capacity freed.old }
    ensures items { result.items ≡ waiting.old.items }
    ensures waiting { waiting.new.items ≡ [] }
    ensures len { deque_len waiting.new ≡ 0 }
    ensures freed { freed.new.items ≡ [] }
    ensures freed_len { vec_len freed.new ≡ 0 }
{
    move_all(waiting, freed);
    mem::replace(freed, Vec::new(alloc))
}

/// Whether a call that removes all that is queued did so: it was not refused.
pub(crate) fn is_removed(removes: bool, exception: Option<DomError>) -> bool
    ensures { result ≡ (removes && is_none exception) }
{
    removes && exception.is_none()
}

/// All references leave where they are let go, and else all stay.
pub(crate) fn let_go_if(
    removed: bool,
    alloc: Global,
    waiting: &mut VecDeque<MediaRef>,
    freed: &mut Vec<MediaRef>,
) -> Vec<MediaRef>
    requires none { freed.old.items ≡ [] }
    requires len { vec_len freed.old ≡ 0 }
    requires places { deque_len waiting.old ≤ vec_capacity freed.old }
    ensures items { result.items ≡ (if removed then waiting.old.items else []) }
    ensures waiting { waiting.new.items ≡ (if removed then [] else waiting.old.items) }
    ensures freed { freed.new.items ≡ [] }
    ensures freed_len { vec_len freed.new ≡ 0 }
    ensures places { deque_len waiting.new ≤ vec_capacity freed.new }
{
    if removed {
        let_go(alloc, waiting, freed)
    } else {
        Vec::new(alloc)
    }
}

/// Takes the front reference where it is wanted.
pub(crate) fn take_if(
    wanted: bool,
    waiting: &mut VecDeque<MediaRef>,
    working: &mut Option<MediaRef>,
)
    ensures taken { TakesIf wanted waiting.old.items waiting.new.items working.old working.new }
    ensures len { deque_len waiting.new ≤ deque_len waiting.old }
{
    if wanted {
        *working = waiting.pop_front();
    }
}

/// What a turn removed, with all references, which leave with it; none where it removed nothing.
pub(crate) fn with_media<C: Coder>(
    alloc: Global,
    removed: Option<codec_core::Removed<C>>,
    waiting: &mut VecDeque<MediaRef>,
    freed: &mut Vec<MediaRef>,
) -> Option<Removed<C>>
    requires none { freed.old.items ≡ [] }
    requires places { vec_len freed.old + deque_len waiting.old ≤ vec_capacity freed.old }
    ensures some { is_some result ≡ is_some removed }
    ensures boxes { option_map without_media result ≡ removed }
    ensures media { IfSome result (λ r. r.media ≡ waiting.old.items) }
    ensures left { waiting.new.items ≡ (if is_some removed then [] else waiting.old.items) }
    ensures len { deque_len waiting.new ≤ deque_len waiting.old }
    ensures freed { freed.new.items ≡ [] }
    ensures freed_len { vec_len freed.new ≡ vec_len freed.old }
    ensures capacity { vec_len freed.new + deque_len waiting.new ≤ vec_capacity freed.new }
{
    let removed = removed?;
    let media = let_go(alloc, waiting, freed);
    Some(Removed {
        place: removed.place,
        media,
        coder: removed.coder,
    })
}
