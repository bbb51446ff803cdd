// The passage that made a codec's last entry.
ghost use Rattle.std.specs.Prelude.{◌≡◌, ◌<◌, None, length, true};
ghost use Rattle.seat_lock.specs.Passages.{passage_of};
ghost use Rattle.shared_codec.specs.Shared.{IsLast, PassageIs};

use codec_core::Core;
use codec_logs::{Acquires, Event};
use codec_model::Entry;
use coder_api::Coder;
use seat_lock::Passage;
use std::snapshot::Snapshot;

/// No acquires.
pub fn no_acquires() -> Acquires
    ensures { result ≡ record { first = None; second = None } }
{
    Acquires {
        first: None,
        second: None,
    }
}

// The last entry of a history that has one.
fn last_entry<C: Coder>(core: &Core<C>) -> Snapshot<Entry>
    requires { 0 < length core.now.history }
    ensures { IsLast core.now.history result.value }
{
    let (length, _, _) = core.look();
    match core.entry(length - 1) {
        Some(entry) => Snapshot::of(entry),
        None => unreachable!(),
    }
}

// The passage of a call that made an entry, or made none.
pub(crate) fn passage_if<C: Coder>(
    made: bool,
    core: &Core<C>,
    acquires: Acquires,
) -> Passage<Snapshot<Event>>
    requires { made ≡ true → 0 < length core.now.history }
    ensures { PassageIs made core.now.history acquires (passage_of result) }
{
    if made {
        let entry = last_entry(core);
        Passage::Made(Snapshot::of(&Event { entry, acquires }))
    } else {
        Passage::Look
    }
}
