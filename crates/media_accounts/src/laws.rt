// What stands of a pool's history after one step more, and after one entry more of a codec.
ghost use Rattle.media_accounts.specs.Accounts.{NothingStands, StepsStand, OthersStand};
ghost use Rattle.media_accounts.specs.Accounts.{EntriesStand, LaterStand};

use media_variables::references_stay_held;
use wc_pool::references_are_apart;

/// A law: all media stand before any step and any entry, and after each step of a caller, on media or not: the pool's history
/// has what the steps and the codecs' entries call for, variables hold what those steps left, and each reference that a
/// variable or a codec holds is live and held once.
pub fn media_stand()
    ensures nothing { NothingStands }
    ensures media { StepsStand }
    ensures others { OthersStand }
{
    references_stay_held();
}

/// A law: all media stand after each entry of a codec, which clones the resource of an encode that it accepts and ends what it
/// lets go; and each step of a caller came to what it came to before.
pub fn codecs_stand()
    ensures { EntriesStand }
{
    references_are_apart();
}

/// A law: all media stand as they did where more is brought to steps that were not made yet, and each step that
/// was made came to the same.
pub fn what_is_brought_may_grow()
    ensures { LaterStand }
{}
