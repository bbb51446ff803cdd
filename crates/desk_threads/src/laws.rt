// Laws of the accounts of threads, and of desks with nothing left to do.
ghost use Rattle.desk_threads.specs.Accounts.{AccountsBegin, AccountsAreKept, AccountsAreHistories};
ghost use Rattle.desk_threads.specs.Accounts.{CallsBegin, CallsAreKept, CallsAreHistories};
ghost use Rattle.desk_threads.specs.Orders.{OrderStands};
ghost use Rattle.desk_threads.specs.Runs.{RestIsQuiet};
ghost use Rattle.desk_threads.specs.Timely.{TimeStands};

use coder_api::Coder;
use shared_codec::{dues_add_up, order_is_kept};

/// Law: the account of seats that have seen nothing is balanced, and it stays so whatever a thread settles. Of seats that have all
/// passages the registry's history is what the codecs' logs call for, and so is what the pool's made for codecs.
pub fn accounts_are_kept<C: Coder>()
    ensures first { AccountsBegin C }
    ensures kept { AccountsAreKept C }
    ensures all { AccountsAreHistories C }
{
    dues_add_up();
}

/// Law: where one thread has all seats of a desk, none of its own items is at work, and it found nothing to do, each codec is
/// quiet: no item is at work, none may start, and no event task is queued.
pub fn rest_is_quiet<C: Coder>()
    ensures { RestIsQuiet C }
{}

/// Law: seats that have seen nothing made no calls of callers, and the calls that a thread made are those of before with those that
/// it made since. Of seats that have all passages they are all calls in the codecs' logs.
pub fn calls_are_kept<C: Coder>()
    ensures first { CallsBegin C }
    ensures kept { CallsAreKept C }
    ensures all { CallsAreHistories C }
{}

/// Law: what a thread made elsewhere by an entry of a codec is what that entry calls for, in order. This stands whatever a thread
/// settles, as its seats are split, and where it takes in another thread's. Of seats that have all passages it is so of the
/// registry's history and of the pool's.
pub fn order_stands<C: Coder>()
    ensures { OrderStands C }
{
    dues_add_up();
    order_is_kept();
}

/// Law: each end and each reclaim of a thread is at a moment that fits, where each clock that it works with gives only such moments;
/// and it makes at most as many reclaims as it ends items whose first acquire was refused. This stands as its seats are split, and
/// where it takes in another thread's. Of seats that have all passages it is so of the codecs' logs.
pub fn time_stands<C: Coder>()
    ensures { TimeStands C }
{}
