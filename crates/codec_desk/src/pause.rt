// Rests of threads that wait for others. No clause rests on how long they are.
ghost use Rattle.std.specs.Prelude.{◌≤◌};

use std::sync::Wait;
use std::sync::atomic::AtomicU64;
use std::thread;
use std::time::Duration;

// How often a thread only gives its processor to another before it sleeps.
const QUICK: u64 = 1000;

// How many microseconds a thread lets others go on that made entries before, and where it saw none made.
const LONG: u64 = 20000;

const SHORT: u64 = 2000;

// The microseconds of a sleep after so many of rest, or 0 for none. It is an eighth of them, so that threads which wait for one
// another end soon after they could, and at most 16 milliseconds.
fn sleep_after(rested: u64) -> u64
    ensures { result ≤ 16000 }
{
    if rested < QUICK {
        0
    } else {
        (rested / 8).min(16000)
    }
}

// Rests once after so many microseconds of rest, and answers how many they are then.
fn rest<R: Wait>(rt: &R, rested: u64) -> u64
    ensures { rested ≤ result }
{
    let micros = sleep_after(rested);
    if micros == 0 {
        thread::yield_now();
        return rested.saturating_add(1);
    }
    let word = AtomicU64::new(0);
    word.park_timeout(rt, 0, Duration::from_micros(micros));
    rested.saturating_add(micros)
}

// Rests once where nothing was found, after so many microseconds of rest, and answers how many they are then.
pub(crate) fn rest_unless<R: Wait>(rt: &R, found: bool, rested: u64) -> u64 {
    if found { 0 } else { rest(rt, rested) }
}

// How long a thread waits for entries of others before it helps.
#[derive(Drop)]
pub(crate) struct Patience {
    // the entries that it saw
    entries: u64,
    // microseconds of rest since it found something, and since it saw an entry more
    rested: u64,
    still: u64,
    over: bool,
}

impl Patience {
    pub(crate) fn new() -> Patience {
        Patience {
            entries: 0,
            rested: 0,
            still: 0,
            over: false,
        }
    }

    // Whether others had their time, once a look saw so many entries. Once they had it, it does not come back.
    pub(crate) fn is_over(&mut self, entries: u64) -> bool {
        if entries > self.entries {
            self.entries = entries;
            self.still = 0;
        }
        let limit = if self.rested > self.still {
            LONG
        } else {
            SHORT
        };
        self.over = self.over || self.still >= limit;
        self.over
    }

    // Rests once where nothing was found.
    pub(crate) fn rest_unless<R: Wait>(&mut self, rt: &R, found: bool) {
        let rested = rest_unless(rt, found, self.rested);
        self.still = self
            .still
            .saturating_add(rested.saturating_sub(self.rested));
        self.rested = rested;
    }
}
