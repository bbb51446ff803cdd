// Clocks.
ghost use Rattle.std.specs.Prelude.{◌≡◌, [], ◌∷◌};
ghost use Rattle.work_moments.specs.Moments.{Telling, Given, last_of, answer_of, list_told};

/// Tells moments, in microseconds.
pub trait Clock {
    // what it tells of the moments that it gave so far, and of those that it may give
    ghost told: { Self → Telling };

    /// The moment now, which is one that the clock may give. Where it tells what it gave, this is one more.
    fn now(&mut self) -> u64
        ensures { Given (told self.old) (result ∷ []) (told self.new) };
}

/// A clock that stands still: it gives this moment again and again, and does not tell how often.
#[derive(Clone, Copy, Debug)]
pub struct StillClock {
    pub moment: u64,
}

impl Clock for StillClock {
    ghost use Rattle.std.specs.Prelude.{[], ◌∷◌, None, Some};

    ghost told = { λ c. record { gave = None; may = Some (c.moment ∷ []) } };

    fn now(&mut self) -> u64 {
        self.moment
    }
}

/// A clock with a list: it gives these moments, one after the other, and then the last one again; 0 where the list is empty. It
/// tells what it gave, as long as a `u64` counts it, and what it may give.
#[derive(Drop)]
pub struct ListClock {
    moments: Vec<u64>,
    count: u64,
}

impl ListClock {
    /// A clock that has given nothing. It takes no memory.
    pub fn open(moments: Vec<u64>) -> ListClock
        ensures moments { result.moments.items ≡ moments.items }
        ensures none { result.count ≡ 0 }
    {
        ListClock { moments, count: 0 }
    }
}

impl Clock for ListClock {
    ghost told = { λ c. list_told c.moments.items c.count };

    fn now(&mut self) -> u64 {
        let moment = answer(self.moments.as_slice(), self.count);
        self.count = self.count.saturating_add(1);
        moment
    }
}

// The answer with this number of a clock with a list.
fn answer(moments: &[u64], number: u64) -> u64
    ensures { result ≡ answer_of moments.now number }
{
    match moments.get(number as usize) {
        Some(moment) => *moment,
        None => last_or_zero(moments),
    }
}

// The last of these moments; 0 where there is none.
fn last_or_zero(moments: &[u64]) -> u64
    ensures { result ≡ last_of moments.now }
{
    match moments.last() {
        Some(moment) => *moment,
        None => 0,
    }
}
