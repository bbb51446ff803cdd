// The system's clock.
use codec_desk::Clock;
use std::rt;
use std::time::{Duration, Instant};

// The most microseconds that a clock tells.
const MOST: u128 = 18_446_744_073_709_551_615;

/// Tells the microseconds since a moment, which the clocks of a run have in common; 0 where the system's clock fails.
#[derive(Clone, Copy)]
pub struct SystemClock<R> {
    rt: R,
    start: Option<Instant>,
}

impl<R: rt::Clock> SystemClock<R> {
    /// A clock that begins with this moment.
    pub fn since(rt: R, start: Option<Instant>) -> SystemClock<R> {
        SystemClock { rt, start }
    }
}

fn micros(passed: Duration) -> u64 {
    passed.as_micros().min(MOST) as u64
}

impl<R: rt::Clock> Clock for SystemClock<R> {
    ghost use Rattle.work_moments.specs.Moments.{silent};

    ghost told = { λ _. silent };

    fn now(&mut self) -> u64 {
        let Some(start) = self.start else {
            return 0;
        };
        match Instant::now(&self.rt) {
            Ok(now) => micros(now.duration_since(start)),
            Err(_) => 0,
        }
    }
}
