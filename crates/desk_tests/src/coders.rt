// Coders and gates that wait for one another, and a clock.
ghost use Rattle.work_moments.specs.Moments.{silent};

use codec_definitions::Unit;
use codec_desk::{Clock, Gate};
use coder_api::{Coder, CoderFault, Input};
use sample_coder::SampleCoder;
use std::alloc::{AllocError, Global};
use std::sync::Arc;
use std::sync::atomic::{AtomicU64, Ordering};
use std::thread;
use wc_base::NoMemory;
use wc_config::{AudioDecoderConfig, CoderId, Config};

/// Holds each that comes until so many have come, but no longer than 3,000,000 turns.
#[derive(Drop)]
pub struct Meeting {
    come: Arc<AtomicU64, Global>,
    late: Arc<AtomicU64, Global>,
    wanted: u64,
}

impl Meeting {
    /// A meeting of so many.
    pub fn of(alloc: Global, wanted: u64) -> Result<Meeting, AllocError> {
        Ok(Meeting {
            come: Arc::new(alloc, AtomicU64::new(0))?,
            late: Arc::new(alloc, AtomicU64::new(0))?,
            wanted,
        })
    }

    /// The same meeting, for another.
    pub fn again(&self) -> Result<Meeting, AllocError> {
        Ok(Meeting {
            come: Arc::try_clone(&self.come)?,
            late: Arc::try_clone(&self.late)?,
            wanted: self.wanted,
        })
    }

    fn pass(&self) {
        self.come.fetch_add(1, Ordering::SeqCst);
        for _ in 0..3_000_000 {
            if self.come.load(Ordering::SeqCst) >= self.wanted {
                return;
            }
            thread::yield_now();
        }
        self.late.fetch_add(1, Ordering::SeqCst);
    }

    /// How many came, and how many of them waited in vain.
    pub fn counts(&self) -> (u64, u64) {
        (
            self.come.load(Ordering::SeqCst),
            self.late.load(Ordering::SeqCst),
        )
    }
}

/// A coder that is held at each configure.
#[derive(Drop)]
pub struct HeldCoder {
    pub inner: SampleCoder,
    pub meeting: Meeting,
}

impl Coder for HeldCoder {
    ghost coder = { λ h. h.inner.id };

    ghost meaning = { λ h. h.inner.meaning };

    fn id(&self) -> CoderId {
        self.inner.id()
    }

    fn supports(&self, config: &Config) -> bool {
        self.inner.supports(config)
    }

    fn configure(&mut self, alloc: Global, config: &Config) -> Result<(), NoMemory> {
        self.meeting.pass();
        self.inner.configure(alloc, config)
    }

    fn setup(&self, alloc: Global) -> Result<Option<AudioDecoderConfig>, NoMemory> {
        self.inner.setup(alloc)
    }

    fn push(
        &mut self,
        alloc: Global,
        input: &Input<'_>,
        out: &mut Vec<Unit>,
    ) -> Result<(), CoderFault> {
        self.inner.push(alloc, input, out)
    }

    fn drain(&mut self, alloc: Global, out: &mut Vec<Unit>) -> Result<(), NoMemory> {
        self.inner.drain(alloc, out)
    }

    fn stop(&mut self) {
        self.inner.stop();
    }
}

/// A gate at which jobs meet.
#[derive(Drop)]
pub struct MeetingGate {
    pub meeting: Meeting,
}

impl Gate for MeetingGate {
    fn pass(&mut self, _codec: u32, _epoch: u64, _item: u64) {
        self.meeting.pass();
    }
}

/// A clock that counts how often it was asked, and does not tell what it gave.
#[derive(Drop)]
pub struct CountingClock {
    pub asked: u64,
}

impl Clock for CountingClock {
    ghost told = { λ _. silent };

    fn now(&mut self) -> u64 {
        self.asked = self.asked.saturating_add(1);
        self.asked
    }
}
