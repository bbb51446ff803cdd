// Bytes drawn from a state.
ghost use Rattle.std.specs.Prelude.{◌≡◌, IfOk, OnOk, length};
ghost use Rattle.load_script.specs.Draws.{drawn, top_byte, state_after, bytes_drawn};

use bytes::Bytes;
use std::alloc::Global;
use wc_base::{NoMemory, try_push};

/// Bytes that are drawn one after another, each by a step of a linear congruential generator.
#[derive(Clone, Copy, Debug, PartialEq, Eq)]
pub struct Draws {
    pub state: u64,
}

impl Draws {
    /// Draws a byte: the top 8 bits of the next state.
    #[tactic(auto, unfolding(crate::specs::Draws::drawn, crate::specs::Draws::top_byte))]
    pub fn draw(&mut self) -> u8
        ensures state { self.new.state ≡ drawn self.old.state }
        ensures byte { result ≡ top_byte self.new.state }
    {
        self.state = self
            .state
            .wrapping_mul(6_364_136_223_846_793_005)
            .wrapping_add(1_442_695_040_888_963_407);
        (self.state >> 56) as u8
    }

    /// Draws so many bytes.
    #[tactic(auto, using(crate::proofs::Loops::all_bytes, crate::proofs::Loops::all_states))]
    pub fn bytes(&mut self, alloc: Global, count: usize) -> Result<Bytes, NoMemory>
        ensures bytes { IfOk result (λ b. b ≡ bytes_drawn count self.old.state) }
        ensures state { OnOk result (self.new.state ≡ state_after count self.old.state) }
    {
        let mut bytes = Vec::with_capacity(alloc, count)?;
        for _n in 0..count {
            let byte = self.draw();
            try_push(&mut bytes, byte)?;
        }
        match Bytes::from_vec(bytes) {
            Ok(bytes) => Ok(bytes),
            Err(_) => Err(NoMemory),
        }
    }
}
