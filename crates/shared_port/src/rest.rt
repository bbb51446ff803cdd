//! What is left in a port.
ghost use Rattle.std.specs.Prelude.{◌≡◌, ◌^◌, [], MatchOption};
ghost use Rattle.crossbeam_queue.specs.SegTies.{IsSegPassOf};
ghost use Rattle.shared_port.specs.Mouths.{view_of};
ghost use Rattle.shared_port.specs.Steps.{HadLeft, Takes};

use crate::carried::Carried;
use crate::mouth::{Line, LinePass};
use crate::rule::Receive;
use std::marker::Model;
use std::sync::Wait;
use wc_base::Who;

/// A port that has one pass alone, with all parts and the mouth. Contracts see what the pass knows.
pub struct PortRest<M: Carried> {
    queue: Line<M>,
    line: LinePass<M>,
}

impl<M: Carried> Model for PortRest<M> {
    ghost use Rattle.std.specs.Prelude.{◌≡◌, ◌^◌};
    ghost use Rattle.crossbeam_queue.specs.SegTies.{IsSegPassOf};
    ghost use Rattle.shared_port.specs.declared.rule.PortView.{PortView};
    ghost use Rattle.shared_port.specs.Mouths.{view_of};

    ghost Value = { PortView M };

    ghost view = { λ r. view_of r.line };

    ghost invariant = { λ r. IsSegPassOf r.queue r.line × ((view_of r.line).parts ≡ 2 ^ 32) × ((view_of r.line).mouths ≡ 1) };
}

impl<M: Carried> PortRest<M> {
    pub(crate) fn new(queue: Line<M>, line: LinePass<M>) -> PortRest<M>
        requires { IsSegPassOf queue line × ((view_of line).parts ≡ 2 ^ 32) × ((view_of line).mouths ≡ 1) }
        ensures { result ≡ view_of line }
    {
        PortRest { queue, line }
    }
}

impl<M: Carried + Drop> PortRest<M> {
    /// The first medium that is left, with the step that posted it. `None` comes exactly where nothing is left. It takes no
    /// memory.
    pub fn next<R: Wait>(&mut self, rt: &R) -> Option<(Who, M)>
        ensures next { MatchOption result (HadLeft self.old [] × (self.new ≡ self.old))
            (λ x. Takes M.is_of x self.old self.new) }
        ensures all { (self.new.parts ≡ 2 ^ 32) × (self.new.mouths ≡ 1) }
    {
        self.queue.pop_as::<Receive, R>(rt, &mut self.line)
    }
}

impl<M: Carried + Drop> Drop for PortRest<M> {
    fn drop(self) {
        let Self { queue, line: _ } = self;
        queue.destroy();
    }
}
