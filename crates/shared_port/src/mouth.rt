//! The mouth of a line: the one pass with which media are received, behind a lock.
ghost use Rattle.std.specs.Prelude.{◌≡◌};

use crate::carried::Carried;
use crate::rule::{PortLaw, PortView};
use crossbeam_queue::{RuledSegQueue, SegPass};
use seat_lock::Told;
use shared_pool::SharedPool;
use std::snapshot::Snapshot;
use wc_base::Who;

// The queue of a port.
pub(crate) type Line<M> = RuledSegQueue<(Who, M), PortView<M>, PortLaw>;

// A pass of that queue.
pub(crate) type LinePass<M> = SegPass<(Who, M), PortView<M>>;

/// What is fixed when a port is opened: its line, and the pool of what it carries.
#[derive(Drop)]
pub struct About<M: Carried> {
    pub line: Snapshot<Line<M>>,
    pub pool: Snapshot<SharedPool>,
}

/// The mouth of a line. In a passage of its lock a pass takes it and gives it back.
#[derive(Drop)]
pub struct Mouth<M> {
    pub(crate) pass: Option<LinePass<M>>,
}

impl<M: Carried> Told for Mouth<M> {
    ghost use Rattle.std.specs.Prelude.{false, None};
    ghost use Rattle.shared_port.specs.Mouths.{IsMouth};

    type Entry = ();

    type About = About<M>;

    ghost mints = { λ e. false };

    ghost spends = { λ before e. None };

    ghost tells = { λ about mouth log. IsMouth about.line.value mouth };
}
