//! What a pass knows, and the rule of a port by it.
ghost use Rattle.std.specs.Prelude.{Option};
ghost use Rattle.atomic_table.specs.Seated.{TableId};
ghost use Rattle.shared_port.specs.Views.{opened, spent_view, mouth_view, less_part, one_part, joined};
ghost use Rattle.shared_port.specs.Views.{with_mouth, without_mouth};
ghost use Rattle.shared_port.specs.Steps.{Posts, Takes, HadLeft};

use crate::carried::Carried;
use crossbeam_queue::protocol::{Join, Lesson, Outcome, Protocol, Split};
use shared_pool::SharedPool;
use std::collections::LinkedList;
use std::marker::{Brand, PhantomData};
use wc_base::Who;

/// What a pass knows of its port. It is for clauses alone: no value of it is made.
pub struct PortView<M> {
    /// Its parts, of 2^32.
    pub parts: u64,
    /// The pool of what the port carries.
    pub pool: Option<SharedPool>,
    /// What it posted, each post with its place in the port's line, which has all posts from 0 on.
    pub posted: LinkedList<(u64, (Who, M))>,
    /// What it received, each with its place in the line.
    pub received: LinkedList<(u64, (Who, M))>,
    /// So many were received by all passes, and maybe more.
    pub known: u64,
    /// 1 where it has the mouth of the line, with which alone a medium can be received.
    pub mouths: u64,
    /// With the mouth, all that was received, in order.
    pub got: LinkedList<(Who, M)>,
}

/// The rule of a port: what all passes posted is, as a bag, what they received and what is left, and what was received is
/// the beginning of the line.
pub struct PortLaw;

impl<M: Carried> Protocol<(Who, M), PortView<M>> for PortLaw {
    ghost use Rattle.shared_port.specs.Rule.{PortRule};
    ghost use Rattle.shared_port.specs.Views.{first_view};

    ghost holds = { PortRule M.is_of };

    ghost first = { first_view };
}

// The pool that a port is opened for, which a step cannot read from the call's arguments.
pub(crate) trait PoolPick {
    ghost pool: { Option TableId };
}

impl PoolPick for Brand {
    ghost use Rattle.std.specs.Prelude.{None};

    ghost pool = { None };
}

// The first pass learns its port's pool. The other pass has the mouth.
pub(crate) struct Opening<W> {
    picks: PhantomData<W>,
}

impl<M, W: PoolPick> Split<PortView<M>> for Opening<W> {
    ghost left = { opened W.pool };

    ghost right = { λ v. mouth_view v.got };
}

// One part of a pass becomes a pass.
pub(crate) struct PartSplit;

impl<M> Split<PortView<M>> for PartSplit {
    ghost left = { less_part };

    ghost right = { one_part };
}

// A pass takes in another one.
pub(crate) struct ViewJoin;

impl<M> Join<PortView<M>> for ViewJoin {
    ghost both = { joined };

    ghost spent = { spent_view };
}

// A pass takes the mouth.
pub(crate) struct TakeMouth;

impl<M> Join<PortView<M>> for TakeMouth {
    ghost both = { with_mouth };

    ghost spent = { spent_view };
}

// A pass gives the mouth away.
pub(crate) struct GiveMouth;

impl<M> Split<PortView<M>> for GiveMouth {
    ghost left = { without_mouth };

    ghost right = { λ v. mouth_view v.got };
}

// A pass posts.
pub(crate) struct Post;

impl<M> Outcome<(Who, M), PortView<M>> for Post {
    ghost then = { λ v x w. Posts x v w };
}

// A pass that has the mouth receives, or learns what was left.
pub(crate) struct Receive;

impl<M: Carried> Outcome<(Who, M), PortView<M>> for Receive {
    ghost then = { λ v x w. Takes M.is_of x v w };
}

impl<M> Lesson<(Who, M), PortView<M>> for Receive {
    ghost fact = { λ v items. HadLeft v items };
}
