// The history of references to media resources.
ghost use Rattle.std.specs.Prelude.{◌≡◌};

use wc_base::{By, DomError, NoMemory};

/// One entry of a pool's history: who caused it, and what it did.
#[derive(Clone, Copy, Debug, PartialEq, Eq)]
pub struct PoolEntry {
    pub by: By,
    pub op: PoolOp,
}

/// What a pool did. Resources, and references, are numbered from 0 in the order in which they are
/// made.
#[derive(Clone, Copy, Debug, PartialEq, Eq)]
pub enum PoolOp {
    /// A new resource, with its first reference.
    Make {
        resource: u64,
        reference: u64,
    },
    /// One more reference to a resource that has one.
    Clone {
        resource: u64,
        reference: u64,
    },
    /// A reference ended; `last` says that its resource has none any more, and is given back.
    End {
        resource: u64,
        reference: u64,
        last: bool,
    },
}

/// Why a call on a medium was refused: with an exception, or for want of memory.
#[derive(Clone, Copy, Debug, PartialEq, Eq)]
pub enum MediaFault {
    Dom(DomError),
    NoMemory,
}

impl From<NoMemory> for MediaFault {
    ghost use Rattle.wc_pool.specs.declared.entry.MediaFault.TheVariants as fault;

    ghost from_gives = { λ _ e. e ≡ fault.NoMemory };

    fn from(_error: NoMemory) -> MediaFault {
        MediaFault::NoMemory
    }
}
