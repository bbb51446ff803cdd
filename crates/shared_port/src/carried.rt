//! What a port carries.
ghost use Rattle.atomic_table.specs.Seated.{TableId};

use wc_pool::MediaRef;

/// What can be posted into a port. It may hold references to the resources of one shared pool, the port's.
pub trait Carried {
    // The references that it holds are of this pool.
    ghost is_of: { TableId → Self → Type 0 };
}

impl Carried for MediaRef {
    ghost use Rattle.shared_pool.specs.Refs.{IsPoolRef};

    ghost is_of = { IsPoolRef };
}
