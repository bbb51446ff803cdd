// The ports of a run, and the passes of its threads.
ghost use Rattle.std.specs.Prelude.{ℕ, ◌≡◌, ◌^◌, ◌<◌, ◌≤◌, [], length, vec_capacity, OnOk, Some, slice_get};
ghost use Rattle.atomic_table.specs.Seated.{TableId};
ghost use Rattle.desk_callers.specs.Passes.{ArePasses, AreUnused};
ghost use Rattle.wc_run.specs.Ports.{HaveAccounts, JoinedPasses, OfPorts, PassesHave};
ghost use Rattle.wc_run.specs.Ports.{SplitPasses, StayPasses};

use shared_pool::SharedPool;
use shared_port::{PortPass, SharedPort, last_passes_account};
use shared_variables::Parcel;
use std::alloc::Global;
use std::sync::Wait;
use wc_base::NoMemory;

/// So many ports of this pool, as far as there is memory, each with its first pass.
pub(crate) fn open_ports(
    alloc: Global,
    pool: &SharedPool,
    count: usize,
    ports: &mut Vec<SharedPort<Parcel>>,
    passes: &mut Vec<PortPass<Parcel>>,
) -> Result<(), NoMemory>
    requires empty { (ports.old.items ≡ []) × (passes.old.items ≡ []) }
    requires room { (count ≤ vec_capacity ports.old) × (count ≤ vec_capacity passes.old) }
    ensures passes { ArePasses pool.now ports.new.items passes.new.items }
    ensures parts { PassesHave (2 ^ 32) passes.new.items }
    ensures unused { AreUnused passes.new.items }
    ensures all { OnOk result (length ports.new.items ≡ count) }
{
    for _ in 0..count {
        let Ok((port, pass)) = SharedPort::open(alloc, pool) else {
            return Err(NoMemory);
        };
        ports.push_reserved(port);
        passes.push_reserved(pass);
    }
    Ok(())
}

// The port at a place.
fn port_at(ports: &[SharedPort<Parcel>], place: usize) -> &SharedPort<Parcel>
    requires { place < length ports.now }
    ensures { slice_get ports.now place ≡ Some result.now }
{
    &ports[place]
}

/// One part of each pass becomes a pass of another thread, which has posted and received nothing. `parts` is empty, and has room for
/// a pass of each port. It takes no memory.
pub(crate) fn split_passes(
    ports: &[SharedPort<Parcel>],
    passes: &mut Vec<PortPass<Parcel>>,
    mut parts: Vec<PortPass<Parcel>>,
) -> Vec<PortPass<Parcel>>
    requires passes { OfPorts ports.now passes.old.items }
    requires parts { (n : ℕ) × PassesHave n passes.old.items × (2 ≤ n) }
    requires empty { parts.items ≡ [] }
    requires room { length ports.now ≤ vec_capacity parts }
    ensures passes { StayPasses ports.now passes.old.items passes.new.items }
    ensures result { StayPasses ports.now passes.old.items result.items }
    ensures split { SplitPasses passes.old.items passes.new.items result.items }
{
    for place in 0..ports.len() {
        let part = port_at(ports, place).split(&mut passes[place]);
        parts.push_reserved(part);
    }
    parts
}

/// Each pass takes in the other one of its port. It takes no memory.
pub(crate) fn join_passes(
    ports: &[SharedPort<Parcel>],
    passes: &mut Vec<PortPass<Parcel>>,
    mut others: Vec<PortPass<Parcel>>,
)
    requires passes { (pool : TableId) × ArePasses pool ports.now passes.old.items
        × ArePasses pool ports.now others.items }
    ensures passes { StayPasses ports.now passes.old.items passes.new.items }
    ensures joined { JoinedPasses passes.old.items others.items passes.new.items }
{
    while let Some(other) = others.pop() {
        let place = others.len();
        port_at(ports, place).join(&mut passes[place], other);
    }
}

/// The end of all ports, once every other pass was joined to these: each has all 2^32 parts. A medium that is left in a port keeps
/// its reference. It takes no memory.
pub(crate) fn finish_ports<R: Wait>(
    rt: &R,
    mut ports: Vec<SharedPort<Parcel>>,
    mut passes: Vec<PortPass<Parcel>>,
)
    requires passes { OfPorts ports.items passes.items }
    requires parts { PassesHave (2 ^ 32) passes.items }
    ensures { HaveAccounts passes.items }
{
    last_passes_account::<Parcel>();
    while let Some(port) = ports.pop() {
        let Some(pass) = passes.pop() else {
            unreachable!()
        };
        let _ = port.finish(rt, pass);
    }
    ports.destroy_empty();
}
