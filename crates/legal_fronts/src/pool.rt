// How much of a pool's history is legal.
ghost use Rattle.std.specs.Prelude.{◌≡◌, IfOk};
ghost use Rattle.legal_fronts.specs.Fronts.{legal_entries};
ghost use Rattle.wc_pool.specs.Bag.{is_legal_next};

use crate::bag::Bag;
use std::alloc::Global;
use wc_base::NoMemory;
use wc_pool::PoolEntry;

/// How many entries of a pool's history stand before the first that is not legal after those before it; all of them where
/// each is legal (our choice, as `is_legal_next` of `wc_pool` says it). It takes time and memory in proportion to the
/// history. `NoMemory` comes from want of memory alone.
pub fn legal_pool_entries(alloc: Global, history: &[PoolEntry]) -> Result<usize, NoMemory>
    ensures { IfOk result (λ n. n ≡ legal_entries is_legal_next history.now) }
{
    let mut bag = Bag::empty(alloc);
    for (place, entry) in history.iter().enumerate() {
        if !bag.admits(entry) {
            return Ok(place);
        }
        bag.record(entry)?;
    }
    Ok(history.len())
}
