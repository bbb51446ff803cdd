// The references that are live, one entry of a pool after another.
ghost use Rattle.std.specs.Prelude.{◌≡◌, ◌++◌, ◌∷◌, [], List, OnOk, get_or, None, Some, set, if◌then◌else◌, length, ◌<◌, ◌-◌, ◌+◌, true};
ghost use Rattle.wc_pool.specs.Bag.{is_legal_next, is_number};
ghost use Rattle.wc_pool.specs.declared.entry.PoolEntry.{PoolEntry};
ghost use Rattle.legal_fronts.specs.Pools.{IsBag, is_end};

use std::alloc::Global;
use wc_base::{NoMemory, try_push};
use wc_pool::{PoolEntry, PoolOp};

/// What is kept of a pool's history.
#[derive(Drop)]
pub(crate) struct Bag {
    // Of each reference that was made: its resource, while it is live.
    pub(crate) holders: Vec<Option<u64>>,
    // Of each resource that was made: how many references to it are live.
    pub(crate) counts: Vec<u64>,
}

impl Bag {
    /// Of a pool that has made nothing.
    pub(crate) fn empty(alloc: Global) -> Bag
        ensures { IsBag [] result.holders.items result.counts.items }
    {
        Bag {
            holders: Vec::new(alloc),
            counts: Vec::new(alloc),
        }
    }

    // The resource of a live reference.
    fn holder(&self, reference: u64) -> Option<u64>
        ensures { result ≡ get_or self.now.holders.items reference None }
    {
        match self.holders.get(reference as usize) {
            Some(holder) => *holder,
            None => None,
        }
    }

    // How many references to a resource are live.
    fn count(&self, resource: u64) -> u64
        ensures { result ≡ get_or self.now.counts.items resource 0 }
    {
        match self.counts.get(resource as usize) {
            Some(count) => *count,
            None => 0,
        }
    }

    // Whether a reference to this resource is live.
    fn is_live(&self, resource: u64, reference: u64) -> bool
        ensures { result ≡ is_number (get_or self.now.holders.items reference None) resource }
    {
        match self.holder(reference) {
            Some(held) => held == resource,
            None => false,
        }
    }

    // Whether a resource has one reference, where its end is the last, and else more.
    fn is_end(&self, resource: u64, last: bool) -> bool
        ensures { result ≡ is_end last (get_or self.now.counts.items resource 0) }
    {
        let count = self.count(resource);
        if last { count == 1 } else { count != 1 }
    }

    /// Whether an entry is legal next.
    pub(crate) fn admits(&self, entry: &PoolEntry) -> bool
        ensures { (h : List PoolEntry) → IsBag h self.now.holders.items self.now.counts.items
            → result ≡ is_legal_next h entry.now }
    {
        match entry.op {
            PoolOp::Make {
                resource,
                reference,
            } => { resource == self.counts.len() as u64 && reference == self.holders.len() as u64 }
            PoolOp::Clone {
                resource,
                reference,
            } => self.count(resource) != 0 && reference == self.holders.len() as u64,
            PoolOp::End {
                resource,
                reference,
                last,
            } => self.is_live(resource, reference) && self.is_end(resource, last),
        }
    }

    // One reference more.
    fn add(&mut self, resource: u64) -> Result<(), NoMemory>
        ensures { OnOk result
            ((self.new.holders.items ≡ self.old.holders.items ++ Some resource ∷ [])
            × (self.new.counts.items
            ≡ set self.old.counts.items resource (get_or self.old.counts.items resource 0 + 1))) }
    {
        // No memory holds as many references.
        let count = self.count(resource).checked_add(1).ok_or(NoMemory)?;
        try_push(&mut self.holders, Some(resource))?;
        self.set_count(resource, count);
        Ok(())
    }

    // One reference less.
    fn drop_reference(&mut self, resource: u64, reference: u64)
        ensures holders { self.new.holders.items ≡ set self.old.holders.items reference None }
        ensures counts { self.new.counts.items
            ≡ set self.old.counts.items resource (get_or self.old.counts.items resource 0 - 1) }
    {
        let count = self.count(resource).saturating_sub(1);
        if (reference as usize) < self.holders.len() {
            self.holders[reference as usize] = None;
        }
        self.set_count(resource, count);
    }

    fn set_count(&mut self, resource: u64, count: u64)
        ensures holders { self.new.holders.items ≡ self.old.holders.items }
        ensures counts { self.new.counts.items ≡ set self.old.counts.items resource count }
    {
        if (resource as usize) < self.counts.len() {
            self.counts[resource as usize] = count;
        }
    }

    /// An entry that is legal is the next.
    pub(crate) fn record(&mut self, entry: &PoolEntry) -> Result<(), NoMemory>
        ensures { OnOk result ((h : List PoolEntry)
            → IsBag h self.old.holders.items self.old.counts.items
            → is_legal_next h entry.now ≡ true
            → IsBag (h ++ entry.now ∷ []) self.new.holders.items self.new.counts.items) }
    {
        match entry.op {
            PoolOp::Make {
                resource,
                reference: _,
            } => {
                try_push(&mut self.holders, Some(resource))?;
                try_push(&mut self.counts, 1)
            }
            PoolOp::Clone {
                resource,
                reference: _,
            } => self.add(resource),
            PoolOp::End {
                resource,
                reference,
                last: _,
            } => {
                self.drop_reference(resource, reference);
                Ok(())
            }
        }
    }
}
