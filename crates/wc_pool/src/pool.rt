// Pools of media resources.
ghost use Rattle.std.specs.Prelude.{◌≡◌, ◌≢◌, ◌<◌, ◌+◌, ◌^◌, [], None, Some, true, false, refl};
ghost use Rattle.std.specs.Prelude.{IfOk, IfSome, OnErr, is_some};
ghost use Rattle.std.proofs.Common.{ap};
ghost use Rattle.slab.specs.Slab.{get};
ghost use Rattle.wc_pool.specs.Shared.{KeyOf, HasResource, AddsOne, DropsOne, less_if};
ghost use Rattle.wc_pool.specs.declared.pool.Resource.{Resource};
ghost use Rattle.wc_pool.specs.Bag.{held_in, is_legal_pool, resource_of};
ghost use Rattle.wc_pool.specs.Pools.{made_by, cloned_by, ended_by, Adds};
ghost use Rattle.wc_pool.specs.Pools.{IsLive, KeepsAll, KeepsOthers, IsCloneOf, with_token};
ghost use Rattle.wc_pool.specs.declared.reference.MediaRef.{MediaRef};
ghost use Rattle.wc_pool.specs.declared.entry.PoolEntry.{PoolEntry};

use crate::entry::{PoolEntry, PoolOp};
use crate::reference::MediaRef;
use bytes::Bytes;
use slab::Slab;
use std::alloc::Global;
use std::marker::Model;
use wc_base::{By, NoMemory};

/// What makes, clones and ends references to media resources. Each call makes one entry, or none where
/// it ends for want of memory.
pub trait RefPool {
    /// The reference is of this pool.
    ghost is_of: { Self → MediaRef → Type 0 };

    /// A call made this entry, and no other.
    ghost adds: { Self → Self → PoolEntry → Type 0 };

    /// A call made no entry.
    ghost stays: { Self → Self → Type 0 };

    /// With no call there is no entry.
    ghost rests: { (pool : Self) → stays pool pool };

    /// What of a reference stays as it is where it is cloned.
    ghost lasting: { MediaRef → MediaRef };

    /// That is all but its token.
    ghost lasts: { (r q : MediaRef) → lasting r ≡ lasting q → with_token None r ≡ with_token None q };

    /// A new resource with these bytes, and its first reference. Both have the next number of their
    /// kind. `NoMemory` leaves the pool as it was.
    fn make(&mut self, by: By, bytes: Bytes) -> Result<MediaRef, NoMemory>
        ensures made { IfOk result (λ r. adds self.old self.new (made_by by r)) }
        ensures bytes { IfOk result (λ r. r.bytes ≡ bytes) }
        ensures of { IfOk result (is_of self.new) }
        ensures err { OnErr result (stays self.old self.new) }
        ensures kept { KeepsAll (is_of self.old) (is_of self.new) };

    /// One more reference to the resource of `r`, of which all that is lasting stays as it is: at the
    /// least all but its token. `NoMemory` leaves the pool as it was.
    fn clone_ref(&mut self, by: By, r: &mut MediaRef) -> Result<MediaRef, NoMemory>
        requires { is_of self.old r.old }
        ensures made { IfOk result (λ q. adds self.old self.new (cloned_by by q)) }
        ensures clone { IfOk result (IsCloneOf r.old) }
        ensures of { IfOk result (is_of self.new) }
        ensures err { OnErr result (stays self.old self.new) }
        ensures same { lasting r.new ≡ lasting r.old }
        ensures still { is_of self.new r.new }
        ensures kept { KeepsAll (is_of self.old) (is_of self.new) };

    /// Ends a reference. The answer is `Some`, with the resource's bytes, exactly where it was the last
    /// one to its resource, which is given back then. It takes no memory.
    fn end(&mut self, by: By, r: MediaRef) -> Option<Bytes>
        requires { is_of self.old r }
        ensures ended { adds self.old self.new (ended_by by r (is_some result)) }
        ensures bytes { IfSome result (λ b. b ≡ r.bytes) }
        ensures kept { KeepsOthers r.number (is_of self.old) (is_of self.new) };
}

/// A resource that is held: its number, and how many references it has.
#[derive(Drop)]
struct Resource {
    number: u64,
    count: u64,
}

/// A pool for one thread. To a contract it is its history.
#[derive(Drop)]
pub struct Pool {
    resources: Slab<Resource>,
    entries: Vec<PoolEntry>,
    made: u64,
    minted: u64,
    held: u64,
    // So many references are live: the end of each has a place among the entries.
    live: usize,
}

impl Model for Pool {
    ghost use Rattle.std.specs.Prelude.{◌≤◌, ◌+◌, List, vec_len, vec_capacity};
    ghost use Rattle.wc_pool.specs.declared.entry.PoolEntry.{PoolEntry};
    ghost use Rattle.wc_pool.specs.Shared.{IsPool};

    ghost Value = { List PoolEntry };

    ghost view = { λ p. p.entries.items };

    ghost invariant = { λ p. IsPool p.resources p.entries.items p.made p.minted p.held p.live
        × (vec_len p.entries + p.live ≤ vec_capacity p.entries) };
}

impl Pool {
    /// A pool that has made nothing. It takes no memory.
    pub fn open(alloc: Global) -> Pool
        ensures { result ≡ [] }
    {
        Pool {
            resources: Slab::new(alloc),
            entries: Vec::new(alloc),
            made: 0,
            minted: 0,
            held: 0,
            live: 0,
        }
    }

    /// How many resources have a live reference.
    pub fn held(&self) -> u64
        ensures { result ≡ held_in self.now }
    {
        self.held
    }

    /// All entries so far, in their order: a history that a pool can have.
    pub fn entries(&self) -> &[PoolEntry]
        ensures entries { result.now ≡ self.now }
        ensures legal { is_legal_pool self.now ≡ true }
    {
        self.entries.as_slice()
    }

    /// All entries, in their order.
    pub fn into_entries(self) -> Vec<PoolEntry>
        ensures entries { result.items ≡ self }
        ensures legal { is_legal_pool self ≡ true }
    {
        self.entries
    }
}

/// The key of a resource that is kept; `first` is looked at before all others.
fn key_of(resources: &Slab<Resource>, number: u64, first: usize) -> usize
    requires { KeyOf resources.now number }
    ensures { HasResource resources.now number result }
{
    if has_resource(resources, number, first) {
        return first;
    }
    for key in 0..resources.capacity() {
        if has_resource(resources, number, key) {
            return key;
        }
    }
    unreachable!()
}

/// Whether a key has the resource.
fn has_resource(resources: &Slab<Resource>, number: u64, key: usize) -> bool
    ensures yes { result ≡ true → HasResource resources.now number key }
    ensures not { result ≡ false → (x : Resource) → get resources.now key ≡ Some x → x.number ≢ number }
{
    match resources.get(key) {
        Some(resource) => resource.number == number,
        None => false,
    }
}

/// One reference more of the resource at a key.
fn add_reference(resources: &mut Slab<Resource>, number: u64, key: usize)
    requires there { HasResource resources.old number key }
    requires few { (x : Resource) → get resources.old key ≡ Some x → x.count + 1 < 2 ^ 64 }
    ensures { AddsOne resources.old resources.new number key }
{
    match resources.get_mut(key) {
        Some(resource) => {
            resource.count += 1;
        }
        None => unreachable!(),
    }
}

/// One reference less. The answer is whether it was the last one; then the key is free.
fn drop_reference(resources: &mut Slab<Resource>, number: u64, key: usize) -> bool
    requires there { HasResource resources.old number key }
    requires some { (x : Resource) → get resources.old key ≡ Some x → 0 < x.count }
    ensures { DropsOne resources.old resources.new number key result }
{
    let last = count_at(resources, number, key) == 1;
    if last {
        resources.remove(key);
    } else {
        match resources.get_mut(key) {
            Some(resource) => {
                resource.count -= 1;
            }
            None => unreachable!(),
        }
    }
    last
}

fn count_at(resources: &Slab<Resource>, number: u64, key: usize) -> u64
    requires there { HasResource resources.now number key }
    ensures { (x : Resource) → get resources.now key ≡ Some x → result ≡ x.count }
{
    match resources.get(key) {
        Some(resource) => resource.count,
        None => unreachable!(),
    }
}

impl RefPool for Pool {
    ghost is_of = { IsLive };

    ghost adds = { Adds };

    ghost stays = { λ old new. new ≡ old };

    ghost rests = { λ pool. refl };

    ghost lasting = { λ r. r };

    ghost lasts = { λ r q same. ap (with_token None) same };

    fn make(&mut self, by: By, bytes: Bytes) -> Result<MediaRef, NoMemory> {
        self.entries.reserve(self.live + 2)?;
        self.resources.reserve(1)?;
        let resource = self.made;
        let number = self.minted;
        let key = self.resources.insert_reserved(Resource {
            number: resource,
            count: 1,
        });
        self.entries.push_reserved(PoolEntry {
            by,
            op: PoolOp::Make {
                resource,
                reference: number,
            },
        });
        self.made = resource + 1;
        self.minted = number + 1;
        self.held += 1;
        self.live += 1;
        Ok(MediaRef {
            resource,
            number,
            key,
            bytes,
            token: None,
        })
    }

    fn clone_ref(&mut self, by: By, r: &mut MediaRef) -> Result<MediaRef, NoMemory> {
        let bytes = r.bytes.clone()?;
        self.entries.reserve(self.live + 2)?;
        let resource = r.resource;
        let number = self.minted;
        let key = key_of(&self.resources, resource, r.key);
        add_reference(&mut self.resources, resource, key);
        self.entries.push_reserved(PoolEntry {
            by,
            op: PoolOp::Clone {
                resource,
                reference: number,
            },
        });
        self.minted = number + 1;
        self.live += 1;
        Ok(MediaRef {
            resource,
            number,
            key,
            bytes,
            token: None,
        })
    }

    fn end(&mut self, by: By, r: MediaRef) -> Option<Bytes> {
        if self.end_pair(by, r.resource, r.number, r.key) {
            Some(r.bytes)
        } else {
            None
        }
    }
}

impl Pool {
    /// Ends a reference. The answer is whether it was the last one of its resource.
    fn end_pair(&mut self, by: By, resource: u64, reference: u64, first: usize) -> bool
        requires { resource_of reference self.old ≡ Some resource }
        ensures ended { Adds self.old self.new (record { by = by; op = PoolOp.End resource reference result }) }
        ensures kept { KeepsOthers reference (IsLive self.old) (IsLive self.new) }
    {
        let key = key_of(&self.resources, resource, first);
        let last = drop_reference(&mut self.resources, resource, key);
        self.entries.push_reserved(PoolEntry {
            by,
            op: PoolOp::End {
                resource,
                reference,
                last,
            },
        });
        self.live -= 1;
        self.held = fewer(self.held, last);
        last
    }
}

/// One less where the flag is set.
fn fewer(count: u64, less: bool) -> u64
    requires { less ≡ true → 0 < count }
    ensures { result ≡ less_if less count }
{
    if less { count - 1 } else { count }
}
