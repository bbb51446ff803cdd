// Array buffers that are open or detached.
ghost use Rattle.std.specs.Prelude.{◌≡◌, [], true, None, Some, IfOk, IfErr, IfSome, OnOk, OnErr};
ghost use Rattle.std.specs.Prelude.{is_none, is_some, option_map};
ghost use Rattle.wc_base.specs.declared.error.DomError.TheVariants as dom;
ghost use Rattle.wc_pool.specs.Pools.{KeepsAll};
ghost use Rattle.array_buffers.specs.Buffers.{IsMadeBy, IsCloneBy, IsCloneFault, Closes, KeepsButHeld};
ghost use Rattle.array_buffers.specs.Buffers.{bytes_of};

use bytes::Bytes;
use std::alloc::Global;
use std::marker::Model;
use wc_base::{By, DomError, NoMemory};
use wc_pool::{MediaFault, MediaRef, RefPool};

/// Bytes in a media resource (ECMAScript, ArrayBuffer). It holds one reference to it while it is open, and none once it is
/// detached. One that is dropped while it is open leaves its reference live. A contract sees the reference that it holds.
#[derive(Drop)]
pub struct ArrayBuffer {
    held: Option<MediaRef>,
}

impl Model for ArrayBuffer {
    ghost use Rattle.std.specs.Prelude.{Option};
    ghost use Rattle.wc_pool.specs.declared.reference.MediaRef.{MediaRef};

    ghost Value = { Option MediaRef };

    ghost view = { λ b. b.held };
}

impl ArrayBuffer {
    /// An open buffer: a new resource with these bytes.
    pub fn new<P: RefPool>(
        alloc: Global,
        bytes: &[u8],
        pool: &mut P,
        by: By,
    ) -> Result<ArrayBuffer, NoMemory>
        ensures ok { IfOk result (IsMadeBy (P.adds pool.old pool.new) by bytes.now) }
        ensures of { IfOk result (λ b. IfSome b (P.is_of pool.new)) }
        ensures err { OnErr result (P.stays pool.old pool.new) }
        ensures kept { KeepsAll (P.is_of pool.old) (P.is_of pool.new) }
    {
        let bytes = copy_bytes(alloc, bytes)?;
        let held = pool.make(by, bytes)?;
        Ok(ArrayBuffer { held: Some(held) })
    }

    /// Whether it holds no reference: it was transferred.
    pub fn is_detached(&self) -> bool
        ensures { result ≡ is_none self.now }
    {
        self.held.is_none()
    }

    /// Its bytes; none where it is detached.
    pub fn bytes(&self) -> &[u8]
        ensures { result.now ≡ bytes_of self.now }
    {
        match &self.held {
            Some(r) => r.bytes().as_slice(),
            None => &[],
        }
    }

    /// The reference that it holds; none exactly where it is detached.
    pub fn reference(&self) -> Option<&MediaRef>
        ensures { option_map (λ r. r.now) result ≡ self.now }
    {
        self.held.as_ref()
    }

    /// Another open buffer over the same resource (our choice: buffers are held as media are). `InvalidState` comes exactly
    /// where it is detached. The buffer stays as it is, but for what the pool does not keep of a reference that is cloned.
    pub fn clone_buffer<P: RefPool>(
        &mut self,
        pool: &mut P,
        by: By,
    ) -> Result<ArrayBuffer, MediaFault>
        requires { IfSome self.old (P.is_of pool.old) }
        ensures same { option_map P.lasting self.new ≡ option_map P.lasting self.old }
        ensures still { IfSome self.new (P.is_of pool.new) }
        ensures ok { IfOk result (IsCloneBy (P.adds pool.old pool.new) by self.old) }
        ensures of { IfOk result (λ b. IfSome b (P.is_of pool.new)) }
        ensures err { IfErr result
            (IsCloneFault self.old (pool.new ≡ pool.old) (P.stays pool.old pool.new)) }
        ensures kept { KeepsAll (P.is_of pool.old) (P.is_of pool.new) }
    {
        match &mut self.held {
            None => Err(MediaFault::Dom(DomError::InvalidState)),
            Some(r) => match pool.clone_ref(by, r) {
                Ok(held) => Ok(ArrayBuffer { held: Some(held) }),
                Err(NoMemory) => Err(MediaFault::NoMemory),
            },
        }
    }

    /// Hands its reference on to another buffer, and is detached (ECMAScript, ArrayBuffer, `transfer`). `DataClone` comes
    /// exactly where it was detached already. It takes no memory, and makes no entry.
    pub fn transfer(&mut self) -> Result<ArrayBuffer, DomError>
        ensures ok { IfOk result (λ b. b ≡ self.old) }
        ensures open { OnOk result (is_some self.old ≡ true) }
        ensures err { IfErr result (λ e. (e ≡ dom.DataClone) × (self.old ≡ None)) }
        ensures detached { self.new ≡ None }
    {
        match self.held.take() {
            Some(held) => Ok(ArrayBuffer { held: Some(held) }),
            None => Err(DomError::DataClone),
        }
    }

    /// Ends its reference, and is detached; where it is detached already nothing is done. The answer has the resource's bytes
    /// exactly where the reference was the last one. It takes no memory.
    pub fn close_buffer<P: RefPool>(&mut self, pool: &mut P, by: By) -> Option<Bytes>
        requires { IfSome self.old (P.is_of pool.old) }
        ensures detached { self.new ≡ None }
        ensures closes { let adds = P.adds pool.old pool.new in
            Closes adds (pool.new ≡ pool.old) by self.old (is_some result) }
        ensures bytes { IfSome result (λ b. option_map (λ r. r.bytes) self.old ≡ Some b) }
        ensures kept { KeepsButHeld self.old (P.is_of pool.old) (P.is_of pool.new) }
    {
        match self.held.take() {
            Some(held) => pool.end(by, held),
            None => None,
        }
    }

    /// Hands its reference out, and is detached; none exactly where it was detached already. It takes no memory, and makes
    /// no entry.
    pub fn detach(&mut self) -> Option<MediaRef>
        ensures reference { result ≡ self.old }
        ensures detached { self.new ≡ None }
    {
        self.held.take()
    }
}

fn copy_bytes(alloc: Global, bytes: &[u8]) -> Result<Bytes, NoMemory>
    ensures { IfOk result (λ b. b ≡ bytes.now) }
{
    match Bytes::from_vec(Vec::from_slice(alloc, bytes)?) {
        Ok(bytes) => Ok(bytes),
        Err(_) => Err(NoMemory),
    }
}
