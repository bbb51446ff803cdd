// References to media resources.
ghost use Rattle.std.specs.Prelude.{◌≡◌, None, Some};
ghost use Rattle.wc_pool.specs.Pools.{with_token};

use crate::entry::PoolEntry;
use bytes::Bytes;
use wc_base::Token;

/// A reference to a media resource (W3C WebCodecs, 'media resource reference'), with the resource's
/// bytes. It cannot be copied, and is given back by the `end` of the pool that it is of: one that is
/// dropped stays live in the pool's history.
#[derive(Drop)]
pub struct MediaRef {
    pub(crate) resource: u64,
    pub(crate) number: u64,
    // Where the pool looks for the resource first.
    pub(crate) key: usize,
    pub(crate) bytes: Bytes,
    // Of a pool behind a lock, the claim that it is live, which has its number.
    pub(crate) token: Option<Token<PoolEntry>>,
}

impl MediaRef {
    /// The number of its resource, from 0 in the order in which the pool made them.
    pub fn resource(&self) -> u64
        ensures { result ≡ self.now.resource }
    {
        self.resource
    }

    /// Its own number among all references that its pool made, from 0.
    pub fn number(&self) -> u64
        ensures { result ≡ self.now.number }
    {
        self.number
    }

    /// The bytes with which its resource was made.
    pub fn bytes(&self) -> &Bytes
        ensures { result.now ≡ self.now.bytes }
    {
        &self.bytes
    }

    /// Gives it its token.
    pub fn put_token(&mut self, token: Token<PoolEntry>)
        ensures { self.new ≡ with_token (Some token) self.old }
    {
        self.token = Some(token);
    }

    /// Its token, which it has no more.
    pub fn take_token(&mut self) -> Option<Token<PoolEntry>>
        ensures token { result ≡ self.old.token }
        ensures rest { self.new ≡ with_token None self.old }
    {
        self.token.take()
    }
}
