// Segments of lists.
ghost use Rattle.std.specs.Prelude.{◌≡◌, ◌<◌, ◌≤◌, ◌++◌, ◌∷◌, [], length, vec_len, vec_capacity, IfOk};

use std::alloc::Global;
use std::marker::Model;
use wc_base::NoMemory;

/// How many items a segment has room for (our choice).
pub const SEGMENT_LENGTH: usize = 1024;

/// Consecutive items of a list, at most 1,024.
#[derive(Drop)]
pub struct Segment<T> {
    first: u64,
    items: Vec<T>,
}

impl<T> Model for Segment<T> {
    ghost use Rattle.std.specs.Prelude.{◌≤◌, vec_len, vec_capacity};
    ghost use Rattle.segmented_list.specs.Segments.{Run};

    ghost Value = { Run T };

    ghost view = { λ s. record { first = s.first; items = s.items.items } };

    ghost invariant = { λ s. (vec_len s.items ≤ 1024) × (1024 ≤ vec_capacity s.items) };
}

impl<T> Segment<T> {
    /// A segment with no item, and room for 1,024.
    pub(crate) fn open(alloc: Global) -> Result<Segment<T>, NoMemory>
        ensures { IfOk result (λ s. s ≡ record { first = 0; items = [] }) }
    {
        Ok(Segment {
            first: 0,
            items: Vec::with_capacity(alloc, SEGMENT_LENGTH)?,
        })
    }

    /// The place of its first item in the list.
    pub fn first(&self) -> u64
        ensures { result ≡ self.now.first }
    {
        self.first
    }

    /// Its items.
    pub fn items(&self) -> &[T]
        ensures { result.now ≡ self.now.items }
    {
        self.items.as_slice()
    }

    /// Its items, with no memory.
    pub fn into_items(self) -> Vec<T>
        ensures { result.items ≡ self.items }
    {
        self.items
    }

    /// The segment with its first item at this place.
    pub(crate) fn at(self, first: u64) -> Segment<T>
        ensures { result ≡ record { first = first; items = self.items } }
    {
        Segment {
            first,
            items: self.items,
        }
    }

    /// One more item.
    pub(crate) fn push(&mut self, item: T)
        requires { length self.old.items < 1024 }
        ensures { self.new ≡ record self.old { items = self.old.items ++ item ∷ [] } }
    {
        self.items.push_reserved(item);
    }
}
