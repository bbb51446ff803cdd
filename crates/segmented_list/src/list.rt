// Lists in segments that a contract sees as their items alone.
ghost use Rattle.std.specs.Prelude.{◌≡◌, ◌==◌, [], length, slice_get, option_map};
ghost use Rattle.segmented_list.specs.Segments.{AreCut, joined};

use crate::segment::Segment;
use crate::vector::SegmentedVec;
use std::alloc::Global;
use std::fmt;
use std::marker::Model;

/// A list in segments: each but the last holds 1,024 items, the last 1 to 1,024, and a list without items has none. A
/// contract sees its items alone.
#[derive(Drop)]
pub struct SegmentedList<T> {
    inner: SegmentedVec<T>,
}

impl<T> Model for SegmentedList<T> {
    ghost use Rattle.std.specs.Prelude.{List as Items};

    ghost Value = { Items T };

    ghost view = { λ l. l.inner.items };
}

impl<T> SegmentedList<T> {
    /// The list that has grown so, with no memory.
    pub fn of(grown: SegmentedVec<T>) -> SegmentedList<T>
        ensures { result ≡ grown.items }
    {
        SegmentedList { inner: grown }
    }

    /// A list with no items, with no memory.
    pub fn empty(alloc: Global) -> SegmentedList<T>
        ensures { result ≡ [] }
    {
        SegmentedList::of(SegmentedVec::new(alloc))
    }

    /// The segments.
    pub fn segments(&self) -> &[Segment<T>]
        ensures joined { joined result.now ≡ self.now }
        ensures cut { AreCut 0 result.now }
    {
        self.inner.segments()
    }

    /// How many items there are.
    pub fn len(&self) -> usize
        ensures { result ≡ length self.now }
    {
        self.inner.len()
    }

    /// Whether there are no items.
    pub fn is_empty(&self) -> bool
        ensures { result ≡ (length self.now == 0) }
    {
        self.inner.len() == 0
    }

    /// The item at a place; none from the end on.
    pub fn get(&self, place: usize) -> Option<&T>
        ensures { option_map (λ x. x.now) result ≡ slice_get self.now place }
    {
        self.inner.get(place)
    }
}

impl<T: Drop> SegmentedList<T> {
    /// The segments, with no memory.
    pub fn into_segments(self) -> Vec<Segment<T>>
        ensures joined { joined result.items ≡ self }
        ensures cut { AreCut 0 result.items }
    {
        self.inner.into_segments()
    }
}

impl<T: fmt::Debug> fmt::Debug for SegmentedList<T> {
    fn fmt<W: fmt::Write>(&self, f: &mut fmt::Formatter<W>) -> fmt::Result {
        for segment in self.segments() {
            segment.items().fmt(f)?;
        }
        Ok(())
    }
}
