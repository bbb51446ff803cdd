// Lists in segments that grow.
ghost use Rattle.std.specs.Prelude.{◌≡◌, ◌<◌, ◌≤◌, ◌+◌, ◌%◌, ◌*◌, ◌/◌, ◌^◌, ◌++◌, ◌∷◌, [], length, slice_get, option_map, vec_len, vec_capacity, IfOk, OnOk, OnErr};
ghost use Rattle.std.specs.List.{AllByRecursion};
ghost use Rattle.segmented_list.specs.Segments.{AreCut, IsEmpty, item_in, joined};

use crate::segment::{SEGMENT_LENGTH, Segment};
use std::alloc::Global;
use std::marker::Model;
use wc_base::{NoMemory, try_push};

// More have no room in memory.
const MOST_ITEMS: usize = 0x4000_0000_0000_0000;

/// A list in segments, which grows with no copy of its items. A contract sees its items, and how many it has room for.
#[derive(Drop)]
pub struct SegmentedVec<T> {
    segments: Vec<Segment<T>>,
    // Empty, for the items to come.
    spare: Vec<Segment<T>>,
    len: usize,
    alloc: Global,
}

impl<T> Model for SegmentedVec<T> {
    ghost use Rattle.std.specs.Prelude.{◌+◌, ◌*◌, vec_len};
    ghost use Rattle.segmented_list.specs.Segments.{Roomy, joined};
    ghost use Rattle.segmented_list.specs.Vector.{IsSegmented};

    ghost Value = { Roomy T };

    ghost view = { λ v. record { items = joined v.segments.items; places = 1024 * (vec_len v.segments + vec_len v.spare) } };

    ghost invariant = { IsSegmented };
}

/// So many more empty segments.
fn add_empty<T: Drop>(
    alloc: Global,
    spare: &mut Vec<Segment<T>>,
    count: usize,
) -> Result<(), NoMemory>
    requires { AllByRecursion IsEmpty spare.old.items }
    ensures ok { OnOk result (vec_len spare.new ≡ vec_len spare.old + count) }
    ensures grows { vec_len spare.old ≤ vec_len spare.new }
    ensures most { vec_len spare.new ≤ vec_len spare.old + count }
    ensures empty { AllByRecursion IsEmpty spare.new.items }
{
    for _ in 0..count {
        let segment = Segment::open(alloc)?;
        try_push(spare, segment)?;
    }
    Ok(())
}

/// One more item behind those of the last segment.
fn push_last<T>(segments: &mut Vec<Segment<T>>, item: T)
    requires some { 1 ≤ vec_len segments.old }
    requires cut { AreCut 0 segments.old.items }
    requires room { 0 < length (joined segments.old.items) % 1024 }
    ensures joined { joined segments.new.items ≡ joined segments.old.items ++ item ∷ [] }
    ensures cut { AreCut 0 segments.new.items }
    ensures len { vec_len segments.new ≡ vec_len segments.old }
    ensures capacity { vec_capacity segments.new ≡ vec_capacity segments.old }
{
    let last = segments.len() - 1;
    segments[last].push(item);
}

/// One more segment with one item behind segments that are full.
fn push_first<T>(segments: &mut Vec<Segment<T>>, spare: Segment<T>, place: u64, item: T)
    requires room { vec_len segments.old < vec_capacity segments.old }
    requires cut { AreCut 0 segments.old.items }
    requires full { length (joined segments.old.items) % 1024 ≡ 0 }
    requires place { place ≡ length (joined segments.old.items) }
    requires spare { spare.items ≡ [] }
    ensures joined { joined segments.new.items ≡ joined segments.old.items ++ item ∷ [] }
    ensures cut { AreCut 0 segments.new.items }
    ensures len { vec_len segments.new ≡ vec_len segments.old + 1 }
    ensures capacity { vec_capacity segments.new ≡ vec_capacity segments.old }
{
    let mut segment = spare.at(place);
    segment.push(item);
    segments.push_reserved(segment);
}

/// Takes an empty segment out.
fn take_empty<T>(spare: &mut Vec<Segment<T>>) -> Segment<T>
    requires some { 1 ≤ vec_len spare.old }
    requires empty { AllByRecursion IsEmpty spare.old.items }
    ensures empty { result.items ≡ [] }
    ensures rest { AllByRecursion IsEmpty spare.new.items }
    ensures len { vec_len spare.new + 1 ≡ vec_len spare.old }
{
    spare.take_last()
}

/// The item at a place, found by its segment.
fn item_in<T>(segments: &[Segment<T>], place: usize) -> Option<&T>
    ensures { option_map (λ x. x.now) result
        ≡ item_in (slice_get segments.now (place / 1024)) (place % 1024) }
{
    match segments.get(place / SEGMENT_LENGTH) {
        Some(segment) => segment.items().get(place % SEGMENT_LENGTH),
        None => None,
    }
}

impl<T> SegmentedVec<T> {
    /// A list with no items and no room, with no memory.
    pub fn new(alloc: Global) -> SegmentedVec<T>
        ensures { result ≡ record { items = []; places = 0 } }
    {
        SegmentedVec {
            segments: Vec::new(alloc),
            spare: Vec::new(alloc),
            len: 0,
            alloc,
        }
    }

    /// How many items there are.
    pub fn len(&self) -> usize
        ensures { result ≡ length self.now.items }
    {
        self.len
    }

    /// The segments.
    pub fn segments(&self) -> &[Segment<T>]
        ensures joined { joined result.now ≡ self.now.items }
        ensures cut { AreCut 0 result.now }
    {
        self.segments.as_slice()
    }

    /// The item at a place; none from the end on.
    #[tactic(auto, using(crate::proofs::SegmentLaws::item_at))]
    pub fn get(&self, place: usize) -> Option<&T>
        ensures { option_map (λ x. x.now) result ≡ slice_get self.now.items place }
    {
        item_in(self.segments.as_slice(), place)
    }
}

impl<T: Drop> SegmentedVec<T> {
    /// The segments, with no memory.
    pub fn into_segments(self) -> Vec<Segment<T>>
        ensures joined { joined result.items ≡ self.items }
        ensures cut { AreCut 0 result.items }
    {
        self.segments
    }

    /// Makes room for at least so many more items. After want of memory the items stand as they did,
    /// and there is no less room.
    pub fn reserve(&mut self, more: usize) -> Result<(), NoMemory>
        ensures items { self.new.items ≡ self.old.items }
        ensures grows { self.old.places ≤ self.new.places }
        ensures fits { self.new.places < 2 ^ 63 }
        ensures ok { OnOk result (length self.new.items + more ≤ self.new.places) }
    {
        let total = self.len.checked_add(more).ok_or(NoMemory)?;
        if total > MOST_ITEMS {
            return Err(NoMemory);
        }
        let needed = total.div_ceil(SEGMENT_LENGTH);
        let have = self.segments.len() + self.spare.len();
        if needed <= have {
            return Ok(());
        }
        self.segments.reserve(needed - self.segments.len())?;
        add_empty(self.alloc, &mut self.spare, needed - have)
    }

    /// One more item, for which there is room.
    pub fn push(&mut self, item: T)
        requires { length self.old.items < self.old.places }
        ensures { self.new ≡ record self.old { items = self.old.items ++ item ∷ [] } }
    {
        if self.len % SEGMENT_LENGTH == 0 {
            let spare = take_empty(&mut self.spare);
            push_first(&mut self.segments, spare, self.len as u64, item);
        } else {
            push_last(&mut self.segments, item);
        }
        self.len += 1;
    }

    /// One more item. After want of memory nothing has changed but the room.
    pub fn try_push(&mut self, item: T) -> Result<(), NoMemory>
        ensures ok { OnOk result (self.new.items ≡ self.old.items ++ item ∷ []) }
        ensures err { OnErr result (self.new.items ≡ self.old.items) }
    {
        self.reserve(1)?;
        self.push(item);
        Ok(())
    }
}
