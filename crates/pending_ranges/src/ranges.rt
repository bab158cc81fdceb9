//! Slots of ranges, few of which are full.

ghost use Rattle.std.specs.Prelude.{◌≡◌, ◌<◌, ◌≤◌, length, insert, remove, replicate, slice_index_or, slice_set, Some};
ghost use Rattle.std.specs.Prelude.{None, IfOk, OnOk, OnErr};
ghost use Rattle.pending_ranges.specs.Pending.{AreBetween, AreZoomRanges, IsZoomRange};

use fixed_num::Fixed;
use moved_slices::move_element;
use std::alloc::{AllocError, Global};
use std::marker::Model;

/// The least and the greatest zoom at which a layer is shown, where they are given.
pub type ZoomRange = (Option<Fixed>, Option<Fixed>);

/// For each layer the range that is still to be set of it, if there is one; clauses see the list of these.
#[derive(Drop)]
pub struct PendingRanges {
    slots: Vec<Option<ZoomRange>>,
    /// Each range that is there is from this place on,
    start: usize,
    /// and before this one.
    end: usize,
}

impl Model for PendingRanges {
    ghost use Rattle.std.specs.Prelude.{◌≤◌, length};
    ghost use Rattle.pending_ranges.specs.Pending.{AreBetween, AreZoomRanges, Pending};

    ghost Value = { Pending };

    ghost view = { λ a. a.slots.items };

    ghost invariant = { λ a. AreBetween a.start a.end a.slots.items × (a.end ≤ length a.slots.items)
        × AreZoomRanges a.slots.items };
}

impl PendingRanges {
    /// So many slots, and no range.
    pub fn of(alloc: Global, count: usize) -> Result<PendingRanges, AllocError>
        ensures { IfOk result (λ made. made ≡ replicate count None) }
    {
        let mut slots = Vec::new(alloc);
        slots.resize(count, None)?;
        Ok(PendingRanges {
            slots,
            start: 0,
            end: 0,
        })
    }

    /// A layer came to a place: its slot is empty. Takes time linear in the slots.
    pub fn insert(&mut self, place: usize) -> Result<(), AllocError>
        requires { place ≤ length self.old }
        ensures ok { OnOk result (self.new ≡ insert self.old place None) }
        ensures err { OnErr result (self.new ≡ self.old) }
    {
        self.slots.insert(place, None)?;
        self.end += 1;
        Ok(())
    }

    /// The layer at a place went, and its range with it. Takes time linear in the slots.
    pub fn remove(&mut self, place: usize)
        requires { place < length self.old }
        ensures { self.new ≡ remove self.old place }
    {
        let _ = self.slots.remove(place);
        if place < self.start {
            self.start -= 1;
        }
        if place < self.end {
            self.end -= 1;
        }
    }

    /// The layer at a place moved to another, and its range with it. Takes time linear in how many layers are in
    /// between.
    pub fn move_slot(&mut self, from: usize, to: usize)
        requires from { from < length self.old }
        requires to { to < length self.old }
        ensures { self.new ≡ insert (remove self.old from) to (slice_index_or self.old from None) }
    {
        move_within(&mut self.slots, from, to);
        if self.start < self.end {
            self.start = self.start.min(from).min(to);
            self.end = self.end.max(from + 1).max(to + 1);
        }
    }

    /// A range is to be set of the layer at a place, in place of the one that was. Its zooms are from 0 to 24.
    #[tactic(auto, using(crate::proofs::SetLaws::zooms_set))]
    pub fn set(&mut self, place: usize, min: Option<Fixed>, max: Option<Fixed>)
        requires place { place < length self.old }
        requires zooms { IsZoomRange (Some (min, max)) }
        ensures { self.new ≡ slice_set self.old place (Some (min, max)) }
    {
        self.slots[place] = Some((min, max));
        if self.start < self.end {
            self.start = self.start.min(place);
            self.end = self.end.max(place + 1);
        } else {
            self.start = place;
            self.end = place + 1;
        }
    }

    /// The range that is to be set of the layer at a place, which is empty then.
    pub fn take(&mut self, place: usize) -> Option<ZoomRange>
        requires { place < length self.old }
        ensures range { result ≡ slice_index_or self.old place None }
        ensures taken { self.new ≡ slice_set self.old place None }
        ensures zooms { IsZoomRange result }
    {
        let range = self.slots[place].take();
        if place == self.start {
            self.start += 1;
        }
        range
    }

    /// Places from and before which all ranges are that are there. The second is at most the number of slots.
    pub fn bounds(&self) -> (usize, usize)
        ensures between { AreBetween result.0 result.1 self.now }
        ensures within { result.1 ≤ length self.now }
    {
        (self.start, self.end)
    }

    /// That the zooms of all ranges are from 0 to 24.
    pub fn have_zooms(&self)
        ensures { AreZoomRanges self.now }
    {
        let _slots = &self.slots;
    }
}

// One slot is taken out and put in at another place.
fn move_within(slots: &mut Vec<Option<ZoomRange>>, from: usize, to: usize)
    requires from { from < length slots.old.items }
    requires to { to < length slots.old.items }
    ensures moved { slots.new.items
        ≡ insert (remove slots.old.items from) to (slice_index_or slots.old.items from None) }
    ensures len { length slots.new.items ≡ length slots.old.items }
{
    move_element(slots.as_mut_slice(), from, to);
}
