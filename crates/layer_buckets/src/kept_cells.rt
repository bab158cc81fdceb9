//! Kept cells by their places, each in a list of each cause for which it may be dropped.

ghost use Rattle.std.specs.Prelude.{◌≡◌, ◌≢◌, ℕ, ◌+◌, ◌<◌, ◌≤◌, ◌&&◌, ◌++◌, ◌∷◌, [], length, vec_capacity, slice_set};
ghost use Rattle.std.specs.Prelude.{if◌then◌else◌, Option, Some, None, is_some, true, IfOk, IfSome, IfNone, OnErr};
ghost use Rattle.std.specs.Prelude.{OnOk, nat_eq};
ghost use Rattle.layer_buckets.specs.Growing.{HasRoom, HasRows, StaySeen};
ghost use Rattle.layer_buckets.specs.LaidOut.{source_seen};
ghost use Rattle.layer_buckets.specs.KeptSlots.{SeenColumn, column_at, full_count, is_place, kept_of, place_in};
ghost use Rattle.layer_buckets.specs.KeptSlots.{same_place};
ghost use Rattle.layer_buckets.specs.Keeping.{IsKeeping, kept_outcome, lists_at, lists_of, slot_named};
ghost use Rattle.layer_buckets.specs.Listing.{AreAlike, AreThere, IsThere, is_in};
ghost use Rattle.layer_buckets.specs.Outcomes.{outcome_owned, seen_outcome};
ghost use Rattle.layer_buckets.specs.Slotted.{column_slotted};
ghost use Rattle.layer_buckets.specs.declared.slots.CellPlace.{CellPlace};

use crate::cell::Source;
use crate::columns::{Column, grow_rows, name_slot, push_column, set_number, set_source, slot_at};
use crate::lists::{CauseLists, ListName, ListNumbers};
use crate::slots::{
    CellPlace, SlotMark, ValueSlot, empty, empty_slot, fill, full_slot, keeps, outcome_in,
};
use prop_values::{EvalFault, Value};
use std::alloc::{AllocError, Global};

/// Kept cells by their places.
///
/// A place is kept where it names a slot that keeps this place. So where one is dropped, only its slot changes.
#[derive(Drop)]
pub struct KeptCells {
    pub columns: Vec<Column>,
    pub slots: Vec<ValueSlot>,
    /// The slots that keep nothing. It has room for all.
    pub free: Vec<u32>,
    pub lists: CauseLists,
}

impl KeptCells {
    /// No columns and no slots.
    pub fn new(alloc: Global) -> Result<KeptCells, AllocError>
        ensures keeping { IfOk result IsKeeping }
        ensures columns { IfOk result (λ cells. cells.columns.items ≡ []) }
        ensures items { IfOk result (λ cells. cells.lists.item_lists ≡ 0) }
        ensures states { IfOk result (λ cells. cells.lists.state_lists ≡ 0) }
    {
        Ok(KeptCells {
            columns: Vec::new(alloc),
            slots: Vec::new(alloc),
            free: Vec::new(alloc),
            lists: CauseLists::new(alloc)?,
        })
    }

    /// Whether there is no slot, so that no place is kept.
    pub fn is_bare(&self) -> bool
        ensures { result ≡ true → (p : CellPlace) → kept_outcome self.now p ≡ None }
    {
        self.slots.is_empty()
    }

    /// The outcome of a kept place.
    pub fn outcome(&self, place: CellPlace) -> Option<Result<&Value, EvalFault>>
        ensures { seen_outcome result ≡ kept_outcome self.now place }
    {
        match slot_at(&self.columns, place) {
            Some(slot) => match self.slots.get(slot as usize) {
                Some(slot) => outcome_in(slot, place),
                None => None,
            },
            None => None,
        }
    }

    /// Whether a place is kept.
    pub fn is_kept(&self, place: CellPlace) -> bool
        ensures { result ≡ is_some (kept_outcome self.now place) }
    {
        match slot_at(&self.columns, place) {
            Some(slot) => match self.slots.get(slot as usize) {
                Some(slot) => keeps(slot, place),
                None => false,
            },
            None => false,
        }
    }

    /// Keeps an outcome, where there is a free slot and the place names some slot.
    pub fn keep(&mut self, place: CellPlace, outcome: Result<Value, EvalFault>)
        requires sound { IsKeeping self.old }
        requires free { 0 < length self.old.free.items }
        requires slot_named { is_some (slot_named self.old place) ≡ true }
        requires new { kept_outcome self.old place ≡ None }
        ensures sound { IsKeeping self.new }
        ensures columns { (n : ℕ) → column_at self.new.columns.items n ≡ column_at self.old.columns.items n }
        ensures count { length self.new.columns.items ≡ length self.old.columns.items }
        ensures alike { AreAlike self.old.lists self.new.lists }
        ensures kept_outcome { (p : CellPlace) → kept_outcome self.new p
            ≡ (if same_place place p then Some (outcome_owned outcome) else kept_outcome self.old p) }
    {
        let slot = take_free(&mut self.free);
        let numbers = self.numbers_at(place);
        let kept = full_slot(place, outcome);
        self.lists.put(numbers, slot);
        fill(&mut self.slots, slot, kept);
        name_slot(&mut self.columns, place, slot);
    }

    /// Drops the cells of a list.
    pub fn drop_list(&mut self, name: ListName)
        requires sound { IsKeeping self.old }
        requires there { IsThere self.old.lists name }
        ensures sound { IsKeeping self.new }
        ensures columns { self.new.columns.items ≡ self.old.columns.items }
        ensures alike { AreAlike self.old.lists self.new.lists }
        ensures kept_outcome { (p : CellPlace) → kept_outcome self.new p
            ≡ (if is_in name (lists_at self.old.columns.items p) then None else kept_outcome self.old p) }
    {
        while let Some(slot) = self.first(name) {
            self.drop_slot(slot);
        }
    }

    /// The source of a column.
    pub fn source(&self, column: u32) -> Option<Source>
        ensures { result ≡ source_seen (column_at self.now.columns.items column) }
    {
        match self.columns.get(column as usize) {
            Some(column) => column.source,
            None => None,
        }
    }

    /// Adds a column without a source.
    pub fn add_column(&mut self, alloc: Global) -> Result<(), AllocError>
        requires keeping { IsKeeping self.old }
        requires listed { length self.old.columns.items ≡ self.old.lists.item_lists }
        ensures keeping { IsKeeping self.new }
        ensures kept_outcome { (p : CellPlace) → kept_outcome self.new p ≡ kept_outcome self.old p }
        ensures listed { length self.new.columns.items ≡ self.new.lists.item_lists }
        ensures states { self.new.lists.state_lists ≡ self.old.lists.state_lists }
        ensures ok { OnOk result ((n : ℕ) → column_at self.new.columns.items n
            ≡ (if nat_eq n (length self.old.columns.items)
            then Some (record { source = None; first_state = 0; rows = 0 })
            else column_at self.old.columns.items n)) }
        ensures more { OnOk result (self.new.lists.item_lists ≡ self.old.lists.item_lists + 1) }
        ensures err { OnErr result (self.new.columns.items ≡ self.old.columns.items) }
    {
        self.columns.reserve(1)?;
        self.lists.add_item()?;
        push_column(alloc, &mut self.columns);
        Ok(())
    }

    /// Adds so many lists of states.
    pub fn add_states(&mut self, count: u32) -> Result<(), AllocError>
        requires { IsKeeping self.old }
        ensures keeping { IsKeeping self.new }
        ensures kept_outcome { (p : CellPlace) → kept_outcome self.new p ≡ kept_outcome self.old p }
        ensures columns { self.new.columns ≡ self.old.columns }
        ensures items { self.new.lists.item_lists ≡ self.old.lists.item_lists }
        ensures ok { OnOk result (self.new.lists.state_lists ≡ self.old.lists.state_lists + count) }
        ensures small { OnOk result (self.new.lists.state_lists < 4294967296) }
        ensures err { OnErr result (self.new.lists.state_lists ≡ self.old.lists.state_lists) }
    {
        self.lists.add_states(count)
    }

    /// Gives a column without kept cells a source, or none.
    pub fn set_source(&mut self, column: u32, source: Option<Source>, first_state: u32)
        requires keeping { IsKeeping self.old }
        requires column { column < length self.old.columns.items }
        requires unkept { (row : ℕ) → kept_outcome self.old (record { column = column; row = row }) ≡ None }
        ensures keeping { IsKeeping self.new }
        ensures kept_outcome { (p : CellPlace) → kept_outcome self.new p ≡ kept_outcome self.old p }
        ensures columns { (n : ℕ) → column_at self.new.columns.items n ≡ (if nat_eq n column
            then Some (record { source = source; first_state = first_state; rows = 0 })
            else column_at self.old.columns.items n) }
        ensures count { length self.new.columns.items ≡ length self.old.columns.items }
        ensures lists { self.new.lists ≡ self.old.lists }
    {
        set_source(&mut self.columns, column, source, first_state);
    }

    /// Gives the source of a column, if it has one, another number in the evaluator. What is kept stays.
    pub fn set_number(&mut self, column: u32, number: u32)
        requires keeping { IsKeeping self.old }
        requires column { column < length self.old.columns.items }
        ensures keeping { IsKeeping self.new }
        ensures kept_outcome { (p : CellPlace) → kept_outcome self.new p ≡ kept_outcome self.old p }
        ensures columns { (n : ℕ) → column_at self.new.columns.items n
            ≡ (if nat_eq n column then column_slotted number (column_at self.old.columns.items n)
            else column_at self.old.columns.items n) }
        ensures count { length self.new.columns.items ≡ length self.old.columns.items }
        ensures lists { self.new.lists ≡ self.old.lists }
    {
        set_number(&mut self.columns, column, number);
    }

    /// Makes rows of a column until there are so many.
    pub fn make_rows(&mut self, column: u32, rows: u32) -> Result<(), AllocError>
        requires keeping { IsKeeping self.old }
        requires column { column < length self.old.columns.items }
        requires there { (row : ℕ) → row < rows →
            AreThere self.old.lists (lists_at self.old.columns.items (record { column = column; row = row })) }
        ensures keeping { IsKeeping self.new }
        ensures kept_outcome { (p : CellPlace) → kept_outcome self.new p ≡ kept_outcome self.old p }
        ensures others { (n : ℕ) → n ≢ column →
            column_at self.new.columns.items n ≡ column_at self.old.columns.items n }
        ensures rows { (old new : SeenColumn) → column_at self.old.columns.items column ≡ Some old →
            column_at self.new.columns.items column ≡ Some new → HasRows old new rows }
        ensures count { length self.new.columns.items ≡ length self.old.columns.items }
        ensures lists { self.new.lists ≡ self.old.lists }
        ensures ok { OnOk result ((row : ℕ) → row < rows →
            is_some (slot_named self.new (record { column = column; row = row })) ≡ true) }
    {
        grow_rows(&mut self.columns, column, rows)
    }

    /// Makes slots until so many are free.
    pub fn reserve(&mut self, cells: u32) -> Result<(), AllocError>
        requires { IsKeeping self.old }
        ensures keeping { IsKeeping self.new }
        ensures same { StaySeen self.old self.new }
        ensures ok { OnOk result (cells ≤ length self.new.free.items) }
    {
        let free = self.free.len();
        if cells as usize <= free {
            return Ok(());
        }
        let Ok(slots) = u32::try_from(self.slots.len() + (cells as usize - free)) else {
            return Err(AllocError);
        };
        if !self.make_room(slots) {
            return Err(AllocError);
        }
        for _slot in self.slots.len()..slots as usize {
            self.add_slot();
        }
        Ok(())
    }

    /// Makes a slot free where none is: a sixteenth of those that there are, so that a cell costs the same however many
    /// are kept, and few slots are made in vain.
    pub fn reserve_more(&mut self) -> Result<(), AllocError>
        requires { IsKeeping self.old }
        ensures keeping { IsKeeping self.new }
        ensures same { StaySeen self.old self.new }
        ensures ok { OnOk result (0 < length self.new.free.items) }
    {
        if !self.free.is_empty() {
            return Ok(());
        }
        match u32::try_from(self.slots.len() / 16 + 64) {
            Ok(more) => self.reserve(more),
            Err(_) => Err(AllocError),
        }
    }

    // Makes room for so many slots. Whether it could.
    fn make_room(&mut self, slots: u32) -> bool
        requires { IsKeeping self.old }
        ensures keeping { IsKeeping self.new }
        ensures same { StaySeen self.old self.new }
        ensures slots { self.new.slots.items ≡ self.old.slots.items }
        ensures free { self.new.free.items ≡ self.old.free.items }
        ensures done { result ≡ true → HasRoom self.new slots }
    {
        let more = (slots as usize).saturating_sub(self.slots.len());
        let room = self.slots.reserve(more).is_ok();
        let more = (slots as usize).saturating_sub(self.free.len());
        let free_room = self.free.reserve(more).is_ok();
        let listed = self.lists.reserve(slots);
        all(room, free_room, listed)
    }

    // Adds a free slot.
    fn add_slot(&mut self)
        requires keeping { IsKeeping self.old }
        requires room { HasRoom self.old (length self.old.slots.items + 1) }
        requires small { length self.old.slots.items < 4294967295 }
        ensures keeping { IsKeeping self.new }
        ensures same { StaySeen self.old self.new }
        ensures slots { length self.new.slots.items ≡ length self.old.slots.items + 1 }
        ensures free { length self.new.free.items ≡ length self.old.free.items + 1 }
        ensures room { (n : ℕ) → HasRoom self.old n → HasRoom self.new n }
    {
        let slot = self.slots.len() as u32;
        self.slots.push_reserved(empty_slot());
        self.free.push_reserved(slot);
    }

    // The first slot of a list.
    fn first(&self, name: ListName) -> Option<u32>
        requires sound { IsKeeping self.now }
        requires there { IsThere self.now.lists name }
        ensures some { IfSome result (λ slot.
            is_in name (lists_of (lists_at self.now.columns.items) (kept_of self.now.slots.items slot)) ≡ true) }
        ensures none { IfNone result ((p : CellPlace) →
            is_in name (lists_at self.now.columns.items p) ≡ true → kept_outcome self.now p ≡ None) }
    {
        self.lists.first(name)
    }

    fn drop_slot(&mut self, slot: u32)
        requires sound { IsKeeping self.old }
        requires kept { is_some (kept_of self.old.slots.items slot) ≡ true }
        ensures sound { IsKeeping self.new }
        ensures columns { self.new.columns.items ≡ self.old.columns.items }
        ensures alike { AreAlike self.old.lists self.new.lists }
        ensures fewer { full_count self.new.slots.items + 1 ≡ full_count self.old.slots.items }
        ensures kept_outcome { (p : CellPlace) → kept_outcome self.new p
            ≡ (if is_place p (place_in (kept_of self.old.slots.items slot)) then None else kept_outcome self.old p) }
    {
        let numbers = self.numbers_in(slot);
        self.lists.take(numbers, slot);
        empty(&mut self.slots, slot);
        give_back(&mut self.free, slot);
    }

    // The lists of what a slot keeps.
    fn numbers_in(&self, slot: u32) -> ListNumbers
        requires { slot < length self.now.slots.items }
        ensures { result ≡ lists_of (lists_at self.now.columns.items) (kept_of self.now.slots.items slot) }
    {
        let kept = &self.slots[slot as usize];
        match kept.mark {
            SlotMark::Empty => NO_LISTS,
            SlotMark::Given => self.numbers_at(kept.place),
            SlotMark::Failed(_) => self.numbers_at(kept.place),
        }
    }

    // The lists of a place.
    fn numbers_at(&self, place: CellPlace) -> ListNumbers
        ensures { result ≡ lists_at self.now.columns.items place }
    {
        match self.columns.get(place.column as usize) {
            Some(column) => column.numbers(place),
            None => NO_LISTS,
        }
    }
}

const NO_LISTS: ListNumbers = ListNumbers {
    item: None,
    zoom: None,
    image: None,
    state: None,
};

fn all(a: bool, b: bool, c: bool) -> bool
    ensures { result ≡ (a && (b && c)) }
{
    a && (b && c)
}

fn take_free(free: &mut Vec<u32>) -> u32
    requires { 0 < length free.old.items }
    ensures items { free.old.items ≡ free.new.items ++ result ∷ [] }
    ensures room { vec_capacity free.new ≡ vec_capacity free.old }
{
    match free.pop() {
        Some(slot) => slot,
        None => unreachable!(),
    }
}

// There is room for each slot.
fn give_back(free: &mut Vec<u32>, slot: u32)
    requires { length free.old.items < vec_capacity free.old }
    ensures items { free.new.items ≡ free.old.items ++ slot ∷ [] }
    ensures room { vec_capacity free.new ≡ vec_capacity free.old }
{
    free.push_reserved(slot);
}
