//! Columns: the cells of one item.

ghost use Rattle.std.specs.Prelude.{◌≡◌, ◌≢◌, ℕ, ◌+◌, ◌-◌, ◌<◌, ◌++◌, [], Some, None, length, is_ok, is_some, max};
ghost use Rattle.std.specs.Prelude.{nat_eq, replicate, true, if◌then◌else◌, slice_set, vec_capacity, OnOk};
ghost use Rattle.std.specs.List.{slice_get};
ghost use Rattle.layer_buckets.specs.Growing.{HasRows};
ghost use Rattle.layer_buckets.specs.Keeping.{image_list, lists_in_column, state_list, zoom_list};
ghost use Rattle.layer_buckets.specs.KeptSlots.{SeenColumn, column_at, same_place, seen_column, slot_of};
ghost use Rattle.layer_buckets.specs.Slotted.{column_slotted, slotted};
ghost use Rattle.layer_buckets.specs.declared.slots.CellPlace.{CellPlace};

use crate::cell::Source;
use crate::lists::ListNumbers;
use crate::slots::CellPlace;
use std::alloc::{AllocError, Global};

/// The cells of an item of a layer.
#[derive(Drop)]
pub struct Column {
    /// None where the item has no source.
    pub source: Option<Source>,
    /// The number of the list of the layer's first feature among those of states.
    pub first_state: u32,
    /// For each row the slot that it was given last. Only the slot knows whether it still keeps that row.
    pub slots: Vec<u32>,
}

impl Column {
    /// The lists of a cell of this column.
    pub fn numbers(&self, place: CellPlace) -> ListNumbers
        ensures { result ≡ lists_in_column place (seen_column (Some self.now)) }
    {
        match self.source {
            Some(source) => ListNumbers {
                item: Some(place.column),
                zoom: zoom_list(source.mentions.zoom, source.paint),
                image: image_list(source.mentions.image, source.globals),
                state: if source.mentions.state {
                    state_list(self.first_state, place.row)
                } else {
                    None
                },
            },
            None => ListNumbers {
                item: Some(place.column),
                zoom: None,
                image: None,
                state: None,
            },
        }
    }

    /// The slot that a row names.
    fn slot(&self, row: u32) -> Option<u32>
        ensures { result ≡ slice_get self.now.slots.items row }
    {
        self.slots.get(row as usize).copied()
    }

    // Makes rows until there are so many.
    fn grow(&mut self, rows: u32) -> Result<(), AllocError>
        ensures slots { self.new.slots.items ≡ self.old.slots.items
            ++ replicate (length self.new.slots.items - length self.old.slots.items) 0 }
        ensures count { length self.new.slots.items ≡
            (if is_ok result then max (length self.old.slots.items) rows else length self.old.slots.items) }
        ensures source { self.new.source ≡ self.old.source }
        ensures first { self.new.first_state ≡ self.old.first_state }
    {
        let rows = (rows as usize).max(self.slots.len());
        self.slots.resize(rows, 0)
    }

    // Gives it a source, or none. No row names a slot then.
    fn set_source(&mut self, source: Option<Source>, first_state: u32)
        ensures source { self.new.source ≡ source }
        ensures first { self.new.first_state ≡ first_state }
        ensures slots { self.new.slots.items ≡ [] }
    {
        self.source = source;
        self.first_state = first_state;
        self.slots.clear();
    }

    // Gives its source, if it has one, another number in the evaluator.
    fn set_number(&mut self, number: u32)
        ensures source { self.new.source ≡ slotted number self.old.source }
        ensures first { self.new.first_state ≡ self.old.first_state }
        ensures slots { self.new.slots.items ≡ self.old.slots.items }
    {
        self.source = slotted(self.source, number);
    }

    // Lets a row name a slot.
    fn name(&mut self, row: u32, slot: u32)
        requires { row < length self.old.slots.items }
        ensures slots { self.new.slots.items ≡ slice_set self.old.slots.items row slot }
        ensures source { self.new.source ≡ self.old.source }
        ensures first { self.new.first_state ≡ self.old.first_state }
    {
        self.slots[row as usize] = slot;
    }
}

// A source, if it is one, with another number in the evaluator.
fn slotted(source: Option<Source>, number: u32) -> Option<Source>
    ensures { result ≡ slotted number source }
{
    match source {
        Some(source) => Some(Source {
            item: source.item,
            slot: number,
            mentions: source.mentions,
            paint: source.paint,
            globals: source.globals,
        }),
        None => None,
    }
}

fn zoom_list(mentioned: bool, paint: bool) -> Option<u32>
    ensures { result ≡ zoom_list mentioned paint }
{
    match (mentioned, paint) {
        (false, _) => None,
        (true, true) => Some(0),
        (true, false) => Some(1),
    }
}

fn image_list(images: bool, globals: bool) -> Option<u32>
    ensures { result ≡ image_list images globals }
{
    match (images, globals) {
        (true, false) => Some(0),
        (true, true) => Some(1),
        (false, true) => Some(2),
        (false, false) => None,
    }
}

fn state_list(first: u32, row: u32) -> Option<u32>
    ensures { result ≡ state_list first row }
{
    if row == 0 {
        return None;
    }
    let feature = row - 1;
    if feature <= u32::MAX - first {
        Some(first + feature)
    } else {
        None
    }
}

/// The slot that a place names.
pub fn slot_at(columns: &[Column], place: CellPlace) -> Option<u32>
    ensures { result ≡ slot_of columns.now place }
{
    match columns.get(place.column as usize) {
        Some(column) => column.slot(place.row),
        None => None,
    }
}

/// Adds a column without a source, where there is room for it.
pub fn push_column(alloc: Global, columns: &mut Vec<Column>)
    requires { length columns.old.items < vec_capacity columns.old }
    ensures seen { (n : ℕ) → column_at columns.new.items n ≡ (if nat_eq n (length columns.old.items)
        then Some (record { source = None; first_state = 0; rows = 0 })
        else column_at columns.old.items n) }
    ensures slot_named { (p : CellPlace) → slot_of columns.new.items p ≡ slot_of columns.old.items p }
    ensures count { length columns.new.items ≡ length columns.old.items + 1 }
{
    columns.push_reserved(Column {
        source: None,
        first_state: 0,
        slots: Vec::new(alloc),
    });
}

/// Makes rows of a column until there are so many.
pub fn grow_rows(columns: &mut Vec<Column>, column: u32, rows: u32) -> Result<(), AllocError>
    requires { column < length columns.old.items }
    ensures stay { (p : CellPlace) (slot : ℕ) → slot_of columns.old.items p ≡ Some slot →
        slot_of columns.new.items p ≡ Some slot }
    ensures fresh { (p : CellPlace) (slot : ℕ) → slot_of columns.old.items p ≡ None →
        slot_of columns.new.items p ≡ Some slot → (p.column ≡ column) × (p.row < rows) × (slot ≡ 0) }
    ensures others { (n : ℕ) → n ≢ column → column_at columns.new.items n ≡ column_at columns.old.items n }
    ensures rows { (old new : SeenColumn) → column_at columns.old.items column ≡ Some old →
        column_at columns.new.items column ≡ Some new → HasRows old new rows }
    ensures ok { OnOk result ((row : ℕ) → row < rows →
        is_some (slot_of columns.new.items (record { column = column; row = row })) ≡ true) }
    ensures count { length columns.new.items ≡ length columns.old.items }
{
    columns[column as usize].grow(rows)
}

/// Gives a column a source, or none. No row of it names a slot then.
pub fn set_source(columns: &mut Vec<Column>, column: u32, source: Option<Source>, first_state: u32)
    requires { column < length columns.old.items }
    ensures seen { (n : ℕ) → column_at columns.new.items n ≡ (if nat_eq n column
        then Some (record { source = source; first_state = first_state; rows = 0 })
        else column_at columns.old.items n) }
    ensures others { (p : CellPlace) → p.column ≢ column → slot_of columns.new.items p ≡ slot_of columns.old.items p }
    ensures none { (p : CellPlace) → p.column ≡ column → slot_of columns.new.items p ≡ None }
    ensures count { length columns.new.items ≡ length columns.old.items }
{
    columns[column as usize].set_source(source, first_state);
}

/// Gives the source of a column, if it has one, another number in the evaluator.
pub fn set_number(columns: &mut Vec<Column>, column: u32, number: u32)
    requires { column < length columns.old.items }
    ensures seen { (n : ℕ) → column_at columns.new.items n
        ≡ (if nat_eq n column then column_slotted number (column_at columns.old.items n)
        else column_at columns.old.items n) }
    ensures slot_named { (p : CellPlace) → slot_of columns.new.items p ≡ slot_of columns.old.items p }
    ensures count { length columns.new.items ≡ length columns.old.items }
{
    columns[column as usize].set_number(number);
}

/// Lets a place name a slot.
pub fn name_slot(columns: &mut Vec<Column>, place: CellPlace, slot: u32)
    requires { is_some (slot_of columns.old.items place) ≡ true }
    ensures slot_named { (p : CellPlace) → slot_of columns.new.items p
        ≡ (if same_place place p then Some slot else slot_of columns.old.items p) }
    ensures seen { (n : ℕ) → column_at columns.new.items n ≡ column_at columns.old.items n }
    ensures count { length columns.new.items ≡ length columns.old.items }
{
    columns[place.column as usize].name(place.row, slot);
}
