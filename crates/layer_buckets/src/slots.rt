//! The slots of kept values.

ghost use Rattle.std.specs.Prelude.{◌≡◌, ◌<◌, Some, is_some, length, slice_set};
ghost use Rattle.layer_buckets.specs.KeptSlots.{kept_in, no_slot, outcome_for, same_place};
ghost use Rattle.layer_buckets.specs.Outcomes.{outcome_owned, seen_outcome};

use prop_values::{EvalFault, Value};

/// The place of a cell: the column of its item, and row 0, or the number of its feature and 1.
#[derive(Clone, Copy, Debug, PartialEq, Eq)]
pub struct CellPlace {
    pub column: u32,
    pub row: u32,
}

/// What is kept in a slot.
#[derive(Clone, Copy, Debug, PartialEq, Eq)]
pub enum SlotMark {
    Empty,
    Given,
    Failed(EvalFault),
}

/// A slot. Its value is null where none is kept. An option of a result and a place would take 80 bytes.
#[derive(Drop)]
pub struct ValueSlot {
    pub value: Value,
    pub place: CellPlace,
    pub mark: SlotMark,
}

/// A slot that keeps nothing.
pub fn empty_slot() -> ValueSlot
    ensures { result ≡ no_slot }
{
    ValueSlot {
        value: Value::Null,
        place: CellPlace { column: 0, row: 0 },
        mark: SlotMark::Empty,
    }
}

/// A slot that keeps an outcome.
pub fn full_slot(place: CellPlace, outcome: Result<Value, EvalFault>) -> ValueSlot
    ensures { kept_in (Some result) ≡ Some (record { place = place; outcome = outcome_owned outcome }) }
{
    match outcome {
        Ok(value) => ValueSlot {
            value,
            place,
            mark: SlotMark::Given,
        },
        Err(fault) => ValueSlot {
            value: Value::Null,
            place,
            mark: SlotMark::Failed(fault),
        },
    }
}

/// What a slot keeps for a place.
pub fn outcome_in(slot: &ValueSlot, place: CellPlace) -> Option<Result<&Value, EvalFault>>
    ensures { seen_outcome result ≡ outcome_for place (kept_in (Some slot.now)) }
{
    let same = same_place(slot.place, place);
    match slot.mark {
        SlotMark::Empty => None,
        SlotMark::Given if same => Some(Ok(&slot.value)),
        SlotMark::Given => None,
        SlotMark::Failed(fault) if same => Some(Err(fault)),
        SlotMark::Failed(_) => None,
    }
}

/// Whether a slot keeps a place.
pub fn keeps(slot: &ValueSlot, place: CellPlace) -> bool
    ensures { result ≡ is_some (outcome_for place (kept_in (Some slot.now))) }
{
    let same = same_place(slot.place, place);
    match slot.mark {
        SlotMark::Empty => false,
        SlotMark::Given => same,
        SlotMark::Failed(_) => same,
    }
}

fn same_place(a: CellPlace, b: CellPlace) -> bool
    ensures { result ≡ same_place a b }
{
    a.column == b.column && a.row == b.row
}

/// Empties a slot.
pub fn empty(slots: &mut Vec<ValueSlot>, slot: u32)
    requires { slot < length slots.old.items }
    ensures { slots.new.items ≡ slice_set slots.old.items slot no_slot }
{
    slots[slot as usize] = empty_slot();
}

/// Puts a slot in the place of another.
pub fn fill(slots: &mut Vec<ValueSlot>, slot: u32, kept: ValueSlot)
    requires { slot < length slots.old.items }
    ensures { slots.new.items ≡ slice_set slots.old.items slot kept }
{
    slots[slot as usize] = kept;
}
