//! Operators of texts and lists. Positions in a text are counted in Unicode scalar values.

ghost use Rattle.std.specs.Prelude.{◌≡◌, ◌≤◌, ◌<◌, length, max, Ok, IfOk, IfSome, encode_utf8_all};
ghost use Rattle.std.specs.List.{slice_get};
ghost use Rattle.std.specs.Option.{option_map};
ghost use Rattle.std.specs.Str.{chars};
ghost use Rattle.prop_values.specs.Data.{list, items_of};
ghost use Rattle.prop_values.specs.Data.{text as text_data};
ghost use Rattle.prop_values.specs.View.{data_of};
ghost use Rattle.prop_values.specs.ViewParts.{values_view, evaluated_of};
ghost use Rattle.operator_values.specs.Evaluated.{GivesValue};
ghost use Rattle.operator_values.specs.Whole.{index_in};
ghost use Rattle.operator_values.specs.Sequences.{at_of, item_of, item_at, item_or_outside, in_of, index_of_of};
ghost use Rattle.operator_values.specs.Sequences.{found_from, part_from, equal_from, first_equal, place_value};
ghost use Rattle.operator_values.specs.Sequences.{length_of, size_of, slice_of, stretch_of, stretch};

use crate::whole::{count, index_in, place_in, whole};
use decimal_json::Text;
use fixed_num::Fixed;
use halts::Halt;
use prop_values::{EvalFault, Value, Values, copy, equals};
use std::alloc::{AllocError, Global};

/// `at`, of an index and a list: the item. `IndexNotWhole` where the index has a fraction, else
/// `IndexOutside` where no item has it.
pub fn item(values: &[Value]) -> Result<Value, Halt<EvalFault>>
    ensures { GivesValue result (at_of (values_view values.now)) }
{
    match values {
        [Value::Num(index), sequence] => item_of(*index, sequence),
        _ => Err(Halt::Fault(EvalFault::WrongType)),
    }
}

#[tactic(auto, using(crate::proofs::Lists::list_again))]
fn item_of(index: Fixed, sequence: &Value) -> Result<Value, Halt<EvalFault>>
    ensures { GivesValue result (item_of index (data_of sequence.now)) }
{
    match sequence {
        Value::List(items) => item_in(items, index),
        _ => Err(Halt::Fault(EvalFault::WrongType)),
    }
}

fn item_in(items: &Values, index: Fixed) -> Result<Value, Halt<EvalFault>>
    ensures { GivesValue result (item_at (index_in index) items.now) }
{
    let place = index_in(index)?;
    copy_at(items.as_slice(), place)
}

fn copy_at(items: &[Value], place: u128) -> Result<Value, Halt<EvalFault>>
    ensures { GivesValue result (item_or_outside (slice_get (values_view items.now) place)) }
{
    match item_at(items, place) {
        Some(item) => Ok(copy(item)?),
        None => Err(Halt::Fault(EvalFault::IndexOutside)),
    }
}

fn item_at(items: &[Value], place: u128) -> Option<&Value>
    ensures { option_map (λ v. data_of v.now) result ≡ slice_get (values_view items.now) place }
{
    match usize::try_from(place) {
        Ok(place) => items.get(place),
        Err(_) => None,
    }
}

/// `in`, of a value and a text or list: whether it is a part of the text, or equal to an item of the list.
pub fn contains(values: &[Value]) -> Result<Value, EvalFault>
    ensures { evaluated_of result ≡ in_of (values_view values.now) }
{
    let [needle, sequence] = values else {
        return Err(EvalFault::WrongType);
    };
    let place = place_from(needle, sequence, 0)?;
    Ok(Value::Bool(place.is_some()))
}

/// `index-of`, of a value, a text or list, and an index to begin at or none: the first place, or -1 where
/// there is none. An index with a fraction is `IndexNotWhole`, and one below 0 `IndexOutside`.
pub fn index_of(values: &[Value]) -> Result<Value, EvalFault>
    ensures { evaluated_of result ≡ index_of_of (values_view values.now) }
{
    match values {
        [needle, sequence] => Ok(place_value(place_from(needle, sequence, 0)?)),
        [needle, sequence, Value::Num(from)] => {
            let from = index_in(*from)?;
            Ok(place_value(place_from(needle, sequence, from)?))
        }
        _ => Err(EvalFault::WrongType),
    }
}

fn place_value(place: Option<usize>) -> Value
    ensures { data_of result ≡ place_value place }
{
    match place {
        Some(place) => count(place),
        None => Value::Num(whole(1).neg()),
    }
}

// The place of a value in a text or list at or after a place.
#[tactic(auto, using(crate::proofs::Lists::list_again))]
fn place_from(needle: &Value, sequence: &Value, from: u128) -> Result<Option<usize>, EvalFault>
    ensures { result ≡ found_from (data_of needle.now) (data_of sequence.now) from }
{
    match sequence {
        Value::Text(text) => Ok(part_from(needle, text.as_str(), from)),
        Value::List(items) => Ok(equal_from(needle, items.as_slice(), from)),
        _ => Err(EvalFault::WrongType),
    }
}

fn part_from(needle: &Value, text: &str, from: u128) -> Option<usize>
    ensures { result ≡ part_from (data_of needle.now) text.now from }
{
    match needle {
        Value::Text(part) => {
            if from > text_units::length(text) as u128 {
                return None;
            }
            text_units::index_of(text, part.as_str(), from as usize)
        }
        _ => None,
    }
}

#[tactic(auto, using(crate::proofs::Lists::equal_after, crate::proofs::Lists::none_after))]
fn equal_from(needle: &Value, items: &[Value], from: u128) -> Option<usize>
    ensures { result ≡ equal_from (data_of needle.now) (values_view items.now) from }
{
    if from > items.len() as u128 {
        return None;
    }
    let from = from as usize;
    match first_equal(needle, items.split_at(from).1) {
        Some(place) => Some(from + place),
        None => None,
    }
}

fn first_equal(needle: &Value, items: &[Value]) -> Option<usize>
    ensures place { result ≡ first_equal (data_of needle.now) (values_view items.now) }
    ensures within { IfSome result (λ place. place < length items.now) }
{
    for (place, item) in items.iter().enumerate() {
        if equals(needle, item) {
            return Some(place);
        }
    }
    None
}

/// `length`, of a text or list: how many scalar values or items it has.
pub fn length(values: &[Value]) -> Result<Value, EvalFault>
    ensures { evaluated_of result ≡ length_of (values_view values.now) }
{
    let [sequence] = values else {
        return Err(EvalFault::WrongType);
    };
    Ok(count(size_of(sequence)?))
}

#[tactic(auto, using(crate::proofs::Lists::items_length))]
fn size_of(sequence: &Value) -> Result<usize, EvalFault>
    ensures { result ≡ size_of (data_of sequence.now) }
{
    match sequence {
        Value::Text(text) => Ok(text_units::length(text.as_str())),
        Value::List(items) => Ok(items.as_slice().len()),
        _ => Err(EvalFault::WrongType),
    }
}

/// `slice`, of a text or list, an index to begin at, and one to end before or none. A negative index counts
/// from the end, and each is clamped to the text or list. An index with a fraction is `IndexNotWhole`.
pub fn slice(alloc: Global, values: &[Value]) -> Result<Value, Halt<EvalFault>>
    ensures { GivesValue result (slice_of (values_view values.now)) }
{
    match values {
        [sequence, Value::Num(from)] => {
            let size = size_of(sequence)?;
            let from = place_in(size, *from)?;
            stretch_of(alloc, sequence, from, size)
        }
        [sequence, Value::Num(from), Value::Num(to)] => {
            let size = size_of(sequence)?;
            let from = place_in(size, *from)?;
            let to = place_in(size, *to)?;
            stretch_of(alloc, sequence, from, to)
        }
        _ => Err(Halt::Fault(EvalFault::WrongType)),
    }
}

// From one place up to another, which is not among it.
#[tactic(auto, using(crate::proofs::Lists::list_again, crate::proofs::Lists::items_length))]
fn stretch_of(
    alloc: Global,
    sequence: &Value,
    from: usize,
    to: usize,
) -> Result<Value, Halt<EvalFault>>
    requires { IfOk (size_of (data_of sequence.now)) (λ size. (from ≤ size) × (to ≤ size)) }
    ensures { GivesValue result (stretch_of (data_of sequence.now) from to) }
{
    match sequence {
        Value::Text(text) => text_stretch(alloc, text.as_str(), from, to),
        Value::List(items) => list_stretch(alloc, items.as_slice(), from, to),
        _ => Err(Halt::Fault(EvalFault::WrongType)),
    }
}

#[tactic(auto, using(crate::proofs::Lists::text_again))]
fn text_stretch(alloc: Global, text: &str, from: usize, to: usize) -> Result<Value, Halt<EvalFault>>
    requires from { from ≤ length (chars text.now) }
    requires to { to ≤ length (chars text.now) }
    ensures { GivesValue result (Ok (text_data (encode_utf8_all (stretch from to (chars text.now))))) }
{
    let part = text_units::slice(text, from, not_before(from, to));
    Ok(Value::Text(Text::copy_of(alloc, part)?))
}

#[tactic(auto, using(crate::proofs::Lists::stretch_viewed))]
fn list_stretch(
    alloc: Global,
    items: &[Value],
    from: usize,
    to: usize,
) -> Result<Value, Halt<EvalFault>>
    requires from { from ≤ length items.now }
    requires to { to ≤ length items.now }
    ensures { GivesValue result (Ok (list (items_of (stretch from to (values_view items.now))))) }
{
    let part = &items[from..not_before(from, to)];
    Ok(Value::List(copies(alloc, part)?))
}

// The greater of two places.
fn not_before(from: usize, to: usize) -> usize
    ensures { result ≡ max from to }
{
    if to < from { from } else { to }
}

fn copies(alloc: Global, items: &[Value]) -> Result<Values, AllocError>
    ensures { IfOk result (λ copies. copies ≡ values_view items.now) }
{
    let mut copies = Values::with_capacity(alloc, items.len())?;
    for item in items {
        copies.push(copy(item)?)?;
    }
    Ok(copies)
}
