//! Which values are in a list.

ghost use Rattle.std.specs.Prelude.{◌≡◌, ◌||◌, ℕ, ℤ, List, IfOk, OnOk, is_some};
ghost use Rattle.std.specs.BTreeSet.{contains};
ghost use Rattle.std.specs.List.{list_any};
ghost use Rattle.std.specs.Ordering.{int_cmp, int_eq};
ghost use Rattle.prop_values.specs.Data.{Data, pairs_of};
ghost use Rattle.prop_values.specs.Equality.{at_key, equal, same_text};
ghost use Rattle.prop_values.specs.View.{data_of};
ghost use Rattle.prop_values.specs.ViewParts.{values_view};
ghost use Rattle.item_index.specs.Indexed.{flag_in, indexed};

use decimal_json::Text;
use fixed_num::Fixed;
use prop_values::{Entries, Value, copy, equals};
use std::alloc::{AllocError, Global};
use std::collections::BTreeSet;

/// The items of a list, by their forms. The texts are keys, whose values do not count; the numbers are in
/// millionths.
#[derive(Drop)]
pub(crate) struct ItemIndex {
    texts: Entries,
    numbers: BTreeSet<i128>,
    has_null: bool,
    has_true: bool,
    has_false: bool,
    /// The colors, lists and maps.
    others: Vec<Value>,
}

/// The index of some items.
pub(crate) fn index_of(alloc: Global, items: &[Value]) -> Result<ItemIndex, AllocError>
    ensures { IfOk result (λ index. (d : Data) → indexed index d ≡ list_any (equal d) (values_view items.now)) }
{
    let mut index = ItemIndex {
        texts: Entries::new(alloc),
        numbers: BTreeSet::new(alloc),
        has_null: false,
        has_true: false,
        has_false: false,
        others: Vec::new(alloc),
    };
    for item in items {
        note(&mut index, item)?;
    }
    Ok(index)
}

// Puts an item into the index.
fn note(index: &mut ItemIndex, item: &Value) -> Result<(), AllocError>
    ensures { OnOk result ((d : Data) → indexed index.new d ≡ (equal d (data_of item.now) || indexed index.old d)) }
{
    match item {
        Value::Null => {
            index.has_null = true;
            Ok(())
        }
        Value::Bool(true) => {
            index.has_true = true;
            Ok(())
        }
        Value::Bool(false) => {
            index.has_false = true;
            Ok(())
        }
        Value::Num(number) => note_number(&mut index.numbers, number.millionths()),
        Value::Text(text) => note_text(&mut index.texts, text),
        Value::Color(_) | Value::List(_) | Value::Map(_) => note_other(&mut index.others, item),
    }
}

fn note_number(numbers: &mut BTreeSet<i128>, number: i128) -> Result<(), AllocError>
    ensures { OnOk result ((z : ℤ) →
        contains int_cmp numbers.new z ≡ (int_eq number z || contains int_cmp numbers.old z)) }
{
    numbers.insert(number)?;
    Ok(())
}

fn note_text(texts: &mut Entries, text: &Text) -> Result<(), AllocError>
    ensures { OnOk result ((s : List ℕ) → is_some (at_key s (pairs_of texts.new))
        ≡ (same_text text.now s || is_some (at_key s (pairs_of texts.old)))) }
{
    texts.set(text.share()?, Value::Null)
}

fn note_other(others: &mut Vec<Value>, item: &Value) -> Result<(), AllocError>
    ensures { OnOk result ((d : Data) → list_any (equal d) (values_view others.new.items)
        ≡ (equal d (data_of item.now) || list_any (equal d) (values_view others.old.items))) }
{
    others.push(copy(item)?)?;
    Ok(())
}

/// Whether a value is among the items.
pub(crate) fn index_has(index: &ItemIndex, value: &Value) -> bool
    ensures { result ≡ indexed index.now (data_of value.now) }
{
    match value {
        Value::Null => index.has_null,
        Value::Bool(flag) => has_flag(index, *flag),
        Value::Num(number) => has_number(&index.numbers, *number),
        Value::Text(text) => has_text(&index.texts, text.as_str()),
        Value::Color(_) | Value::List(_) | Value::Map(_) => {
            is_among(value, index.others.as_slice())
        }
    }
}

fn has_flag(index: &ItemIndex, flag: bool) -> bool
    ensures { result ≡ flag_in index.now flag }
{
    if flag {
        index.has_true
    } else {
        index.has_false
    }
}

fn has_number(numbers: &BTreeSet<i128>, number: Fixed) -> bool
    ensures { result ≡ contains int_cmp numbers.now number }
{
    numbers.contains(&number.millionths())
}

fn has_text(texts: &Entries, text: &str) -> bool
    ensures { result ≡ is_some (at_key text.now (pairs_of texts.now)) }
{
    match texts.get(text) {
        Some(_) => true,
        None => false,
    }
}

/// Whether a value is equal to one of these.
pub(crate) fn is_among(value: &Value, items: &[Value]) -> bool
    ensures { result ≡ list_any (equal (data_of value.now)) (values_view items.now) }
{
    for item in items {
        if equals(value, item) {
            return true;
        }
    }
    false
}
