//! The values that tests compare with, and which of them are in a list.

ghost use Rattle.std.specs.Prelude.{◌≡◌, ◌||◌, ℕ, ℤ, List, IfOk, OnOk, is_some};
ghost use Rattle.std.specs.BTreeSet.{contains};
ghost use Rattle.std.specs.Ordering.{int_cmp, int_eq};
ghost use Rattle.prop_values.specs.Data.{Data, pairs_of};
ghost use Rattle.prop_values.specs.Equality.{at_key, same_text};
ghost use Rattle.prop_values.specs.View.{data_of};
ghost use Rattle.legacy_filters.specs.Found.{found_data};
ghost use Rattle.legacy_filters.specs.Indexed.{indexed, flag_in};
ghost use Rattle.legacy_filters.specs.Scalars.{is_equal, is_one_of};

use crate::found::TestedValue;
use decimal_json::{NumText, Text};
use fixed_num::Fixed;
use prop_values::{Entries, Value};
use std::alloc::{AllocError, Global};
use std::collections::BTreeSet;
use std::marker::Model;

/// A value that a test compares with. A number is kept as it is spelled, with the number that it says.
#[derive(Drop)]
pub enum Scalar {
    Flag(bool),
    Number(NumText, Fixed),
    Text(Text),
}

// Which values are in a list. The texts are keys, whose values do not count; the numbers are in millionths.
#[derive(Drop)]
pub(crate) struct ScalarIndex {
    texts: Entries,
    numbers: BTreeSet<i128>,
    has_true: bool,
    has_false: bool,
}

/// The values of an `in` or `!in` in order, which clauses see as a list. Whether a value is among them is
/// found in time logarithmic in their number.
#[derive(Drop)]
pub struct Scalars {
    scalars: Vec<Scalar>,
    index: ScalarIndex,
}

impl Model for Scalars {
    ghost use Rattle.std.specs.Prelude.{List};
    ghost use Rattle.legacy_filters.specs.declared.scalars.Scalar.{Scalar};

    ghost Value = { List Scalar };

    ghost view = { λ a. a.scalars.items };

    ghost use Rattle.legacy_filters.specs.Indexed.{IsIndexed};

    ghost invariant = { λ a. IsIndexed a.index a.scalars.items };
}

impl Scalars {
    /// The values of a list, with their index.
    pub fn of(alloc: Global, scalars: Vec<Scalar>) -> Result<Scalars, AllocError>
        ensures { IfOk result (λ made. made ≡ scalars.items) }
    {
        let index = index_of(alloc, scalars.as_slice())?;
        Ok(Scalars { scalars, index })
    }

    pub fn as_slice(&self) -> &[Scalar]
        ensures { result.now ≡ self.now }
    {
        self.scalars.as_slice()
    }

    /// Whether one of the values is equal to what is at a key.
    pub(crate) fn has(&self, found: &TestedValue<'_>) -> bool
        ensures { result ≡ is_one_of self.now (found_data found.now) }
    {
        index_has(&self.index, found)
    }
}

fn index_of(alloc: Global, scalars: &[Scalar]) -> Result<ScalarIndex, AllocError>
    ensures { IfOk result (λ index. (d : Data) → indexed index d ≡ is_one_of scalars.now d) }
{
    let mut index = ScalarIndex {
        texts: Entries::new(alloc),
        numbers: BTreeSet::new(alloc),
        has_true: false,
        has_false: false,
    };
    for scalar in scalars {
        note(&mut index, scalar)?;
    }
    Ok(index)
}

// Puts a value into the index.
fn note(index: &mut ScalarIndex, scalar: &Scalar) -> Result<(), AllocError>
    ensures { OnOk result ((d : Data) → indexed index.new d ≡ (is_equal scalar.now d || indexed index.old d)) }
{
    match scalar {
        Scalar::Flag(true) => {
            index.has_true = true;
            Ok(())
        }
        Scalar::Flag(false) => {
            index.has_false = true;
            Ok(())
        }
        Scalar::Number(_, number) => note_number(&mut index.numbers, number.millionths()),
        Scalar::Text(text) => note_text(&mut index.texts, text),
    }
}

fn note_number(numbers: &mut BTreeSet<i128>, number: i128) -> Result<(), AllocError>
    ensures { OnOk result ((z : ℤ) → contains int_cmp numbers.new z
        ≡ (int_eq number z || contains int_cmp numbers.old z)) }
{
    numbers.insert(number)?;
    Ok(())
}

fn note_text(texts: &mut Entries, text: &Text) -> Result<(), AllocError>
    ensures { OnOk result ((s : List ℕ)
        → is_some (at_key s (pairs_of texts.new)) ≡ (same_text text.now s || is_some (at_key s (pairs_of texts.old)))) }
{
    texts.set(text.share()?, Value::Null)
}

fn index_has(index: &ScalarIndex, found: &TestedValue<'_>) -> bool
    ensures { result ≡ indexed index.now (found_data found.now) }
{
    match found {
        TestedValue::Shape(name) => has_text(&index.texts, name),
        TestedValue::Id(id) => has_number(&index.numbers, *id),
        TestedValue::Property(value) => index_has_value(index, value),
    }
}

fn index_has_value(index: &ScalarIndex, value: &Value) -> bool
    ensures { result ≡ indexed index.now (data_of value.now) }
{
    match value {
        Value::Bool(flag) => has_flag(index, *flag),
        Value::Num(number) => has_number(&index.numbers, *number),
        Value::Text(text) => has_text(&index.texts, text.as_str()),
        _ => false,
    }
}

fn has_flag(index: &ScalarIndex, flag: bool) -> bool
    ensures { result ≡ flag_in index.now flag }
{
    if flag {
        index.has_true
    } else {
        index.has_false
    }
}

fn has_number(numbers: &BTreeSet<i128>, number: Fixed) -> bool
    ensures { result ≡ contains int_cmp numbers.now number }
{
    numbers.contains(&number.millionths())
}

fn has_text(texts: &Entries, text: &str) -> bool
    ensures { result ≡ is_some (at_key text.now (pairs_of texts.now)) }
{
    match texts.get(text) {
        Some(_) => true,
        None => false,
    }
}
