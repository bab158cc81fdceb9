ghost use Rattle.std.specs.Prelude.{◌≡◌};
ghost use Rattle.std.specs.Ordering.{nat_cmp};
ghost use Rattle.std.specs.Cmp.Lexicographic.{slice_cmp};
ghost use Rattle.std.specs.Str.{chars};
ghost use Rattle.prop_values.specs.Data.{pairs_of};
ghost use Rattle.prop_values.specs.Equality.{equal, items_equal, pairs_in, keys_in};
ghost use Rattle.prop_values.specs.Forms.{order_of, kind_name, is_true};
ghost use Rattle.prop_values.specs.View.{data_of};
ghost use Rattle.prop_values.specs.ViewParts.{items, pairs};

use crate::value::{Entries, Entry, Value};
use std::cmp::Ordering;

/// Whether two values are of one form with equal parts. Maps are equal in whatever order their entries are,
/// in n log n of them.
#[tactic(auto, using(crate::proofs::Falls::value_weight, crate::proofs::Falls::entry_weight))]
#[cycle(equals)]
pub fn equals(a: &Value, b: &Value) -> bool
    ensures { result ≡ equal (data_of a.now) (data_of b.now) }
{
    match (a, b) {
        (Value::Null, Value::Null) => true,
        (Value::Bool(a), Value::Bool(b)) => *a == *b,
        (Value::Num(a), Value::Num(b)) => *a == *b,
        (Value::Text(a), Value::Text(b)) => a.as_str() == b.as_str(),
        (Value::Color(a), Value::Color(b)) => {
            let (a, b) = (a.color(), b.color());
            a.r == b.r && a.g == b.g && a.b == b.b && a.a == b.a
        }
        (Value::List(a), Value::List(b)) => are_equal(a.as_slice(), b.as_slice()),
        (Value::Map(a), Value::Map(b)) => {
            let (a, b) = (a.as_entries(), b.as_entries());
            has_pairs(b, a.as_slice()) && has_keys(a, b.as_slice())
        }
        _ => false,
    }
}

#[tactic(auto, using(crate::proofs::Falls::value_weight, crate::proofs::Falls::entry_weight, crate::proofs::Lengths::other_length))]
#[cycle(equals)]
fn are_equal(a: &[Value], b: &[Value]) -> bool
    ensures { result ≡ items_equal (items a.now) (items b.now) }
{
    if a.len() != b.len() {
        return false;
    }
    for (i, value) in a.iter().enumerate() {
        if !equals(value, &b[i]) {
            return false;
        }
    }
    true
}

#[tactic(auto, using(crate::proofs::Falls::value_weight, crate::proofs::Falls::entry_weight))]
#[cycle(equals)]
fn has_pairs(map: &Entries, entries: &[Entry]) -> bool
    ensures { result ≡ pairs_in (pairs entries.now) (pairs_of map.now) }
{
    for entry in entries {
        match map.get(entry.key.as_str()) {
            None => return false,
            Some(value) => {
                if !equals(&entry.value, value) {
                    return false;
                }
            }
        }
    }
    true
}

fn has_keys(map: &Entries, entries: &[Entry]) -> bool
    ensures { result ≡ keys_in (pairs entries.now) (pairs_of map.now) }
{
    for entry in entries {
        if map.get(entry.key.as_str()).is_none() {
            return false;
        }
    }
    true
}

/// The order of two numbers, or of two texts by their Unicode scalar values. `None` exactly where the
/// values are neither.
pub fn order(a: &Value, b: &Value) -> Option<Ordering>
    ensures { result ≡ order_of (data_of a.now) (data_of b.now) }
{
    match (a, b) {
        (Value::Num(a), Value::Num(b)) => Some(a.cmp(b)),
        (Value::Text(a), Value::Text(b)) => Some(text_order(a.as_str(), b.as_str())),
        _ => None,
    }
}

fn text_order(a: &str, b: &str) -> Ordering
    ensures { result ≡ slice_cmp nat_cmp (chars a.now) (chars b.now) }
{
    a.chars().cmp(b.chars())
}

/// What `typeof` says of a value: `null`, `boolean`, `number`, `string`, `color`, `array` or `object`.
pub fn kind_text(value: &Value) -> &'static str
    ensures { result.now ≡ kind_name (data_of value.now) }
{
    match value {
        Value::Null => "null",
        Value::Bool(_) => "boolean",
        Value::Num(_) => "number",
        Value::Text(_) => "string",
        Value::Color(_) => "color",
        Value::List(_) => "array",
        Value::Map(_) => "object",
    }
}

/// What `to-boolean` says of a value: false for null, false, 0 and the empty text, and else true.
pub fn truth(value: &Value) -> bool
    ensures { result ≡ is_true (data_of value.now) }
{
    match value {
        Value::Null => false,
        Value::Bool(flag) => *flag,
        Value::Num(number) => number.millionths() != 0,
        Value::Text(text) => !text.as_str().is_empty(),
        Value::Color(_) | Value::List(_) | Value::Map(_) => true,
    }
}
