//! Which features pass a legacy filter.

ghost use Rattle.std.specs.Prelude.{◌≡◌, Some, None, option_map};
ghost use Rattle.std.specs.List.{list_all, list_any};
ghost use Rattle.std.specs.Cmp.Lexicographic.{slice_cmp};
ghost use Rattle.std.specs.Ordering.{nat_cmp};
ghost use Rattle.std.specs.Str.{chars};
ghost use Rattle.prop_values.specs.Data.{number, text, boolean};
ghost use Rattle.prop_values.specs.Equality.{equal};
ghost use Rattle.prop_values.specs.Forms.{order_of};
ghost use Rattle.prop_values.specs.View.{data_of};
ghost use Rattle.legacy_filters.specs.Found.{found_data};
ghost use Rattle.legacy_filters.specs.Meaning.{value_at, takes, takes_order, holds, passes, each_passes};
ghost use Rattle.legacy_filters.specs.Scalars.{scalar_data, is_equal};
ghost use Rattle.legacy_filters.specs.View.{filter_of, part_filter, part_filters};

use crate::filter::{Group, Key, LegacyFilter, Order, Part, Test};
use crate::found::{TestedValue, found_at};
use crate::scalars::Scalar;
use fixed_num::Fixed;
use prop_values::Value;
use std::cmp::Ordering;
use tile_reader::Feature;

impl LegacyFilter {
    /// Whether a feature passes. Takes no memory.
    pub fn passes(&self, feature: &Feature) -> bool
        ensures { result ≡ passes (filter_of self.now) feature.now }
    {
        part_passes(&self.whole, feature)
    }
}

#[cycle(passing)]
fn part_passes(part: &Part, feature: &Feature) -> bool
    ensures { result ≡ passes (part_filter part.now) feature.now }
{
    match part {
        Part::Flag(truth) => *truth,
        Part::Test(key, test) => holds(key, test, feature),
        Part::Group(Group::All, parts) => all_pass(parts.as_slice(), feature),
        Part::Group(Group::Any, parts) => any_passes(parts.as_slice(), feature),
        Part::Group(Group::None, parts) => !any_passes(parts.as_slice(), feature),
    }
}

#[cycle(passing)]
fn all_pass(parts: &[Part], feature: &Feature) -> bool
    ensures { result ≡ list_all (λ b. b) (each_passes (part_filters parts.now) feature.now) }
{
    for part in parts {
        if !part_passes(part, feature) {
            return false;
        }
    }
    true
}

#[cycle(passing)]
fn any_passes(parts: &[Part], feature: &Feature) -> bool
    ensures { result ≡ list_any (λ b. b) (each_passes (part_filters parts.now) feature.now) }
{
    for part in parts {
        if part_passes(part, feature) {
            return true;
        }
    }
    false
}

fn holds(key: &Key, test: &Test, feature: &Feature) -> bool
    ensures { result ≡ holds test.now (value_at key.now feature.now) }
{
    match found_at(key, feature) {
        Some(found) => holds_of(test, &found),
        None => holds_of_nothing(test),
    }
}

fn holds_of_nothing(test: &Test) -> bool
    ensures { result ≡ holds test.now None }
{
    matches!(test, Test::HasNot | Test::NotEqual(_) | Test::NotAmong(_))
}

fn holds_of(test: &Test, found: &TestedValue<'_>) -> bool
    ensures { result ≡ holds test.now (Some (found_data found.now)) }
{
    match test {
        Test::Has => true,
        Test::HasNot => false,
        Test::Equal(scalar) => is_equal(scalar, found),
        Test::NotEqual(scalar) => !is_equal(scalar, found),
        Test::Ordered(order, scalar) => takes_order(*order, order_of(found, scalar)),
        Test::Among(scalars) => scalars.has(found),
        Test::NotAmong(scalars) => !scalars.has(found),
    }
}

fn is_equal(scalar: &Scalar, found: &TestedValue<'_>) -> bool
    ensures { result ≡ is_equal scalar.now (found_data found.now) }
{
    match found {
        TestedValue::Shape(name) => is_text(scalar, name),
        TestedValue::Id(id) => is_number(scalar, *id),
        TestedValue::Property(value) => is_value(scalar, value),
    }
}

fn is_value(scalar: &Scalar, value: &Value) -> bool
    ensures { result ≡ equal (data_of value.now) (scalar_data scalar.now) }
{
    match (value, scalar) {
        (Value::Bool(a), Scalar::Flag(b)) => *a == *b,
        (Value::Num(a), Scalar::Number(_, b)) => *a == *b,
        (Value::Text(a), Scalar::Text(b)) => a.as_str() == b.as_str(),
        _ => false,
    }
}

fn is_number(scalar: &Scalar, found: Fixed) -> bool
    ensures { result ≡ equal (number found) (scalar_data scalar.now) }
{
    match scalar {
        Scalar::Number(_, number) => found == *number,
        _ => false,
    }
}

fn is_text(scalar: &Scalar, found: &str) -> bool
    ensures { result ≡ equal (text found.now) (scalar_data scalar.now) }
{
    match scalar {
        Scalar::Text(text) => found == text.as_str(),
        _ => false,
    }
}

fn order_of(found: &TestedValue<'_>, scalar: &Scalar) -> Option<Ordering>
    ensures { result ≡ order_of (found_data found.now) (scalar_data scalar.now) }
{
    match found {
        TestedValue::Shape(name) => order_of_text(name, scalar),
        TestedValue::Id(id) => order_of_number(*id, scalar),
        TestedValue::Property(value) => order_of_value(value, scalar),
    }
}

fn order_of_value(value: &Value, scalar: &Scalar) -> Option<Ordering>
    ensures { result ≡ order_of (data_of value.now) (scalar_data scalar.now) }
{
    match value {
        Value::Num(number) => order_of_number(*number, scalar),
        Value::Text(text) => order_of_text(text.as_str(), scalar),
        _ => None,
    }
}

fn order_of_number(found: Fixed, scalar: &Scalar) -> Option<Ordering>
    ensures { result ≡ order_of (number found) (scalar_data scalar.now) }
{
    match scalar {
        Scalar::Number(_, number) => Some(found.cmp(number)),
        _ => None,
    }
}

fn order_of_text(found: &str, scalar: &Scalar) -> Option<Ordering>
    ensures { result ≡ order_of (text found.now) (scalar_data scalar.now) }
{
    match scalar {
        Scalar::Text(text) => Some(order_of_texts(found, text.as_str())),
        _ => None,
    }
}

// Texts are ordered by their Unicode scalar values.
fn order_of_texts(a: &str, b: &str) -> Ordering
    ensures { result ≡ slice_cmp nat_cmp (chars a.now) (chars b.now) }
{
    a.chars().cmp(b.chars())
}

fn takes_order(order: Order, found: Option<Ordering>) -> bool
    ensures { result ≡ takes_order order found }
{
    match found {
        Some(found) => takes(order, found),
        None => false,
    }
}

fn takes(order: Order, found: Ordering) -> bool
    ensures { result ≡ takes order found }
{
    match order {
        Order::Below => matches!(found, Ordering::Less),
        Order::AtMost => !matches!(found, Ordering::Greater),
        Order::Above => matches!(found, Ordering::Greater),
        Order::AtLeast => !matches!(found, Ordering::Less),
    }
}
