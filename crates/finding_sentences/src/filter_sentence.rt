//! Why a legacy filter does not have its form, at the part where it has not.

ghost use Rattle.std.specs.Prelude.{◌≡◌, ◌++◌, Some, OnOk};
ghost use Rattle.decimal_json.specs.View.{tree_at, tree_of, trees};
ghost use Rattle.finding_sentences.specs.FilterSentence.{first_other, headed_sentence, is_group, is_key_test};
ghost use Rattle.finding_sentences.specs.FilterSentence.{is_list_test, is_named_shape, is_order, is_scalar};
ghost use Rattle.finding_sentences.specs.FilterSentence.{is_shape_key, is_value, is_value_test, keyed_sentence};
ghost use Rattle.finding_sentences.specs.FilterSentence.{no_filter, other_or_rule, named_sentence, part_sentence};
ghost use Rattle.finding_sentences.specs.FilterSentence.{takes_sentence, test_sentence, value_words};
ghost use Rattle.decimal_json.specs.Tree.{list};
ghost use Rattle.expr_syntax.specs.Elements.{head_text};

use crate::pairs::count_of;
use crate::words::{BREAKS_RULE, write_counted, write_unlike};
use decimal_json::{Json, write_text};
use std::alloc::AllocError;
use style_parts::number_in;

/// Appends why a part of a legacy filter is none.
pub(crate) fn write_filter_part(part: &Json, out: &mut Vec<u8>) -> Result<(), AllocError>
    ensures { OnOk result (out.new.items ≡ out.old.items ++ part_sentence (tree_of part.now)) }
{
    match part {
        Json::List(items) => write_array_part(items.as_slice(), part, out),
        _ => write_no_filter(part, out),
    }
}

fn write_array_part(items: &[Json], part: &Json, out: &mut Vec<u8>) -> Result<(), AllocError>
    requires { tree_of part.now ≡ list (trees items.now) }
    ensures { OnOk result (out.new.items
        ≡ out.old.items ++ headed_sentence (head_text (trees items.now)) (trees items.now)) }
{
    match items {
        [Json::Text(name), elements @ ..] => write_named(name.as_str(), elements, out),
        _ => write_no_filter(part, out),
    }
}

fn write_no_filter(part: &Json, out: &mut Vec<u8>) -> Result<(), AllocError>
    ensures { OnOk result (out.new.items ≡ out.old.items ++ no_filter (tree_of part.now)) }
{
    write_unlike(b"a filter, as [\"==\", KEY, VALUE]", part, out)
}

fn write_named(name: &str, elements: &[Json], out: &mut Vec<u8>) -> Result<(), AllocError>
    ensures { OnOk result (out.new.items ≡ out.old.items ++ named_sentence name.now (trees elements.now)) }
{
    if is_group(name) {
        return out.extend_from_slice(
            b"more than 24 of \"all\", \"any\" and \"none\" are one in the other",
        );
    }
    if is_key_test(name) || is_value_test(name) || is_list_test(name) {
        return write_test(name, elements, out);
    }
    write_text(name, out)?;
    out.extend_from_slice(b" is no test of a legacy filter")
}

#[tactic(auto, unfolding(crate::specs::FilterSentence::is_group))]
fn is_group(name: &str) -> bool
    ensures { result ≡ is_group name.now }
{
    matches!(name, "all" | "any" | "none")
}

#[tactic(auto, unfolding(crate::specs::FilterSentence::is_key_test))]
fn is_key_test(name: &str) -> bool
    ensures { result ≡ is_key_test name.now }
{
    matches!(name, "has" | "!has")
}

#[tactic(auto, unfolding(crate::specs::FilterSentence::is_value_test))]
fn is_value_test(name: &str) -> bool
    ensures { result ≡ is_value_test name.now }
{
    matches!(name, "==" | "!=" | "<" | "<=" | ">" | ">=")
}

#[tactic(auto, unfolding(crate::specs::FilterSentence::is_order))]
fn is_order(name: &str) -> bool
    ensures { result ≡ is_order name.now }
{
    matches!(name, "<" | "<=" | ">" | ">=")
}

#[tactic(auto, unfolding(crate::specs::FilterSentence::is_list_test))]
fn is_list_test(name: &str) -> bool
    ensures { result ≡ is_list_test name.now }
{
    matches!(name, "in" | "!in")
}

#[tactic(auto, unfolding(crate::specs::FilterSentence::is_shape_key))]
fn is_shape_key(key: &str) -> bool
    ensures { result ≡ is_shape_key key.now }
{
    key == "$type"
}

fn write_test(name: &str, elements: &[Json], out: &mut Vec<u8>) -> Result<(), AllocError>
    ensures { OnOk result (out.new.items ≡ out.old.items ++ test_sentence name.now (trees elements.now)) }
{
    match elements {
        [Json::Text(key), values @ ..] => write_keyed(name, key.as_str(), values, out),
        [key, ..] => {
            out.extend_from_slice(b"the key of ")?;
            write_text(name, out)?;
            out.extend_from_slice(b" ")?;
            write_unlike(b"a text in a legacy filter", key, out)
        }
        [] => {
            write_text(name, out)?;
            out.extend_from_slice(b" needs a key")
        }
    }
}

// By the values after the key.
fn write_keyed(name: &str, key: &str, values: &[Json], out: &mut Vec<u8>) -> Result<(), AllocError>
    ensures { OnOk result (out.new.items ≡ out.old.items ++ keyed_sentence name.now key.now (trees values.now)) }
{
    let count = count_of(values);
    if is_key_test(name) {
        return write_takes(name, b"a key alone", count, out);
    }
    if is_value_test(name) && count != 1 {
        return write_takes(name, b"a key and one value", count, out);
    }
    if is_order(name) && is_shape_key(key) {
        return out.extend_from_slice(b"\"$type\" has no order");
    }
    match first_other(key, values) {
        Some(value) => write_value(name, key, value, out),
        None => out.extend_from_slice(BREAKS_RULE),
    }
}

#[tactic(auto, unfolding(crate::specs::FilterSentence::takes_sentence))]
fn write_takes(name: &str, wanted: &[u8], found: usize, out: &mut Vec<u8>) -> Result<(), AllocError>
    ensures { OnOk result (out.new.items ≡ out.old.items ++ takes_sentence name.now wanted.now found) }
{
    write_text(name, out)?;
    out.extend_from_slice(b" takes ")?;
    out.extend_from_slice(wanted)?;
    out.extend_from_slice(b", found a key and ")?;
    write_counted(found, b"value", b"values", out)?;
    Ok(())
}

// The first of values that is none.
fn first_other<'a>(key: &str, values: &'a [Json]) -> Option<&'a Json>
    ensures { tree_at result ≡ first_other key.now (trees values.now) }
{
    for value in values {
        if !is_value(key, value) {
            return Some(value);
        }
    }
    None
}

fn is_value(key: &str, value: &Json) -> bool
    ensures { result ≡ is_value key.now (tree_of value.now) }
{
    if is_shape_key(key) {
        is_named_shape(value)
    } else {
        is_scalar(value)
    }
}

fn is_named_shape(value: &Json) -> bool
    ensures { result ≡ is_named_shape (tree_of value.now) }
{
    match value {
        Json::Text(text) => matches!(text.as_str(), "Point" | "LineString" | "Polygon"),
        _ => false,
    }
}

fn is_scalar(value: &Json) -> bool
    ensures { result ≡ is_scalar (tree_of value.now) }
{
    match value {
        Json::Text(_) | Json::Bool(_) => true,
        Json::Num(_) => number_in(value).is_some(),
        _ => false,
    }
}

fn write_value(name: &str, key: &str, value: &Json, out: &mut Vec<u8>) -> Result<(), AllocError>
    ensures { OnOk result (out.new.items ≡ out.old.items ++ other_or_rule name.now key.now (Some (tree_of value.now))) }
{
    out.extend_from_slice(b"a value of ")?;
    write_text(name, out)?;
    out.extend_from_slice(b" ")?;
    write_unlike(value_words(key).as_bytes(), value, out)
}

fn value_words(key: &str) -> &'static str
    ensures { result.now ≡ value_words key.now }
{
    if is_shape_key(key) {
        "one of \"Point\", \"LineString\", \"Polygon\""
    } else {
        "a text, a number, true or false"
    }
}
