//! Why an object is no legacy function of its property, or reads what it may not.

ghost use Rattle.std.specs.Prelude.{◌≡◌, ◌++◌, option_map, OnOk, IfOk, codes};
ghost use Rattle.decimal_json.specs.Tree.{fields_of, field_at};
ghost use Rattle.decimal_json.specs.View.{fields, tree_of};
ghost use Rattle.property_tables.specs.RowView.{row_seen};
ghost use Rattle.finding_sentences.specs.FunctionSentence.{no_member, row_unlike, function_input, function_sentence};
ghost use Rattle.finding_sentences.specs.FunctionSentence.{is_number, is_output, is_type, is_type_name, kind_sentence};
ghost use Rattle.finding_sentences.specs.FunctionSentence.{known_sentence, other_member, member_names};
ghost use Rattle.finding_sentences.specs.Words.{is_one_of, unlike};
ghost use Rattle.finding_sentences.specs.Wanted.{row_words};

use crate::stop_sentence::write_stops;
use crate::wanted::{allowed_words, write_row};
use crate::words::{write_found, write_lacks, write_member_unlike};
use decimal_json::{Json, Member, Members, write_text};
use legacy_functions::has_tokens;
use property_tables::{Row, literal};
use std::alloc::{AllocError, Global};
use style_parts::number_in;

/// Appends why an object is no legacy function of a row.
pub(crate) fn write_function(
    row: &Row,
    function: &Members,
    out: &mut Vec<u8>,
) -> Result<(), AllocError>
    ensures { OnOk result (out.new.items
        ≡ out.old.items ++ function_sentence (row_seen row.now) (fields_of function.now)) }
{
    match other_member(function.as_slice()) {
        Some(key) => write_no_member(key, out),
        None => write_known(row, function, out),
    }
}

#[tactic(auto, unfolding(crate::specs::FunctionSentence::no_member))]
fn write_no_member(key: &str, out: &mut Vec<u8>) -> Result<(), AllocError>
    ensures { OnOk result (out.new.items ≡ out.old.items ++ no_member key.now) }
{
    out.extend_from_slice(b"a function has no member ")?;
    write_text(key, out)?;
    Ok(())
}

// The first member of another name.
fn other_member(members: &[Member]) -> Option<&str>
    ensures { option_map (λ key. key.now) result ≡ other_member (fields members.now) }
{
    for member in members {
        if !is_member_name(member.key.as_str()) {
            return Some(member.key.as_str());
        }
    }
    None
}

fn is_member_name(name: &str) -> bool
    ensures { result ≡ is_one_of member_names name.now }
{
    matches!(
        name,
        "stops" | "property" | "base" | "type" | "default" | "colorSpace"
    )
}

const TYPES: &[u8] = b"one of \"exponential\", \"interval\", \"categorical\", \"identity\"";

// Of a function whose members have known names.
fn write_known(row: &Row, function: &Members, out: &mut Vec<u8>) -> Result<(), AllocError>
    ensures { OnOk result (out.new.items
        ≡ out.old.items ++ known_sentence (row_seen row.now) (fields_of function.now)) }
{
    if let Some(name) = function.get("type") {
        if !is_type_name(name) {
            return write_member_unlike("type", TYPES, name, out);
        }
    }
    if let Some(base) = function.get("base") {
        if number_in(base).is_none() {
            return write_member_unlike("base", b"a number", base, out);
        }
    }
    if let Some(property) = function.get("property") {
        if !property.is_text() {
            return write_member_unlike("property", b"a text", property, out);
        }
    }
    if let Some(fallback) = function.get("default") {
        let is = is_output(*out.allocator(), row, fallback)?;
        if !is {
            return write_row_unlike("default", row, fallback, out);
        }
    }
    write_kind(row, function, out)
}

fn is_type_name(json: &Json) -> bool
    ensures { result ≡ is_type_name (tree_of json.now) }
{
    match json {
        Json::Text(name) => matches!(
            name.as_str(),
            "exponential" | "interval" | "categorical" | "identity"
        ),
        _ => false,
    }
}

/// Whether an output is a literal of a row, or a text with tokens where the row takes them.
#[tactic(auto, unfolding(crate::specs::FunctionSentence::is_output))]
pub(crate) fn is_output(alloc: Global, row: &Row, json: &Json) -> Result<bool, AllocError>
    ensures { IfOk result (λ is. is ≡ is_output (row_seen row.now) (tree_of json.now)) }
{
    if let Json::Text(text) = json {
        if row.takes_tokens && has_tokens(text.as_str()) {
            return Ok(true);
        }
    }
    Ok(literal(alloc, json, row)?.is_some())
}

#[tactic(auto, unfolding(crate::specs::FunctionSentence::row_unlike))]
fn write_row_unlike(key: &str, row: &Row, json: &Json, out: &mut Vec<u8>) -> Result<(), AllocError>
    ensures { OnOk result (out.new.items ≡ out.old.items ++ row_unlike key.now (row_seen row.now) (tree_of json.now)) }
{
    write_text(key, out)?;
    out.extend_from_slice(b" ")?;
    write_unlike_row(row, json, out)
}

/// Appends that a value is no literal of a row.
pub(crate) fn write_unlike_row(row: &Row, json: &Json, out: &mut Vec<u8>) -> Result<(), AllocError>
    ensures { OnOk result (out.new.items ≡ out.old.items ++ unlike (row_words (row_seen row.now)) (tree_of json.now)) }
{
    out.extend_from_slice(b"must be ")?;
    write_row(row, out)?;
    out.extend_from_slice(b", found ")?;
    write_found(json, out)
}

// Of a function whose members have their forms.
fn write_kind(row: &Row, function: &Members, out: &mut Vec<u8>) -> Result<(), AllocError>
    ensures { OnOk result (out.new.items ≡ out.old.items ++ kind_sentence (row_seen row.now) (fields_of function.now)) }
{
    let has_property = function.get("property").is_some();
    if has_type(function, "exponential") && !row.ramps {
        return out.extend_from_slice(
            b"\"type\" is \"exponential\", and this property does not ramp: \"interval\" does",
        );
    }
    if has_type(function, "categorical") && !has_property {
        return write_lacks("property", out);
    }
    if has_type(function, "identity") && !has_property {
        return write_lacks("property", out);
    }
    if has_type(function, "identity") {
        return out.extend_from_slice(b"an \"identity\" function has no \"stops\"");
    }
    let is_categorical = has_type(function, "categorical");
    write_stops(
        row,
        is_categorical,
        has_property,
        function.get("stops"),
        out,
    )
}

fn has_type(function: &Members, name: &str) -> bool
    ensures { result ≡ is_type name.now (field_at (codes "type") (fields_of function.now)) }
{
    match function.get("type") {
        Some(Json::Text(text)) => text.as_str() == name,
        _ => false,
    }
}

/// Appends what a legacy function reads and may not read.
pub(crate) fn write_function_input(
    row: &Row,
    function: &Members,
    out: &mut Vec<u8>,
) -> Result<(), AllocError>
    ensures { OnOk result (out.new.items
        ≡ out.old.items ++ function_input (row_seen row.now) (fields_of function.now)) }
{
    out.extend_from_slice(b"may read ")?;
    out.extend_from_slice(allowed_words(Some(row)).as_bytes())?;
    out.extend_from_slice(b", found a function of the ")?;
    if function.get("property").is_some() && !row.feature {
        out.extend_from_slice(b"feature")
    } else {
        out.extend_from_slice(b"zoom")
    }
}
