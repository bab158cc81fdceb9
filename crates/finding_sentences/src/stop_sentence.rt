//! What the stops of a legacy function break.

ghost use Rattle.std.specs.Prelude.{◌≡◌, ◌++◌, Some, OnOk, IfOk, not, codes};
ghost use Rattle.decimal_json.specs.Tree.{fields_of, object};
ghost use Rattle.decimal_json.specs.View.{fields, tree_at, tree_of, trees};
ghost use Rattle.property_tables.specs.RowView.{row_seen};
ghost use Rattle.finding_sentences.specs.Wanted.{row_words};
ghost use Rattle.finding_sentences.specs.FunctionSentence.{no_stop, stop_part, fault_or_order, formed_sentence};
ghost use Rattle.finding_sentences.specs.FunctionSentence.{has_some, has_two_members, has_zoom, is_empty, is_input};
ghost use Rattle.finding_sentences.specs.FunctionSentence.{is_placed_input, is_stop, is_zoomed_by, pair_sentence};
ghost use Rattle.finding_sentences.specs.FunctionSentence.{placed_words, stop_sentence, stops_fault, stops_sentence};

use crate::function_sentence::{is_output, write_unlike_row};
use crate::pairs::pair_in;
use crate::words::{write_count, write_lacks, write_member_unlike, write_unlike};
use decimal_json::{Json, Member, Members};
use property_tables::Row;
use std::alloc::{AllocError, Global};
use style_parts::number_in;

/// Appends what stops break, be it that they are missing; `any` says whether an input may be other than a number.
pub(crate) fn write_stops(
    row: &Row,
    any: bool,
    has_property: bool,
    stops: Option<&Json>,
    out: &mut Vec<u8>,
) -> Result<(), AllocError>
    ensures { OnOk result (out.new.items
        ≡ out.old.items ++ stops_sentence (row_seen row.now) any has_property (tree_at stops.entry)) }
{
    match stops {
        None => write_lacks("stops", out),
        Some(stops) => write_given(row, any, has_property, stops, out),
    }
}

fn write_given(
    row: &Row,
    any: bool,
    has_property: bool,
    stops: &Json,
    out: &mut Vec<u8>,
) -> Result<(), AllocError>
    ensures { OnOk result (out.new.items
        ≡ out.old.items ++ stops_sentence (row_seen row.now) any has_property (Some (tree_of stops.now))) }
{
    match stops {
        Json::List(items) if has_items(items.as_slice()) => {
            write_each(row, any, has_property, items.as_slice(), out)
        }
        _ => write_member_unlike("stops", b"an array of stops", stops, out),
    }
}

#[tactic(auto, using(crate::proofs::PairLaws::some_items))]
fn has_items(items: &[Json]) -> bool
    ensures { result ≡ not (is_empty (trees items.now)) }
{
    match items {
        [] => false,
        [_, ..] => true,
    }
}

fn write_each(
    row: &Row,
    any: bool,
    has_property: bool,
    stops: &[Json],
    out: &mut Vec<u8>,
) -> Result<(), AllocError>
    ensures { OnOk result (out.new.items
        ≡ out.old.items ++ fault_or_order (stops_fault (row_seen row.now) any 0 (trees stops.now))
        (formed_sentence any has_property (trees stops.now))) }
{
    for (place, stop) in stops.iter().enumerate() {
        if !is_stop(*out.allocator(), row, any, stop)? {
            return write_stop(row, any, place, stop, out);
        }
    }
    out.extend_from_slice(formed_sentence(any, has_property, stops).as_bytes())
}

fn is_stop(alloc: Global, row: &Row, any: bool, stop: &Json) -> Result<bool, AllocError>
    ensures { IfOk result (λ is. is ≡ is_stop (row_seen row.now) any (tree_of stop.now)) }
{
    match pair_in(stop) {
        Some((input, output)) => {
            let is = is_output(alloc, row, output)?;
            Ok(is_placed_input(any, input) && is)
        }
        None => Ok(false),
    }
}

// A stop that is none.
fn write_stop(
    row: &Row,
    any: bool,
    place: usize,
    stop: &Json,
    out: &mut Vec<u8>,
) -> Result<(), AllocError>
    ensures { OnOk result (out.new.items
        ≡ out.old.items ++ stop_sentence (row_seen row.now) any place (tree_of stop.now)) }
{
    match pair_in(stop) {
        Some((input, output)) => write_part(row, any, place, input, output, out),
        None => write_no_stop(place, stop, out),
    }
}

#[tactic(auto, unfolding(crate::specs::FunctionSentence::no_stop))]
fn write_no_stop(place: usize, stop: &Json, out: &mut Vec<u8>) -> Result<(), AllocError>
    ensures { OnOk result (out.new.items ≡ out.old.items ++ no_stop place (tree_of stop.now)) }
{
    out.extend_from_slice(b"\"stops\": stop ")?;
    write_count(place, out)?;
    out.extend_from_slice(b" ")?;
    write_unlike(b"[INPUT, OUTPUT]", stop, out)?;
    Ok(())
}

fn write_part(
    row: &Row,
    any: bool,
    place: usize,
    input: &Json,
    output: &Json,
    out: &mut Vec<u8>,
) -> Result<(), AllocError>
    ensures { OnOk result (out.new.items ≡ out.old.items
        ++ pair_sentence (row_seen row.now) any place (tree_of input.now) (tree_of output.now)) }
{
    if is_placed_input(any, input) {
        write_output_part(row, place, output, out)
    } else {
        write_input_part(placed_words(any, input).as_bytes(), place, input, out)
    }
}

#[tactic(auto, unfolding(crate::specs::FunctionSentence::stop_part))]
fn write_output_part(
    row: &Row,
    place: usize,
    output: &Json,
    out: &mut Vec<u8>,
) -> Result<(), AllocError>
    ensures { OnOk result (out.new.items
        ≡ out.old.items ++ stop_part place (codes "output") (row_words (row_seen row.now)) (tree_of output.now)) }
{
    out.extend_from_slice(b"\"stops\": the output of stop ")?;
    write_count(place, out)?;
    out.extend_from_slice(b" ")?;
    write_unlike_row(row, output, out)?;
    Ok(())
}

#[tactic(auto, unfolding(crate::specs::FunctionSentence::stop_part))]
fn write_input_part(
    wanted: &[u8],
    place: usize,
    input: &Json,
    out: &mut Vec<u8>,
) -> Result<(), AllocError>
    ensures { OnOk result (out.new.items
        ≡ out.old.items ++ stop_part place (codes "input") wanted.now (tree_of input.now)) }
{
    out.extend_from_slice(b"\"stops\": the input of stop ")?;
    write_count(place, out)?;
    out.extend_from_slice(b" ")?;
    write_unlike(wanted, input, out)?;
    Ok(())
}

#[tactic(auto, unfolding(crate::specs::FunctionSentence::is_placed_input))]
fn is_placed_input(any: bool, json: &Json) -> bool
    ensures { result ≡ is_placed_input any (tree_of json.now) }
{
    match json {
        Json::Object(members) => is_zoomed_input(any, members),
        _ => is_input(any, json),
    }
}

#[tactic(auto, unfolding(crate::specs::FunctionSentence::is_placed_input))]
fn is_zoomed_input(any: bool, members: &Members) -> bool
    ensures { result ≡ is_placed_input any (object (fields_of members.now)) }
{
    has_two_members(members.as_slice())
        && is_zoomed_by(any, members.get("zoom"), members.get("value"))
}

#[tactic(auto, using(crate::proofs::PairLaws::not_of_one, crate::proofs::PairLaws::two_of_two, crate::proofs::PairLaws::not_of_many))]
fn has_two_members(members: &[Member]) -> bool
    ensures { result ≡ has_two_members (fields members.now) }
{
    match members {
        [] => false,
        [_] => false,
        [_, _] => true,
        [_, _, _, ..] => false,
    }
}

fn is_zoomed_by(any: bool, zoom: Option<&Json>, value: Option<&Json>) -> bool
    ensures { result ≡ is_zoomed_by any (tree_at zoom.entry) (tree_at value.entry) }
{
    match (zoom, value) {
        (Some(zoom), Some(value)) => number_in(zoom).is_some() && is_input(any, value),
        _ => false,
    }
}

#[tactic(auto, unfolding(crate::specs::FunctionSentence::is_input))]
fn is_input(any: bool, json: &Json) -> bool
    ensures { result ≡ is_input any (tree_of json.now) }
{
    match json {
        Json::Num(_) => number_in(json).is_some(),
        Json::Text(_) | Json::Bool(_) => any,
        _ => false,
    }
}

fn placed_words(any: bool, json: &Json) -> &'static str
    ensures { result.now ≡ placed_words any (tree_of json.now) }
{
    match (json, any) {
        (Json::Object(_), true) => {
            "{\"zoom\": NUMBER, \"value\": INPUT}, and INPUT a number, a text, true or false"
        }
        (Json::Object(_), false) => "{\"zoom\": NUMBER, \"value\": INPUT}, and INPUT a number",
        (_, true) => "a number, a text, true or false",
        (_, false) => "a number",
    }
}

// What is left where each stop is one.
fn formed_sentence(any: bool, has_property: bool, stops: &[Json]) -> &'static str
    ensures { result.now ≡ formed_sentence any has_property (trees stops.now) }
{
    if has_some(true, stops) && !has_property {
        return "\"stops\": inputs with a zoom need a \"property\"";
    }
    if has_some(true, stops) && has_some(false, stops) {
        return "\"stops\": all inputs have a zoom, or none has one";
    }
    if any {
        "\"stops\": inputs must not descend, and no input is given twice"
    } else {
        "\"stops\": inputs must not descend"
    }
}

fn has_some(zoomed: bool, stops: &[Json]) -> bool
    ensures { result ≡ has_some zoomed (trees stops.now) }
{
    for stop in stops {
        if has_zoom(stop) == zoomed {
            return true;
        }
    }
    false
}

fn has_zoom(stop: &Json) -> bool
    ensures { result ≡ has_zoom (tree_of stop.now) }
{
    match stop {
        Json::List(items) => matches!(items.as_slice(), [Json::Object(_), ..]),
        _ => false,
    }
}
