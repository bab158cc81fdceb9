//! The stops of a legacy function as they are.

ghost use Rattle.std.specs.Prelude.{◌≡◌, map, codes, option_map, IfOk};
ghost use Rattle.decimal_json.specs.Tree.{field_at, fields_of, list, tree, no_trees};
ghost use Rattle.decimal_json.specs.View.{tree_of, trees};
ghost use Rattle.property_tables.specs.RowView.{row_seen};
ghost use Rattle.legacy_functions.specs.Form.{has_two_fields, zoomed_input, object_input, placed_input, stop_form};
ghost use Rattle.legacy_functions.specs.Form.{each_stop, stops_form};
ghost use Rattle.legacy_functions.specs.PlacedView.{placed_input_seen, placed_stop_seen};

use crate::function::{Category, Input, Spelled};
use crate::leaves::{input_form, number_form, output_form};
use decimal_json::{Json, Members};
use property_tables::Row;
use std::alloc::{AllocError, Global};

/// A stop as it is, with the zoom of an input that has one.
#[derive(Drop)]
pub(crate) struct PlacedStop {
    pub(crate) zoom: Option<Spelled>,
    pub(crate) stop: Category,
}

#[tactic(auto, using(crate::proofs::StopLists::some_stops))]
pub(crate) fn stops_form(
    alloc: Global,
    any: bool,
    json: &Json,
    row: &Row,
) -> Result<Option<Vec<PlacedStop>>, AllocError>
    ensures { IfOk result (λ found. option_map (λ v. map placed_stop_seen v.items) found
        ≡ stops_form (row_seen row.now) any (tree_of json.now)) }
{
    let Json::List(items) = json else {
        return Ok(None);
    };
    match items.as_slice() {
        [] => Ok(None),
        stops => {
            let found = each_stop(alloc, any, stops, row)?;
            Ok(found)
        }
    }
}

#[tactic(auto, using(crate::proofs::StopLists::after_first))]
fn each_stop(
    alloc: Global,
    any: bool,
    items: &[Json],
    row: &Row,
) -> Result<Option<Vec<PlacedStop>>, AllocError>
    ensures { IfOk result (λ found. option_map (λ v. map placed_stop_seen v.items) found
        ≡ each_stop (row_seen row.now) any (trees items.now)) }
{
    let mut stops = Vec::with_capacity(alloc, items.len())?;
    for item in items {
        match stop_form(alloc, any, item, row)? {
            Some(stop) => stops.push(stop)?,
            None => return Ok(None),
        }
    }
    Ok(Some(stops))
}

fn stop_form(
    alloc: Global,
    any: bool,
    json: &Json,
    row: &Row,
) -> Result<Option<PlacedStop>, AllocError>
    ensures { IfOk result (λ found. option_map placed_stop_seen found
        ≡ stop_form (row_seen row.now) any (tree_of json.now)) }
{
    match json {
        Json::List(items) => {
            let found = pair_form(alloc, any, items.as_slice(), row)?;
            Ok(found)
        }
        _ => Ok(None),
    }
}

#[tactic(auto, using(crate::proofs::StopLists::element_counts))]
fn pair_form(
    alloc: Global,
    any: bool,
    elements: &[Json],
    row: &Row,
) -> Result<Option<PlacedStop>, AllocError>
    ensures { IfOk result (λ found. option_map placed_stop_seen found
        ≡ stop_form (row_seen row.now) any (list (trees elements.now))) }
{
    match elements {
        [] => Ok(None),
        [_one] => Ok(None),
        [input, output] => stop_of(alloc, any, input, output, row),
        [_one, _two, _three, ..] => Ok(None),
    }
}

fn stop_of(
    alloc: Global,
    any: bool,
    input: &Json,
    output: &Json,
    row: &Row,
) -> Result<Option<PlacedStop>, AllocError>
    ensures { IfOk result (λ found. option_map placed_stop_seen found
        ≡ stop_form (row_seen row.now) any (list (tree (tree_of input.now) (tree (tree_of output.now) no_trees)))) }
{
    let Some((zoom, input)) = placed_input(any, input)? else {
        return Ok(None);
    };
    match output_form(alloc, output, row)? {
        Some(output) => Ok(Some(PlacedStop {
            zoom,
            stop: Category { input, output },
        })),
        None => Ok(None),
    }
}

fn placed_input(any: bool, json: &Json) -> Result<Option<(Option<Spelled>, Input)>, AllocError>
    ensures { IfOk result (λ found. option_map placed_input_seen found ≡ placed_input any (tree_of json.now)) }
{
    match json {
        Json::Object(members) => object_input(any, members),
        json => match input_form(any, json)? {
            Some(input) => Ok(Some((None, input))),
            None => Ok(None),
        },
    }
}

// An input with a zoom: an object of exactly these two.
fn object_input(
    any: bool,
    members: &Members,
) -> Result<Option<(Option<Spelled>, Input)>, AllocError>
    ensures { IfOk result (λ found. option_map placed_input_seen found ≡ object_input any (fields_of members.now)) }
{
    if !has_two_members(members) {
        return Ok(None);
    }
    zoomed_input(any, members.get("zoom"), members.get("value"))
}

#[tactic(auto, using(crate::proofs::StopLists::member_counts))]
fn has_two_members(members: &Members) -> bool
    ensures { result ≡ has_two_fields (fields_of members.now) }
{
    match members.as_slice() {
        [_, _] => true,
        _ => false,
    }
}

fn zoomed_input(
    any: bool,
    zoom: Option<&Json>,
    value: Option<&Json>,
) -> Result<Option<(Option<Spelled>, Input)>, AllocError>
    ensures { IfOk result (λ found. option_map placed_input_seen found
        ≡ zoomed_input any (option_map (λ j. tree_of j.now) zoom.entry) (option_map (λ j. tree_of j.now) value.entry)) }
{
    let Some(zoom) = zoom else {
        return Ok(None);
    };
    let Some(value) = value else {
        return Ok(None);
    };
    let Some(zoom) = number_form(zoom)? else {
        return Ok(None);
    };
    match input_form(any, value)? {
        Some(input) => Ok(Some((Some(zoom), input))),
        None => Ok(None),
    }
}
