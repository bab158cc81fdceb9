//! How a legacy function is read.

ghost use Rattle.std.specs.Prelude.{◌≡◌, Some, map, is_some, option_map, IfOk};
ghost use Rattle.decimal_json.specs.Tree.{fields_of};
ghost use Rattle.decimal_json.specs.View.{tree_of};
ghost use Rattle.property_tables.specs.RowView.{row_seen};
ghost use Rattle.legacy_functions.specs.Form.{form, kind_body, stops_body, body_of, begins_with_zoom, plain_form};
ghost use Rattle.legacy_functions.specs.Form.{inside, is_zoomed};
ghost use Rattle.legacy_functions.specs.declared.function.FunctionType.TheVariants.{Exponential};
ghost use Rattle.legacy_functions.specs.FoundView.{members_seen, way_read, way_seen_for, way_inside, way_kept};
ghost use Rattle.legacy_functions.specs.Function.{Way as WayData};
ghost use Rattle.legacy_functions.specs.Parts.{spelled_seen};
ghost use Rattle.legacy_functions.specs.PlacedView.{placed_stop_seen};
ghost use Rattle.legacy_functions.specs.View.{reading_seen, inside_seen, IsOfRow, way_seen, body_seen};

use crate::function::{Body, Function, FunctionFault, FunctionReading, FunctionType, Spelled, Way};
use crate::members::{FoundMembers, members_form};
use crate::placed::{PlacedStop, stops_form};
use crate::rules::{plain_stops, rule_form};
use crate::stops::Base;
use crate::zooms::{zoomed_form, zoomed_stops};
use decimal_json::{Json, Members};
use property_tables::Row;
use std::alloc::{AllocError, Global};

/// The legacy function that an object is on a row, or that it is outside: it has a color space, or its base
/// is one that is not evaluated.
pub fn read(
    alloc: Global,
    json: &Json,
    row: &Row,
) -> Result<Result<FunctionReading, FunctionFault>, AllocError>
    ensures function { IfOk result (λ read. reading_seen read ≡ form (row_seen row.now) (tree_of json.now)) }
    ensures row { IfOk result (λ read. IfOk read (IsOfRow (row_seen row.now))) }
{
    let Json::Object(members) = json else {
        return Ok(Err(FunctionFault));
    };
    let Some(found) = members_form(alloc, members, row)? else {
        return Ok(Err(FunctionFault));
    };
    let Some(body) = body_form(alloc, members, &found, row)? else {
        return Ok(Err(FunctionFault));
    };
    Ok(Ok(inside(members, found, body, row)))
}

fn body_form(
    alloc: Global,
    members: &Members,
    found: &FoundMembers,
    row: &Row,
) -> Result<Option<Body>, AllocError>
    ensures { IfOk result (λ body. option_map (body_seen (way_seen_for found.now)) body
        ≡ kind_body found.now.kind (row_seen row.now) (members_seen (fields_of members.now) found.now)) }
{
    match found.kind {
        FunctionType::Exponential => stops_body(alloc, members, found, row),
        FunctionType::Interval => stops_body(alloc, members, found, row),
        FunctionType::Categorical => {
            if found.property.is_some() {
                stops_body(alloc, members, found, row)
            } else {
                Ok(None)
            }
        }
        FunctionType::Identity => {
            if found.property.is_some() && members.get("stops").is_none() {
                Ok(Some(Body::Identity))
            } else {
                Ok(None)
            }
        }
    }
}

fn stops_body(
    alloc: Global,
    members: &Members,
    found: &FoundMembers,
    row: &Row,
) -> Result<Option<Body>, AllocError>
    ensures { IfOk result (λ body. option_map (body_seen (way_seen_for found.now)) body
        ≡ stops_body (row_seen row.now) (members_seen (fields_of members.now) found.now)) }
{
    let Some(stops) = members.get("stops") else {
        return Ok(None);
    };
    let any = matches!(found.kind, FunctionType::Categorical);
    match stops_form(alloc, any, stops, row)? {
        Some(stops) => body_of(alloc, stops, found),
        None => Ok(None),
    }
}

fn body_of(
    alloc: Global,
    stops: Vec<PlacedStop>,
    found: &FoundMembers,
) -> Result<Option<Body>, AllocError>
    ensures { IfOk result (λ body. option_map (body_seen (way_seen_for found.now)) body
        ≡ body_of (way_read found.now) (is_some found.now.property) (map placed_stop_seen stops.items)) }
{
    if found.property.is_some() && begins_with_zoom(stops.as_slice()) {
        match zoomed_stops(alloc, stops)? {
            Some(stops) => zoomed_form(alloc, stops, found),
            None => Ok(None),
        }
    } else {
        plain_form(alloc, stops, found)
    }
}

fn begins_with_zoom(stops: &[PlacedStop]) -> bool
    ensures { result ≡ begins_with_zoom (map placed_stop_seen stops.now) }
{
    match stops {
        [] => false,
        [first, ..] => first.zoom.is_some(),
    }
}

fn plain_form(
    alloc: Global,
    stops: Vec<PlacedStop>,
    found: &FoundMembers,
) -> Result<Option<Body>, AllocError>
    ensures { IfOk result (λ body. option_map (body_seen (way_seen_for found.now)) body
        ≡ plain_form (way_read found.now) (map placed_stop_seen stops.items)) }
{
    let Some(stops) = plain_stops(alloc, stops)? else {
        return Ok(None);
    };
    match rule_form(alloc, stops, found)? {
        Some(rule) => Ok(Some(Body::Plain(rule))),
        None => Ok(None),
    }
}

fn inside(members: &Members, found: FoundMembers, body: Body, row: &Row) -> FunctionReading
    ensures function { inside_seen result
        ≡ inside (members_seen (fields_of members.now) found) (body_seen (way_seen_for found) body) }
    ensures row { IsOfRow (row_seen row.now) result }
{
    if members.get("colorSpace").is_some() {
        return FunctionReading::Outside;
    }
    let FoundMembers {
        kind,
        base,
        property,
        fallback,
    } = found;
    match way_inside(kind, base, is_zoomed(&body)) {
        Some(way) => FunctionReading::Inside(Function {
            row: row.copy(),
            property,
            fallback,
            way,
            body,
        }),
        None => FunctionReading::Outside,
    }
}

fn is_zoomed(body: &Body) -> bool
    ensures { (way : WayData) → result ≡ is_zoomed (body_seen way body.now) }
{
    match body {
        Body::Zoomed(_) => true,
        _ => false,
    }
}

// The way of a function, or none where it is outside: where its base is not above 0, or is not 1 and its
// inputs have zooms.
fn way_inside(kind: FunctionType, base: Option<Spelled>, over_zooms: bool) -> Option<Way>
    ensures { option_map way_seen result ≡ way_inside kind (option_map spelled_seen base) over_zooms }
{
    match kind {
        FunctionType::Exponential => match base {
            Some(base) => curve_inside(base, over_zooms),
            None => Some(Way::Even),
        },
        _ => Some(Way::Stepped),
    }
}

fn curve_inside(base: Spelled, over_zooms: bool) -> Option<Way>
    ensures { option_map way_seen result ≡ way_inside Exponential (Some (spelled_seen base)) over_zooms }
{
    if base.value.millionths() == 1_000_000 {
        return Some(Way::Even);
    }
    match Base::of(base) {
        Some(base) if !over_zooms => Some(Way::Curved(base)),
        _ => None,
    }
}
