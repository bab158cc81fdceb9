//! The members of a legacy function but for its stops.

ghost use Rattle.std.specs.Prelude.{◌≡◌, option_map, IfOk};
ghost use Rattle.decimal_json.specs.Accessors.{text_in};
ghost use Rattle.decimal_json.specs.Tree.{fields_of};
ghost use Rattle.decimal_json.specs.View.{tree_of};
ghost use Rattle.property_tables.specs.RowView.{row_seen};
ghost use Rattle.legacy_functions.specs.Form.{members_form, has_known_members, kind_form, member_form, number_form};
ghost use Rattle.legacy_functions.specs.Form.{output_form};
ghost use Rattle.legacy_functions.specs.FoundView.{members_seen};
ghost use Rattle.legacy_functions.specs.Parts.{spelled_seen, output_seen};

use crate::function::{FunctionType, Output, Spelled};
use crate::leaves::{number_form, output_form};
use decimal_json::{Json, Members, Text};
use property_tables::Row;
use std::alloc::{AllocError, Global};

/// The members but for the stops.
#[derive(Drop)]
pub(crate) struct FoundMembers {
    pub(crate) kind: FunctionType,
    pub(crate) base: Option<Spelled>,
    pub(crate) property: Option<Text>,
    pub(crate) fallback: Option<Output>,
}

pub(crate) fn members_form(
    alloc: Global,
    members: &Members,
    row: &Row,
) -> Result<Option<FoundMembers>, AllocError>
    ensures { IfOk result (λ found. option_map (members_seen (fields_of members.now)) found
        ≡ members_form (row_seen row.now) (fields_of members.now)) }
{
    if !has_known_members(members) {
        return Ok(None);
    }
    let Some(kind) = kind_form(members.get("type"), row) else {
        return Ok(None);
    };
    let Some(base) = base_form(members.get("base"))? else {
        return Ok(None);
    };
    let Some(property) = property_form(members.get("property"))? else {
        return Ok(None);
    };
    let Some(fallback) = fallback_form(alloc, members.get("default"), row)? else {
        return Ok(None);
    };
    Ok(Some(FoundMembers {
        kind,
        base,
        property,
        fallback,
    }))
}

fn has_known_members(members: &Members) -> bool
    ensures { result ≡ has_known_members (fields_of members.now) }
{
    for member in members.as_slice() {
        match member.key.as_str() {
            "stops" | "property" | "base" | "type" | "default" | "colorSpace" => {}
            _ => return false,
        }
    }
    true
}

fn kind_form(json: Option<&Json>, row: &Row) -> Option<FunctionType>
    ensures { result ≡ kind_form (row_seen row.now) (option_map (λ j. tree_of j.now) json.entry) }
{
    match json {
        None => Some(if row.ramps {
            FunctionType::Exponential
        } else {
            FunctionType::Interval
        }),
        Some(Json::Text(name)) => match name.as_str() {
            "exponential" if row.ramps => Some(FunctionType::Exponential),
            "interval" => Some(FunctionType::Interval),
            "categorical" => Some(FunctionType::Categorical),
            "identity" => Some(FunctionType::Identity),
            _ => None,
        },
        Some(_) => None,
    }
}

fn base_form(json: Option<&Json>) -> Result<Option<Option<Spelled>>, AllocError>
    ensures { IfOk result (λ found. option_map (option_map spelled_seen) found
        ≡ member_form number_form (option_map (λ j. tree_of j.now) json.entry)) }
{
    match json {
        None => Ok(Some(None)),
        Some(json) => match number_form(json)? {
            Some(number) => Ok(Some(Some(number))),
            None => Ok(None),
        },
    }
}

fn property_form(json: Option<&Json>) -> Result<Option<Option<Text>>, AllocError>
    ensures { IfOk result (λ found. found ≡ member_form text_in (option_map (λ j. tree_of j.now) json.entry)) }
{
    match json {
        None => Ok(Some(None)),
        Some(Json::Text(name)) => Ok(Some(Some(name.share()?))),
        Some(_) => Ok(None),
    }
}

fn fallback_form(
    alloc: Global,
    json: Option<&Json>,
    row: &Row,
) -> Result<Option<Option<Output>>, AllocError>
    ensures { IfOk result (λ found. option_map (option_map output_seen) found
        ≡ member_form (output_form (row_seen row.now)) (option_map (λ j. tree_of j.now) json.entry)) }
{
    match json {
        None => Ok(Some(None)),
        Some(json) => match output_form(alloc, json, row)? {
            Some(output) => Ok(Some(Some(output))),
            None => Ok(None),
        },
    }
}
