//! Rules of stops.

ghost use Rattle.std.specs.Prelude.{◌≡◌, ◌++◌, None, true, map, option_map, List, ◌∷◌, IfOk};
ghost use Rattle.legacy_functions.specs.Form.{Stop, some_of, rule_form, plain_stops, never_descend, number_stops};
ghost use Rattle.legacy_functions.specs.Form.{without_repeated, equals_before};
ghost use Rattle.legacy_functions.specs.FoundView.{way_read, way_seen_for, is_over_numbers};
ghost use Rattle.legacy_functions.specs.Function.{Spelled as SpelledData, Output as OutputData};
ghost use Rattle.legacy_functions.specs.Parts.{category_seen, stop_seen};
ghost use Rattle.legacy_functions.specs.PlacedView.{placed_stop_seen};
ghost use Rattle.legacy_functions.specs.View.{rule_seen};

use crate::categories::Categories;
use crate::function::{Category, FunctionType, Input, NumberStop, PropertyRule};
use crate::members::FoundMembers;
use crate::placed::PlacedStop;
use crate::stops::NumberStops;
use fixed_num::Fixed;
use std::alloc::{AllocError, Global};

#[tactic(auto, using(crate::proofs::StopLists::after_first))]
pub(crate) fn plain_stops(
    alloc: Global,
    stops: Vec<PlacedStop>,
) -> Result<Option<Vec<Category>>, AllocError>
    ensures { IfOk result (λ found. option_map (λ v. map category_seen v.items) found
        ≡ plain_stops (map placed_stop_seen stops.items)) }
{
    let mut plain = Vec::with_capacity(alloc, stops.len())?;
    for placed in stops {
        let PlacedStop { zoom, stop } = placed;
        if zoom.is_some() {
            return Ok(None);
        }
        plain.push(stop)?;
    }
    Ok(Some(plain))
}

/// A rule over numbers, or of categories where the kind has no way to go over numbers.
pub(crate) fn rule_form(
    alloc: Global,
    stops: Vec<Category>,
    found: &FoundMembers,
) -> Result<Option<PropertyRule>, AllocError>
    ensures { IfOk result (λ rule. option_map (rule_seen (way_seen_for found.now)) rule
        ≡ rule_form (way_read found.now) (map category_seen stops.items)) }
{
    if !never_descend(stops.as_slice()) {
        return Ok(None);
    }
    if is_over_numbers(found.kind) {
        match number_stops(alloc, stops)? {
            Some(stops) => Ok(Some(PropertyRule::Numeric(stops))),
            None => Ok(None),
        }
    } else {
        match Categories::of(alloc, stops)? {
            Some(stops) => Ok(Some(PropertyRule::Categorical(stops))),
            None => Ok(None),
        }
    }
}

fn is_over_numbers(kind: FunctionType) -> bool
    ensures { result ≡ is_over_numbers kind }
{
    match kind {
        FunctionType::Exponential | FunctionType::Interval => true,
        FunctionType::Categorical | FunctionType::Identity => false,
    }
}

fn never_descend(stops: &[Category]) -> bool
    ensures { result ≡ never_descend None (map category_seen stops.now) }
{
    let mut before: Option<Fixed> = None;
    for stop in stops {
        if let Input::Number(number) = &stop.input {
            if let Some(before) = before {
                if number.value.millionths() < before.millionths() {
                    return false;
                }
            }
            before = Some(number.value);
        }
    }
    true
}

// The stops over numbers without those whose input equals the one before.
#[tactic(auto, using(crate::proofs::ClimbLaws::kept_ascend))]
fn number_stops(alloc: Global, stops: Vec<Category>) -> Result<Option<NumberStops>, AllocError>
    requires { never_descend None (map category_seen stops.items) ≡ true }
    ensures { IfOk result (λ made. option_map (map stop_seen) made
        ≡ some_of (without_repeated None (number_stops (map category_seen stops.items)))) }
{
    let kept = kept_stops(alloc, stops)?;
    NumberStops::of(alloc, kept)
}

fn kept_stops(alloc: Global, stops: Vec<Category>) -> Result<Vec<NumberStop>, AllocError>
    ensures { IfOk result (λ kept.
        map stop_seen kept.items ≡ without_repeated None (number_stops (map category_seen stops.items))) }
{
    let mut kept = Vec::with_capacity(alloc, stops.len())?;
    let mut before: Option<Fixed> = None;
    for stop in stops {
        before = keep_stop(&mut kept, before, stop)?;
    }
    Ok(kept)
}

// Keeps a stop over a number, unless its input is the one before. Gives the number that is then before the
// next.
fn keep_stop(
    kept: &mut Vec<NumberStop>,
    before: Option<Fixed>,
    stop: Category,
) -> Result<Option<Fixed>, AllocError>
    ensures { (later : List Stop) → IfOk result (λ b.
        map stop_seen kept.new.items ++ without_repeated b (number_stops later)
        ≡ map stop_seen kept.old.items ++ without_repeated before (number_stops (category_seen stop ∷ later))) }
{
    let Category { input, output } = stop;
    match input {
        Input::Number(input) => {
            let value = input.value;
            keep_number(kept, before, value, NumberStop { input, output })
        }
        Input::Flag(_) => Ok(before),
        Input::Word(_) => Ok(before),
    }
}

fn keep_number(
    kept: &mut Vec<NumberStop>,
    before: Option<Fixed>,
    value: Fixed,
    stop: NumberStop,
) -> Result<Option<Fixed>, AllocError>
    requires { value ≡ stop.input.value }
    ensures { (later : List (SpelledData × OutputData)) → IfOk result (λ b.
        map stop_seen kept.new.items ++ without_repeated b later
        ≡ map stop_seen kept.old.items ++ without_repeated before (stop_seen stop ∷ later)) }
{
    if equals_before(&before, value) {
        Ok(before)
    } else {
        kept.push(stop)?;
        Ok(Some(value))
    }
}

fn equals_before(before: &Option<Fixed>, value: Fixed) -> bool
    ensures { result ≡ equals_before before.now value }
{
    match before {
        Some(before) => before.millionths() == value.millionths(),
        None => false,
    }
}
