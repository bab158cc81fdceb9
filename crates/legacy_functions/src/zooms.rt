//! Rules of zooms.

ghost use Rattle.std.specs.Prelude.{◌≡◌, ◌<◌, ◌++◌, ◌∷◌, [], None, true, length, map, option_map, List, IfOk, OnOk};
ghost use Rattle.std.specs.Ordering.{int_eq};
ghost use Rattle.legacy_functions.specs.Form.{zoomed_stops, zooms_never_descend, by_zoom, rules_form, zoomed_form};
ghost use Rattle.legacy_functions.specs.FoundView.{way_read, way_seen_for};
ghost use Rattle.legacy_functions.specs.GroupView.{Zoomed, zoomed_stop_seen, group_seen, onto, new_group, with_stop};
ghost use Rattle.legacy_functions.specs.PlacedView.{placed_stop_seen};
ghost use Rattle.legacy_functions.specs.View.{body_seen, zoom_rule_seen};

use crate::function::{Body, Category, Spelled, ZoomRule};
use crate::members::FoundMembers;
use crate::placed::PlacedStop;
use crate::rules::rule_form;
use crate::stops::ZoomRules;
use fixed_num::Fixed;
use std::alloc::{AllocError, Global};

#[derive(Drop)]
pub(crate) struct ZoomedStop {
    zoom: Spelled,
    stop: Category,
}

// The stops of one zoom, whose text is that of the first.
#[derive(Drop)]
pub(crate) struct ZoomGroup {
    zoom: Spelled,
    stops: Vec<Category>,
}

/// The stops with their zooms, or none where one has no zoom.
#[tactic(auto, using(crate::proofs::StopLists::after_first))]
pub(crate) fn zoomed_stops(
    alloc: Global,
    stops: Vec<PlacedStop>,
) -> Result<Option<Vec<ZoomedStop>>, AllocError>
    ensures { IfOk result (λ found. option_map (λ v. map zoomed_stop_seen v.items) found
        ≡ zoomed_stops (map placed_stop_seen stops.items)) }
{
    let mut zoomed = Vec::with_capacity(alloc, stops.len())?;
    for placed in stops {
        let PlacedStop { zoom, stop } = placed;
        let Some(zoom) = zoom else {
            return Ok(None);
        };
        zoomed.push(ZoomedStop { zoom, stop })?;
    }
    Ok(Some(zoomed))
}

/// A rule for each zoom.
#[tactic(auto, using(crate::proofs::ClimbLaws::zooms_ascend))]
pub(crate) fn zoomed_form(
    alloc: Global,
    stops: Vec<ZoomedStop>,
    found: &FoundMembers,
) -> Result<Option<Body>, AllocError>
    ensures { IfOk result (λ body. option_map (body_seen (way_seen_for found.now)) body
        ≡ zoomed_form (way_read found.now) (map zoomed_stop_seen stops.items)) }
{
    if !zooms_never_descend(stops.as_slice()) {
        return Ok(None);
    }
    let groups = groups_of(alloc, stops)?;
    let Some(rules) = rules_form(alloc, groups, found)? else {
        return Ok(None);
    };
    match ZoomRules::of(alloc, rules)? {
        Some(rules) => Ok(Some(Body::Zoomed(rules))),
        None => Ok(None),
    }
}

fn zooms_never_descend(stops: &[ZoomedStop]) -> bool
    ensures { result ≡ zooms_never_descend None (map zoomed_stop_seen stops.now) }
{
    let mut before: Option<Fixed> = None;
    for stop in stops {
        if let Some(before) = before {
            if stop.zoom.value.millionths() < before.millionths() {
                return false;
            }
        }
        before = Some(stop.zoom.value);
    }
    true
}

fn groups_of(alloc: Global, stops: Vec<ZoomedStop>) -> Result<Vec<ZoomGroup>, AllocError>
    ensures { IfOk result (λ groups. map group_seen groups.items ≡ by_zoom (map zoomed_stop_seen stops.items)) }
{
    let mut groups = Vec::new(alloc);
    for stop in stops {
        put_stop(alloc, &mut groups, stop)?;
    }
    Ok(groups)
}

// Puts a stop into the last group, where that has its zoom, or else into a new one.
#[tactic(auto, using(crate::proofs::GroupLaws::put_first))]
fn put_stop(alloc: Global, groups: &mut Vec<ZoomGroup>, stop: ZoomedStop) -> Result<(), AllocError>
    ensures { (later : List Zoomed) → OnOk result (
        onto (map group_seen groups.new.items) (by_zoom later)
        ≡ onto (map group_seen groups.old.items) (by_zoom (zoomed_stop_seen stop ∷ later))) }
{
    match groups.pop() {
        Some(last) => put_beside(alloc, groups, last, stop),
        None => put_first(alloc, groups, stop),
    }
}

// Puts a stop into a group, or into a new one after it.
#[tactic(auto, using(crate::proofs::GroupLaws::put_after))]
fn put_beside(
    alloc: Global,
    groups: &mut Vec<ZoomGroup>,
    last: ZoomGroup,
    stop: ZoomedStop,
) -> Result<(), AllocError>
    ensures { (later : List Zoomed) → OnOk result (
        onto (map group_seen groups.new.items) (by_zoom later)
        ≡ onto (map group_seen groups.old.items ++ group_seen last ∷ []) (by_zoom (zoomed_stop_seen stop ∷ later))) }
{
    if has_zoom(&last, &stop) {
        put_into(groups, last, stop)
    } else {
        put_after(alloc, groups, last, stop)
    }
}

// Whether the group is that of the stop's zoom.
fn has_zoom(last: &ZoomGroup, stop: &ZoomedStop) -> bool
    ensures { result ≡ int_eq (group_seen last.now).0.value (zoomed_stop_seen stop.now).0.value }
{
    last.zoom.value.millionths() == stop.zoom.value.millionths()
}

// Puts a stop into a group.
fn put_into(
    groups: &mut Vec<ZoomGroup>,
    last: ZoomGroup,
    stop: ZoomedStop,
) -> Result<(), AllocError>
    ensures { OnOk result (
        map group_seen groups.new.items
        ≡ map group_seen groups.old.items ++ with_stop (group_seen last) (zoomed_stop_seen stop) ∷ []) }
{
    let ZoomGroup { zoom, mut stops } = last;
    let ZoomedStop { zoom: _zoom, stop } = stop;
    stops.push(stop)?;
    groups.push(ZoomGroup { zoom, stops })?;
    Ok(())
}

// Puts a stop into a new group after one.
fn put_after(
    alloc: Global,
    groups: &mut Vec<ZoomGroup>,
    last: ZoomGroup,
    stop: ZoomedStop,
) -> Result<(), AllocError>
    ensures { OnOk result (
        map group_seen groups.new.items
        ≡ (map group_seen groups.old.items ++ group_seen last ∷ []) ++ new_group (zoomed_stop_seen stop) ∷ []) }
{
    groups.push(last)?;
    put_first(alloc, groups, stop)
}

// Puts a stop into a new group.
fn put_first(alloc: Global, groups: &mut Vec<ZoomGroup>, stop: ZoomedStop) -> Result<(), AllocError>
    ensures { OnOk result (
        map group_seen groups.new.items
        ≡ map group_seen groups.old.items ++ new_group (zoomed_stop_seen stop) ∷ []) }
{
    let ZoomedStop { zoom, stop } = stop;
    let mut stops = Vec::with_capacity(alloc, 1)?;
    stops.push(stop)?;
    groups.push(ZoomGroup { zoom, stops })?;
    Ok(())
}

// The rule of each group, or none where the stops of one are none of a rule.
#[tactic(auto, using(crate::proofs::StopLists::after_first))]
fn rules_form(
    alloc: Global,
    groups: Vec<ZoomGroup>,
    found: &FoundMembers,
) -> Result<Option<Vec<ZoomRule>>, AllocError>
    ensures { IfOk result (λ rules.
        option_map (λ v. map (zoom_rule_seen (way_seen_for found.now)) v.items) rules
        ≡ rules_form (way_read found.now) (map group_seen groups.items)) }
{
    let mut rules = Vec::new(alloc);
    for group in groups {
        let ZoomGroup { zoom, stops } = group;
        match rule_form(alloc, stops, found)? {
            Some(rule) => rules.push(ZoomRule { zoom, rule })?,
            None => return Ok(None),
        }
    }
    Ok(Some(rules))
}
