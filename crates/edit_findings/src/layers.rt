//! The findings of a document to which a layer is added.

ghost use Rattle.std.specs.Prelude.{◌≡◌, ℕ, ◌+◌, ◌<◌, ◌≤◌, ◌^◌, List, [], ◌∷◌, ◌++◌, length, map, nat_le, not, Some};
ghost use Rattle.std.specs.Prelude.{option_map, IfOk, IfSome, OnOk};
ghost use Rattle.std.specs.Option.{option_and_then};
ghost use Rattle.decimal_json.specs.Tree.{Tree, trees_of};
ghost use Rattle.decimal_json.specs.View.{items_view, path_of, tree_of};
ghost use Rattle.style_edits.specs.Layers.{layer_list};
ghost use Rattle.style_edits.specs.Places.{layer_place};
ghost use Rattle.style_rules.specs.CodeView.{finding_seen, has_name};
ghost use Rattle.style_rules.specs.Places.{used_in};
ghost use Rattle.edit_findings.specs.FoundAfter.{added_found, differs, id_of, later_found, layer_found, layers_path};
ghost use Rattle.edit_findings.specs.FoundAfter.{most_layers, own_found, same_found};

use decimal_json::{Here, Json, Text, path_to};
use prop_values::{Entries, Value};
use std::alloc::{AllocError, Global};
use style_edits::{EditPlaces, text_id};
use style_parts::{is_id_of, layers_of};
use style_rules::{Finding, Findings, documents_have_distinct_members, layer_findings};

const MOST_LAYERS: usize = 65_536;

#[tactic(auto, using(style_edits::proofs::DocumentLaws::layers_listed))]
pub(crate) fn layer_list(document: &Json) -> &[Json]
    ensures { items_view result.now ≡ layer_list (tree_of document.now) }
{
    layers_of(document)
}

/// What a document breaks once a layer was put before the one at a place, or last.
pub(crate) fn after_addition(
    alloc: Global,
    document: &Json,
    places: EditPlaces,
    layer: &Json,
) -> Result<Findings, AllocError>
    requires before { IfSome places.before (λ i. i < length (layer_list (tree_of document.now))) }
    requires same { places.same
        ≡ option_and_then (layer_place (layer_list (tree_of document.now))) (id_of (tree_of layer.now)) }
    ensures { IfOk result
        (λ found. map finding_seen found ≡ added_found (tree_of document.now) places.before (tree_of layer.now)) }
{
    let layers = layer_list(document);
    if !has_room(layers) {
        return too_many(alloc);
    }
    let place = match places.before {
        Some(place) => place,
        None => layers.len(),
    };
    after_layer(alloc, document, place, places.same, layer)
}

#[tactic(auto, using(crate::proofs::KeyedLaws::room_is))]
fn has_room(layers: &[Json]) -> bool
    ensures { result ≡ nat_le (length (items_view layers.now) + 1) most_layers }
{
    layers.len() < MOST_LAYERS
}

fn too_many(alloc: Global) -> Result<Findings, AllocError>
    ensures { IfOk result (λ found. map finding_seen found ≡ (layers_path, 5) ∷ []) }
{
    let mut found = Findings::new(alloc);
    found.push(finding_at(alloc, &Here::Key("layers", &Here::Root), 5)?)?;
    Ok(found)
}

fn finding_at(alloc: Global, here: &Here<'_>, rule: u8) -> Result<Finding, AllocError>
    ensures { IfOk result (λ finding. finding_seen finding ≡ (path_of here.now, rule)) }
{
    let path = path_to(alloc, here)?;
    Ok(Finding { path, rule })
}

/// What a new layer at a place breaks, and its id in those after it. `same` is the place of the first that has its id.
fn after_layer(
    alloc: Global,
    document: &Json,
    place: usize,
    same: Option<usize>,
    layer: &Json,
) -> Result<Findings, AllocError>
    requires within { place ≤ length (layer_list (tree_of document.now)) }
    requires same { same ≡ option_and_then (layer_place (layer_list (tree_of document.now)))
        (id_of (tree_of layer.now)) }
    ensures { IfOk result
        (λ found. map finding_seen found ≡ layer_found (tree_of document.now) place (tree_of layer.now)) }
{
    let mut found = own_findings(alloc, document, place, same, layer)?;
    match same {
        Some(_) => {
            push_later(
                alloc,
                layer,
                place,
                &layer_list(document)[place..],
                &mut found,
            )?;
            Ok(found)
        }
        None => Ok(found),
    }
}

fn own_findings(
    alloc: Global,
    document: &Json,
    place: usize,
    same: Option<usize>,
    layer: &Json,
) -> Result<Findings, AllocError>
    requires { same ≡ option_and_then (layer_place (layer_list (tree_of document.now))) (id_of (tree_of layer.now)) }
    ensures { IfOk result
        (λ found. map finding_seen found ≡ own_found (tree_of document.now) place (tree_of layer.now)) }
{
    documents_have_distinct_members(layer);
    let used = used_ids(alloc, is_before(same, place), text_id(layer))?;
    let layers = Here::Key("layers", &Here::Root);
    layer_findings(alloc, document, &used, layer, &Here::Index(place, &layers))
}

// Whether the first layer that has an id is before a place.
fn is_before(first: Option<usize>, place: usize) -> bool
    ensures { (ts : List Tree) (id : List ℕ) → first ≡ layer_place ts id → result ≡ used_in (trees_of ts) place id }
{
    match first {
        Some(first) => first < place,
        None => false,
    }
}

/// An id, if it is used.
fn used_ids(alloc: Global, is_used: bool, id: Option<&Text>) -> Result<Entries, AllocError>
    ensures { IfOk result
        (λ used. (s : List ℕ) → option_map (λ own. own.now) id.entry ≡ Some s → has_name used s ≡ is_used) }
{
    let mut used = Entries::new(alloc);
    if let Some(id) = id {
        if is_used {
            used.set(id.share()?, Value::Null)?;
        }
    }
    Ok(used)
}

/// Adds the findings of the layers after a new one that have its id.
fn push_later(
    alloc: Global,
    layer: &Json,
    place: usize,
    later: &[Json],
    found: &mut Findings,
) -> Result<(), AllocError>
    requires { place + length later.now < 2 ^ 63 }
    ensures { OnOk result (map finding_seen found.new ≡ map finding_seen found.old
        ++ later_found (id_of (tree_of layer.now)) (place + 1) (items_view later.now)) }
{
    let mut number = place + 1;
    for one in later {
        push_if_same(alloc, layer, number, one, found)?;
        number += 1;
    }
    Ok(())
}

fn push_if_same(
    alloc: Global,
    layer: &Json,
    number: usize,
    later: &Json,
    found: &mut Findings,
) -> Result<(), AllocError>
    ensures { OnOk result (map finding_seen found.new ≡ map finding_seen found.old ++ same_found
        (id_of (tree_of layer.now)) number (tree_of later.now)) }
{
    if !has_id_of(later, layer) {
        return Ok(());
    }
    let layers = Here::Key("layers", &Here::Root);
    let here = Here::Index(number, &layers);
    found.push(finding_at(alloc, &Here::Key("id", &here), 8)?)
}

fn has_id_of(later: &Json, layer: &Json) -> bool
    ensures { result ≡ not (differs (id_of (tree_of layer.now)) (id_of (tree_of later.now))) }
{
    match text_id(later) {
        Some(id) => is_id_of(id.as_str(), layer),
        None => false,
    }
}
