//! The layers after an edit.

ghost use Rattle.std.specs.Prelude.{◌≡◌, ◌<◌, ◌≤◌, length, insert, slice_set, codes, false, true, IsOk, IfOk, IfSome};
ghost use Rattle.std.specs.Prelude.{OnOk, OnErr};
ghost use Rattle.decimal_json.specs.Tree.{Tree};
ghost use Rattle.decimal_json.specs.View.{tree_of};
ghost use Rattle.edit_script.specs.View.{command_seen};
ghost use Rattle.style_edits.specs.ByPlace.{edited_at, changed_at, removed_at, inserted_at, place_moved_to, moved_at};
ghost use Rattle.style_edits.specs.Needs.{removes_layer, takes_memory};
ghost use Rattle.style_edits.specs.Layer.{with_property, with_filter, with_range};
ghost use Rattle.style_edits.specs.Undone.{adds_nothing, undone_layers, restores_layer, IsWithin};

use crate::layer::{with_filter, with_property, with_range};
use crate::places::EditPlaces;
use crate::undo::Undo;
use decimal_json::{Items, Json, Text, copy};
use edit_script::Command;
use fixed_num::Fixed;
use std::alloc::{AllocError, Global};

/// Edits the layers, and gives what takes the edit back.
pub(crate) fn edit_layers(
    alloc: Global,
    layers: &mut Items,
    places: EditPlaces,
    command: &Command,
) -> Result<Undo, AllocError>
    requires layer { IfSome places.layer (λ i. i < length layers.old) }
    requires before { IfSome places.before (λ i. i < length layers.old) }
    ensures edited { OnOk result (layers.new ≡ edited_at (command_seen command.now) places layers.old) }
    ensures within { IfOk result (λ undo. IsWithin undo layers.new) }
    ensures undo { IfOk result (λ undo. undone_layers undo layers.new ≡ layers.old) }
    ensures err { OnErr result (layers.new ≡ layers.old) }
    ensures restores { removes_layer (command_seen command.now) ≡ false
        → IfOk result (λ undo. restores_layer undo ≡ false) }
    ensures memory { takes_memory (command_seen command.now) ≡ false → IsOk result }
    ensures adds { takes_memory (command_seen command.now) ≡ false → IfOk result (λ undo. adds_nothing undo ≡ true) }
{
    match command {
        Command::SetPaint(_, name, value) => {
            set_property(alloc, layers, places.layer, "paint", name, value)
        }
        Command::SetLayout(_, name, value) => {
            set_property(alloc, layers, places.layer, "layout", name, value)
        }
        Command::SetFilter(_, filter) => set_filter(alloc, layers, places.layer, filter),
        Command::SetRange(_, min, max) => set_range(alloc, layers, places.layer, *min, *max),
        Command::AddLayer(layer, _) => add_layer(alloc, layers, places.before, layer),
        Command::RemoveLayer(_) => Ok(remove_layer(layers, places.layer)),
        Command::MoveLayer(_, _) => Ok(move_layer(layers, places.layer, places.before)),
        _ => Ok(Undo::Nothing),
    }
}

fn set_property(
    alloc: Global,
    layers: &mut Items,
    place: Option<usize>,
    key: &str,
    name: &Text,
    value: &Json,
) -> Result<Undo, AllocError>
    requires { IfSome place (λ i. i < length layers.old) }
    ensures edited { OnOk result (layers.new
        ≡ changed_at place (with_property key.now name.now (tree_of value.now)) layers.old) }
    ensures within { IfOk result (λ undo. IsWithin undo layers.new) }
    ensures undo { IfOk result (λ undo. undone_layers undo layers.new ≡ layers.old) }
    ensures err { OnErr result (layers.new ≡ layers.old) }
    ensures restores { IfOk result (λ undo. restores_layer undo ≡ false) }
{
    let Some(place) = place else {
        return Ok(Undo::Nothing);
    };
    let layer = with_property(alloc, &layers.as_slice()[place], key, name, value)?;
    Ok(replace_layer(layers, place, layer))
}

fn set_filter(
    alloc: Global,
    layers: &mut Items,
    place: Option<usize>,
    filter: &Json,
) -> Result<Undo, AllocError>
    requires { IfSome place (λ i. i < length layers.old) }
    ensures edited { OnOk result (layers.new ≡ changed_at place (with_filter (tree_of filter.now)) layers.old) }
    ensures within { IfOk result (λ undo. IsWithin undo layers.new) }
    ensures undo { IfOk result (λ undo. undone_layers undo layers.new ≡ layers.old) }
    ensures err { OnErr result (layers.new ≡ layers.old) }
    ensures restores { IfOk result (λ undo. restores_layer undo ≡ false) }
{
    let Some(place) = place else {
        return Ok(Undo::Nothing);
    };
    let layer = with_filter(alloc, &layers.as_slice()[place], filter)?;
    Ok(replace_layer(layers, place, layer))
}

fn set_range(
    alloc: Global,
    layers: &mut Items,
    place: Option<usize>,
    min: Option<Fixed>,
    max: Option<Fixed>,
) -> Result<Undo, AllocError>
    requires { IfSome place (λ i. i < length layers.old) }
    ensures edited { OnOk result (layers.new ≡ changed_at place (with_range min max) layers.old) }
    ensures within { IfOk result (λ undo. IsWithin undo layers.new) }
    ensures undo { IfOk result (λ undo. undone_layers undo layers.new ≡ layers.old) }
    ensures err { OnErr result (layers.new ≡ layers.old) }
    ensures restores { IfOk result (λ undo. restores_layer undo ≡ false) }
{
    let Some(place) = place else {
        return Ok(Undo::Nothing);
    };
    let layer = with_range(alloc, &layers.as_slice()[place], min, max)?;
    Ok(replace_layer(layers, place, layer))
}

#[tactic(auto, using(crate::proofs::ListLaws::set_back))]
fn replace_layer(layers: &mut Items, place: usize, layer: Json) -> Undo
    requires { place < length layers.old }
    ensures edited { layers.new ≡ slice_set layers.old place (tree_of layer) }
    ensures within { IsWithin result layers.new }
    ensures undo { undone_layers result layers.new ≡ layers.old }
    ensures restores { restores_layer result ≡ false }
{
    Undo::Changed(place, layers.replace(place, layer))
}

#[tactic(auto, using(crate::proofs::ListLaws::remove_inserted))]
fn add_layer(
    alloc: Global,
    layers: &mut Items,
    before: Option<usize>,
    layer: &Json,
) -> Result<Undo, AllocError>
    requires { IfSome before (λ i. i < length layers.old) }
    ensures edited { OnOk result (layers.new ≡ inserted_at before (tree_of layer.now) layers.old) }
    ensures within { IfOk result (λ undo. IsWithin undo layers.new) }
    ensures undo { IfOk result (λ undo. undone_layers undo layers.new ≡ layers.old) }
    ensures err { OnErr result (layers.new ≡ layers.old) }
    ensures restores { IfOk result (λ undo. restores_layer undo ≡ false) }
{
    let layer = copy(alloc, layer)?;
    let place = place_for(layers, before);
    layers.insert(place, layer)?;
    Ok(Undo::Added(place))
}

// The place of a layer that is put before another, or last.
#[tactic(auto, using(crate::proofs::ListLaws::insert_last))]
fn place_for(layers: &Items, before: Option<usize>) -> usize
    requires { IfSome before (λ i. i < length layers.now) }
    ensures within { result ≤ length layers.now }
    ensures place { (layer : Tree) → insert layers.now result layer ≡ inserted_at before layer layers.now }
{
    match before {
        Some(place) => place,
        None => layers.as_slice().len(),
    }
}

#[tactic(auto, using(crate::proofs::ListLaws::insert_removed))]
fn remove_layer(layers: &mut Items, place: Option<usize>) -> Undo
    requires { IfSome place (λ i. i < length layers.old) }
    ensures edited { layers.new ≡ removed_at place layers.old }
    ensures within { IsWithin result layers.new }
    ensures undo { undone_layers result layers.new ≡ layers.old }
    ensures adds { adds_nothing result ≡ true }
{
    match place {
        None => Undo::Nothing,
        Some(place) => Undo::Removed(place, layers.remove(place)),
    }
}

fn move_layer(layers: &mut Items, place: Option<usize>, before: Option<usize>) -> Undo
    requires place { IfSome place (λ i. i < length layers.old) }
    requires before { IfSome before (λ i. i < length layers.old) }
    ensures edited { layers.new ≡ moved_at place before layers.old }
    ensures within { IsWithin result layers.new }
    ensures undo { undone_layers result layers.new ≡ layers.old }
    ensures restores { restores_layer result ≡ false }
    ensures adds { adds_nothing result ≡ true }
{
    let Some(from) = place else {
        return Undo::Nothing;
    };
    if before == Some(from) {
        return Undo::Nothing;
    }
    let to = place_moved_to(from, before, layers.as_slice().len());
    layers.move_item(from, to);
    Undo::Moved(from, to)
}

/// The place to which the layer at a place moves, of so many, if it is put before another, or last.
pub fn place_moved_to(from: usize, before: Option<usize>, count: usize) -> usize
    requires from { from < count }
    requires before { IfSome before (λ i. i < count) }
    ensures place { result ≡ place_moved_to from before count }
    ensures within { result < count }
{
    match before {
        Some(before) if from < before => before - 1,
        Some(before) => before,
        None => count - 1,
    }
}
