//! The kept cells of a style after an edit of its layers.

ghost use Rattle.std.specs.Prelude.{◌≡◌, ◌<◌, ◌+◌, List, length, false, IfSome, IsOk, OnOk};
ghost use Rattle.decimal_json.specs.Tree.{Tree};
ghost use Rattle.edit_script.specs.View.{command_seen};
ghost use Rattle.style_edits.specs.ByPlace.{place_moved_to};
ghost use Rattle.style_edits.specs.Needs.{takes_memory};
ghost use Rattle.kept_layers.specs.EditedKept.{edited_kept, item_named};
ghost use Rattle.kept_layers.specs.Following.{AddsBefore, ChangesAt, HasFollowed, IsEditOf, IsEdited, IsPlaceIn};
ghost use Rattle.kept_layers.specs.Following.{MovesAt, RemovesAt};
ghost use Rattle.kept_layers.specs.View.{AreNumbered, IsPrepared, kept_seen, trees_in};

use crate::kept_layers::KeptLayers;
use crate::style_layers::StyleLayers;
use decimal_json::Text;
use edit_script::Command;
use expr_nodes::CountedEvaluator;
use form_pool::FormPool;
use layer_buckets::CellItem;
use property_tables::{Place, row};
use std::alloc::{AllocError, Global};
use style_edits::{EditPlaces, place_moved_to};

/// Follows an edit of a style: what is kept is of its layers before the edit, where those that the edit names were at
/// these places, and `style` is as it is after the edit. The expression of an edited item is read anew, and so are
/// those of an added layer. Takes time linear in the item or the layer that is edited, in its kept cells and in the
/// number of layers; and in the style where the evaluator has twice as many expressions as when all were of items. An
/// edit that puts nothing into the style takes no memory.
pub fn follow(
    alloc: Global,
    kept: &mut KeptLayers,
    command: &Command,
    places: EditPlaces,
    style: &StyleLayers<'_>,
) -> Result<(), AllocError>
    requires numbered { AreNumbered kept.old }
    requires prepared { IsPrepared style.now }
    requires edited { IsEdited ⟦<FormPool as CountedEvaluator>⟧.slots style.now
        places (command_seen command.now) kept.old }
    ensures followed { (before : List Tree)
        → IsEditOf ⟦<FormPool as CountedEvaluator>⟧.slots style.now
        places (command_seen command.now) kept.old before
        → OnOk result (HasFollowed ⟦<FormPool as CountedEvaluator>⟧.slots style.now before
        (edited_kept places (command_seen command.now) before (kept_seen kept.old)) kept.old kept.new) }
    ensures memory { takes_memory (command_seen command.now) ≡ false → IsOk result }
{
    follow_edit(alloc, kept, command, places, style)?;
    if takes_memory(command) {
        return kept.tidy(alloc, style);
    }
    Ok(())
}

// Whether an edit puts something into a layer, or a layer into the style.
fn takes_memory(command: &Command) -> bool
    ensures { result ≡ takes_memory (command_seen command.now) }
{
    matches!(
        command,
        Command::SetPaint(_, _, _)
            | Command::SetLayout(_, _, _)
            | Command::SetFilter(_, _)
            | Command::SetRange(_, _, _)
            | Command::AddLayer(_, _)
    )
}

fn follow_edit(
    alloc: Global,
    kept: &mut KeptLayers,
    command: &Command,
    places: EditPlaces,
    style: &StyleLayers<'_>,
) -> Result<(), AllocError>
    requires numbered { AreNumbered kept.old }
    requires prepared { IsPrepared style.now }
    requires edited { IsEdited ⟦<FormPool as CountedEvaluator>⟧.slots style.now
        places (command_seen command.now) kept.old }
    ensures followed { (before : List Tree)
        → IsEditOf ⟦<FormPool as CountedEvaluator>⟧.slots style.now
        places (command_seen command.now) kept.old before
        → OnOk result (HasFollowed ⟦<FormPool as CountedEvaluator>⟧.slots style.now before
        (edited_kept places (command_seen command.now) before (kept_seen kept.old)) kept.old kept.new) }
    ensures memory { takes_memory (command_seen command.now) ≡ false → IsOk result }
{
    match command {
        Command::SetPaint(_, name, _) => {
            change_property(alloc, kept, places.layer, Place::Paint, name, style)
        }
        Command::SetLayout(_, name, _) => {
            change_property(alloc, kept, places.layer, Place::Layout, name, style)
        }
        Command::SetFilter(_, _) => change_filter(alloc, kept, places.layer, style),
        Command::AddLayer(_, _) => add_layer(alloc, kept, places.before, style),
        Command::RemoveLayer(_) => {
            remove_layer(kept, places.layer);
            Ok(())
        }
        Command::MoveLayer(_, _) => {
            move_layer(kept, places.layer, places.before, style.layers.len());
            Ok(())
        }
        _ => Ok(()),
    }
}

// The property of a name, if the table has it, of the layer at a place, if the edit names one, is another.
fn change_property(
    alloc: Global,
    kept: &mut KeptLayers,
    layer: Option<usize>,
    place: Place,
    name: &Text,
    style: &StyleLayers<'_>,
) -> Result<(), AllocError>
    requires numbered { AreNumbered kept.old }
    requires prepared { IsPrepared style.now }
    requires layer { IfSome layer (IsPlaceIn style.now kept.old) }
    ensures { OnOk result (ChangesAt ⟦<FormPool as CountedEvaluator>⟧.slots style.now
        layer (item_named place name.now) kept.old kept.new) }
{
    let Some(layer) = layer else {
        return Ok(());
    };
    let one = style.one(layer);
    match row(one.prepared.layer_type, place, name.as_str()) {
        Some(row) => kept.change(alloc, layer, CellItem::Property(row.number), &one),
        None => Ok(()),
    }
}

// The filter of the layer at a place is another.
fn change_filter(
    alloc: Global,
    kept: &mut KeptLayers,
    layer: Option<usize>,
    style: &StyleLayers<'_>,
) -> Result<(), AllocError>
    requires numbered { AreNumbered kept.old }
    requires prepared { IsPrepared style.now }
    requires layer { IfSome layer (IsPlaceIn style.now kept.old) }
    ensures { OnOk result (ChangesAt ⟦<FormPool as CountedEvaluator>⟧.slots style.now
        layer (λ t. Some CellItem.Filter) kept.old kept.new) }
{
    match layer {
        Some(layer) => {
            let one = style.one(layer);
            kept.change(alloc, layer, CellItem::Filter, &one)
        }
        None => Ok(()),
    }
}

// A layer was added before the one at a place, or last.
fn add_layer(
    alloc: Global,
    kept: &mut KeptLayers,
    before: Option<usize>,
    style: &StyleLayers<'_>,
) -> Result<(), AllocError>
    requires numbered { AreNumbered kept.old }
    requires prepared { IsPrepared style.now }
    requires before { IfSome before (λ i. i < length (kept_seen kept.old)) }
    requires counted { length (trees_in style.now) ≡ length (kept_seen kept.old) + 1 }
    ensures { OnOk result (AddsBefore ⟦<FormPool as CountedEvaluator>⟧.slots style.now before kept.old kept.new) }
{
    let place = before.unwrap_or(style.layers.len() - 1);
    let one = style.one(place);
    kept.add(alloc, place, &one)
}

// The layer at a place was removed.
fn remove_layer(kept: &mut KeptLayers, layer: Option<usize>)
    requires numbered { AreNumbered kept.old }
    requires layer { IfSome layer (λ i. i < length (kept_seen kept.old)) }
    ensures { RemovesAt ⟦<FormPool as CountedEvaluator>⟧.slots layer kept.old kept.new }
{
    if let Some(place) = layer {
        kept.remove(place);
    }
}

// The layer at a place was moved before another, or to the end; before itself it stays.
fn move_layer(kept: &mut KeptLayers, layer: Option<usize>, before: Option<usize>, count: usize)
    requires numbered { AreNumbered kept.old }
    requires layer { IfSome layer (λ i. i < length (kept_seen kept.old)) }
    requires before { IfSome before (λ i. i < length (kept_seen kept.old)) }
    requires counted { count ≡ length (kept_seen kept.old) }
    ensures { MovesAt ⟦<FormPool as CountedEvaluator>⟧.slots layer before kept.old kept.new }
{
    if let Some(from) = layer {
        kept.move_layer(from, place_moved_to(from, before, count));
    }
}
