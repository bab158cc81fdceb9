//! How a line is read: its form first, and then its numbers.

ghost use Rattle.std.specs.Prelude.{◌≡◌, [], ◌∷◌, IfOk, option_map};
ghost use Rattle.decimal_json.specs.Tree as trees;
ghost use Rattle.decimal_json.specs.View.{items_view, tree_of};
ghost use Rattle.edit_script.specs.Command.{command_of, edit_or_fault};
ghost use Rattle.edit_script.specs.Edit as edits;
ghost use Rattle.edit_script.specs.Form.{text_or_null, number_or_null, property_form, filter_form, range_form};
ghost use Rattle.edit_script.specs.Form.{addition_form, move_form, zoom_form, state_form, removal_form, global_form};
ghost use Rattle.edit_script.specs.Form.{text_form, bare_form, form_named, array_form};
ghost use Rattle.edit_script.specs.Line.{AnswersLine};
ghost use Rattle.edit_script.specs.View.{read_seen};

use crate::command::{Command, LineFault};
use crate::numbers::{id_of, limit_of, members_of, number_of, value_of};
use decimal_json::{Json, NumText, Text, copy, parse};
use std::alloc::{AllocError, Global};

/// The command that the bytes of a line spell, without a line feed, or the line's fault. Texts and numbers are shared
/// with a copy of the line.
pub fn read_line(alloc: Global, line: &[u8]) -> Result<Result<Command, LineFault>, AllocError>
    ensures { IfOk result (λ read. AnswersLine line.now (read_seen read)) }
{
    match parse(alloc, line)? {
        Ok(json) => read_command(alloc, &json),
        Err(_) => Ok(Err(LineFault::Json)),
    }
}

/// The command that a tree is, or the fault, which is never `Json`. Texts and numbers are shared with the tree.
#[tactic(auto, using(crate::proofs::Elements::elements_made))]
pub fn read_command(alloc: Global, json: &Json) -> Result<Result<Command, LineFault>, AllocError>
    ensures { IfOk result (λ read. read_seen read ≡ command_of (tree_of json.now)) }
{
    match json {
        Json::List(elements) => read_array(alloc, elements.as_slice()),
        _ => Ok(Err(LineFault::Form)),
    }
}

fn read_array(alloc: Global, elements: &[Json]) -> Result<Result<Command, LineFault>, AllocError>
    ensures { IfOk result (λ read. read_seen read ≡ edit_or_fault (array_form (items_view elements.now))) }
{
    match elements {
        [Json::Text(name), others @ ..] => read_named(alloc, name.as_str(), others),
        _ => Ok(Err(LineFault::Form)),
    }
}

// A name, and the elements after it.
fn read_named(
    alloc: Global,
    name: &str,
    elements: &[Json],
) -> Result<Result<Command, LineFault>, AllocError>
    ensures { IfOk result (λ read. read_seen read ≡ edit_or_fault (form_named name.now (items_view elements.now))) }
{
    match name {
        "set-paint" => set_paint(alloc, elements),
        "set-layout" => set_layout(alloc, elements),
        "set-filter" => set_filter(alloc, elements),
        "set-range" => set_range(elements),
        "add-layer" => add_layer(alloc, elements),
        "remove-layer" => remove_layer(elements),
        "move-layer" => move_layer(elements),
        "set-zoom" => Ok(set_zoom(elements)),
        "set-state" => set_state(alloc, elements),
        "remove-state" => remove_state(elements),
        "add-image" => add_image(elements),
        "remove-image" => remove_image(elements),
        "set-global" => set_global(alloc, elements),
        "list" => Ok(list(elements)),
        "stats" => Ok(stats(elements)),
        "style" => Ok(style(elements)),
        _ => Ok(Err(LineFault::Form)),
    }
}

fn set_paint(alloc: Global, elements: &[Json]) -> Result<Result<Command, LineFault>, AllocError>
    ensures { IfOk result
        (λ read. read_seen read ≡ edit_or_fault (property_form edits.set_paint (items_view elements.now))) }
{
    match elements {
        [Json::Text(layer), Json::Text(name), value] => {
            let value = copy(alloc, value)?;
            Ok(Ok(Command::SetPaint(layer.share()?, name.share()?, value)))
        }
        _ => Ok(Err(LineFault::Form)),
    }
}

fn set_layout(alloc: Global, elements: &[Json]) -> Result<Result<Command, LineFault>, AllocError>
    ensures { IfOk result
        (λ read. read_seen read ≡ edit_or_fault (property_form edits.set_layout (items_view elements.now))) }
{
    match elements {
        [Json::Text(layer), Json::Text(name), value] => {
            let value = copy(alloc, value)?;
            Ok(Ok(Command::SetLayout(layer.share()?, name.share()?, value)))
        }
        _ => Ok(Err(LineFault::Form)),
    }
}

fn set_filter(alloc: Global, elements: &[Json]) -> Result<Result<Command, LineFault>, AllocError>
    ensures { IfOk result (λ read. read_seen read ≡ edit_or_fault (filter_form (items_view elements.now))) }
{
    match elements {
        [Json::Text(layer), filter] => {
            let filter = copy(alloc, filter)?;
            Ok(Ok(Command::SetFilter(layer.share()?, filter)))
        }
        _ => Ok(Err(LineFault::Form)),
    }
}

fn set_range(elements: &[Json]) -> Result<Result<Command, LineFault>, AllocError>
    ensures { IfOk result (λ read. read_seen read ≡ edit_or_fault (range_form (items_view elements.now))) }
{
    let [Json::Text(layer), min, max] = elements else {
        return Ok(Err(LineFault::Form));
    };
    match (number_or_null(min), number_or_null(max)) {
        (Some(min), Some(max)) => match (limit_of(min), limit_of(max)) {
            (Ok(min), Ok(max)) => Ok(Ok(Command::SetRange(layer.share()?, min, max))),
            (Err(fault), _) | (_, Err(fault)) => Ok(Err(fault)),
        },
        _ => Ok(Err(LineFault::Form)),
    }
}

// The text of a number, or null; else nothing.
fn number_or_null(json: &Json) -> Option<Option<&NumText>>
    ensures { option_map (option_map (λ n. n.now)) result ≡ number_or_null (tree_of json.now) }
{
    match json {
        Json::Num(number) => Some(Some(number)),
        Json::Null => Some(None),
        _ => None,
    }
}

fn add_layer(alloc: Global, elements: &[Json]) -> Result<Result<Command, LineFault>, AllocError>
    ensures { IfOk result (λ read. read_seen read ≡ edit_or_fault (addition_form (items_view elements.now))) }
{
    let [layer, before] = elements else {
        return Ok(Err(LineFault::Form));
    };
    match text_or_null(before)? {
        Some(before) => Ok(Ok(Command::AddLayer(copy(alloc, layer)?, before))),
        None => Ok(Err(LineFault::Form)),
    }
}

// A text, or null; else nothing.
fn text_or_null(json: &Json) -> Result<Option<Option<Text>>, AllocError>
    ensures { IfOk result (λ text. text ≡ text_or_null (tree_of json.now)) }
{
    match json {
        Json::Text(text) => Ok(Some(Some(text.share()?))),
        Json::Null => Ok(Some(None)),
        _ => Ok(None),
    }
}

fn remove_layer(elements: &[Json]) -> Result<Result<Command, LineFault>, AllocError>
    ensures { IfOk result
        (λ read. read_seen read ≡ edit_or_fault (text_form edits.remove_layer (items_view elements.now))) }
{
    match elements {
        [Json::Text(id)] => Ok(Ok(Command::RemoveLayer(id.share()?))),
        _ => Ok(Err(LineFault::Form)),
    }
}

fn move_layer(elements: &[Json]) -> Result<Result<Command, LineFault>, AllocError>
    ensures { IfOk result (λ read. read_seen read ≡ edit_or_fault (move_form (items_view elements.now))) }
{
    let [Json::Text(id), before] = elements else {
        return Ok(Err(LineFault::Form));
    };
    match text_or_null(before)? {
        Some(before) => Ok(Ok(Command::MoveLayer(id.share()?, before))),
        None => Ok(Err(LineFault::Form)),
    }
}

fn set_zoom(elements: &[Json]) -> Result<Command, LineFault>
    ensures { read_seen result ≡ edit_or_fault (zoom_form (items_view elements.now)) }
{
    match elements {
        [Json::Num(zoom)] => Ok(Command::SetZoom(number_of(zoom)?)),
        _ => Err(LineFault::Form),
    }
}

fn set_state(alloc: Global, elements: &[Json]) -> Result<Result<Command, LineFault>, AllocError>
    ensures { IfOk result (λ read. read_seen read ≡ edit_or_fault (state_form (items_view elements.now))) }
{
    match elements {
        [
            Json::Text(source),
            Json::Text(layer),
            Json::Num(id),
            members,
        ] => { set_members(alloc, source, layer, id, members) }
        _ => Ok(Err(LineFault::Form)),
    }
}

fn set_members(
    alloc: Global,
    source: &Text,
    layer: &Text,
    id: &NumText,
    members: &Json,
) -> Result<Result<Command, LineFault>, AllocError>
    ensures { IfOk result (λ read. read_seen read ≡ edit_or_fault (state_form
        (trees.text source.now ∷ trees.text layer.now ∷ trees.number id.now ∷ tree_of members.now ∷ []))) }
{
    let Json::Object(_) = members else {
        return Ok(Err(LineFault::Form));
    };
    match (id_of(id), members_of(alloc, members)?) {
        (Ok(id), Ok(members)) => {
            let (source, layer) = (source.share()?, layer.share()?);
            Ok(Ok(Command::SetState(source, layer, id, members)))
        }
        (Err(fault), _) | (_, Err(fault)) => Ok(Err(fault)),
    }
}

fn remove_state(elements: &[Json]) -> Result<Result<Command, LineFault>, AllocError>
    ensures { IfOk result (λ read. read_seen read ≡ edit_or_fault (removal_form (items_view elements.now))) }
{
    let [Json::Text(source), Json::Text(layer), Json::Num(id), key] = elements else {
        return Ok(Err(LineFault::Form));
    };
    let Some(key) = text_or_null(key)? else {
        return Ok(Err(LineFault::Form));
    };
    match id_of(id) {
        Ok(id) => Ok(Ok(Command::RemoveState(source.share()?, layer.share()?, id, key))),
        Err(fault) => Ok(Err(fault)),
    }
}

fn add_image(elements: &[Json]) -> Result<Result<Command, LineFault>, AllocError>
    ensures { IfOk result
        (λ read. read_seen read ≡ edit_or_fault (text_form edits.add_image (items_view elements.now))) }
{
    match elements {
        [Json::Text(name)] => Ok(Ok(Command::AddImage(name.share()?))),
        _ => Ok(Err(LineFault::Form)),
    }
}

fn remove_image(elements: &[Json]) -> Result<Result<Command, LineFault>, AllocError>
    ensures { IfOk result
        (λ read. read_seen read ≡ edit_or_fault (text_form edits.remove_image (items_view elements.now))) }
{
    match elements {
        [Json::Text(name)] => Ok(Ok(Command::RemoveImage(name.share()?))),
        _ => Ok(Err(LineFault::Form)),
    }
}

fn set_global(alloc: Global, elements: &[Json]) -> Result<Result<Command, LineFault>, AllocError>
    ensures { IfOk result (λ read. read_seen read ≡ edit_or_fault (global_form (items_view elements.now))) }
{
    let [Json::Text(name), value] = elements else {
        return Ok(Err(LineFault::Form));
    };
    match value_of(alloc, value)? {
        Ok(value) => Ok(Ok(Command::SetGlobal(name.share()?, value))),
        Err(fault) => Ok(Err(fault)),
    }
}

fn list(elements: &[Json]) -> Result<Command, LineFault>
    ensures { read_seen result ≡ edit_or_fault (bare_form edits.list (items_view elements.now)) }
{
    match elements {
        [] => Ok(Command::List),
        _ => Err(LineFault::Form),
    }
}

fn stats(elements: &[Json]) -> Result<Command, LineFault>
    ensures { read_seen result ≡ edit_or_fault (bare_form edits.stats (items_view elements.now)) }
{
    match elements {
        [] => Ok(Command::Stats),
        _ => Err(LineFault::Form),
    }
}

fn style(elements: &[Json]) -> Result<Command, LineFault>
    ensures { read_seen result ≡ edit_or_fault (bare_form edits.style (items_view elements.now)) }
{
    match elements {
        [] => Ok(Command::Style),
        _ => Err(LineFault::Form),
    }
}
