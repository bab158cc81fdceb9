//! How a line of a desk is read.

ghost use Rattle.std.specs.Prelude.{◌≡◌, [], ◌∷◌, IfOk};
ghost use Rattle.decimal_json.specs.Tree as trees;
ghost use Rattle.decimal_json.specs.View.{items_view, tree_of};
ghost use Rattle.view_desk.specs.DeskLines.{AnswersDeskLine, array_command, close_form, command_named, desk_command};
ghost use Rattle.view_desk.specs.DeskLines.{is_view_line, is_view_name, nested_command, open_form, style_edit};
ghost use Rattle.view_desk.specs.DeskLines.{view_form};
ghost use Rattle.view_desk.specs.View.{desk_read_seen, IsWellSorted};
ghost use Rattle.edit_script.specs.View.{read_seen};

use decimal_json::{Json, NumText, Text, parse};
use edit_script::{Command, LineFault, read_command};
use fixed_num::{Fixed, read_decimal};
use std::alloc::{AllocError, Global};

/// What a line of a desk says.
#[derive(Drop)]
pub(crate) enum DeskCommand {
    /// Its name and its zoom.
    OpenView(Text, Fixed),
    CloseView(Text),
    /// The name of a view, and what is to be done in it.
    InView(Text, Command),
    OfStyle(Command),
}

/// What the bytes of a line say, without a line feed, or the line's fault.
pub(crate) fn read_desk_line(
    alloc: Global,
    line: &[u8],
) -> Result<Result<DeskCommand, LineFault>, AllocError>
    ensures answers { IfOk result (λ read. AnswersDeskLine line.now (desk_read_seen read)) }
    ensures sorted { IfOk result (λ read. IfOk read IsWellSorted) }
{
    match parse(alloc, line)? {
        Ok(json) => read_desk_command(alloc, &json),
        Err(_) => Ok(Err(LineFault::Json)),
    }
}

#[tactic(auto, using(edit_script::proofs::Elements::elements_made))]
fn read_desk_command(
    alloc: Global,
    json: &Json,
) -> Result<Result<DeskCommand, LineFault>, AllocError>
    ensures { IfOk result (λ read. desk_read_seen read ≡ desk_command (tree_of json.now)) }
{
    match json {
        Json::List(elements) => read_array(alloc, json, elements.as_slice()),
        _ => Ok(Err(LineFault::Form)),
    }
}

// A line, and its elements.
fn read_array(
    alloc: Global,
    line: &Json,
    elements: &[Json],
) -> Result<Result<DeskCommand, LineFault>, AllocError>
    ensures { IfOk result (λ read. desk_read_seen read ≡ array_command (tree_of line.now) (items_view elements.now)) }
{
    match elements {
        [Json::Text(name), others @ ..] => read_named(alloc, line, name.as_str(), others),
        _ => Ok(Err(LineFault::Form)),
    }
}

// A line by its name and the elements after it.
fn read_named(
    alloc: Global,
    line: &Json,
    name: &str,
    elements: &[Json],
) -> Result<Result<DeskCommand, LineFault>, AllocError>
    ensures { IfOk result
        (λ read. desk_read_seen read ≡ command_named (tree_of line.now) name.now (items_view elements.now)) }
{
    match name {
        "open-view" => open_view(elements),
        "close-view" => close_view(elements),
        "view" => in_view(alloc, elements),
        name if is_view_name(name) => Ok(Err(LineFault::Form)),
        _ => Ok(of_style(read_command(alloc, line)?)),
    }
}

// The name of a line that belongs to a view.
fn is_view_name(name: &str) -> bool
    ensures { result ≡ is_view_name name.now }
{
    match name {
        "set-zoom" => true,
        "set-state" => true,
        "remove-state" => true,
        "list" => true,
        "stats" => true,
        _ => false,
    }
}

fn open_view(elements: &[Json]) -> Result<Result<DeskCommand, LineFault>, AllocError>
    ensures { IfOk result (λ read. desk_read_seen read ≡ open_form (items_view elements.now)) }
{
    match elements {
        [Json::Text(name), Json::Num(zoom)] => open_at(name, zoom),
        _ => Ok(Err(LineFault::Form)),
    }
}

fn open_at(name: &Text, zoom: &NumText) -> Result<Result<DeskCommand, LineFault>, AllocError>
    ensures { IfOk result (λ read. desk_read_seen read ≡ open_form (trees.text name.now ∷ trees.number zoom.now ∷ [])) }
{
    match read_decimal(zoom.as_str().as_bytes()) {
        Ok(zoom) => Ok(Ok(DeskCommand::OpenView(name.share()?, zoom))),
        Err(_) => Ok(Err(LineFault::Number)),
    }
}

fn close_view(elements: &[Json]) -> Result<Result<DeskCommand, LineFault>, AllocError>
    ensures { IfOk result (λ read. desk_read_seen read ≡ close_form (items_view elements.now)) }
{
    match elements {
        [Json::Text(name)] => Ok(Ok(DeskCommand::CloseView(name.share()?))),
        _ => Ok(Err(LineFault::Form)),
    }
}

fn in_view(alloc: Global, elements: &[Json]) -> Result<Result<DeskCommand, LineFault>, AllocError>
    ensures { IfOk result (λ read. desk_read_seen read ≡ view_form (items_view elements.now)) }
{
    match elements {
        [Json::Text(name), line] => match nested_command(alloc, line)? {
            Ok(command) => Ok(Ok(DeskCommand::InView(name.share()?, command))),
            Err(fault) => Ok(Err(fault)),
        },
        _ => Ok(Err(LineFault::Form)),
    }
}

// The command of a line that belongs to a view.
fn nested_command(alloc: Global, line: &Json) -> Result<Result<Command, LineFault>, AllocError>
    ensures { IfOk result (λ read. read_seen read ≡ nested_command (tree_of line.now)) }
{
    if is_view_line(line) {
        read_command(alloc, line)
    } else {
        Ok(Err(LineFault::Form))
    }
}

fn is_view_line(line: &Json) -> bool
    ensures { result ≡ is_view_line (tree_of line.now) }
{
    match line {
        Json::List(elements) => match elements.as_slice() {
            [Json::Text(name), ..] => is_view_name(name.as_str()),
            _ => false,
        },
        _ => false,
    }
}

fn of_style(read: Result<Command, LineFault>) -> Result<DeskCommand, LineFault>
    ensures { desk_read_seen result ≡ style_edit (read_seen read) }
{
    match read {
        Ok(command) => Ok(DeskCommand::OfStyle(command)),
        Err(fault) => Err(fault),
    }
}
