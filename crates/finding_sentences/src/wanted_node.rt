//! What a node of an expression is wanted as.

ghost use Rattle.std.specs.Prelude.{◌≡◌, ◌++◌, ◌<◌, ◌^◌, OnOk, Some, option_map, ◌≤◌};
ghost use Rattle.decimal_json.specs.View.{tree_of, trees};
ghost use Rattle.expr_syntax.specs.ReadView.{row_view};
ghost use Rattle.finding_sentences.specs.ExpressionSentence.{arguments_before, element_want, wanted_at, wanted_child};
ghost use Rattle.finding_sentences.specs.ExpressionSentence.{wanted_element, wanted_words, fitted_to, handed_by};
ghost use Rattle.expr_syntax.specs.Elements.{option_named};
ghost use Rattle.expr_syntax.specs.Operators.{role_want};
ghost use Rattle.finding_sentences.specs.Views.{wanted_seen};
ghost use Rattle.decimal_json.specs.Tree.{list};
ghost use Rattle.decimal_json.specs.declared.paths.PathPart.{PathPart};

use crate::expression_sentence::head_name;
use crate::node_words::child;
use crate::pairs::count_of;
use crate::wanted::write_want;
use decimal_json::{Json, PathPart};
use expr_syntax::{ElementLayout, ElementPlace, OperatorRow, ramp_want};
use prop_values::{Item, Want};
use std::alloc::AllocError;

/// What a node is wanted as: fitted to a want, or a text or a list.
#[derive(Clone, Copy, Debug, PartialEq, Eq)]
pub(crate) struct WantedNode {
    pub(crate) want: Want,
    pub(crate) is_sequence: bool,
}

/// What the node at a path is wanted as, of an expression that is wanted as this.
pub(crate) fn wanted_at(json: &Json, path: &[PathPart], want: &Want) -> Option<WantedNode>
    ensures { option_map wanted_seen result ≡ wanted_at path.now (Some (tree_of json.now)) (Some (fitted_to want.now)) }
{
    let mut node = Some(json);
    let mut wanted = Some(WantedNode {
        want: *want,
        is_sequence: false,
    });
    for part in path {
        let (Some(parent), Some(outer)) = (node, wanted) else {
            return None;
        };
        wanted = wanted_child(parent, part, &outer.want);
        node = child(parent, part);
    }
    wanted
}

fn wanted_child(parent: &Json, part: &PathPart, want: &Want) -> Option<WantedNode>
    ensures { option_map wanted_seen result ≡ wanted_child part.now (tree_of parent.now) want.now }
{
    match (part, parent) {
        (PathPart::Index(place), Json::List(items)) => {
            wanted_item(items.as_slice(), *place, want)
        }
        (PathPart::Key(key), Json::Object(_)) => wanted_option(key.as_str()),
        _ => None,
    }
}

fn wanted_item(items: &[Json], place: usize, want: &Want) -> Option<WantedNode>
    ensures { option_map wanted_seen result ≡ wanted_child (PathPart.Index place) (list (trees items.now)) want.now }
{
    let count = count_of(items);
    if place >= count {
        return None;
    }
    match head_name(items) {
        Some(name) => Some(wanted_element(name.row(), count, place, want)),
        None => None,
    }
}

fn wanted_element(row: &OperatorRow, elements: usize, place: usize, want: &Want) -> WantedNode
    requires elements { elements < 2 ^ 63 }
    requires within { place < elements }
    ensures { wanted_seen result ≡ wanted_element (row_view row.now) elements place want.now }
{
    let arguments = arguments_before(row.layout, elements, elements);
    let argument = arguments_before(row.layout, elements, place);
    WantedNode {
        want: row
            .wants
            .wanted(arguments, argument)
            .under(&handed_by(row.layout, want)),
        is_sequence: row.sequence == Some(argument),
    }
}

pub(crate) fn handed_by(layout: ElementLayout, want: &Want) -> Want
    ensures { result ≡ handed_by layout want.now }
{
    match layout {
        ElementLayout::Ramp => ramp_want(want),
        _ => *want,
    }
}

/// How many of the first elements are arguments.
pub(crate) fn arguments_before(layout: ElementLayout, elements: usize, place: usize) -> usize
    requires { place < 2 ^ 63 }
    ensures count { result ≡ arguments_before layout elements place }
    ensures few { result ≤ place }
{
    let mut count = 0;
    for at in 0..place {
        if layout.place(elements, at) != ElementPlace::Part {
            count += 1;
        }
    }
    count
}

// An option of a `format`.
fn wanted_option(key: &str) -> Option<WantedNode>
    ensures { option_map wanted_seen result ≡ option_map (λ role. fitted_to (role_want role)) (option_named key.now) }
{
    let want = match key {
        "font-scale" => Want::Number,
        "text-font" => Want::List(Item::Text, None),
        "text-color" => Want::Color,
        _ => return None,
    };
    Some(WantedNode {
        want,
        is_sequence: false,
    })
}

/// Appends what a node is wanted as.
pub(crate) fn write_wanted(wanted: &WantedNode, out: &mut Vec<u8>) -> Result<(), AllocError>
    ensures { OnOk result (out.new.items ≡ out.old.items ++ wanted_words (wanted_seen wanted.now)) }
{
    if wanted.is_sequence {
        return out.extend_from_slice(b"a text or an array");
    }
    write_want(&wanted.want, out)
}
