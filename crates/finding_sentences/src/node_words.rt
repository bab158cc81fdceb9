//! The node at a path of an expression.

ghost use Rattle.std.specs.Prelude.{◌≡◌, ◌++◌, OnOk};
ghost use Rattle.decimal_json.specs.View.{tree_at, tree_of, trees};
ghost use Rattle.decimal_json.specs.Tree.{list};
ghost use Rattle.style_parts.specs.Parts.{layer_at, layers_of};
ghost use Rattle.finding_sentences.specs.ExpressionSentence.{child, node_at, node_text};

use crate::words::write_found;
use decimal_json::{Json, PathPart, write_text};
use std::alloc::AllocError;
use style_parts::layers_of;

/// The node at a path, or `None` exactly where the path leads nowhere.
pub(crate) fn node_at<'a>(json: &'a Json, path: &[PathPart]) -> Option<&'a Json>
    ensures { tree_at result ≡ node_at path.now (tree_of json.now) }
{
    let mut node = json;
    for part in path {
        node = child(node, part)?;
    }
    Some(node)
}

/// One step down.
pub(crate) fn child<'a>(json: &'a Json, part: &PathPart) -> Option<&'a Json>
    ensures { tree_at result ≡ child part.now (tree_of json.now) }
{
    match (part, json) {
        (PathPart::Index(place), Json::List(items)) => item_at(items.as_slice(), *place),
        (PathPart::Key(key), Json::Object(members)) => members.get(key.as_str()),
        _ => None,
    }
}

/// The item at a place.
pub(crate) fn item_at(items: &[Json], place: usize) -> Option<&Json>
    ensures { tree_at result ≡ layer_at place (trees items.now) }
{
    items.get(place)
}

/// The layer at a place.
pub(crate) fn layer_at(document: &Json, place: usize) -> Option<&Json>
    ensures { tree_at result ≡ layer_at place (layers_of (tree_of document.now)) }
{
    item_at(layers_of(document), place)
}

/// Appends the operator of a node as it is written, or the value itself where it is none.
pub(crate) fn write_node(node: &Json, out: &mut Vec<u8>) -> Result<(), AllocError>
    ensures { OnOk result (out.new.items ≡ out.old.items ++ node_text (tree_of node.now)) }
{
    match node {
        Json::List(items) => write_operator(items.as_slice(), node, out),
        _ => write_found(node, out),
    }
}

fn write_operator(items: &[Json], node: &Json, out: &mut Vec<u8>) -> Result<(), AllocError>
    requires { tree_of node.now ≡ list (trees items.now) }
    ensures { OnOk result (out.new.items ≡ out.old.items ++ node_text (tree_of node.now)) }
{
    match items {
        [Json::Text(name), ..] => write_text(name.as_str(), out),
        _ => write_found(node, out),
    }
}
