//! What a node may become, and which of these it becomes.

ghost use Rattle.std.specs.Prelude.{◌≡◌, IfOk, option_map};
ghost use Rattle.decimal_json.specs.View.{tree_of};
ghost use Rattle.style_simplify.specs.Choices.{choices_of, same_found, is_image, may_replace, chosen};
ghost use Rattle.style_simplify.specs.Simple.{as_it_is};
ghost use Rattle.style_simplify.specs.View.{element_seen, choices_seen};

use crate::element::SimpleElement;
use crate::folding::folded;
use crate::literals::begins_with;
use decimal_json::Json;
use expr_types::same_kind;
use prop_values::{Kind, Want};
use std::alloc::{AllocError, Global};

/// A node whose arguments are simplified, the literal that it means, and what it becomes by its operator.
#[derive(Drop)]
pub(crate) struct NodeChoices {
    pub(crate) node: SimpleElement,
    pub(crate) literal: Option<SimpleElement>,
    pub(crate) shorter: Option<SimpleElement>,
}

pub(crate) fn choices_of(
    alloc: Global,
    want: &Want,
    node: SimpleElement,
    shorter: Option<SimpleElement>,
) -> Result<NodeChoices, AllocError>
    ensures { IfOk result
        (λ made. choices_seen made ≡ choices_of want.now (element_seen node) (option_map element_seen shorter)) }
{
    let literal = folded(alloc, want, &node)?;
    Ok(NodeChoices {
        node,
        literal,
        shorter,
    })
}

/// The choices of what stays as it is, if it does not mean a literal.
pub(crate) fn as_it_is(
    alloc: Global,
    want: &Want,
    element: SimpleElement,
) -> Result<NodeChoices, AllocError>
    ensures { IfOk result (λ made. choices_seen made ≡ as_it_is want.now (element_seen element)) }
{
    choices_of(alloc, want, element, None)
}

fn same_found(one: Option<Kind>, other: Option<Kind>) -> bool
    ensures { result ≡ same_found one other }
{
    match (one, other) {
        (Some(one), Some(other)) => same_kind(one, other),
        _ => false,
    }
}

fn is_image(json: &Json) -> bool
    ensures { result ≡ is_image (tree_of json.now) }
{
    match json {
        Json::List(items) => begins_with("image", items.as_slice()),
        _ => false,
    }
}

// It has the kind of the node, and a content of a `format` is no image.
fn may_replace(is_content: bool, element: &SimpleElement, node: &SimpleElement) -> bool
    ensures { result ≡ may_replace is_content (element_seen element.now) (element_seen node.now) }
{
    same_found(element.kind, node.kind) && !(is_content && is_image(&element.json))
}

/// The first that may be.
pub(crate) fn chosen(is_content: bool, choices: NodeChoices) -> SimpleElement
    ensures { element_seen result ≡ chosen is_content (choices_seen choices) }
{
    let NodeChoices {
        node,
        literal,
        shorter,
    } = choices;
    if let Some(element) = literal {
        if may_replace(is_content, &element, &node) {
            return element;
        }
    }
    if let Some(element) = shorter {
        if may_replace(is_content, &element, &node) {
            return element;
        }
    }
    node
}
