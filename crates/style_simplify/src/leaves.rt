//! What is known of a node by itself, and nodes without arguments.

ghost use Rattle.std.specs.Prelude.{◌≡◌, ◌<◌, ◌^◌, length, IfOk};
ghost use Rattle.decimal_json.specs.Accessors.{text_in};
ghost use Rattle.decimal_json.specs.Tree.{list};
ghost use Rattle.decimal_json.specs.View.{tree_of, trees, items_view};
ghost use Rattle.expr_syntax.specs.Elements.{head_name, name_in};
ghost use Rattle.expr_syntax.specs.Names.{row};
ghost use Rattle.expr_syntax.specs.Operators.{operator_name};
ghost use Rattle.expr_syntax.specs.Reading.{is_part};
ghost use Rattle.expr_syntax.specs.Rows.{element_place};
ghost use Rattle.expr_types.specs.ScopeView.{scope_of};
ghost use Rattle.style_simplify.specs.Simple.{global_element, is_any_read, is_global_name, is_script, operator_reads};
ghost use Rattle.style_simplify.specs.Simple.{unread, var_element};
ghost use Rattle.style_simplify.specs.View.{element_seen, simples_of};

use crate::element::{SimpleElement, unread};
use decimal_json::{Items, Json, Text, copy};
use dependency_sets::{Mentions, of_operator};
use expr_syntax::{ElementPlace, Expr, Name, Operator, operator_named};
use expr_types::{KindScope, name_kind, node_kind};
use prop_values::Want;
use std::alloc::{AllocError, Global};

/// Whether an element of a node is a part of the operator.
pub(crate) fn is_part(op: &Operator, elements: usize, at: usize) -> bool
    requires { at < 2 ^ 63 }
    ensures { result ≡ is_part (element_place (row (operator_name op.now)).layout elements at) }
{
    matches!(op.row().layout.place(elements, at), ElementPlace::Part)
}

/// Whether a node is a `global-state` node.
pub(crate) fn is_global(items: &[Json]) -> bool
    ensures { result ≡ is_global_name (head_name (trees items.now)) }
{
    is_global_name(head_name(items))
}

fn head_name(items: &[Json]) -> Option<Name>
    ensures { result ≡ head_name (trees items.now) }
{
    match items {
        [] => None,
        [head, ..] => name_in(head),
    }
}

fn name_in(head: &Json) -> Option<Name>
    ensures { result ≡ name_in (text_in (tree_of head.now)) }
{
    match head {
        Json::Text(name) => operator_named(name.as_str()),
        _ => None,
    }
}

fn is_global_name(name: Option<Name>) -> bool
    ensures { result ≡ is_global_name name }
{
    matches!(name, Some(Name::GlobalState))
}

/// Whether an operator itself reads anything, with these arguments.
#[tactic(auto, using(crate::proofs::NodeLaws::simples_count))]
pub(crate) fn operator_reads(op: &Operator, arguments: &[Expr]) -> bool
    ensures { result ≡ operator_reads op.now (length (simples_of arguments.now)) }
{
    is_script(op) || is_any_read(of_operator(op, arguments))
}

fn is_script(op: &Operator) -> bool
    ensures { result ≡ is_script op.now }
{
    matches!(op, Operator::IsSupportedScript)
}

fn is_any_read(mentions: Mentions) -> bool
    ensures { result ≡ is_any_read mentions }
{
    mentions.zoom || mentions.feature || mentions.state || mentions.image
}

/// Items of their own that equal some items.
pub(crate) fn copied_items(alloc: Global, items: &[Json]) -> Result<Items, AllocError>
    ensures { IfOk result (λ made. made ≡ items_view items.now) }
{
    let mut made = Items::new(alloc);
    for item in items {
        made.push(copy(alloc, item)?)?;
    }
    Ok(made)
}

/// A node that is not looked into.
pub(crate) fn unread_items(alloc: Global, items: &[Json]) -> Result<SimpleElement, AllocError>
    ensures { IfOk result (λ made. element_seen made ≡ unread (list (trees items.now))) }
{
    Ok(unread(alloc, Json::List(copied_items(alloc, items)?)))
}

/// A `var`.
pub(crate) fn var_element(
    alloc: Global,
    name: &Text,
    want: &Want,
    scope: &KindScope<'_>,
    items: &[Json],
) -> Result<SimpleElement, AllocError>
    ensures { IfOk result
        (λ made. element_seen made ≡ var_element name.now want.now (scope_of scope.now) (list (trees items.now))) }
{
    let mut asks = Vec::new(alloc);
    asks.push(name.share()?)?;
    Ok(SimpleElement {
        json: Json::List(copied_items(alloc, items)?),
        is_part: false,
        kind: name_kind(alloc, scope, name.as_str(), want)?,
        asks,
        reads: false,
    })
}

/// A `global-state` node, which reads as a `get`.
pub(crate) fn global_element(
    alloc: Global,
    want: &Want,
    json: &Json,
) -> Result<SimpleElement, AllocError>
    ensures { IfOk result (λ made. element_seen made ≡ global_element want.now (tree_of json.now)) }
{
    Ok(SimpleElement {
        json: copy(alloc, json)?,
        is_part: false,
        kind: node_kind(alloc, &Operator::Get, want, &[])?,
        asks: Vec::new(alloc),
        reads: true,
    })
}
