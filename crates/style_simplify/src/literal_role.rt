//! `all`, `any` and `coalesce` without the arguments that decide nothing.

ghost use Rattle.std.specs.Prelude.{◌≡◌, ◌∷◌, false, IfOk, Some, option_map};
ghost use Rattle.decimal_json.specs.Tree.{list};
ghost use Rattle.decimal_json.specs.View.{tree_of, trees};
ghost use Rattle.expr_syntax.specs.Elements.{second};
ghost use Rattle.style_simplify.specs.ShorterNodes.{flag_role, condition_role, choice_role, is_container, role_of};
ghost use Rattle.style_simplify.specs.ShorterNodes.{is_deciding, is_open, is_coalesce, some_role, undecided, joined};
ghost use Rattle.style_simplify.specs.ShorterNodes.{shorter_join};
ghost use Rattle.style_simplify.specs.SimpleElements.{node_of};
ghost use Rattle.style_simplify.specs.View.{element_seen, elements_seen};

use crate::element::{SimpleElement, copy_of, node_of};
use crate::literals::{is_literal_node, literal_element};
use decimal_json::{Json, copy};
use expr_syntax::Operator;
use prop_values::Want;
use std::alloc::{AllocError, Global};

/// What an argument is by itself: a literal that is passed, a literal that decides, or neither.
#[derive(Clone, Copy, Debug, PartialEq, Eq)]
pub(crate) enum LiteralRole {
    Passed,
    Deciding,
    Open,
}

fn flag_role(decides: bool, flag: bool) -> LiteralRole
    ensures { result ≡ flag_role decides flag }
{
    if decides == flag {
        LiteralRole::Deciding
    } else {
        LiteralRole::Passed
    }
}

fn condition_role(decides: bool, json: &Json) -> LiteralRole
    ensures { result ≡ condition_role decides (tree_of json.now) }
{
    match json {
        Json::Bool(flag) => flag_role(decides, *flag),
        _ => LiteralRole::Open,
    }
}

fn choice_role(json: &Json) -> LiteralRole
    ensures { result ≡ choice_role (tree_of json.now) }
{
    match json {
        Json::Null => LiteralRole::Passed,
        Json::Bool(_) => LiteralRole::Deciding,
        Json::Num(_) => LiteralRole::Deciding,
        Json::Text(_) => LiteralRole::Deciding,
        Json::List(items) => list_role(items.as_slice()),
        Json::Object(_) => LiteralRole::Open,
    }
}

fn list_role(items: &[Json]) -> LiteralRole
    ensures { result ≡ choice_role (list (trees items.now)) }
{
    if is_literal_node(items) && is_container(items) {
        LiteralRole::Deciding
    } else {
        LiteralRole::Open
    }
}

// Whether the second item is an array or an object.
#[tactic(auto, using(crate::proofs::NodeLaws::one_second))]
fn is_container(items: &[Json]) -> bool
    ensures { result ≡ is_container (second (trees items.now)) }
{
    match items {
        [_, value, ..] => is_list_or_object(value),
        [_] => false,
        [] => false,
    }
}

fn is_list_or_object(json: &Json) -> bool
    ensures { result ≡ is_container (Some (tree_of json.now)) }
{
    match json {
        Json::List(_) => true,
        Json::Object(_) => true,
        _ => false,
    }
}

fn role_of(op: &Operator, json: &Json) -> LiteralRole
    ensures { result ≡ role_of op.now (tree_of json.now) }
{
    match op {
        Operator::All => condition_role(false, json),
        Operator::Any => condition_role(true, json),
        Operator::Coalesce => choice_role(json),
        _ => LiteralRole::Open,
    }
}

fn is_open(role: LiteralRole) -> bool
    ensures { result ≡ is_open role }
{
    matches!(role, LiteralRole::Open)
}

fn is_deciding(role: LiteralRole) -> bool
    ensures { result ≡ is_deciding role }
{
    matches!(role, LiteralRole::Deciding)
}

fn is_coalesce(op: &Operator) -> bool
    ensures { result ≡ is_coalesce op.now }
{
    matches!(op, Operator::Coalesce)
}

fn some_role(op: &Operator, elements: &[SimpleElement]) -> bool
    ensures { result ≡ some_role op.now (elements_seen elements.now) }
{
    for element in elements {
        if !is_open(role_of(op, &element.json)) {
            return true;
        }
    }
    false
}

// Without those that are passed, and up to the first that decides.
#[tactic(auto, using(crate::proofs::ElementLaws::seen_end, crate::proofs::ElementLaws::seen_more))]
fn undecided(
    alloc: Global,
    op: &Operator,
    elements: &[SimpleElement],
) -> Result<Vec<SimpleElement>, AllocError>
    ensures { IfOk result (λ made. elements_seen made.items ≡ undecided op.now (elements_seen elements.now)) }
{
    let mut made = Vec::new(alloc);
    for element in elements {
        match role_of(op, &element.json) {
            LiteralRole::Passed => {}
            LiteralRole::Deciding => {
                made.push(copy_of(alloc, element)?)?;
                return Ok(made);
            }
            LiteralRole::Open => made.push(copy_of(alloc, element)?)?,
        }
    }
    Ok(made)
}

// What decides alone is the whole, and a `coalesce` of nothing is null.
#[tactic(auto, using(crate::proofs::ElementLaws::joined_many))]
fn joined(
    alloc: Global,
    op: &Operator,
    want: &Want,
    head: &SimpleElement,
    elements: &[SimpleElement],
) -> Result<SimpleElement, AllocError>
    ensures { IfOk result
        (λ made. element_seen made ≡ joined op.now want.now (element_seen head.now) (elements_seen elements.now)) }
{
    match elements {
        [] => {
            if is_coalesce(op) {
                literal_element(alloc, want, Json::Null)
            } else {
                headed(alloc, op, want, head, elements)
            }
        }
        [element] => {
            if is_deciding(role_of(op, &element.json)) {
                literal_element(alloc, want, copy(alloc, &element.json)?)
            } else {
                headed(alloc, op, want, head, elements)
            }
        }
        [_, _, ..] => headed(alloc, op, want, head, elements),
    }
}

/// A node of a name and of elements after it.
#[tactic(auto, using(crate::proofs::ElementLaws::seen_end, crate::proofs::ElementLaws::seen_more))]
pub(crate) fn headed(
    alloc: Global,
    op: &Operator,
    want: &Want,
    head: &SimpleElement,
    elements: &[SimpleElement],
) -> Result<SimpleElement, AllocError>
    ensures { IfOk result (λ made. element_seen made
        ≡ node_of op.now want.now false (element_seen head.now ∷ elements_seen elements.now)) }
{
    let mut made = Vec::new(alloc);
    made.push(copy_of(alloc, head)?)?;
    for element in elements {
        made.push(copy_of(alloc, element)?)?;
    }
    node_of(alloc, op, want, false, made)
}

/// What `all`, `any` or `coalesce` becomes, or `None` exactly where no argument is a literal that counts.
pub(crate) fn shorter_join(
    alloc: Global,
    op: &Operator,
    want: &Want,
    head: &SimpleElement,
    elements: &[SimpleElement],
) -> Result<Option<SimpleElement>, AllocError>
    ensures { IfOk result (λ made. option_map element_seen made
        ≡ shorter_join op.now want.now (element_seen head.now) (elements_seen elements.now)) }
{
    if !some_role(op, elements) {
        return Ok(None);
    }
    let left = undecided(alloc, op, elements)?;
    Ok(Some(joined(alloc, op, want, head, left.as_slice())?))
}
