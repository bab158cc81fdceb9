//! The elements of a simplified node.

ghost use Rattle.std.specs.Prelude.{◌≡◌, ◌++◌, map, IfOk, OnOk, option_map};
ghost use Rattle.decimal_json.specs.View.{tree_of};
ghost use Rattle.style_simplify.specs.Simple.{unread};
ghost use Rattle.style_simplify.specs.SimpleElements.{part, tree_in, argument_kinds, all_asks, some_reads, kind_by};
ghost use Rattle.style_simplify.specs.SimpleElements.{node_of, without, body_kind, let_of};
ghost use Rattle.style_simplify.specs.View.{element_seen, elements_seen};

use decimal_json::{Items, Json, Text, copy};
use expr_syntax::{Names, Operator};
use expr_types::{branch_kind, node_kind};
use prop_values::{Kind, Want};
use std::alloc::{AllocError, Global};

/// An element of a simplified node: how it is written, and what is known of it where it is an argument.
#[derive(Drop)]
pub(crate) struct SimpleElement {
    pub(crate) json: Json,
    pub(crate) is_part: bool,
    pub(crate) kind: Option<Kind>,
    pub(crate) asks: Vec<Text>,
    pub(crate) reads: bool,
}

/// An element that is a part of the operator.
pub(crate) fn part(alloc: Global, json: &Json) -> Result<SimpleElement, AllocError>
    ensures { IfOk result (λ made. element_seen made ≡ part (tree_of json.now)) }
{
    Ok(SimpleElement {
        json: copy(alloc, json)?,
        is_part: true,
        kind: None,
        asks: Vec::new(alloc),
        reads: true,
    })
}

/// An expression that is not looked into.
pub(crate) fn unread(alloc: Global, json: Json) -> SimpleElement
    ensures { element_seen result ≡ unread (tree_of json) }
{
    SimpleElement {
        json,
        is_part: false,
        kind: None,
        asks: Vec::new(alloc),
        reads: true,
    }
}

pub(crate) fn copy_of(alloc: Global, element: &SimpleElement) -> Result<SimpleElement, AllocError>
    ensures { IfOk result (λ made. element_seen made ≡ element_seen element.now) }
{
    Ok(SimpleElement {
        json: copy(alloc, &element.json)?,
        is_part: element.is_part,
        kind: element.kind,
        asks: names_of(alloc, element.asks.as_slice())?,
        reads: element.reads,
    })
}

fn names_of(alloc: Global, names: &[Text]) -> Result<Vec<Text>, AllocError>
    ensures { IfOk result (λ made. made.items ≡ names.now) }
{
    let mut made = Vec::new(alloc);
    push_names(names, &mut made)?;
    Ok(made)
}

fn push_names(names: &[Text], made: &mut Vec<Text>) -> Result<(), AllocError>
    ensures { OnOk result (made.new.items ≡ made.old.items ++ names.now) }
{
    for name in names {
        made.push(name.share()?)?;
    }
    Ok(())
}

/// The kinds of the arguments, or `None` exactly where one has a type fault.
#[tactic(auto, using(crate::proofs::ElementLaws::no_kinds, crate::proofs::ElementLaws::after_kind))]
pub(crate) fn argument_kinds(
    alloc: Global,
    elements: &[SimpleElement],
) -> Result<Option<Vec<Kind>>, AllocError>
    ensures { IfOk result (λ kinds. option_map (λ ks. ks.items) kinds ≡ argument_kinds (elements_seen elements.now)) }
{
    let mut kinds = Vec::new(alloc);
    for element in elements {
        if !element.is_part {
            match element.kind {
                Some(kind) => kinds.push(kind)?,
                None => return Ok(None),
            }
        }
    }
    Ok(Some(kinds))
}

/// The names that the elements ask for.
pub(crate) fn all_asks(alloc: Global, elements: &[SimpleElement]) -> Result<Vec<Text>, AllocError>
    ensures { IfOk result (λ made. made.items ≡ all_asks (elements_seen elements.now)) }
{
    let mut made = Vec::new(alloc);
    for element in elements {
        push_names(element.asks.as_slice(), &mut made)?;
    }
    Ok(made)
}

/// Whether an argument reads anything outside of it.
pub(crate) fn some_reads(elements: &[SimpleElement]) -> bool
    ensures { result ≡ some_reads (elements_seen elements.now) }
{
    for element in elements {
        if !element.is_part && element.reads {
            return true;
        }
    }
    false
}

/// The kind of a node by the kinds of its arguments.
pub(crate) fn kind_by(
    alloc: Global,
    op: &Operator,
    want: &Want,
    kinds: Option<Vec<Kind>>,
) -> Result<Option<Kind>, AllocError>
    ensures { IfOk result (λ kind. kind ≡ kind_by op.now want.now (option_map (λ ks. ks.items) kinds)) }
{
    match kinds {
        Some(kinds) => node_kind(alloc, op, want, kinds.as_slice()),
        None => Ok(None),
    }
}

/// The items that elements are written as.
fn items_of(alloc: Global, elements: Vec<SimpleElement>) -> Result<Items, AllocError>
    ensures { IfOk result (λ items. items ≡ map tree_in (elements_seen elements.items)) }
{
    let mut items = Items::new(alloc);
    for element in elements {
        items.push(element.json)?;
    }
    Ok(items)
}

/// A node of elements, its name first. `reads` says whether the operator itself reads anything.
pub(crate) fn node_of(
    alloc: Global,
    op: &Operator,
    want: &Want,
    reads: bool,
    elements: Vec<SimpleElement>,
) -> Result<SimpleElement, AllocError>
    ensures { IfOk result (λ made. element_seen made ≡ node_of op.now want.now reads (elements_seen elements.items)) }
{
    let kinds = argument_kinds(alloc, elements.as_slice())?;
    let kind = kind_by(alloc, op, want, kinds)?;
    let asks = all_asks(alloc, elements.as_slice())?;
    let reads = reads || some_reads(elements.as_slice());
    let items = items_of(alloc, elements)?;
    Ok(SimpleElement {
        json: Json::List(items),
        is_part: false,
        kind,
        asks,
        reads,
    })
}

// The names that are asked for, without those that are bound.
fn push_without(names: &Names, asks: &[Text], made: &mut Vec<Text>) -> Result<(), AllocError>
    ensures { OnOk result (made.new.items ≡ made.old.items ++ without names.now asks.now) }
{
    for asked in asks {
        if names.last_place(asked.as_str()).is_none() {
            made.push(asked.share()?)?;
        }
    }
    Ok(())
}

fn body_kind(want: &Want, kinds: Option<Vec<Kind>>, body: Option<Kind>) -> Option<Kind>
    ensures { result ≡ body_kind want.now (option_map (λ ks. ks.items) kinds) body }
{
    match (kinds, body) {
        (Some(_), Some(kind)) => Some(branch_kind(want, kind)),
        _ => None,
    }
}

/// A `let` of the elements before its body, and its body.
#[tactic(auto, using(crate::proofs::ElementLaws::seen_end))]
pub(crate) fn let_of(
    alloc: Global,
    names: &Names,
    want: &Want,
    bindings: Vec<SimpleElement>,
    body: SimpleElement,
) -> Result<SimpleElement, AllocError>
    ensures { IfOk result
        (λ made. element_seen made ≡ let_of names.now want.now (elements_seen bindings.items) (element_seen body)) }
{
    let kinds = argument_kinds(alloc, bindings.as_slice())?;
    let kind = body_kind(want, kinds, body.kind);
    let mut asks = all_asks(alloc, bindings.as_slice())?;
    push_without(names, body.asks.as_slice(), &mut asks)?;
    let reads = some_reads(bindings.as_slice()) || body.reads;
    let mut elements = bindings;
    elements.push(body)?;
    let items = items_of(alloc, elements)?;
    Ok(SimpleElement {
        json: Json::List(items),
        is_part: false,
        kind,
        asks,
        reads,
    })
}
