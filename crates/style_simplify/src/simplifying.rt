//! Expressions are simplified: arguments first, and then the node.

ghost use Rattle.std.specs.Prelude.{◌≡◌, ◌<◌, ◌^◌, ◌-◌, length, take, drop, IfOk, Some, option_map};
ghost use Rattle.std.specs.List.{slice_get};
ghost use Rattle.decimal_json.specs.Tree.{list};
ghost use Rattle.decimal_json.specs.View.{tree_at, tree_of, trees, items_view};
ghost use Rattle.expr_syntax.specs.TermView.{term_of};
ghost use Rattle.expr_types.specs.ScopeView.{scope_of};
ghost use Rattle.style_simplify.specs.AskedBindings.{shorter_let};
ghost use Rattle.style_simplify.specs.Choices.{choices_of};
ghost use Rattle.style_simplify.specs.SimpleElements.{let_of};
ghost use Rattle.style_simplify.specs.Simple.{choices, choices_from, let_choices, piece_at, piece_element};
ghost use Rattle.style_simplify.specs.Simple.{simple_element};
ghost use Rattle.style_simplify.specs.NodeView.{node_at, inside_at, plain_at, let_at, format_at, argument_here};
ghost use Rattle.style_simplify.specs.NodeView.{argument_at, elements_at, body_at, body_in, pieces_at};
ghost use Rattle.style_simplify.specs.View.{element_seen, elements_seen, choices_seen};

use crate::asked_bindings::shorter_let;
use crate::choices::{NodeChoices, as_it_is, choices_of, chosen};
use crate::element::{SimpleElement, argument_kinds, let_of, node_of, part, unread};
use crate::leaves::{
    global_element, is_global, is_part, operator_reads, unread_items, var_element,
};
use crate::literals::literal_at;
use crate::sections::{format_of, is_content, piece_json};
use crate::shorter::shorter;
use decimal_json::{Json, copy};
use expr_syntax::{Expr, FormatPiece, Names, Operator, Pieces};
use expr_types::{Bound, KindScope, argument_want};
use prop_values::{Kind, Want};
use std::alloc::{AllocError, Global};

/// A node that is simplified: its operator, the want under which it is, and the names around it.
#[derive(Drop)]
pub(crate) struct SimpleContext<'x> {
    alloc: Global,
    op: &'x Operator,
    want: Want,
    scope: &'x KindScope<'x>,
}

/// What becomes of a tree and the expression that it reads as, under a want, in the names around it.
#[tactic(auto, using(expr_syntax::proofs::Falls::argument_weight))]
#[cycle(simplifying)]
pub(crate) fn choices<'x>(
    alloc: Global,
    expression: &'x Expr,
    json: &Json,
    want: &Want,
    scope: &'x KindScope<'x>,
) -> Result<NodeChoices, AllocError>
    ensures { IfOk result (λ made. choices_seen made
        ≡ choices (term_of expression.now) (tree_of json.now) want.now (scope_of scope.now)) }
{
    match expression {
        Expr::Literal(value) => as_it_is(alloc, want, literal_at(alloc, value, want, json)?),
        Expr::Node(op, arguments) => {
            let context = SimpleContext {
                alloc,
                op,
                want: *want,
                scope: &*scope,
            };
            node_choices(&context, arguments.as_slice(), json)
        }
    }
}

// An argument, which is a content of a `format` or not.
#[tactic(auto, using(expr_syntax::proofs::Falls::argument_weight))]
#[cycle(simplifying)]
fn simple_element<'x>(
    alloc: Global,
    is_content: bool,
    expression: &'x Expr,
    json: &Json,
    want: &Want,
    scope: &'x KindScope<'x>,
) -> Result<SimpleElement, AllocError>
    ensures { IfOk result (λ made. element_seen made
        ≡ simple_element is_content (choices (term_of expression.now)) (tree_of json.now) want.now
        (scope_of scope.now)) }
{
    let found = choices(alloc, expression, json, want, &*scope)?;
    Ok(chosen(is_content, found))
}

#[tactic(auto, using(expr_syntax::proofs::Falls::argument_weight))]
#[cycle(simplifying)]
fn node_choices<'x>(
    context: &'x SimpleContext<'x>,
    arguments: &'x [Expr],
    json: &Json,
) -> Result<NodeChoices, AllocError>
    ensures { IfOk result (λ made. choices_seen made ≡ node_at context.now arguments.now (tree_of json.now)) }
{
    let alloc = context.alloc;
    match json {
        Json::List(items) => {
            if is_global(items.as_slice()) {
                as_it_is(
                    alloc,
                    &context.want,
                    global_element(alloc, &context.want, json)?,
                )
            } else {
                choices_inside(&*context, arguments, items.as_slice())
            }
        }
        _ => as_it_is(alloc, &context.want, unread(alloc, copy(alloc, json)?)),
    }
}

#[tactic(auto, using(expr_syntax::proofs::Falls::argument_weight))]
#[cycle(simplifying)]
fn choices_inside<'x>(
    context: &'x SimpleContext<'x>,
    arguments: &'x [Expr],
    items: &[Json],
) -> Result<NodeChoices, AllocError>
    ensures { IfOk result (λ made. choices_seen made ≡ inside_at context.now arguments.now items.now) }
{
    match context.op {
        Operator::Let(names) => let_simple(&*context, names, arguments, items),
        Operator::Var(name) => {
            let element = var_element(
                context.alloc,
                name.as_text(),
                &context.want,
                context.scope,
                items,
            )?;
            as_it_is(context.alloc, &context.want, element)
        }
        Operator::Format(pieces) => format_choices(&*context, pieces, arguments, items),
        _ => plain_choices(&*context, arguments, items),
    }
}

#[tactic(auto, using(expr_syntax::proofs::Falls::argument_weight))]
#[cycle(simplifying)]
fn plain_choices<'x>(
    context: &'x SimpleContext<'x>,
    arguments: &'x [Expr],
    items: &[Json],
) -> Result<NodeChoices, AllocError>
    ensures { IfOk result (λ made. choices_seen made ≡ plain_at context.now arguments.now items.now) }
{
    let reads = operator_reads(context.op, arguments);
    let made = elements(&*context, items.len(), arguments.len(), arguments, items)?;
    choices_from(context.alloc, context.op, &context.want, reads, made)
}

// The elements of a node of so many elements and arguments: those before some of its place.
#[tactic(auto, using(expr_syntax::proofs::Falls::argument_weight))]
#[cycle(simplifying)]
fn elements<'x>(
    context: &'x SimpleContext<'x>,
    count: usize,
    arguments: usize,
    given: &'x [Expr],
    items: &[Json],
) -> Result<Vec<SimpleElement>, AllocError>
    ensures { IfOk result
        (λ made. elements_seen made.items ≡ elements_at context.now count arguments 0 0 given.now items.now) }
{
    let mut made = Vec::new(context.alloc);
    let mut place = 0;
    for (at, item) in items.iter().enumerate() {
        match argument_here(context.op, count, at, given, place) {
            Some(argument) => {
                let element = argument_element(&*context, arguments, place, argument, item)?;
                made.push(element)?;
                place += 1;
            }
            None => made.push(part(context.alloc, item)?)?,
        }
    }
    Ok(made)
}

// The argument of a place among so many.
#[tactic(auto, using(expr_syntax::proofs::Falls::argument_weight))]
#[cycle(simplifying)]
fn argument_element<'x>(
    context: &'x SimpleContext<'x>,
    arguments: usize,
    place: usize,
    argument: &'x Expr,
    item: &Json,
) -> Result<SimpleElement, AllocError>
    requires short { place < 2 ^ 60 }
    ensures { IfOk result
        (λ made. element_seen made ≡ argument_at context.now arguments place argument.now (tree_of item.now)) }
{
    let want = argument_want(context.op, arguments, place, &context.want);
    simple_element(context.alloc, false, argument, item, &want, &*context.scope)
}

// The bindings, and then the body.
#[tactic(auto, using(expr_syntax::proofs::Falls::argument_weight))]
#[cycle(simplifying)]
fn let_simple<'x>(
    context: &'x SimpleContext<'x>,
    names: &'x Names,
    arguments: &'x [Expr],
    items: &[Json],
) -> Result<NodeChoices, AllocError>
    ensures { IfOk result (λ made. choices_seen made ≡ let_at context.now names.now arguments.now items.now) }
{
    let (own, rest) = cut(arguments, names);
    let (front, last) = front_and_last(items);
    let bindings = elements(&*context, items.len(), arguments.len(), own, front)?;
    let kinds = argument_kinds(context.alloc, bindings.as_slice())?;
    let body = let_body(&*context, &*names, kinds, rest, last)?;
    let_choices(&*context, names, bindings, body, items)
}

// The body of a `let`, or `None` where a binding has a type fault.
#[tactic(auto, using(expr_syntax::proofs::Falls::argument_weight))]
#[cycle(simplifying)]
fn let_body<'x>(
    context: &'x SimpleContext<'x>,
    names: &'x Names,
    kinds: Option<Vec<Kind>>,
    rest: &'x [Expr],
    last: Option<&Json>,
) -> Result<Option<SimpleElement>, AllocError>
    ensures { IfOk result (λ made. option_map element_seen made
        ≡ body_at context.now names.now (option_map (λ ks. ks.items) kinds) rest.now (tree_at last.entry)) }
{
    match kinds {
        Some(kinds) => body_inside(&*context, &*names, kinds.as_slice(), &*rest, last),
        None => Ok(None),
    }
}

#[tactic(auto, using(expr_syntax::proofs::Falls::argument_weight))]
#[cycle(simplifying)]
fn body_inside<'x>(
    context: &'x SimpleContext<'x>,
    names: &'x Names,
    kinds: &'x [Kind],
    rest: &'x [Expr],
    last: Option<&Json>,
) -> Result<Option<SimpleElement>, AllocError>
    ensures { IfOk result (λ made. option_map element_seen made
        ≡ body_at context.now names.now (Some kinds.now) rest.now (tree_at last.entry)) }
{
    match rest {
        [] => Ok(None),
        [body, ..] => match last {
            Some(json) => body_element(&*context, names, kinds, body, json),
            None => Ok(None),
        },
    }
}

// The body in the names that the bindings bind.
#[tactic(auto, using(expr_syntax::proofs::Falls::argument_weight))]
#[cycle(simplifying)]
fn body_element<'x>(
    context: &'x SimpleContext<'x>,
    names: &'x Names,
    kinds: &'x [Kind],
    body: &'x Expr,
    json: &Json,
) -> Result<Option<SimpleElement>, AllocError>
    ensures { IfOk result
        (λ made. option_map element_seen made ≡ body_in context.now names.now kinds.now body.now (tree_of json.now)) }
{
    if names.len() != kinds.len() {
        return Ok(None);
    }
    let scope = KindScope::Inside(Bound { names, kinds }, &*context.scope);
    let made = simple_element(context.alloc, false, &*body, json, &context.want, &scope)?;
    Ok(Some(made))
}

#[tactic(auto, using(expr_syntax::proofs::Falls::argument_weight))]
#[cycle(simplifying)]
fn format_choices<'x>(
    context: &'x SimpleContext<'x>,
    pieces: &Pieces,
    arguments: &'x [Expr],
    items: &[Json],
) -> Result<NodeChoices, AllocError>
    ensures { IfOk result (λ made. choices_seen made ≡ format_at context.now pieces.now arguments.now items.now) }
{
    let made = piece_elements(&*context, pieces, arguments, items)?;
    let element = format_of(
        context.alloc,
        context.op,
        pieces,
        &context.want,
        items,
        made,
    )?;
    as_it_is(context.alloc, &context.want, element)
}

#[tactic(auto, using(expr_syntax::proofs::Falls::argument_weight))]
#[cycle(simplifying)]
fn piece_elements<'x>(
    context: &'x SimpleContext<'x>,
    pieces: &Pieces,
    arguments: &'x [Expr],
    items: &[Json],
) -> Result<Vec<SimpleElement>, AllocError>
    ensures { IfOk result
        (λ made. elements_seen made.items ≡ pieces_at context.now pieces.now 0 arguments.now items.now) }
{
    let mut made = Vec::new(context.alloc);
    for (place, argument) in arguments.iter().enumerate() {
        made.push(piece_element(&*context, pieces, place, argument, items)?)?;
    }
    Ok(made)
}

#[tactic(auto, using(expr_syntax::proofs::Falls::argument_weight))]
#[cycle(simplifying)]
fn piece_element<'x>(
    context: &'x SimpleContext<'x>,
    pieces: &Pieces,
    place: usize,
    argument: &'x Expr,
    items: &[Json],
) -> Result<SimpleElement, AllocError>
    ensures { IfOk result (λ made. element_seen made
        ≡ piece_element (slice_get pieces.now place) (choices (term_of argument.now)) (items_view items.now)
        (scope_of context.now.scope.now)) }
{
    match pieces.as_slice().get(place) {
        Some(piece) => piece_at(&*context, piece, argument, piece_json(piece, items)),
        None => Ok(unread(context.alloc, Json::Null)),
    }
}

#[tactic(auto, using(expr_syntax::proofs::Falls::argument_weight))]
#[cycle(simplifying)]
fn piece_at<'x>(
    context: &'x SimpleContext<'x>,
    piece: &FormatPiece,
    argument: &'x Expr,
    json: Option<&Json>,
) -> Result<SimpleElement, AllocError>
    ensures { IfOk result (λ made. element_seen made
        ≡ piece_at piece.now (choices (term_of argument.now)) (tree_at json.entry) (scope_of context.now.scope.now)) }
{
    match json {
        Some(json) => simple_element(
            context.alloc,
            is_content(piece.role),
            argument,
            json,
            &piece.role.want(),
            &*context.scope,
        ),
        None => Ok(unread(context.alloc, Json::Null)),
    }
}

// A node of elements.
fn choices_from(
    alloc: Global,
    op: &Operator,
    want: &Want,
    reads: bool,
    elements: Vec<SimpleElement>,
) -> Result<NodeChoices, AllocError>
    ensures { IfOk result
        (λ made. choices_seen made ≡ choices_from op.now want.now reads (elements_seen elements.items)) }
{
    let shorter = shorter(alloc, op, want, elements.as_slice())?;
    let node = node_of(alloc, op, want, reads, elements)?;
    choices_of(alloc, want, node, shorter)
}

// A `let` of the elements before its body, and its body, or as it is where it has none.
fn let_choices(
    context: &SimpleContext<'_>,
    names: &Names,
    bindings: Vec<SimpleElement>,
    body: Option<SimpleElement>,
    items: &[Json],
) -> Result<NodeChoices, AllocError>
    ensures { IfOk result (λ made. choices_seen made
        ≡ let_choices names.now context.now.want (elements_seen bindings.items) (option_map element_seen body)
        (list (trees items.now))) }
{
    match body {
        Some(body) => choices_with(context, names, bindings, body),
        None => as_it_is(
            context.alloc,
            &context.want,
            unread_items(context.alloc, items)?,
        ),
    }
}

fn choices_with(
    context: &SimpleContext<'_>,
    names: &Names,
    bindings: Vec<SimpleElement>,
    body: SimpleElement,
) -> Result<NodeChoices, AllocError>
    ensures { IfOk result (λ made. choices_seen made
        ≡ choices_of context.now.want
        (let_of names.now context.now.want (elements_seen bindings.items) (element_seen body))
        (shorter_let names.now context.now.want (elements_seen bindings.items) (element_seen body))) }
{
    let alloc = context.alloc;
    let shorter = shorter_let(alloc, names, &context.want, bindings.as_slice(), &body)?;
    let node = let_of(alloc, names, &context.want, bindings, body)?;
    choices_of(alloc, &context.want, node, shorter)
}

// The argument that an element is, or `None` where it is a part or no argument is left.
fn argument_here<'x>(
    op: &Operator,
    count: usize,
    at: usize,
    given: &'x [Expr],
    place: usize,
) -> Option<&'x Expr>
    requires { at < 2 ^ 63 }
    ensures { option_map (λ e. e.now) result ≡ argument_here op.now count at given.now place }
{
    if is_part(op, count, at) {
        None
    } else {
        given.get(place)
    }
}

// As many of the first arguments as there are names, as far as there are so many, and the others.
fn cut<'x>(arguments: &'x [Expr], names: &Names) -> (&'x [Expr], &'x [Expr])
    ensures first { result.0.now ≡ take (length names.now) arguments.now }
    ensures others { result.1.now ≡ drop (length names.now) arguments.now }
{
    let count = names.len();
    if count <= arguments.len() {
        arguments.split_at(count)
    } else {
        (arguments, &[])
    }
}

// The elements before the last, and the last.
#[tactic(auto, using(crate::proofs::NodeLaws::item_got))]
fn front_and_last(items: &[Json]) -> (&[Json], Option<&Json>)
    ensures front { result.0.now ≡ take (length items.now - 1) items.now }
    ensures last { tree_at result.1 ≡ slice_get (items_view items.now) (length items.now - 1) }
{
    match items {
        [front @ .., last] => (front, Some(last)),
        [] => (items, None),
    }
}
