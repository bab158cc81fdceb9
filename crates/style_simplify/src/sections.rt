//! The arguments of a `format` in its elements.

ghost use Rattle.std.specs.Prelude.{◌≡◌, Some, IfOk, option_map};
ghost use Rattle.decimal_json.specs.View.{tree_of, tree_at, items_view};
ghost use Rattle.expr_types.specs.ArgumentPaths.{role_key};
ghost use Rattle.style_simplify.specs.Simple.{format_of, is_content, piece_tree, put_in, put_piece, put_pieces};
ghost use Rattle.style_simplify.specs.Simple.{with_option};
ghost use Rattle.style_simplify.specs.View.{element_seen, elements_seen};

use crate::element::{SimpleElement, all_asks, argument_kinds, kind_by, some_reads};
use crate::leaves::copied_items;
use decimal_json::{Items, Json};
use expr_syntax::{FormatPiece, Operator, Pieces, Role};
use prop_values::Want;
use std::alloc::{AllocError, Global};

pub(crate) fn is_content(role: Role) -> bool
    ensures { result ≡ is_content role }
{
    matches!(role, Role::Content)
}

// The option of `format` that is of a role.
fn role_key(role: Role) -> Option<&'static str>
    ensures { option_map (λ key. key.now) result ≡ role_key role }
{
    match role {
        Role::Content => None,
        Role::Scale => Some("font-scale"),
        Role::Font => Some("text-font"),
        Role::Color => Some("text-color"),
    }
}

/// The tree of an argument, in its element or in an option there.
pub(crate) fn piece_json<'x>(piece: &FormatPiece, items: &'x [Json]) -> Option<&'x Json>
    ensures { tree_at result ≡ piece_tree piece.now (items_view items.now) }
{
    let element = items.get(piece.at)?;
    match role_key(piece.role) {
        Some(key) => element.get(key),
        None => Some(element),
    }
}

#[tactic(auto, using(crate::proofs::PieceLaws::members_again))]
fn with_option(key: &str, value: Json, object: Json) -> Json
    ensures { tree_of result ≡ with_option key.now (tree_of value) (tree_of object) }
{
    match object {
        Json::Object(mut members) => {
            let _ = members.replace(key, value);
            Json::Object(members)
        }
        other => other,
    }
}

fn put_in(key: Option<&'static str>, value: Json, element: Json) -> Json
    ensures { tree_of result ≡ put_in (option_map (λ key. key.now) key.entry) (tree_of value) (tree_of element) }
{
    match key {
        Some(key) => with_option(key, value, element),
        None => value,
    }
}

fn put_piece(piece: Option<&FormatPiece>, value: Json, items: &mut Items)
    ensures { items.new ≡ put_piece (option_map (λ piece. piece.now) piece.entry) (tree_of value) items.old }
{
    if let Some(piece) = piece {
        put_at(piece, value, items);
    }
}

#[tactic(auto, using(crate::proofs::NodeLaws::items_length, crate::proofs::PieceLaws::set_twice, crate::proofs::PieceLaws::got_there))]
fn put_at(piece: &FormatPiece, value: Json, items: &mut Items)
    ensures { items.new ≡ put_piece (Some piece.now) (tree_of value) items.old }
{
    if piece.at < items.as_slice().len() {
        let element = items.replace(piece.at, Json::Null);
        let made = put_in(role_key(piece.role), value, element);
        let _ = items.replace(piece.at, made);
    }
}

fn put_pieces(pieces: &[FormatPiece], elements: Vec<SimpleElement>, items: &mut Items)
    ensures { items.new ≡ put_pieces pieces.now 0 (elements_seen elements.items) items.old }
{
    let mut place = 0;
    for element in elements {
        put_piece(pieces.get(place), element.json, items);
        place += 1;
    }
}

/// A `format` of simplified arguments.
pub(crate) fn format_of(
    alloc: Global,
    op: &Operator,
    pieces: &Pieces,
    want: &Want,
    items: &[Json],
    elements: Vec<SimpleElement>,
) -> Result<SimpleElement, AllocError>
    ensures { IfOk result (λ made. element_seen made
        ≡ format_of op.now pieces.now want.now (items_view items.now) (elements_seen elements.items)) }
{
    let kinds = argument_kinds(alloc, elements.as_slice())?;
    let kind = kind_by(alloc, op, want, kinds)?;
    let asks = all_asks(alloc, elements.as_slice())?;
    let reads = some_reads(elements.as_slice());
    let mut made = copied_items(alloc, items)?;
    put_pieces(pieces.as_slice(), elements, &mut made);
    Ok(SimpleElement {
        json: Json::List(made),
        is_part: false,
        kind,
        asks,
        reads,
    })
}
