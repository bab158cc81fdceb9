//! Token texts, whose tokens represent properties.

ghost use Rattle.std.specs.Prelude.{◌≡◌, ◌++◌, ◌+◌, ◌<◌, ◌≤◌, length, map, drop, IfOk, OnOk};
ghost use Rattle.std.specs.String.{string_bytes};
ghost use Rattle.decimal_json.specs.View.{tree_of};
ghost use Rattle.fixed_num.specs.NumberText.{number_text};
ghost use Rattle.prop_values.specs.ValueText.{shown_text};
ghost use Rattle.prop_values.specs.View.{data_of};
ghost use Rattle.shared_text.specs.Ranges.{IsRest};
ghost use Rattle.legacy_functions.specs.TokenSize.{token_size, plain_size, size_of, begins_token, any_token};
ghost use Rattle.legacy_functions.specs.Tokens.{before_brace, token_name, has_tokens, pieces, property_text};
ghost use Rattle.legacy_functions.specs.Tokens.{piece_expression, property_expression, token_text, token_expression};

use crate::expression::{ascii_text, call};
use crate::names::{CallName, CallNames};
use decimal_json::{Items, Json, Text};
use fixed_num::Fixed;
use prop_values::{Value, to_text};
use shared_text::Document;
use std::alloc::{AllocError, Global};
use tile_reader::Feature;

/// A part of a token text: a literal text, or the name of the property that a token represents.
#[derive(Drop)]
pub(crate) enum TokenPiece {
    Plain(Text),
    Token(Text),
}

/// Whether a text has a token: `{`, one or more characters other than braces, and `}`.
#[tactic(auto, using(crate::proofs::TokenLaws::tokens_anywhere))]
pub fn has_tokens(text: &str) -> bool
    ensures { result ≡ has_tokens text.now }
{
    any_token(text.as_bytes())
}

#[tactic(auto, using(crate::proofs::TokenLaws::any_from))]
fn any_token(bytes: &[u8]) -> bool
    ensures { result ≡ any_token bytes.now }
{
    for i in 0..bytes.len() {
        if begins_token(bytes.split_at(i).1) {
            return true;
        }
    }
    false
}

/// The text on a feature: each token is replaced by the text of that property, which is empty where it is
/// missing.
pub fn token_text(alloc: Global, text: &str, feature: &Feature) -> Result<Text, AllocError>
    ensures { IfOk result (λ made. made ≡ token_text text.now feature.now) }
{
    let mut made = String::with_capacity(alloc, text.len())?;
    let mut rest = text;
    while rest.len() > 0 {
        rest = push_first(alloc, &mut made, rest, feature)?;
    }
    Text::of(made)
}

// Adds the text of the first piece of a text, and gives the text after it.
fn push_first<'a>(
    alloc: Global,
    made: &mut String,
    rest: &'a str,
    feature: &Feature,
) -> Result<&'a str, AllocError>
    requires { 0 < length rest.now }
    ensures text { IfOk result (λ later. string_bytes made.new ++ token_text later.now feature.now
        ≡ string_bytes made.old ++ token_text rest.now feature.now) }
    ensures shorter { IfOk result (λ later. length later.now < length rest.now) }
{
    let size = token_length(rest.as_bytes());
    if size > 0 {
        push_property(alloc, made, &rest[1..size - 1], feature)?;
        Ok(&rest[size..])
    } else {
        let size = plain_length(rest.as_bytes());
        made.push_str(&rest[..size])?;
        Ok(&rest[size..])
    }
}

// Adds the text of a property.
fn push_property(
    alloc: Global,
    made: &mut String,
    name: &str,
    feature: &Feature,
) -> Result<(), AllocError>
    ensures { OnOk result (string_bytes made.new ≡ string_bytes made.old ++ property_text name.now feature.now) }
{
    match feature.properties.get(name) {
        Some(value) => push_shown(alloc, made, value),
        None => Ok(()),
    }
}

// Adds what `to-string` says of a value. A text and a number take no memory of their own.
fn push_shown(alloc: Global, made: &mut String, value: &Value) -> Result<(), AllocError>
    ensures { OnOk result (string_bytes made.new ≡ string_bytes made.old ++ shown_text (data_of value.now)) }
{
    match value {
        Value::Text(text) => made.push_str(text.as_str()),
        Value::Num(number) => push_number(made, *number),
        _ => {
            let text = to_text(alloc, value)?;
            made.push_str(text.as_str())
        }
    }
}

fn push_number(made: &mut String, number: Fixed) -> Result<(), AllocError>
    ensures { OnOk result (string_bytes made.new ≡ string_bytes made.old ++ number_text number) }
{
    let mut out = [0; 48];
    let length = number.write(&mut out);
    made.push_str(ascii_text(&out[..length]))
}

/// The expression that means the same: `concat` of the pieces in order, a token as `get` of its property. The texts of
/// the pieces are ranges of one copy of the text.
pub fn token_expr(alloc: Global, text: &str) -> Result<Json, AllocError>
    ensures { IfOk result (λ made. tree_of made ≡ token_expression text.now) }
{
    let document = Document::copy_of(alloc, text.as_bytes())?;
    let names = CallNames::of(alloc)?;
    let mut items = call(
        alloc,
        &names,
        CallName::Concat,
        piece_count(text.as_bytes()),
    )?;
    push_pieces(alloc, &names, &mut items, &document, text)?;
    Ok(Json::List(items))
}

// Adds the expressions of the pieces of what is left of a text.
fn push_pieces(
    alloc: Global,
    names: &CallNames,
    items: &mut Items,
    document: &Document,
    text: &str,
) -> Result<(), AllocError>
    requires left { IsRest text.now document.now }
    ensures { OnOk result (items.new ≡ items.old ++ map piece_expression (pieces text.now)) }
{
    let mut rest = text;
    while rest.len() > 0 {
        rest = push_piece(alloc, names, items, document, rest)?;
    }
    Ok(())
}

// How many pieces a text has.
fn piece_count(bytes: &[u8]) -> usize
    ensures { result ≡ length (pieces bytes.now) }
{
    let mut count = 0;
    let mut rest = bytes;
    while rest.len() > 0 {
        rest = &rest[first_length(rest)..];
        count += 1;
    }
    count
}

// How many bytes the first piece of a text has.
fn first_length(bytes: &[u8]) -> usize
    requires { 0 < length bytes.now }
    ensures some { 0 < result }
    ensures within { result ≤ length bytes.now }
    ensures one { length (pieces bytes.now) ≡ length (pieces (drop result bytes.now)) + 1 }
{
    let size = token_length(bytes);
    if size > 0 { size } else { plain_length(bytes) }
}

// Adds the expression of the first piece of what is left of a text, and gives the text after it.
fn push_piece<'a>(
    alloc: Global,
    names: &CallNames,
    items: &mut Items,
    document: &Document,
    rest: &'a str,
) -> Result<&'a str, AllocError>
    requires some { 0 < length rest.now }
    requires left { IsRest rest.now document.now }
    ensures pieces { IfOk result (λ later. items.new ++ map piece_expression (pieces later.now)
        ≡ items.old ++ map piece_expression (pieces rest.now)) }
    ensures shorter { IfOk result (λ later. length later.now < length rest.now) }
    ensures left { IfOk result (λ later. IsRest later.now document.now) }
{
    let bytes = rest.as_bytes();
    let size = token_length(bytes);
    if size > 0 {
        let name = Text::of_rest(document, &bytes[1..], size - 2)?;
        items.push(piece_expression(alloc, names, TokenPiece::Token(name))?)?;
        Ok(&rest[size..])
    } else {
        let size = plain_length(bytes);
        let part = Text::of_rest(document, bytes, size)?;
        items.push(piece_expression(alloc, names, TokenPiece::Plain(part))?)?;
        Ok(&rest[size..])
    }
}

fn piece_expression(alloc: Global, names: &CallNames, piece: TokenPiece) -> Result<Json, AllocError>
    ensures { IfOk result (λ made. tree_of made ≡ piece_expression piece) }
{
    match piece {
        TokenPiece::Plain(part) => Ok(Json::Text(part)),
        TokenPiece::Token(name) => property_expression(alloc, names, name),
    }
}

/// `get` of a property.
pub(crate) fn property_expression(
    alloc: Global,
    names: &CallNames,
    name: Text,
) -> Result<Json, AllocError>
    ensures { IfOk result (λ made. tree_of made ≡ property_expression name) }
{
    let mut items = call(alloc, names, CallName::Get, 1)?;
    items.push(Json::Text(name))?;
    Ok(Json::List(items))
}

// How many bytes are before the first token.
#[tactic(auto, using(crate::proofs::TokenLaws::plain_from))]
fn plain_length(bytes: &[u8]) -> usize
    ensures count { result ≡ plain_size bytes.now }
    ensures within { result ≤ length bytes.now }
{
    for i in 0..bytes.len() {
        if begins_token(bytes.split_at(i).1) {
            return i;
        }
    }
    bytes.len()
}

#[tactic(auto, using(crate::proofs::TokenLaws::size_begins))]
fn begins_token(bytes: &[u8]) -> bool
    ensures { result ≡ begins_token bytes.now }
{
    token_length(bytes) > 0
}

// How many bytes the token has that bytes begin with, and 0 where they begin with none.
fn token_length(bytes: &[u8]) -> usize
    ensures size { result ≡ token_size bytes.now }
    ensures within { result ≤ length bytes.now }
{
    match bytes {
        [b'{', later @ ..] => closed_length(later),
        _ => 0,
    }
}

// How many bytes the token has whose `{` is before these.
fn closed_length(later: &[u8]) -> usize
    ensures size { result ≡ size_of (token_name later.now) }
    ensures within { result ≤ length later.now + 1 }
{
    let count = name_length(later);
    if count > 0 && count < later.len() && later[count] == b'}' {
        count + 2
    } else {
        0
    }
}

// How many bytes are before the first brace.
fn name_length(bytes: &[u8]) -> usize
    ensures count { result ≡ length (before_brace bytes.now) }
    ensures within { result ≤ length bytes.now }
{
    for (i, byte) in bytes.iter().enumerate() {
        if *byte == b'{' || *byte == b'}' {
            return i;
        }
    }
    bytes.len()
}
