//! What follows the parts of a text.

ghost use Rattle.std.specs.Prelude.{◌≡◌, drop, false};
ghost use Rattle.json_tokens.specs.Sequence.{is_space};
ghost use Rattle.decimal_json.specs.View.{tree_of, trees, fields};
ghost use Rattle.text_places.specs.Skipping.{after_closing, after_items, after_mark, after_members, after_spaces};
ghost use Rattle.text_places.specs.Skipping.{after_string, after_value, member_value, next_item, next_member};

use decimal_json::{Json, Member};

/// The text after white space.
pub(crate) fn after_spaces(text: &[u8]) -> &[u8]
    ensures { result.now ≡ after_spaces text.now }
{
    let mut rest = text;
    while let Some((first, later)) = rest.split_first() {
        if !is_space(*first) {
            return rest;
        }
        rest = later;
    }
    rest
}

fn is_space(byte: u8) -> bool
    ensures { result ≡ is_space byte }
{
    byte == b' ' || byte == b'\t' || byte == b'\n' || byte == b'\r'
}

/// The text after a byte, and the white space that follows it.
pub(crate) fn after_mark(text: &[u8]) -> &[u8]
    ensures { result.now ≡ after_mark text.now }
{
    after_spaces(after_first(text, 1))
}

// The text after the first `count` bytes.
#[tactic(auto, using(crate::proofs::SkipLaws::drop_past))]
fn after_first(text: &[u8], count: usize) -> &[u8]
    ensures { result.now ≡ drop count text.now }
{
    if count > text.len() {
        return &[];
    }
    let (_, later) = text.split_at(count);
    later
}

// The text after a string.
fn after_string(text: &[u8]) -> &[u8]
    ensures { result.now ≡ after_string text.now }
{
    after_closing(after_first(text, 1))
}

fn after_closing(text: &[u8]) -> &[u8]
    ensures { result.now ≡ after_closing false text.now }
{
    let mut rest = text;
    let mut escaped = false;
    while let Some((first, later)) = rest.split_first() {
        rest = later;
        if escaped {
            escaped = false;
        } else if *first == b'"' {
            return rest;
        } else {
            escaped = *first == b'\\';
        }
    }
    rest
}

/// The text from the value of a member on, whose name it begins with.
pub(crate) fn member_value(text: &[u8]) -> &[u8]
    ensures { result.now ≡ member_value text.now }
{
    after_mark(after_spaces(after_string(text)))
}

/// The text from the next item on.
pub(crate) fn next_item<'a>(item: &Json, text: &'a [u8]) -> &'a [u8]
    ensures { result.now ≡ next_item (tree_of item.now) text.now }
{
    after_mark(after_value(item, text))
}

/// The text from the next member on, where it begins with the name of this one.
pub(crate) fn next_member<'a>(value: &Json, text: &'a [u8]) -> &'a [u8]
    ensures { result.now ≡ next_member (tree_of value.now) text.now }
{
    after_mark(after_value(value, member_value(text)))
}

// The text after a value and white space.
#[tactic(auto, using(decimal_json::specs::Falls::item_weight, decimal_json::specs::Falls::member_weight))]
#[cycle(skipping)]
fn after_value<'x>(json: &Json, text: &'x [u8]) -> &'x [u8]
    ensures { result.now ≡ after_value (tree_of json.now) text.now }
{
    match json {
        Json::Null => after_spaces(after_first(text, 4)),
        Json::Bool(true) => after_spaces(after_first(text, 4)),
        Json::Bool(false) => after_spaces(after_first(text, 5)),
        Json::Num(number) => after_spaces(after_first(text, number.as_str().len())),
        Json::Text(_) => after_spaces(after_string(text)),
        Json::List(items) => after_items(items.as_slice(), after_mark(text)),
        Json::Object(members) => after_members(members.as_slice(), after_mark(text)),
    }
}

#[tactic(auto, using(decimal_json::specs::Falls::item_weight, crate::proofs::SkipLaws::some_items))]
#[cycle(skipping)]
fn after_items<'x>(items: &[Json], text: &'x [u8]) -> &'x [u8]
    ensures { result.now ≡ after_items (trees items.now) text.now }
{
    if items.is_empty() {
        return after_mark(text);
    }
    let mut rest = text;
    for item in items {
        rest = after_mark(after_value(item, rest));
    }
    rest
}

#[tactic(auto, using(decimal_json::specs::Falls::member_weight, crate::proofs::SkipLaws::some_members))]
#[cycle(skipping)]
fn after_members<'x>(members: &[Member], text: &'x [u8]) -> &'x [u8]
    ensures { result.now ≡ after_members (fields members.now) text.now }
{
    if members.is_empty() {
        return after_mark(text);
    }
    let mut rest = text;
    for member in members {
        rest = after_mark(after_value(&member.value, member_value(rest)));
    }
    rest
}
