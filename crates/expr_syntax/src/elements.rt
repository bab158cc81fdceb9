//! How the elements of a node are found.

ghost use Rattle.std.specs.Prelude.{◌≡◌, option_map};
ghost use Rattle.decimal_json.specs.Accessors.{text_in};
ghost use Rattle.decimal_json.specs.View.{tree_of, trees};
ghost use Rattle.expr_syntax.specs.Elements.{after_head, head_name, head_text, second, second_text};

use crate::names::{Name, operator_named};
use decimal_json::{Json, Text};

/// The text that an element is.
pub(crate) fn text_in(json: &Json) -> Option<&Text>
    ensures { option_map (λ t. t.now) result ≡ text_in (tree_of json.now) }
{
    match json {
        Json::Text(text) => Some(text),
        _ => None,
    }
}

/// The text that an array begins with.
pub(crate) fn head_text(items: &[Json]) -> Option<&Text>
    ensures { option_map (λ t. t.now) result ≡ head_text (trees items.now) }
{
    match items {
        [] => None,
        [first, ..] => text_in(first),
    }
}

/// The operator that an array names.
pub(crate) fn head_name(items: &[Json]) -> Option<Name>
    ensures { result ≡ head_name (trees items.now) }
{
    match head_text(items) {
        Some(text) => operator_named(text.as_str()),
        None => None,
    }
}

/// The elements after the name.
#[tactic(auto, using(crate::proofs::PartLaws::after_first))]
pub(crate) fn after_head(items: &[Json]) -> &[Json]
    ensures { trees result.now ≡ after_head (trees items.now) }
{
    match items {
        [] => items,
        [_, elements @ ..] => elements,
    }
}

/// The element after the name.
#[tactic(auto, using(crate::proofs::PartLaws::second_of_one))]
pub(crate) fn second(items: &[Json]) -> Option<&Json>
    ensures { option_map (λ j. tree_of j.now) result ≡ second (trees items.now) }
{
    match items {
        [] => None,
        [_] => None,
        [_, element, ..] => Some(element),
    }
}

/// The text that is the element after the name.
pub(crate) fn second_text(items: &[Json]) -> Option<&Text>
    ensures { option_map (λ t. t.now) result ≡ second_text (trees items.now) }
{
    match second(items) {
        Some(element) => text_in(element),
        None => None,
    }
}
