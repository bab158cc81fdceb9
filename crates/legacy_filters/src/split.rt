ghost use Rattle.std.specs.Prelude.{◌≡◌};
ghost use Rattle.decimal_json.specs.View.{tree_of, trees};
ghost use Rattle.legacy_filters.specs.Split.{is_array, is_special_key, has_is_legacy, in_is_legacy};
ghost use Rattle.legacy_filters.specs.Split.{comparison_is_legacy, named_is_legacy, is_legacy, array_is_legacy};
ghost use Rattle.legacy_filters.specs.Split.{some_legacy};

use decimal_json::Json;

/// Whether a filter is a legacy one; else it is an expression. The forms of both overlap, and the split
/// decides by the name that an array begins with and by which of its elements are arrays. Source: own.
#[tactic(auto, using(decimal_json::specs::Falls::item_weight))]
#[cycle(split)]
pub fn is_legacy(filter: &Json) -> bool
    ensures { result ≡ is_legacy (tree_of filter.now) }
{
    match filter {
        Json::Bool(_) => false,
        Json::List(items) => array_is_legacy(items.as_slice()),
        _ => true,
    }
}

#[tactic(auto, using(decimal_json::specs::Falls::item_weight))]
#[cycle(split)]
fn array_is_legacy(items: &[Json]) -> bool
    ensures { result ≡ array_is_legacy (trees items.now) }
{
    match items {
        [] => true,
        [Json::Text(name), others @ ..] => named_is_legacy(name.as_str(), others),
        _ => false,
    }
}

// An array that begins with a name, by the elements after it.
#[tactic(auto, using(decimal_json::specs::Falls::item_weight))]
#[cycle(split)]
fn named_is_legacy(name: &str, others: &[Json]) -> bool
    ensures { result ≡ named_is_legacy name.now (trees others.now) (some_legacy (trees others.now)) }
{
    match name {
        "has" => has_is_legacy(others),
        "in" => in_is_legacy(others),
        "!in" | "!has" | "none" => true,
        "==" | "!=" | "<" | "<=" | ">" | ">=" => comparison_is_legacy(others),
        "all" | "any" => some_legacy(others),
        _ => false,
    }
}

#[tactic(auto, using(decimal_json::specs::Falls::item_weight))]
#[cycle(split)]
fn some_legacy(filters: &[Json]) -> bool
    ensures { result ≡ some_legacy (trees filters.now) }
{
    for filter in filters {
        if is_legacy(filter) {
            return true;
        }
    }
    false
}

fn has_is_legacy(others: &[Json]) -> bool
    ensures { result ≡ has_is_legacy (trees others.now) }
{
    match others {
        [] => true,
        [key, ..] => is_special_key(key),
    }
}

fn is_special_key(key: &Json) -> bool
    ensures { result ≡ is_special_key (tree_of key.now) }
{
    match key {
        Json::Text(key) => matches!(key.as_str(), "$id" | "$type"),
        _ => false,
    }
}

#[tactic(auto, using(crate::proofs::Lengths::in_of_few))]
fn in_is_legacy(others: &[Json]) -> bool
    ensures { result ≡ in_is_legacy (trees others.now) }
{
    match others {
        [needle, place, ..] => needle.is_text() && !is_array(place),
        _ => true,
    }
}

#[tactic(auto, using(crate::proofs::Lengths::comparison_of_few, crate::proofs::Lengths::comparison_of_many))]
fn comparison_is_legacy(others: &[Json]) -> bool
    ensures { result ≡ comparison_is_legacy (trees others.now) }
{
    match others {
        [a, b] => !is_array(a) && !is_array(b),
        _ => false,
    }
}

fn is_array(json: &Json) -> bool
    ensures { result ≡ is_array (tree_of json.now) }
{
    matches!(json, Json::List(_))
}
