//! Sets of texts, and names of transitions.

ghost use Rattle.std.specs.Prelude.{◌≡◌, ℕ, List, ◌||◌, OnOk, option_map};
ghost use Rattle.std.specs.Str.{bytes_eq};
ghost use Rattle.style_rules.specs.CodeView.{has_name};
ghost use Rattle.style_rules.specs.Places.{is_transition_name, before_suffix, transition_suffix};

use decimal_json::Text;
use prop_values::{Entries, Value};
use property_tables::{LayerType, Place, row};
use std::alloc::AllocError;

pub(crate) fn has_text(texts: &Entries, text: &str) -> bool
    ensures { result ≡ has_name texts.now text.now }
{
    match texts.get(text) {
        Some(_) => true,
        None => false,
    }
}

/// Puts a text into a set.
pub(crate) fn note_text(texts: &mut Entries, text: &Text) -> Result<(), AllocError>
    ensures { OnOk result ((s : List ℕ) → has_name texts.new s ≡ (bytes_eq text.now s || has_name texts.old s)) }
{
    texts.set(text.share()?, Value::Null)
}

/// Whether a name is that of a transition of a row of `paint`.
pub(crate) fn is_transition_name(layer_type: LayerType, place: Place, name: &str) -> bool
    ensures { result ≡ is_transition_name layer_type place name.now }
{
    if place == Place::Layout {
        return false;
    }
    match before_suffix(name) {
        Some(name) => row(layer_type, Place::Paint, name).is_some(),
        None => false,
    }
}

// The name before `-transition`, where a name ends so.
fn before_suffix(name: &str) -> Option<&str>
    ensures { option_map (λ before. before.now) result ≡ before_suffix transition_suffix name.now }
{
    name.strip_suffix("-transition")
}
