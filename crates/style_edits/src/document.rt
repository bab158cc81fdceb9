//! The layers of a document, taken out and put back for an edit.

ghost use Rattle.std.specs.Prelude.{◌≡◌, codes};
ghost use Rattle.decimal_json.specs.Accessors.{member};
ghost use Rattle.decimal_json.specs.View.{tree_of};
ghost use Rattle.style_edits.specs.Layers.{with_list};
ghost use Rattle.style_edits.specs.Taking.{has_array, TakesLayers};

use crate::objects::replace_member;
use decimal_json::{Items, Json};

/// Takes the layers out of a document, which has a null in their place until they are put back. Where `layers` is no
/// array, nothing changes.
pub(crate) fn take_layers(style: &mut Json) -> Option<Items>
    ensures { TakesLayers (tree_of style.old) result (tree_of style.new) }
{
    if !has_array(style) {
        return None;
    }
    match replace_member(style, "layers", Json::Null) {
        Some(Json::List(layers)) => Some(layers),
        _ => unreachable!(),
    }
}

fn has_array(style: &Json) -> bool
    ensures { result ≡ has_array (member (codes "layers") (tree_of style.now)) }
{
    matches!(style.get("layers"), Some(Json::List(_)))
}

/// Puts layers in place of what `layers` is.
pub(crate) fn put_layers(style: &mut Json, layers: Items)
    ensures { tree_of style.new ≡ with_list layers (tree_of style.old) }
{
    let _ = replace_member(style, "layers", Json::List(layers));
}
