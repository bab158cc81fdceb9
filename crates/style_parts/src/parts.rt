//! The parts of a style document.

ghost use Rattle.std.specs.Prelude.{◌≡◌, option_map};
ghost use Rattle.decimal_json.specs.Tree.{fields_of};
ghost use Rattle.decimal_json.specs.View.{tree_at, tree_of, trees};
ghost use Rattle.style_parts.specs.Parts.{is_id_of, layers_of, source_at, sources_of};

use decimal_json::{Json, Members};

/// The layers of a document; none where `layers` is no array.
pub fn layers_of(document: &Json) -> &[Json]
    ensures { trees result.now ≡ layers_of (tree_of document.now) }
{
    match document.get("layers") {
        Some(Json::List(layers)) => layers.as_slice(),
        _ => &[],
    }
}

/// The sources of a document, or `None` exactly where `sources` is no object.
pub fn sources_of(document: &Json) -> Option<&Members>
    ensures { option_map (λ sources. fields_of sources.now) result ≡ sources_of (tree_of document.now) }
{
    document.get("sources").and_then(Json::as_members)
}

/// The source of a name, or `None` exactly where the document has none of it.
pub fn source_at<'a>(document: &'a Json, name: &str) -> Option<&'a Json>
    ensures { tree_at result ≡ source_at (tree_of document.now) name.now }
{
    document
        .get("sources")
        .and_then(|sources| sources.get(name))
}

/// Whether a text is the id of a layer.
pub fn is_id_of(id: &str, layer: &Json) -> bool
    ensures { result ≡ is_id_of id.now (tree_of layer.now) }
{
    match layer.get("id").and_then(Json::as_text) {
        Some(own) => own == id,
        None => false,
    }
}
