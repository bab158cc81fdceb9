ghost use Rattle.std.specs.Prelude.{◌≡◌, ◌++◌, codes, option_map, OnOk};
ghost use Rattle.decimal_json.specs.View.{tree_of};
ghost use Rattle.decimal_json.specs.Accessors.{text_at};
ghost use Rattle.std.specs.Option.{option_and_then};
ghost use Rattle.style_parts.specs.Parts.{layer_at, layers_of};
ghost use Rattle.finding_sentences.specs.Subject.{layer_words, member_words, subject};

use crate::node_words::layer_at;
use crate::words::{write_count, write_name, write_shown};
use decimal_json::{Json, Path, PathPart, write_text};
use std::alloc::AllocError;

/// Appends what a line is about: the layer by its id, or by its place where it has none, and the property or member.
pub fn write_subject(document: &Json, path: &Path, out: &mut Vec<u8>) -> Result<(), AllocError>
    ensures { OnOk result (out.new.items ≡ out.old.items ++ subject (tree_of document.now) path.now) }
{
    match path.as_slice() {
        [PathPart::Key(_), PathPart::Index(place), more @ ..] => {
            write_layer(document, *place, out)?;
            write_member(more, out)
        }
        [PathPart::Key(key), PathPart::Key(name), ..] => {
            write_name(key.as_str(), out)?;
            out.extend_from_slice(b" ")?;
            write_text(name.as_str(), out)
        }
        [PathPart::Key(key)] => write_name(key.as_str(), out),
        _ => out.extend_from_slice(b"style"),
    }
}

fn write_layer(document: &Json, place: usize, out: &mut Vec<u8>) -> Result<(), AllocError>
    ensures { OnOk result (out.new.items ≡ out.old.items ++ layer_words (tree_of document.now) place) }
{
    out.extend_from_slice(b"layer ")?;
    match id_at(document, place) {
        Some(id) => write_shown(id, out),
        None => write_count(place, out),
    }
}

fn id_at(document: &Json, place: usize) -> Option<&str>
    ensures { option_map (λ id. id.now) result
        ≡ option_and_then (text_at (codes "id")) (layer_at place (layers_of (tree_of document.now))) }
{
    layer_at(document, place)
        .and_then(|layer| layer.get("id"))
        .and_then(Json::as_text)
}

fn write_member(parts: &[PathPart], out: &mut Vec<u8>) -> Result<(), AllocError>
    ensures { OnOk result (out.new.items ≡ out.old.items ++ member_words parts.now) }
{
    let name = match parts {
        [PathPart::Key(_), PathPart::Key(name), ..] => name,
        [PathPart::Key(name), ..] => name,
        _ => return Ok(()),
    };
    out.extend_from_slice(b", ")?;
    write_name(name.as_str(), out)
}
