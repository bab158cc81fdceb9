//! The sentences of findings of the root, of sources and of layers.

ghost use Rattle.std.specs.Prelude.{◌≡◌, ◌∷◌, [], ◌++◌, codes, OnOk};
ghost use Rattle.decimal_json.specs.View.{tree_at, tree_of};
ghost use Rattle.decimal_json.specs.Accessors.{text_in};
ghost use Rattle.style_rules.specs.Rules.{sources_of_type};
ghost use Rattle.value_forms.specs.LayerTypes.{layer_type};
ghost use Rattle.finding_sentences.specs.Wanted.{texts_listed};
ghost use Rattle.finding_sentences.specs.Words.{member_unlike, words};
ghost use Rattle.finding_sentences.specs.Sentence.{source_type, global_sentence, layer_count, no_source};
ghost use Rattle.finding_sentences.specs.Sentence.{sources_wanted, unsuited, used_id, layer_member_sentence};
ghost use Rattle.finding_sentences.specs.Sentence.{layer_sentence, layers_sentence, member_sentence, named_sentence};
ghost use Rattle.finding_sentences.specs.Sentence.{root_sentence, source_name_sentence, source_sentence, suit_sentence};

use crate::pairs::count_of;
use crate::words::{
    BREAKS_RULE, PAST_BOUND, write_counted, write_found, write_lacks, write_member_unlike,
    write_unlike,
};
use decimal_json::{Json, write_text};
use property_tables::LayerType;
use std::alloc::AllocError;
use style_parts::source_at;
use value_forms::layer_type;

/// Appends the sentence of a finding at the root.
pub(crate) fn write_root(rule: u8, document: &Json, out: &mut Vec<u8>) -> Result<(), AllocError>
    ensures { OnOk result (out.new.items ≡ out.old.items ++ root_sentence rule (tree_of document.now)) }
{
    match rule {
        1 => write_unlike(b"an object", document, out),
        2 => write_missing(document, out),
        _ => out.extend_from_slice(BREAKS_RULE),
    }
}

fn write_missing(document: &Json, out: &mut Vec<u8>) -> Result<(), AllocError>
    ensures { OnOk result (out.new.items ≡ out.old.items ++ root_sentence 2 (tree_of document.now)) }
{
    if document.get("version").is_none() {
        return write_lacks("version", out);
    }
    if document.get("sources").is_none() {
        return write_lacks("sources", out);
    }
    if document.get("layers").is_none() {
        return write_lacks("layers", out);
    }
    out.extend_from_slice(BREAKS_RULE)
}

/// Appends the sentence of a finding at a member of the root.
pub(crate) fn write_root_member(rule: u8, json: &Json, out: &mut Vec<u8>) -> Result<(), AllocError>
    ensures { OnOk result (out.new.items ≡ out.old.items ++ member_sentence rule (tree_of json.now)) }
{
    match rule {
        3 => write_unlike(b"the number 8", json, out),
        4 => write_unlike(b"an object", json, out),
        5 => write_layers(json, out),
        22 => write_unlike(b"an object", json, out),
        _ => out.extend_from_slice(BREAKS_RULE),
    }
}

fn write_layers(json: &Json, out: &mut Vec<u8>) -> Result<(), AllocError>
    ensures { OnOk result (out.new.items ≡ out.old.items ++ layers_sentence (tree_of json.now)) }
{
    match json {
        Json::List(items) => write_layer_count(count_of(items.as_slice()), out),
        _ => write_unlike(b"an array", json, out),
    }
}

#[tactic(auto, unfolding(crate::specs::Sentence::layer_count))]
fn write_layer_count(count: usize, out: &mut Vec<u8>) -> Result<(), AllocError>
    ensures { OnOk result (out.new.items ≡ out.old.items ++ layer_count count) }
{
    out.extend_from_slice(b"must have at most 65536 layers, found ")?;
    write_counted(count, b"item", b"items", out)?;
    Ok(())
}

/// Appends the sentence of a finding at a source, or at a name of the global state.
pub(crate) fn write_named(rule: u8, json: &Json, out: &mut Vec<u8>) -> Result<(), AllocError>
    ensures { OnOk result (out.new.items ≡ out.old.items ++ named_sentence rule (tree_of json.now)) }
{
    match rule {
        4 => write_source(json, out),
        22 => write_global(json, out),
        _ => out.extend_from_slice(BREAKS_RULE),
    }
}

const SOURCE_TYPES: &[u8] =
    b"one of \"vector\", \"raster\", \"raster-dem\", \"geojson\", \"image\", \"video\"";

fn write_source(json: &Json, out: &mut Vec<u8>) -> Result<(), AllocError>
    ensures { OnOk result (out.new.items ≡ out.old.items ++ source_sentence (tree_of json.now)) }
{
    if !json.is_object() {
        return write_unlike(b"an object", json, out);
    }
    match json.get("type") {
        Some(name) => write_member_unlike("type", SOURCE_TYPES, name, out),
        None => write_lacks("type", out),
    }
}

fn write_global(json: &Json, out: &mut Vec<u8>) -> Result<(), AllocError>
    ensures { OnOk result (out.new.items ≡ out.old.items ++ global_sentence (tree_of json.now)) }
{
    if !json.is_object() {
        return write_unlike(b"an object with a \"default\"", json, out);
    }
    match json.get("default") {
        Some(_) => out.extend_from_slice(PAST_BOUND),
        None => write_lacks("default", out),
    }
}

/// Appends the sentence of a finding at a layer.
pub(crate) fn write_layer(rule: u8, layer: &Json, out: &mut Vec<u8>) -> Result<(), AllocError>
    ensures { OnOk result (out.new.items ≡ out.old.items ++ layer_sentence rule (tree_of layer.now)) }
{
    match rule {
        6 => write_unlike(b"an object", layer, out),
        7 => write_lacks("id", out),
        9 if layer.get("ref").is_some() => out.extend_from_slice(
            b"\"ref\" is not taken: in its place write the members of the layer that it names",
        ),
        9 => write_lacks("type", out),
        10 => write_lacks("source", out),
        12 => write_lacks("source-layer", out),
        _ => out.extend_from_slice(BREAKS_RULE),
    }
}

const LAYER_TYPES: &[u8] =
    b"one of \"background\", \"fill\", \"line\", \"symbol\", \"circle\", \"heatmap\", \"fill-extrusion\", \"raster\", \"hillshade\", \"color-relief\"";

/// Appends the sentence of a finding at a member of a layer.
pub(crate) fn write_layer_member(
    rule: u8,
    document: &Json,
    layer: &Json,
    json: &Json,
    out: &mut Vec<u8>,
) -> Result<(), AllocError>
    ensures { OnOk result (out.new.items
        ≡ out.old.items ++ layer_member_sentence rule (tree_of document.now) (tree_of layer.now) (tree_of json.now)) }
{
    match rule {
        7 => write_unlike(b"a text", json, out),
        8 => write_used_id(json, out),
        9 => write_unlike(LAYER_TYPES, json, out),
        10 => write_source_name(json, out),
        11 => write_suit(document, layer, json, out),
        12 => write_unlike(b"a text", json, out),
        13 => write_unlike(b"a number from 0 to 24", json, out),
        14 => write_unlike(b"an object", json, out),
        _ => out.extend_from_slice(BREAKS_RULE),
    }
}

fn write_source_name(json: &Json, out: &mut Vec<u8>) -> Result<(), AllocError>
    ensures { OnOk result (out.new.items ≡ out.old.items ++ source_name_sentence (tree_of json.now)) }
{
    match json {
        Json::Text(name) => write_no_source(name.as_str(), out),
        _ => write_unlike(b"the name of a source", json, out),
    }
}

#[tactic(auto, unfolding(crate::specs::Sentence::no_source))]
fn write_no_source(name: &str, out: &mut Vec<u8>) -> Result<(), AllocError>
    ensures { OnOk result (out.new.items ≡ out.old.items ++ no_source name.now) }
{
    out.extend_from_slice(b"the style has no source ")?;
    write_text(name, out)?;
    Ok(())
}

#[tactic(auto, unfolding(crate::specs::Sentence::used_id))]
fn write_used_id(json: &Json, out: &mut Vec<u8>) -> Result<(), AllocError>
    ensures { OnOk result (out.new.items ≡ out.old.items ++ used_id (tree_of json.now)) }
{
    out.extend_from_slice(b"an earlier layer has the id ")?;
    write_found(json, out)?;
    Ok(())
}

/// The type of a layer, where it is well formed.
pub(crate) fn type_of(layer: &Json) -> Option<LayerType>
    ensures { result ≡ layer_type (tree_of layer.now) }
{
    match layer {
        Json::Object(members) => layer_type(members),
        _ => None,
    }
}

// The type of the source that a layer names.
fn write_suit(
    document: &Json,
    layer: &Json,
    name: &Json,
    out: &mut Vec<u8>,
) -> Result<(), AllocError>
    ensures { OnOk result (out.new.items
        ≡ out.old.items ++ suit_sentence (layer_type (tree_of layer.now))
        (source_type (tree_of document.now) (text_in (tree_of name.now)))) }
{
    let source = name
        .as_text()
        .and_then(|name| source_at(document, name))
        .and_then(|source| source.get("type"));
    match (type_of(layer), source) {
        (Some(layer_type), Some(source)) => write_unsuited(layer_type, source, out),
        _ => out.extend_from_slice(BREAKS_RULE),
    }
}

#[tactic(auto, unfolding(crate::specs::Sentence::unsuited))]
fn write_unsuited(layer_type: LayerType, source: &Json, out: &mut Vec<u8>) -> Result<(), AllocError>
    ensures { OnOk result (out.new.items ≡ out.old.items ++ unsuited layer_type (tree_of source.now)) }
{
    out.extend_from_slice(b"a layer of type ")?;
    out.extend_from_slice(layer_type.name().as_bytes())?;
    out.extend_from_slice(b" needs a source whose ")?;
    write_type_unlike(sources_of_type(layer_type).as_bytes(), source, out)?;
    Ok(())
}

fn write_type_unlike(wanted: &[u8], json: &Json, out: &mut Vec<u8>) -> Result<(), AllocError>
    ensures { OnOk result (out.new.items
        ≡ out.old.items ++ member_unlike (codes "type") wanted.now (tree_of json.now)) }
{
    write_member_unlike("type", wanted, json, out)
}

#[tactic(auto, unfolding(crate::specs::Sentence::sources_wanted))]
fn sources_of_type(layer_type: LayerType) -> &'static str
    ensures { result.now ≡ sources_wanted layer_type }
{
    match layer_type {
        LayerType::Raster => "one of \"raster\", \"image\", \"video\"",
        LayerType::Hillshade | LayerType::ColorRelief => "one of \"raster-dem\"",
        _ => "one of \"vector\", \"geojson\"",
    }
}
