ghost use Rattle.std.specs.Prelude.{◌≡◌, ◌++◌, option_map, OnOk, Some};
ghost use Rattle.decimal_json.specs.View.{tree_at, tree_of};
ghost use Rattle.property_tables.specs.RowView.{row_seen};
ghost use Rattle.finding_sentences.specs.Sentence.{filter_sentence, in_layer_sentence, is_property};
ghost use Rattle.finding_sentences.specs.Sentence.{layer_part_sentence, other_hint, place_hint, placed_sentence};
ghost use Rattle.finding_sentences.specs.Sentence.{property_sentence, marked_sentence, sentence, unknown_sentence};
ghost use Rattle.finding_sentences.specs.Sentence.{value_sentence, other_place, place_name};
ghost use Rattle.finding_sentences.specs.ExpressionSentence.{in_node, input_sentence, node_at};
ghost use Rattle.value_forms.specs.LayerTypes.{layer_type, place_named};
ghost use Rattle.decimal_json.specs.Accessors.{member};

use crate::expression_sentence::{WantedValue, ZOOM_SENTENCE, write_expression, write_input};
use crate::filter_sentence::write_filter_part;
use crate::function_sentence::{write_function, write_function_input};
use crate::layer_sentence::{
    type_of, write_layer, write_layer_member, write_named, write_root, write_root_member,
};
use crate::literal_sentence::write_literal;
use crate::node_words::{layer_at, node_at};
use crate::words::{BREAKS_RULE, write_count, write_unlike};
use decimal_json::{Json, Path, PathPart, write_text};
use prop_values::Want;
use property_tables::{LayerType, Place, Row, row};
use std::alloc::AllocError;

/// Appends the sentence of a finding, which is what is wanted at its place by its rule and what was found, and then the
/// rule.
pub fn write_sentence(
    document: &Json,
    path: &Path,
    rule: u8,
    out: &mut Vec<u8>,
) -> Result<(), AllocError>
    ensures { OnOk result (out.new.items ≡ out.old.items ++ marked_sentence (tree_of document.now) path.now rule) }
{
    write_bare(document, path.as_slice(), rule, out)?;
    if rule != 16 {
        out.extend_from_slice(b" [V")?;
        write_count(usize::from(rule), out)?;
        out.extend_from_slice(b"]")?;
    }
    Ok(())
}

fn write_bare(
    document: &Json,
    path: &[PathPart],
    rule: u8,
    out: &mut Vec<u8>,
) -> Result<(), AllocError>
    ensures { OnOk result (out.new.items ≡ out.old.items ++ sentence (tree_of document.now) path.now rule) }
{
    match path {
        [] => write_root(rule, document, out),
        [PathPart::Key(key)] => match document.get(key.as_str()) {
            Some(json) => write_root_member(rule, json, out),
            None => out.extend_from_slice(BREAKS_RULE),
        },
        [PathPart::Key(key), PathPart::Key(name), ..] => {
            match document
                .get(key.as_str())
                .and_then(|outer| outer.get(name.as_str()))
            {
                Some(json) => write_named(rule, json, out),
                None => out.extend_from_slice(BREAKS_RULE),
            }
        }
        [PathPart::Key(_), PathPart::Index(place), more @ ..] => {
            match layer_at(document, *place) {
                Some(layer) => write_in_layer(rule, document, layer, more, out),
                None => out.extend_from_slice(BREAKS_RULE),
            }
        }
        _ => out.extend_from_slice(BREAKS_RULE),
    }
}

fn write_in_layer(
    rule: u8,
    document: &Json,
    layer: &Json,
    parts: &[PathPart],
    out: &mut Vec<u8>,
) -> Result<(), AllocError>
    ensures { OnOk result (out.new.items
        ≡ out.old.items ++ layer_part_sentence rule (tree_of document.now) parts.now (tree_of layer.now)) }
{
    match parts {
        [] => write_layer(rule, layer, out),
        [PathPart::Key(key), more @ ..] => match layer.get(key.as_str()) {
            Some(json) => {
                let part = LayerMember {
                    layer,
                    key: key.as_str(),
                    json,
                };
                write_below_member(rule, document, &part, more, out)
            }
            None => out.extend_from_slice(BREAKS_RULE),
        },
        _ => out.extend_from_slice(BREAKS_RULE),
    }
}

// A member of a layer.
#[derive(Clone, Copy)]
struct LayerMember<'a> {
    layer: &'a Json,
    key: &'a str,
    json: &'a Json,
}

// By what follows in the path.
fn write_below_member(
    rule: u8,
    document: &Json,
    part: &LayerMember<'_>,
    more: &[PathPart],
    out: &mut Vec<u8>,
) -> Result<(), AllocError>
    ensures { OnOk result (out.new.items ≡ out.old.items
        ++ in_layer_sentence rule (tree_of document.now) (tree_of part.now.layer.now) part.now.key.now
        (tree_of part.now.json.now) more.now) }
{
    match more {
        [] if part.key == "filter" => write_filter(rule, part.json, more, out),
        [] => write_layer_member(rule, document, part.layer, part.json, out),
        [PathPart::Key(name), parts @ ..] => { write_placed(rule, part, name.as_str(), parts, out) }
        [PathPart::Index(_), ..] if part.key == "filter" => {
            write_filter(rule, part.json, more, out)
        }
        _ => out.extend_from_slice(BREAKS_RULE),
    }
}

fn write_filter(
    rule: u8,
    filter: &Json,
    more: &[PathPart],
    out: &mut Vec<u8>,
) -> Result<(), AllocError>
    ensures { OnOk result (out.new.items ≡ out.old.items ++ filter_sentence rule (tree_of filter.now) more.now) }
{
    if rule == 16 {
        let value = WantedValue {
            json: filter,
            want: &Want::Boolean,
            row: None,
        };
        return write_expression(&value, more, out);
    }
    match (rule, node_at(filter, more)) {
        (17, Some(node)) => write_input(None, node, out),
        (20, Some(node)) => write_filter_part(node, out),
        _ => out.extend_from_slice(BREAKS_RULE),
    }
}

// A property, by the `layout` or `paint` that holds it.
fn write_placed(
    rule: u8,
    part: &LayerMember<'_>,
    name: &str,
    more: &[PathPart],
    out: &mut Vec<u8>,
) -> Result<(), AllocError>
    ensures { OnOk result (out.new.items ≡ out.old.items
        ++ placed_sentence rule (layer_type (tree_of part.now.layer.now)) (place_named part.now.key.now) name.now
        (member name.now (tree_of part.now.json.now)) more.now) }
{
    match (
        type_of(part.layer),
        place_named(part.key),
        part.json.get(name),
    ) {
        (Some(layer_type), Some(place), Some(json)) => {
            let property = NamedProperty {
                layer_type,
                place,
                name,
            };
            write_property(rule, &property, json, more, out)
        }
        _ => out.extend_from_slice(BREAKS_RULE),
    }
}

fn place_named(key: &str) -> Option<Place>
    ensures { result ≡ place_named key.now }
{
    match key {
        "layout" => Some(Place::Layout),
        "paint" => Some(Place::Paint),
        _ => None,
    }
}

// A name in a place of a layer of a type.
#[derive(Clone, Copy)]
struct NamedProperty<'a> {
    layer_type: LayerType,
    place: Place,
    name: &'a str,
}

fn write_property(
    rule: u8,
    property: &NamedProperty<'_>,
    json: &Json,
    more: &[PathPart],
    out: &mut Vec<u8>,
) -> Result<(), AllocError>
    ensures { OnOk result (out.new.items ≡ out.old.items
        ++ property_sentence rule property.now.layer_type property.now.place property.now.name.now (tree_of json.now)
        more.now) }
{
    if rule == 14 {
        return write_unknown(property, out);
    }
    match row(property.layer_type, property.place, property.name) {
        Some(row) => write_value(rule, &row, json, more, out),
        None if rule == 21 => write_unlike(b"an object", json, out),
        None => out.extend_from_slice(BREAKS_RULE),
    }
}

// A name that no row has there.
fn write_unknown(property: &NamedProperty<'_>, out: &mut Vec<u8>) -> Result<(), AllocError>
    ensures { OnOk result (out.new.items
        ≡ out.old.items ++ unknown_sentence property.now.layer_type property.now.place property.now.name.now) }
{
    write_text(property.name, out)?;
    out.extend_from_slice(b" is no property of the ")?;
    out.extend_from_slice(place_name(property.place).as_bytes())?;
    out.extend_from_slice(b" of a layer of type ")?;
    out.extend_from_slice(property.layer_type.name().as_bytes())?;
    write_place_hint(property, out)?;
    Ok(())
}

fn write_place_hint(property: &NamedProperty<'_>, out: &mut Vec<u8>) -> Result<(), AllocError>
    ensures { OnOk result (out.new.items ≡ out.old.items
        ++ other_hint (is_property property.now.layer_type (other_place property.now.place) property.now.name.now)
        (other_place property.now.place)) }
{
    let other = other_place(property.place);
    let there = is_property(property.layer_type, other, property.name);
    write_other_hint(there, other, out)
}

fn write_other_hint(there: bool, place: Place, out: &mut Vec<u8>) -> Result<(), AllocError>
    ensures { OnOk result (out.new.items ≡ out.old.items ++ other_hint there place) }
{
    if there {
        return write_hint(place, out);
    }
    Ok(())
}

#[tactic(auto, unfolding(crate::specs::Sentence::place_hint))]
fn write_hint(place: Place, out: &mut Vec<u8>) -> Result<(), AllocError>
    ensures { OnOk result (out.new.items ≡ out.old.items ++ place_hint place) }
{
    out.extend_from_slice(b", and it is one of its ")?;
    out.extend_from_slice(place_name(place).as_bytes())?;
    Ok(())
}

#[tactic(auto, unfolding(crate::specs::Sentence::is_property))]
fn is_property(layer_type: LayerType, place: Place, name: &str) -> bool
    ensures { result ≡ is_property layer_type place name.now }
{
    match row(layer_type, place, name) {
        Some(_) => true,
        None => false,
    }
}

fn other_place(place: Place) -> Place
    ensures { result ≡ other_place place }
{
    match place {
        Place::Layout => Place::Paint,
        Place::Paint => Place::Layout,
    }
}

fn place_name(place: Place) -> &'static str
    ensures { result.now ≡ place_name place }
{
    match place {
        Place::Layout => "layout",
        Place::Paint => "paint",
    }
}

// Of the value of a row.
fn write_value(
    rule: u8,
    row: &Row,
    json: &Json,
    more: &[PathPart],
    out: &mut Vec<u8>,
) -> Result<(), AllocError>
    ensures { OnOk result (out.new.items
        ≡ out.old.items ++ value_sentence rule (row_seen row.now) (tree_of json.now) more.now) }
{
    match (rule, json) {
        (15, _) => write_literal(row, json, out),
        (16, _) => {
            let value = WantedValue {
                json,
                want: &row.want,
                row: Some(row),
            };
            write_expression(&value, more, out)
        }
        (17, Json::Object(function)) => write_function_input(row, function, out),
        (17, _) => write_row_input(row, json, more, out),
        (18, _) => out.extend_from_slice(ZOOM_SENTENCE),
        (19, Json::Object(function)) => write_function(row, function, out),
        _ => out.extend_from_slice(BREAKS_RULE),
    }
}

fn write_row_input(
    row: &Row,
    json: &Json,
    more: &[PathPart],
    out: &mut Vec<u8>,
) -> Result<(), AllocError>
    ensures { OnOk result (out.new.items
        ≡ out.old.items ++ in_node (node_at more.now (tree_of json.now)) (input_sentence (Some (row_seen row.now)))) }
{
    match node_at(json, more) {
        Some(node) => write_input(Some(row), node, out),
        None => out.extend_from_slice(BREAKS_RULE),
    }
}
