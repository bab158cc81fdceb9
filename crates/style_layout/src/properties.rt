//! The properties that a layer sets, each read once.

ghost use Rattle.std.specs.Prelude.{◌≡◌, ◌++◌, ◌<◌, length, get_or, map, OnOk, IfOk, Some, option_map};
ghost use Rattle.decimal_json.specs.Tree.{object, fields_of};
ghost use Rattle.decimal_json.specs.View.{tree_of, tree_at};
ghost use Rattle.property_tables.specs.RowView.{row_seen};
ghost use Rattle.property_tables.specs.Rows.{RowData, rows_of};
ghost use Rattle.legacy_laws.specs.LegacyFunctionLaw.{IsTableRow};
ghost use Rattle.style_layout.specs.CodeView.{property_seen};
ghost use Rattle.style_layout.specs.Forms.{property_of};
ghost use Rattle.style_layout.specs.Layers.{properties_of, set_property, set_value};
ghost use Rattle.style_layout.specs.Outlines.{property_outline};

use crate::forms::{PropertyValue, is_per_feature, outlined, property_value};
use crate::placed_layer::PlacedLayer;
use decimal_json::{Json, Members};
use prop_values::{Entries, Value};
use property_tables::{
    LayerType, Place, Row, default_value, row_count, row_numbered, tables_keep_their_rules,
};
use std::alloc::{AllocError, Global};

/// The property that says whether a layer is shown.
pub const VISIBILITY: &str = "visibility";

/// A property that is set.
#[derive(Drop)]
pub struct Property {
    pub row: Row,
    pub value: PropertyValue,
    /// What is listed for it after a fault.
    pub fallback: Option<Value>,
    pub is_per_feature: bool,
}

/// The properties of a layer of a type, in the order of the table.
pub(crate) fn properties_of(
    alloc: Global,
    globals: &Entries,
    layer_type: LayerType,
    layer: &Members,
) -> Result<Vec<Property>, AllocError>
    ensures { IfOk result (λ properties. map property_seen properties.items
        ≡ map property_outline (properties_of globals.now layer_type (object (fields_of layer.now)))) }
{
    placed_properties(alloc, globals, layer_type, &PlacedLayer::of(layer))
}

fn placed_properties(
    alloc: Global,
    globals: &Entries,
    layer_type: LayerType,
    layer: &PlacedLayer<'_>,
) -> Result<Vec<Property>, AllocError>
    ensures { IfOk result (λ properties. map property_seen properties.items
        ≡ map property_outline (properties_of globals.now layer_type (object (fields_of layer.now)))) }
{
    let mut properties = Vec::new(alloc);
    for number in 0..row_count(layer_type) {
        push_numbered(alloc, globals, layer_type, layer, number, &mut properties)?;
    }
    Ok(properties)
}

fn push_numbered(
    alloc: Global,
    globals: &Entries,
    layer_type: LayerType,
    layer: &PlacedLayer<'_>,
    number: u16,
    properties: &mut Vec<Property>,
) -> Result<(), AllocError>
    requires { number < length (rows_of layer_type) }
    ensures { (other : RowData)
        → OnOk result (map property_seen properties.new.items ≡ map property_seen properties.old.items
        ++ map property_outline (set_property globals.now (object (fields_of layer.now))
        (get_or (rows_of layer_type) number other))) }
{
    tables_keep_their_rules();
    match row_at(layer_type, number) {
        Some(row) => push_if_set(alloc, globals, layer, &row, properties),
        None => Ok(()),
    }
}

fn row_at(layer_type: LayerType, number: u16) -> Option<Row>
    requires { number < length (rows_of layer_type) }
    ensures row { (other : RowData) → option_map row_seen result ≡ Some (get_or (rows_of layer_type) number other) }
{
    Some(row_numbered(layer_type, number))
}

// `visibility` says whether the layer is shown, and has no value of its own.
#[tactic(auto, using(crate::proofs::RowLists::unset_property))]
fn push_if_set(
    alloc: Global,
    globals: &Entries,
    layer: &PlacedLayer<'_>,
    row: &Row,
    properties: &mut Vec<Property>,
) -> Result<(), AllocError>
    requires { IsTableRow (row_seen row.now) }
    ensures { OnOk result (map property_seen properties.new.items
        ≡ map property_seen properties.old.items
        ++ map property_outline (set_property globals.now (object (fields_of layer.now)) (row_seen row.now))) }
{
    let Some(json) = layer.get(row.place, row.name) else {
        return Ok(());
    };
    if row.name == VISIBILITY {
        return Ok(());
    }
    let property = read_property(alloc, globals, row, json)?;
    properties.push(property)?;
    Ok(())
}

/// The value of a name in `layout` or `paint` of a layer.
pub fn set_value<'a>(layer: &'a Members, place: Place, name: &str) -> Option<&'a Json>
    ensures { tree_at result ≡ set_value (object (fields_of layer.now)) place name.now }
{
    let placed = match place {
        Place::Layout => layer.get("layout"),
        Place::Paint => layer.get("paint"),
    };
    placed.and_then(|properties| properties.get(name))
}

fn read_property(
    alloc: Global,
    globals: &Entries,
    row: &Row,
    json: &Json,
) -> Result<Property, AllocError>
    requires { IsTableRow (row_seen row.now) }
    ensures { IfOk result (λ property. property_seen property
        ≡ property_outline (property_of (row_seen row.now) globals.now (tree_of json.now))) }
{
    let value = property_value(alloc, row, globals, json)?;
    let is_per_feature = is_per_feature(&value);
    let fallback = default_value(alloc, row)?;
    Ok(Property {
        row: row.copy(),
        value: outlined(value),
        fallback,
        is_per_feature,
    })
}
