//! The lines of a tile.

ghost use Rattle.std.specs.Prelude.{◌≡◌, ◌++◌, flat_map, get_or, OnOk, IfOk};
ghost use Rattle.fixed_num.specs.NumberText.{number_text};
ghost use Rattle.prop_values.specs.ValueText.{listed_text};
ghost use Rattle.prop_values.specs.View.{data_of};
ghost use Rattle.prop_values.specs.ViewParts.{entries_view};
ghost use Rattle.tile_listing.specs.Extents.{default_extent};
ghost use Rattle.tile_listing.specs.TileListing.{feature_lines, features_lines, layer_line, layer_lines, layers_lines};
ghost use Rattle.tile_listing.specs.TileListing.{property_line, tile_listing};

use crate::extents::{DEFAULT_EXTENT, extents_of};
use decimal_json::write_text;
use fixed_num::Fixed;
use itoa::Buffer;
use listing_text::write_feature_line;
use prop_values::{Entry, Value, write_listed};
use std::alloc::AllocError;
use tile_reader::{Feature, FeatureProperties, Tile, TileLayer};

/// Appends the lines of a tile that was read from these bytes.
pub fn write_tile(bytes: &[u8], tile: &Tile, out: &mut Vec<u8>) -> Result<(), AllocError>
    ensures { OnOk result (out.new.items ≡ out.old.items ++ tile_listing bytes.now tile.now) }
{
    let extents = extents_of(*out.allocator(), bytes)?;
    write_layers(tile.as_slice(), extents.as_slice(), out)
}

fn write_layers(layers: &[TileLayer], extents: &[u64], out: &mut Vec<u8>) -> Result<(), AllocError>
    ensures { OnOk result (out.new.items ≡ out.old.items ++ layers_lines extents.now 0 layers.now) }
{
    for (place, layer) in layers.iter().enumerate() {
        write_layer(layer, extent_at(extents, place), out)?;
    }
    Ok(())
}

fn extent_at(extents: &[u64], place: usize) -> u64
    ensures { result ≡ get_or extents.now place default_extent }
{
    if place < extents.len() {
        extents[place]
    } else {
        DEFAULT_EXTENT
    }
}

fn write_layer(layer: &TileLayer, extent: u64, out: &mut Vec<u8>) -> Result<(), AllocError>
    ensures { OnOk result (out.new.items ≡ out.old.items ++ layer_lines layer.now extent) }
{
    write_layer_line(layer.name.as_str(), extent, out)?;
    write_features(layer.features.as_slice(), out)
}

fn write_layer_line(name: &str, extent: u64, out: &mut Vec<u8>) -> Result<(), AllocError>
    ensures { OnOk result (out.new.items ≡ out.old.items ++ layer_line name.now extent) }
{
    let mut digits = Buffer::new();
    out.extend_from_slice(b"layer ")?;
    write_text(name, out)?;
    out.extend_from_slice(b" extent ")?;
    out.extend_from_slice(digits.format(extent).as_bytes())?;
    out.extend_from_slice(b"\n")?;
    Ok(())
}

fn write_features(features: &[Feature], out: &mut Vec<u8>) -> Result<(), AllocError>
    ensures { OnOk result (out.new.items ≡ out.old.items ++ features_lines 0 features.now) }
{
    for (place, feature) in features.iter().enumerate() {
        write_feature(narrow(place)?, feature, out)?;
    }
    Ok(())
}

// A place in 32 bits. So many features fill 8 GiB of a tile at least.
fn narrow(place: usize) -> Result<u32, AllocError>
    ensures { IfOk result (λ same. same ≡ place) }
{
    match u32::try_from(place) {
        Ok(place) => Ok(place),
        Err(_) => Err(AllocError),
    }
}

fn write_feature(number: u32, feature: &Feature, out: &mut Vec<u8>) -> Result<(), AllocError>
    ensures { OnOk result (out.new.items ≡ out.old.items ++ feature_lines number feature.now) }
{
    write_feature_line(number, feature.shape, feature.id.get(), out)?;
    write_properties(&feature.properties, out)
}

fn write_properties(properties: &FeatureProperties, out: &mut Vec<u8>) -> Result<(), AllocError>
    ensures { OnOk result (out.new.items ≡ out.old.items ++ flat_map property_line properties.now) }
{
    let entries = properties.to_entries(*out.allocator())?;
    write_entries(entries.as_slice(), out)
}

fn write_entries(entries: &[Entry], out: &mut Vec<u8>) -> Result<(), AllocError>
    ensures { OnOk result (out.new.items ≡ out.old.items ++ flat_map property_line (entries_view entries.now)) }
{
    for entry in entries {
        write_property(entry.key.as_str(), &entry.value, out)?;
    }
    Ok(())
}

fn write_property(key: &str, value: &Value, out: &mut Vec<u8>) -> Result<(), AllocError>
    ensures { OnOk result (out.new.items ≡ out.old.items ++ property_line (key.now, data_of value.now)) }
{
    out.extend_from_slice(b"    ")?;
    write_text(key, out)?;
    out.extend_from_slice(b" ")?;
    write_value(value, out)?;
    out.extend_from_slice(b"\n")?;
    Ok(())
}

// Appends the listed text of a value. Tiles have numbers, texts and booleans alone, which take no memory except in
// `out`.
fn write_value(value: &Value, out: &mut Vec<u8>) -> Result<(), AllocError>
    ensures { OnOk result (out.new.items ≡ out.old.items ++ listed_text (data_of value.now)) }
{
    match value {
        Value::Bool(false) => out.extend_from_slice(b"false"),
        Value::Bool(true) => out.extend_from_slice(b"true"),
        Value::Num(number) => write_number(*number, out),
        Value::Text(text) => write_text(text.as_str(), out),
        Value::Null | Value::Color(_) | Value::List(_) | Value::Map(_) => write_listed(value, out),
    }
}

fn write_number(number: Fixed, out: &mut Vec<u8>) -> Result<(), AllocError>
    ensures { OnOk result (out.new.items ≡ out.old.items ++ number_text number) }
{
    let mut digits = [0; 48];
    let length = number.write(&mut digits);
    out.extend_from_slice(&digits[..length])
}
