ghost use Rattle.std.specs.Prelude.{◌≡◌, true, option_map, length, get_or, ◌<◌, ◌≤◌};
ghost use Rattle.property_tables.specs.NameIndex.{is_index};
ghost use Rattle.property_tables.specs.Rows.{RowData, row_of, row_named, rows_of, is_unread, is_at};
ghost use Rattle.property_tables.specs.RowView.{names_of, rows_seen, entry_seen, row_seen, numbered_seen};
ghost use Rattle.property_tables.specs.RowView.{fallback_seen, given_seen};

use crate::entry::{Given, TableEntry};
use crate::layer_type::LayerType;
use crate::property_row::{Fallback, Place, Row};
use crate::rows::*;
use crate::search::place_named;
use fixed_num::Fixed;

/// The row of a name in a place of a layer type, or `None` exactly where the table has none. Found by
/// halving.
pub fn row(layer_type: LayerType, place: Place, name: &str) -> Option<Row>
    ensures { option_map numbered_seen result ≡ row_of layer_type place name.now }
{
    match row_named(layer_type, name) {
        Some(found) if found.place == place => Some(found),
        _ => None,
    }
}

/// How many rows the table of a layer type has.
#[tactic(auto, using(crate::proofs::FoundRows::rows_counted))]
pub fn row_count(layer_type: LayerType) -> u16
    ensures { result ≡ length (rows_of layer_type) }
{
    table_of(layer_type).0.len() as u16
}

/// The row of a number of a layer type, counted from 0 in the order of the table.
pub fn row_numbered(layer_type: LayerType, number: u16) -> Row
    requires { number < length (rows_of layer_type) }
    ensures row { (other : RowData) → row_seen result ≡ get_or (rows_of layer_type) number other }
    ensures number { result.number ≡ number }
{
    let (entries, _) = table_of(layer_type);
    row_at(&entries[usize::from(number)], number)
}

// The row of a name, of layout or of paint.
fn row_named(layer_type: LayerType, name: &str) -> Option<Row>
    ensures { option_map numbered_seen result ≡ row_named 0 name.now (rows_of layer_type) }
{
    let (entries, order) = table_of(layer_type);
    row_among(entries, order, name)
}

// The entries of a type in table order, and their places in the order of names.
#[tactic(auto, unfolding(crate::specs::NameIndex::is_index))]
fn table_of(layer_type: LayerType) -> (&'static [TableEntry], &'static [u8])
    ensures rows { rows_seen result.0.now ≡ rows_of layer_type }
    ensures index { is_index (names_of result.0.now) result.1.now ≡ true }
    ensures few { length result.0.now ≤ 1000 }
{
    match layer_type {
        LayerType::Background => (&BACKGROUND, &BACKGROUND_BY_NAME),
        LayerType::Fill => (&FILL, &FILL_BY_NAME),
        LayerType::Line => (&LINE, &LINE_BY_NAME),
        LayerType::Symbol => (&SYMBOL, &SYMBOL_BY_NAME),
        LayerType::Circle => (&CIRCLE, &CIRCLE_BY_NAME),
        LayerType::Heatmap => (&HEATMAP, &HEATMAP_BY_NAME),
        LayerType::FillExtrusion => (&FILL_EXTRUSION, &FILL_EXTRUSION_BY_NAME),
        LayerType::Raster => (&RASTER, &RASTER_BY_NAME),
        LayerType::Hillshade => (&HILLSHADE, &HILLSHADE_BY_NAME),
        LayerType::ColorRelief => (&COLOR_RELIEF, &COLOR_RELIEF_BY_NAME),
    }
}

fn row_among(entries: &[TableEntry], order: &[u8], name: &str) -> Option<Row>
    requires index { is_index (names_of entries.now) order.now ≡ true }
    requires few { length entries.now ≤ 1000 }
    ensures { option_map numbered_seen result ≡ row_named 0 name.now (rows_seen entries.now) }
{
    match place_named(entries, order, name) {
        Some(place) => Some(row_at(&entries[place], place as u16)),
        None => None,
    }
}

fn row_at(entry: &TableEntry, number: u16) -> Row
    ensures { row_seen result ≡ record (entry_seen entry.now) { number = number } }
{
    Row {
        name: entry.name,
        number,
        place: entry.place,
        want: entry.want,
        fallback: fallback_of(entry.given),
        least: limit_of(entry.limits.least),
        most: limit_of(entry.limits.most),
        zoom: entry.reads.zoom,
        feature: entry.reads.feature,
        state: entry.reads.state,
        ramps: entry.reads.ramps,
        takes_tokens: entry.takes_tokens,
    }
}

fn fallback_of(given: Given) -> Fallback
    ensures { fallback_seen result ≡ given_seen given }
{
    match given {
        Given::Absent => Fallback::Absent,
        Given::Flag(flag) => Fallback::Flag(flag),
        Given::Amount(millionths) => Fallback::Number(number_of(millionths)),
        Given::Word(word) => Fallback::Word(word),
        Given::Zeros(count) => Fallback::Zeros(count),
        Given::Fonts => Fallback::Fonts,
    }
}

fn limit_of(millionths: Option<i64>) -> Option<Fixed>
    ensures { result ≡ millionths }
{
    match millionths {
        Some(millionths) => Some(number_of(millionths)),
        None => None,
    }
}

// Each number of 64 bits is within the bound.
fn number_of(millionths: i64) -> Fixed
    ensures { result ≡ millionths }
{
    Fixed::from_millionths(i128::from(millionths)).unwrap()
}

/// Whether a name passes unread there: `heatmap-color`, `line-gradient`, `icon-padding`,
/// `text-variable-anchor-offset`, and every name of hillshade and color-relief layers.
pub fn unread(layer_type: LayerType, place: Place, name: &str) -> bool
    ensures { result ≡ is_unread layer_type place name.now }
{
    match (layer_type, place) {
        (LayerType::Heatmap, Place::Paint) => name == "heatmap-color",
        (LayerType::Line, Place::Paint) => name == "line-gradient",
        (LayerType::Symbol, Place::Layout) => {
            matches!(name, "icon-padding" | "text-variable-anchor-offset")
        }
        (LayerType::Hillshade | LayerType::ColorRelief, _) => true,
        _ => false,
    }
}
