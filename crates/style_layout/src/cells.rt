//! How many cells a style has over tiles.

ghost use Rattle.std.specs.Prelude.{◌≡◌, ◌-◌, ◌^◌, ◌≤◌, min, length, map};
ghost use Rattle.style_layout.specs.CodeView.{layer_seen, layers_seen, property_seen, tile_seen};
ghost use Rattle.style_layout.specs.Layers.{feature_properties};
ghost use Rattle.style_layout.specs.Shown.{layer_features};
ghost use Rattle.style_layout.specs.StyleLayout.{cell_count, layer_cells};

use crate::features::{searched_tiles, tile_features};
use crate::layers::StyleLayer;
use crate::prepared::PreparedStyle;
use crate::properties::Property;
use crate::scene::SourceTile;

/// One for each feature of each layer, and one more for each of its properties that are listed with it; or `u128::MAX`,
/// where there are more.
#[tactic(auto, using(crate::proofs::CellLaws::sum_saturates))]
pub fn cell_count(style: &PreparedStyle, tiles: &[SourceTile<'_>]) -> u128
    ensures { result ≡ min (cell_count (map tile_seen tiles.now) (layers_seen style.now)) (2 ^ 128 - 1) }
{
    let mut count: u128 = 0;
    for layer in style.layers.as_slice() {
        count = count.saturating_add(layer_cells(layer, tiles));
    }
    count
}

/// The cells of one layer; or `u128::MAX`, where there are more.
#[tactic(auto, using(crate::proofs::CellLaws::product_saturates))]
pub fn layer_cells(layer: &StyleLayer, tiles: &[SourceTile<'_>]) -> u128
    ensures { result ≡ min (layer_cells (map tile_seen tiles.now) (layer_seen layer.now)) (2 ^ 128 - 1) }
{
    let listed = u128::from(per_feature_count(layer.properties.as_slice()));
    feature_count(layer, tiles).saturating_mul(1 + listed)
}

fn feature_count(layer: &StyleLayer, tiles: &[SourceTile<'_>]) -> u128
    ensures { result ≡ min (length (layer_features (map tile_seen tiles.now) (layer_seen layer.now))) (2 ^ 128 - 1) }
{
    let searched = searched_tiles(layer.layer_type, tiles);
    let mut count: u128 = 0;
    for tile in searched {
        count = count.saturating_add(tile_features(layer, tile).len() as u128);
    }
    count
}

fn per_feature_count(properties: &[Property]) -> u64
    ensures count { result ≡ length (feature_properties (map property_seen properties.now)) }
    ensures few { result ≤ length properties.now }
{
    let mut count: u64 = 0;
    for property in properties {
        if property.is_per_feature {
            count += 1;
        }
    }
    count
}
