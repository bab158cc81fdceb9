//! The features of a layer over tiles.

ghost use Rattle.std.specs.Prelude.{◌≡◌, ◌+◌, ◌-◌, ◌<◌, ◌^◌, [], ◌∷◌, length, map, MatchOption, IfOk, IfSome};
ghost use Rattle.std.specs.Prelude.{if◌then◌else◌};
ghost use Rattle.style_layout.specs.CodeView.{layer_seen, scene_seen, tile_seen};
ghost use Rattle.style_layout.specs.Layers.{has_features};
ghost use Rattle.style_layout.specs.Shown.{features_named, layer_features, numbered, state_of, tile_features};
ghost use Rattle.eval_face.specs.World as world;
ghost use Rattle.style_layout.specs.Walk.{features_left, HasFewLeft};

use crate::layers::StyleLayer;
use crate::scene::{Scene, SourceTile, TextTests};
use prop_values::Entries;
use property_tables::LayerType;
use tile_reader::{Feature, Tile};

/// A feature of a layer, with its number in the list of the layer's features and its state.
#[derive(Clone, Copy)]
pub struct LayerFeature<'a> {
    pub number: u32,
    pub feature: &'a Feature,
    pub state: Option<&'a Entries>,
}

/// The features of a layer that are still to come, tile by tile.
#[derive(Clone, Copy)]
pub struct LayerFeatures<'a> {
    pub layer: &'a StyleLayer,
    pub tiles: &'a [SourceTile<'a>],
    /// The place of the tile that comes after these features.
    pub next_tile: usize,
    pub features: &'a [Feature],
    /// The number of the first of them.
    pub number: u32,
}

impl<'a> LayerFeatures<'a> {
    /// All of them.
    pub fn new(layer: &'a StyleLayer, tiles: &'a [SourceTile<'a>]) -> LayerFeatures<'a>
        requires { length (layer_features (map tile_seen tiles.now) (layer_seen layer.now)) < 2 ^ 32 }
        ensures left { features_left result
            ≡ numbered 0 (layer_features (map tile_seen tiles.now) (layer_seen layer.now)) }
        ensures few { HasFewLeft result }
    {
        LayerFeatures {
            layer,
            tiles: searched_tiles(layer.layer_type, tiles),
            next_tile: 0,
            features: &[],
            number: 0,
        }
    }

    /// Takes the next feature, with its number.
    #[inline(always)]
    pub fn next(&mut self) -> Option<(u32, &'a Feature)>
        requires { HasFewLeft self.old }
        ensures left { MatchOption result (features_left self.old ≡ [])
            (λ found. features_left self.old ≡ (found.0, found.1.now) ∷ features_left self.new) }
        ensures few { HasFewLeft self.new }
    {
        let (feature, later) = self.split_first()?;
        let number = self.number;
        *self = later;
        Some((number, feature))
    }

    // The next feature, and those after it.
    #[inline(always)]
    fn split_first(self) -> Option<(&'a Feature, LayerFeatures<'a>)>
        requires { HasFewLeft self }
        ensures left { MatchOption result (features_left self.entry ≡ [])
            (λ split. features_left self.entry ≡ (self.entry.number, split.0.now) ∷ features_left split.1) }
        ensures few { IfSome result (λ split. HasFewLeft split.1) }
    {
        if let Some((feature, features)) = self.features.split_first() {
            return Some((feature, self.after_first(self.next_tile, features)));
        }
        for at in self.next_tile..self.tiles.len() {
            let found = tile_features(self.layer, &self.tiles[at]);
            if let Some((feature, features)) = found.split_first() {
                return Some((feature, self.after_first(at + 1, features)));
            }
        }
        None
    }

    // Those after the next feature, which are these and what the tiles from a place on have.
    #[inline(always)]
    fn after_first(self, next_tile: usize, features: &'a [Feature]) -> LayerFeatures<'a>
        requires { self.number < 2 ^ 32 - 1 }
        ensures { result ≡ record self.entry {
          number = self.entry.number + 1;
          next_tile = next_tile;
          features = features.entry;
        } }
    {
        LayerFeatures {
            layer: self.layer,
            tiles: self.tiles,
            next_tile,
            features,
            number: self.number + 1,
        }
    }
}

/// The members of the state of a feature, which one without an id has not.
#[tactic(auto, unfolding(crate::specs::CodeView::scene_seen))]
pub fn state_of<'a, T: TextTests>(
    layer: &StyleLayer,
    scene: &'a Scene<'_, T>,
    id: Option<u64>,
) -> Option<&'a Entries>
    ensures { world.state_of result ≡ state_of (scene_seen T.tests scene.now) (layer_seen layer.now) id }
{
    scene
        .states
        .get(layer.source.as_str(), layer.source_layer.as_str(), id?)
}

/// The features that a tile has for a layer.
pub(crate) fn tile_features<'a>(layer: &StyleLayer, tile: &'a SourceTile<'_>) -> &'a [Feature]
    ensures { result.now ≡ tile_features (layer_seen layer.now) (tile_seen tile.now) }
{
    if layer.source.as_str() == tile.source {
        features_named(&tile.tile, layer.source_layer.as_str())
    } else {
        &[]
    }
}

// The features of the layer of a tile that has this name; none where the tile lacks it.
fn features_named<'a>(tile: &'a Tile, name: &str) -> &'a [Feature]
    ensures { result.now ≡ features_named name.now tile.now }
{
    match tile.named(name) {
        Some(layer) => layer.features.as_slice(),
        None => &[],
    }
}

/// The tiles among which features of a type are looked for.
pub(crate) fn searched_tiles<'a, 'b>(
    layer_type: LayerType,
    tiles: &'a [SourceTile<'b>],
) -> &'a [SourceTile<'b>]
    ensures { map tile_seen result.now ≡ (if has_features layer_type then map tile_seen tiles.now else []) }
{
    if has_features(layer_type) { tiles } else { &[] }
}

/// The types that show features of tiles.
pub(crate) fn has_features(layer_type: LayerType) -> bool
    ensures { result ≡ has_features layer_type }
{
    match layer_type {
        LayerType::Background => false,
        LayerType::Raster => false,
        LayerType::Hillshade => false,
        LayerType::ColorRelief => false,
        _ => true,
    }
}
