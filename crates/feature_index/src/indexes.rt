//! Indexes of the features that layers show.

ghost use Rattle.std.specs.Prelude.{◌≡◌, ◌<◌, List, IfOk, IfSome, length, map, slice_index_or, true};
ghost use Rattle.feature_index.specs.Ids.{IsIndexed};
ghost use Rattle.feature_index.specs.Indexes.{AreIndexed, IsEntryOf, IsOfLayer, ids_of};
ghost use Rattle.feature_index.specs.declared.indexes.SearchedLayer.{SearchedLayer};
ghost use Rattle.style_layout.specs.CodeView.{layer_seen, tile_seen};
ghost use Rattle.style_layout.specs.Layers.{has_features};
ghost use Rattle.style_layout.specs.Shown.{SourceTile as TileOf, layer_features};

use crate::ids::IdIndex;
use decimal_json::Text;
use std::alloc::{AllocError, Global};
use style_layout::{LayerFeatures, SourceTile, StyleLayer};

/// The search for features of a source layer that indexes them; those before it are walks.
const WALKS: u32 = 16;

/// A source layer whose features were looked for by their ids.
#[derive(Drop)]
pub(crate) struct SearchedLayer {
    pub(crate) source: Text,
    pub(crate) source_layer: Text,
    /// How often they were, up to `WALKS`.
    pub(crate) walks: u32,
    pub(crate) index: Option<IdIndex>,
}

impl SearchedLayer {
    // Whether a layer shows the features of this source layer.
    fn is_of(&self, layer: &StyleLayer) -> bool
        ensures { result ≡ true → IsOfLayer (layer_seen layer.now) self.now }
    {
        self.source.as_str() == layer.source.as_str()
            && self.source_layer.as_str() == layer.source_layer.as_str()
    }

    // Notes one search more for the features of a layer, and indexes them at the sixteenth. Where there is no memory
    // for it, it is not tried again.
    fn note(&mut self, alloc: Global, layer: &StyleLayer, tiles: &[SourceTile<'_>])
        requires few { length (layer_features (map tile_seen tiles.now) (layer_seen layer.now)) < 4294967295 }
        requires shown { has_features layer.now.layer_type ≡ true }
        requires layer { IsOfLayer (layer_seen layer.now) self.old }
        requires entry { IsEntryOf (map tile_seen tiles.now) self.old }
        ensures { IsEntryOf (map tile_seen tiles.now) self.new }
    {
        if self.walks >= WALKS {
            return;
        }
        self.walks += 1;
        if self.walks == WALKS {
            self.index = match index_of(alloc, layer, tiles) {
                Ok(index) => Some(index),
                Err(_) => None,
            };
        }
    }
}

/// The features of source layers by their ids, where they were looked for often. Whoever finds no index goes through
/// the features, so nothing fails where there is no memory for one.
#[derive(Drop)]
pub struct FeatureIndexes {
    pub(crate) alloc: Global,
    pub(crate) layers: Vec<SearchedLayer>,
}

impl FeatureIndexes {
    /// Indexes of no source layer. Takes no memory.
    pub fn new(alloc: Global) -> FeatureIndexes
        ensures { (tiles : List TileOf) → AreIndexed tiles result }
    {
        FeatureIndexes {
            alloc,
            layers: Vec::new(alloc),
        }
    }

    /// Notes that the features of a layer are looked for by an id, over the same tiles in each call. The sixteenth call
    /// for a source layer makes its index: that takes time n log n in its features, and some 40 bytes for each. Each
    /// other takes time linear in the source layers that were noted, and constant time where this one was noted last:
    /// it is put first.
    pub fn note(&mut self, layer: &StyleLayer, tiles: &[SourceTile<'_>])
        requires few { length (layer_features (map tile_seen tiles.now) (layer_seen layer.now)) < 4294967295 }
        requires shown { has_features layer.now.layer_type ≡ true }
        requires indexed { AreIndexed (map tile_seen tiles.now) self.old }
        ensures { AreIndexed (map tile_seen tiles.now) self.new }
    {
        match self.place(layer) {
            Some(place) => {
                self.layers[place].note(self.alloc, layer, tiles);
                self.layers.swap(0, place);
            }
            None => {
                let _ = self.add(layer);
            }
        }
    }

    /// The index of the features of a layer, where there is one.
    pub fn find(&self, layer: &StyleLayer) -> Option<&IdIndex>
        requires { has_features layer.now.layer_type ≡ true }
        ensures { (tiles : List TileOf) → AreIndexed tiles self.now
            → IfSome result (λ index. IsIndexed index.now (ids_of (layer_features tiles (layer_seen layer.now)))) }
    {
        match self.place(layer) {
            Some(place) => self.layers[place].index.as_ref(),
            None => None,
        }
    }

    // The place of the source layer of a layer.
    fn place(&self, layer: &StyleLayer) -> Option<usize>
        ensures within { IfSome result (λ place. place < length self.now.layers.items) }
        ensures layer { IfSome result (λ place. (entry : SearchedLayer)
            → IsOfLayer (layer_seen layer.now) (slice_index_or self.now.layers.items place entry)) }
    {
        for place in 0..self.layers.len() {
            if self.layers[place].is_of(layer) {
                return Some(place);
            }
        }
        None
    }

    fn add(&mut self, layer: &StyleLayer) -> Result<(), AllocError>
        ensures { (tiles : List TileOf) → AreIndexed tiles self.old → AreIndexed tiles self.new }
    {
        let source = layer.source.share()?;
        let source_layer = layer.source_layer.share()?;
        let Ok(()) = self.layers.push(SearchedLayer {
            source,
            source_layer,
            walks: 1,
            index: None,
        })
        else {
            return Err(AllocError);
        };
        Ok(())
    }
}

// The index of the features of a layer.
fn index_of(
    alloc: Global,
    layer: &StyleLayer,
    tiles: &[SourceTile<'_>],
) -> Result<IdIndex, AllocError>
    requires { length (layer_features (map tile_seen tiles.now) (layer_seen layer.now)) < 4294967295 }
    ensures { IfOk result (λ index. IsIndexed index
        (ids_of (layer_features (map tile_seen tiles.now) (layer_seen layer.now)))) }
{
    let mut index = IdIndex::new(alloc);
    let mut features = LayerFeatures::new(layer, tiles);
    while let Some(next) = features.next() {
        index.push(next.1.id.get())?;
    }
    Ok(index)
}
