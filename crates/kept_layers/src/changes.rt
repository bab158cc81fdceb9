//! Changes of a layer's items, and of what layers are shown by.

ghost use Rattle.std.specs.Prelude.{◌≡◌, ◌<◌, ◌&&◌, ℕ, List, length, map, nat_eq, None, OnOk, Option, if◌then◌else◌};
ghost use Rattle.std.specs.Str.{bytes_eq};
ghost use Rattle.prop_values.specs.Data.{Data};
ghost use Rattle.decimal_json.specs.Tree.{Tree};
ghost use Rattle.layer_buckets.specs.Cells.{reads_state};
ghost use Rattle.layer_buckets.specs.Seen.{IsSound, kept_at, source_of};
ghost use Rattle.layer_buckets.specs.declared.cell.Cell.{Cell};
ghost use Rattle.decimal_json.specs.View.{tree_of};
ghost use Rattle.feature_index.specs.Ids.{IsIndexed, is_id, numbers_of};
ghost use Rattle.feature_index.specs.Indexes.{AreIndexed};
ghost use Rattle.style_layout.specs.CodeView.{layer_seen, tile_seen};
ghost use Rattle.style_layout.specs.Shown.{SourceTile as TileOf, layer_features};
ghost use Rattle.cell_sources.specs.CellExpressions.{IsItemOf};
ghost use Rattle.kept_layers.specs.Changes.{ChangesLayer, Drops, IsOneLayer, TurnsImages, TurnsState, TurnsZoom};
ghost use Rattle.kept_layers.specs.Holding.{Still};
ghost use Rattle.kept_layers.specs.KeptLayers.{id_at, is_stale_image, is_stale_state, is_stale_zoom, type_of};
ghost use Rattle.kept_layers.specs.Turning.{is_listed};
ghost use Rattle.kept_layers.specs.View.{AreNumbered, HoldsLayers, IsPrepared, globals_in, kept_seen, tiles_in};
ghost use Rattle.kept_layers.specs.View.{trees_in};

use crate::kept_layers::KeptLayers;
use crate::style_layers::{OneLayer, StyleLayers};
use cell_sources::set_item;
use eval_face::agreeing_worlds_give_one_meaning;
use expr_nodes::CountedEvaluator;
use feature_index::{FeatureIndexes, IdIndex};
use form_pool::FormPool;
use layer_buckets::{CellItem, Stale};
use std::alloc::{AllocError, Global};
use style_layout::{LayerFeatures, SourceTile, StyleLayer, Zoom};

impl KeptLayers {
    /// An item of the layer at a place is another. Takes time linear in the item and its kept cells; and where its
    /// expression reads a state, in the layers of which one does.
    pub fn change(
        &mut self,
        alloc: Global,
        place: usize,
        item: CellItem,
        one: &OneLayer<'_>,
    ) -> Result<(), AllocError>
        requires numbered { AreNumbered self.old }
        requires layer { IsOneLayer one.now }
        requires within { place < length self.old.numbers.items }
        requires item { IsItemOf (type_of (tree_of one.now.layer.now)) item }
        ensures { OnOk result
            (ChangesLayer ⟦<FormPool as CountedEvaluator>⟧.slots place item one.now self.old self.new) }
    {
        let number = self.numbers[place];
        let values = one.values();
        set_item(alloc, number, &values, item, &mut self.cells.buckets)?;
        let reads = self.item_reads_globals(number, item);
        self.reads_globals |= reads;
        let reads_state = self.item_reads_state(number, item);
        self.state_places.note_if(reads_state, place)?;
        Ok(())
    }

    /// The zoom is another. Takes time linear in the cells that are dropped.
    pub fn turn_zoom(&mut self, old: Zoom, new: Zoom)
        requires numbered { AreNumbered self.old }
        ensures numbered { AreNumbered self.new }
        ensures drops { (tiles : List TileOf) (globals : List (List ℕ × Data)) (ts : List Tree)
            → HoldsLayers ⟦<FormPool as CountedEvaluator>⟧.slots tiles globals ts self.old
            → Drops ⟦<FormPool as CountedEvaluator>⟧.slots (is_stale_zoom globals old new) (TurnsZoom old new)
            tiles globals ts self.old self.new }
    {
        agreeing_worlds_give_one_meaning();
        if old.exact() != new.exact() {
            let floor = old.floor() != new.floor();
            self.cells.buckets.drop_cells(&Stale::Zoom(floor));
        }
    }

    /// The test of images is another. Takes time linear in the cells that are dropped.
    pub fn turn_images(&mut self)
        requires numbered { AreNumbered self.old }
        ensures numbered { AreNumbered self.new }
        ensures drops { (tiles : List TileOf) (globals : List (List ℕ × Data)) (ts : List Tree)
            → HoldsLayers ⟦<FormPool as CountedEvaluator>⟧.slots tiles globals ts self.old
            → Drops ⟦<FormPool as CountedEvaluator>⟧.slots
            (is_stale_image globals) TurnsImages tiles globals ts self.old self.new }
    {
        agreeing_worlds_give_one_meaning();
        self.cells.buckets.drop_cells(&Stale::Images);
    }

    /// The state of the features of a source, a source layer and an id is another. Takes time linear in the layers of
    /// which an expression reads a state and in the source layers that were noted, and for each layer that shows this
    /// source layer in the features that have the id; until the source layer is indexed, in all its features.
    pub fn turn_state(
        &mut self,
        source: &str,
        source_layer: &str,
        id: u64,
        indexes: &mut FeatureIndexes,
        style: &StyleLayers<'_>,
    )
        requires numbered { AreNumbered self.old }
        requires prepared { IsPrepared style.now }
        requires indexed { AreIndexed (tiles_in style.now) indexes.old }
        requires holds { HoldsLayers ⟦<FormPool as CountedEvaluator>⟧.slots (tiles_in style.now)
            (globals_in style.now) (trees_in style.now) self.old }
        ensures numbered { AreNumbered self.new }
        ensures indexed { AreIndexed (tiles_in style.now) indexes.new }
        ensures drops { Drops ⟦<FormPool as CountedEvaluator>⟧.slots
            (is_stale_state (tiles_in style.now) (globals_in style.now) source.now source_layer.now id)
            (TurnsState source.now source_layer.now id)
            (tiles_in style.now) (globals_in style.now) (trees_in style.now) self.old self.new }
    {
        agreeing_worlds_give_one_meaning();
        for index in 0..self.state_places.len() {
            let place = self.state_places.at(index);
            let shown = style.style.layer(place);
            if shows(shown, source, source_layer) {
                let number = self.numbers[place];
                self.drop_features(number, id, shown, style.tiles, indexes);
            }
        }
    }

    // Drops the cells that read the state of the features of a layer with an id.
    fn drop_features(
        &mut self,
        number: u32,
        id: u64,
        shown: &StyleLayer,
        tiles: &[SourceTile<'_>],
        indexes: &mut FeatureIndexes,
    )
        requires sound { IsSound self.old.cells.buckets }
        requires few { length (layer_features (map tile_seen tiles.now) (layer_seen shown.now)) < 4294967295 }
        requires indexed { AreIndexed (map tile_seen tiles.now) indexes.old }
        ensures numbers { self.new.numbers ≡ self.old.numbers }
        ensures reads { self.new.reads_globals ≡ self.old.reads_globals }
        ensures states { self.new.state_places ≡ self.old.state_places }
        ensures sound { IsSound self.new.cells.buckets }
        ensures still { Still self.old.cells.buckets self.new.cells.buckets }
        ensures indexed { AreIndexed (map tile_seen tiles.now) indexes.new }
        ensures kept { (cell : Cell) → kept_at self.new.cells.buckets cell
            ≡ (if (nat_eq number cell.layer
            && is_id id (id_at (map tile_seen tiles.now) (layer_seen shown.now) cell.feature))
            && reads_state (source_of self.old.cells.buckets cell.layer cell.item)
            then None else kept_at self.old.cells.buckets cell) }
    {
        let mut features = LayerFeatures::new(shown, tiles);
        // where a layer has a feature, its type is one that shows features, as the index asks
        match features.next() {
            Some(_first) => {
                indexes.note(shown, tiles);
                match indexes.find(shown) {
                    Some(index) => self.drop_indexed(number, id, index),
                    None => self.drop_walked(number, id, shown, tiles),
                }
            }
            None => self.drop_walked(number, id, shown, tiles),
        }
    }

    // The same by the index of the features.
    fn drop_indexed(&mut self, number: u32, id: u64, index: &IdIndex)
        requires sound { IsSound self.old.cells.buckets }
        requires indexed { (ids : List (Option ℕ)) × IsIndexed index.now ids }
        ensures numbers { self.new.numbers ≡ self.old.numbers }
        ensures reads { self.new.reads_globals ≡ self.old.reads_globals }
        ensures states { self.new.state_places ≡ self.old.state_places }
        ensures sound { IsSound self.new.cells.buckets }
        ensures still { Still self.old.cells.buckets self.new.cells.buckets }
        ensures kept { (cell : Cell) → kept_at self.new.cells.buckets cell
            ≡ (if (nat_eq number cell.layer && is_listed (numbers_of index.now id) cell.feature)
            && reads_state (source_of self.old.cells.buckets cell.layer cell.item)
            then None else kept_at self.old.cells.buckets cell) }
    {
        let mut found = index.numbers(id);
        while let Some(feature) = found.next() {
            self.cells
                .buckets
                .drop_cells(&Stale::State(number, feature));
        }
    }

    // The same by a walk over all features of the layer.
    fn drop_walked(&mut self, number: u32, id: u64, shown: &StyleLayer, tiles: &[SourceTile<'_>])
        requires sound { IsSound self.old.cells.buckets }
        requires few { length (layer_features (map tile_seen tiles.now) (layer_seen shown.now)) < 4294967295 }
        ensures numbers { self.new.numbers ≡ self.old.numbers }
        ensures reads { self.new.reads_globals ≡ self.old.reads_globals }
        ensures states { self.new.state_places ≡ self.old.state_places }
        ensures sound { IsSound self.new.cells.buckets }
        ensures still { Still self.old.cells.buckets self.new.cells.buckets }
        ensures kept { (cell : Cell) → kept_at self.new.cells.buckets cell
            ≡ (if (nat_eq number cell.layer
            && is_id id (id_at (map tile_seen tiles.now) (layer_seen shown.now) cell.feature))
            && reads_state (source_of self.old.cells.buckets cell.layer cell.item)
            then None else kept_at self.old.cells.buckets cell) }
    {
        let mut features = LayerFeatures::new(shown, tiles);
        while let Some((feature, found)) = features.next() {
            if found.id.get() == Some(id) {
                self.cells
                    .buckets
                    .drop_cells(&Stale::State(number, feature));
            }
        }
    }
}

// Whether a layer shows features of a source layer.
fn shows(shown: &StyleLayer, source: &str, source_layer: &str) -> bool
    ensures { result ≡ (bytes_eq source.now (layer_seen shown.now).source
        && bytes_eq source_layer.now (layer_seen shown.now).source_layer) }
{
    source == shown.source.as_str() && source_layer == shown.source_layer.as_str()
}
