//! What is prepared of the layers of a session's document, each once, and how many cells they have.

ghost use Rattle.std.specs.Prelude.{◌≡◌, ◌-◌, ◌<◌, ◌≤◌, ◌^◌, insert, length, map, min, remove, slice_set, true, ◌||◌};
ghost use Rattle.std.specs.Prelude.{IfOk, IsOkAnd};
ghost use Rattle.decimal_json.specs.View.{items_view, tree_of};
ghost use Rattle.edit_session.specs.Opening.{within_limit};
ghost use Rattle.edit_session.specs.PreparedLayers.{ArePrepared, Becomes, Follows};
ghost use Rattle.kept_layers.specs.KeptLayers.{outline_of};
ghost use Rattle.kept_layers.specs.View.{AreTyped, IsTyped};
ghost use Rattle.edit_session.specs.View.{reads_globals};
ghost use Rattle.global_laws.specs.GlobalLaw.{names_globals};
ghost use Rattle.style_edits.specs.Undone.{IsWithin, adds_nothing, undone_layers};
ghost use Rattle.style_layout.specs.CodeView.{layer_seen, layers_seen, tile_seen};
ghost use Rattle.style_layout.specs.Layers.{style_layers};
ghost use Rattle.style_layout.specs.Outlines.{layer_outline};
ghost use Rattle.style_layout.specs.StyleLayout.{cell_count};

use crate::globals::{names_globals, reads_globals};
use crate::opening::is_within_limit;
use decimal_json::Json;
use prop_values::Entries;
use std::alloc::{AllocError, Global};
use style_edits::Undo;
use style_layout::{
    PreparedStyle, SourceTile, StyleLayer, cell_count, layer_cells, prepare, prepare_layer,
};

/// What is prepared of the layers of a document by the values of the global state. After an edit only the layer that it
/// changed is prepared anew.
#[derive(Drop)]
pub struct PreparedLayers {
    pub(crate) style: PreparedStyle,
    /// How many cells they have over the tiles; or `u128::MAX`, where there are more.
    pub(crate) cells: u128,
    /// Whether a text in them may be `global-state`. Where none is, no value of them reads the global state.
    pub(crate) reads_globals: bool,
    /// The most cells that they may have.
    pub(crate) limit: u64,
}

impl PreparedLayers {
    /// Those of a document, which may have so many cells.
    #[tactic(auto, using(style_layout::proofs::CellLaws::outlines_cells))]
    pub(crate) fn of(
        alloc: Global,
        document: &Json,
        globals: &Entries,
        tiles: &[SourceTile<'_>],
        limit: u64,
    ) -> Result<PreparedLayers, AllocError>
        ensures style { IfOk result (λ made. layers_seen made.style
            ≡ map layer_outline (style_layers globals.now (tree_of document.now))) }
        ensures cells { IfOk result (λ made. made.cells
            ≡ min (cell_count (map tile_seen tiles.now) (style_layers globals.now (tree_of document.now)))
            (2 ^ 128 - 1)) }
        ensures reads { IfOk result (λ made. made.reads_globals ≡ reads_globals (tree_of document.now)) }
        ensures limit { IfOk result (λ made. made.limit ≡ limit) }
    {
        let style = prepare(alloc, document, globals)?;
        let cells = cell_count(&style, tiles);
        Ok(PreparedLayers {
            style,
            cells,
            reads_globals: reads_globals(document),
            limit,
        })
    }

    /// How many cells they have; or `u128::MAX`, where there are more.
    pub(crate) fn cells(&self) -> u128
        ensures { result ≡ self.now.cells }
    {
        self.cells
    }

    /// Follows an edit, after which the document has these layers, where they have not too many cells. Whether it did.
    pub(crate) fn follow(
        &mut self,
        alloc: Global,
        globals: &Entries,
        layers: &[Json],
        undo: &Undo,
        tiles: &[SourceTile<'_>],
    ) -> Result<bool, AllocError>
        requires before { ArePrepared (map tile_seen tiles.now) globals.now
            (undone_layers undo.now (items_view layers.now)) self.old }
        requires few { within_limit self.old.limit self.old.cells ≡ true }
        requires within { IsWithin undo.now (items_view layers.now) }
        requires typed { AreTyped (items_view layers.now) }
        ensures follows { IfOk result (λ is_done.
            Follows (map tile_seen tiles.now) globals.now (items_view layers.now) is_done self.old self.new) }
        ensures memory { adds_nothing undo.now ≡ true → IsOkAnd result (λ is_done. is_done ≡ true) }
    {
        match undo {
            Undo::Nothing => Ok(true),
            Undo::Changed(place, _) => self.change(alloc, globals, &layers[*place], *place, tiles),
            Undo::Added(place) => self.add(alloc, globals, &layers[*place], *place, tiles),
            Undo::Removed(place, _) => {
                self.remove(*place, tiles);
                Ok(true)
            }
            Undo::Moved(from, to) => {
                self.style.move_layer(*from, *to);
                Ok(true)
            }
        }
    }

    fn change(
        &mut self,
        alloc: Global,
        globals: &Entries,
        layer: &Json,
        place: usize,
        tiles: &[SourceTile<'_>],
    ) -> Result<bool, AllocError>
        requires typed { IsTyped (tree_of layer.now) }
        requires within { place < length (layers_seen self.old.style) }
        requires counted { self.old.cells ≡ cell_count (map tile_seen tiles.now) (layers_seen self.old.style) }
        ensures { IfOk result (λ is_done. Becomes (map tile_seen tiles.now)
            (slice_set (layers_seen self.old.style) place (outline_of globals.now (tree_of layer.now)))
            (names_globals (tree_of layer.now)) is_done self.old self.new) }
    {
        let prepared = prepared_layer(alloc, globals, layer)?;
        let cells = self.cells_with(place, &prepared, tiles);
        if !is_within_limit(self.limit, cells) {
            return Ok(false);
        }
        let reads = names_globals(layer);
        self.style.replace(place, prepared);
        self.note(cells, reads);
        Ok(true)
    }

    // The cells with a layer in place of another.
    fn cells_with(&self, place: usize, layer: &StyleLayer, tiles: &[SourceTile<'_>]) -> u128
        requires within { place < length (layers_seen self.now.style) }
        requires counted { self.now.cells ≡ cell_count (map tile_seen tiles.now) (layers_seen self.now.style) }
        ensures { result ≡ min (cell_count (map tile_seen tiles.now)
            (slice_set (layers_seen self.now.style) place (layer_seen layer.now))) (2 ^ 128 - 1) }
    {
        let old = layer_cells(self.style.layer(place), tiles);
        let new = layer_cells(layer, tiles);
        (self.cells - old).saturating_add(new)
    }

    fn add(
        &mut self,
        alloc: Global,
        globals: &Entries,
        layer: &Json,
        place: usize,
        tiles: &[SourceTile<'_>],
    ) -> Result<bool, AllocError>
        requires typed { IsTyped (tree_of layer.now) }
        requires within { place ≤ length (layers_seen self.old.style) }
        requires counted { self.old.cells ≡ cell_count (map tile_seen tiles.now) (layers_seen self.old.style) }
        ensures { IfOk result (λ is_done. Becomes (map tile_seen tiles.now)
            (insert (layers_seen self.old.style) place (outline_of globals.now (tree_of layer.now)))
            (names_globals (tree_of layer.now)) is_done self.old self.new) }
    {
        let prepared = prepared_layer(alloc, globals, layer)?;
        let cells = self.cells_and(place, &prepared, tiles);
        if !is_within_limit(self.limit, cells) {
            return Ok(false);
        }
        let reads = names_globals(layer);
        self.style.insert(place, prepared)?;
        self.note(cells, reads);
        Ok(true)
    }

    // The cells with one layer more.
    fn cells_and(&self, place: usize, layer: &StyleLayer, tiles: &[SourceTile<'_>]) -> u128
        requires within { place ≤ length (layers_seen self.now.style) }
        requires counted { self.now.cells ≡ cell_count (map tile_seen tiles.now) (layers_seen self.now.style) }
        ensures { result ≡ min (cell_count (map tile_seen tiles.now)
            (insert (layers_seen self.now.style) place (layer_seen layer.now))) (2 ^ 128 - 1) }
    {
        self.cells.saturating_add(layer_cells(layer, tiles))
    }

    // Notes the cells that there are now, and whether a layer that came may read the global state.
    fn note(&mut self, cells: u128, reads: bool)
        ensures { self.new ≡ record self.old { cells = cells; reads_globals = self.old.reads_globals || reads } }
    {
        self.cells = cells;
        self.reads_globals = self.reads_globals || reads;
    }

    fn remove(&mut self, place: usize, tiles: &[SourceTile<'_>])
        requires within { place < length (layers_seen self.old.style) }
        requires counted { self.old.cells ≡ cell_count (map tile_seen tiles.now) (layers_seen self.old.style) }
        ensures layers { layers_seen self.new.style ≡ remove (layers_seen self.old.style) place }
        ensures cells { self.new.cells
            ≡ cell_count (map tile_seen tiles.now) (remove (layers_seen self.old.style) place) }
        ensures reads { self.new.reads_globals ≡ self.old.reads_globals }
        ensures limit { self.new.limit ≡ self.old.limit }
    {
        let cells = layer_cells(self.style.layer(place), tiles);
        self.cells -= cells;
        self.style.remove(place);
    }
}

// A layer that has a type, prepared.
fn prepared_layer(alloc: Global, globals: &Entries, layer: &Json) -> Result<StyleLayer, AllocError>
    requires { IsTyped (tree_of layer.now) }
    ensures { IfOk result (λ made. layer_seen made ≡ outline_of globals.now (tree_of layer.now)) }
{
    match prepare_layer(alloc, globals, layer)? {
        Some(layer) => Ok(layer),
        None => unreachable!(),
    }
}
