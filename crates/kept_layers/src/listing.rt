//! The listing of a style: by what is kept of its cells, and without keeping any.

ghost use Rattle.std.specs.Prelude.{◌≡◌, ◌++◌, [], None, flat_map, map, OnOk};
ghost use Rattle.layer_buckets.specs.Seen.{IsSound, kept_at};
ghost use Rattle.layer_buckets.specs.declared.cell.Cell.{Cell};
ghost use Rattle.listing_text.specs.Listing.{layer_lines, listing};
ghost use Rattle.style_layout.specs.CodeView.{scene_seen, tile_seen};
ghost use Rattle.style_layout.specs.StyleLayout.{layer_out, layers_layout};
ghost use Rattle.asked_cells.specs.Asking.{AsksLayer, LeavesSources};
ghost use Rattle.asked_cells.specs.SeenCells.{layer_at, scene_at};
ghost use Rattle.kept_layers.specs.Changes.{Counts, HaveListed};
ghost use Rattle.kept_layers.specs.KeptLayers.{prepared_layers};
ghost use Rattle.kept_layers.specs.LayerListing.{IsKeptLayer};
ghost use Rattle.kept_layers.specs.View.{AreNumbered, HoldsLayers, IsPrepared, IsRightIn, globals_in, kept_seen};
ghost use Rattle.kept_layers.specs.View.{tiles_in, trees_in};
ghost use Rattle.text_pieces.specs.Adding.{Adds};

use crate::kept_layers::KeptLayers;
use crate::style_layers::StyleLayers;
use asked_cells::{LayerAt, sum_of};
use bare_listing::write_bare_layer;
use cell_listing::write_layer;
use cell_sources::{filters_are_decided, properties_are_given, properties_are_read_by_expressions};
use expr_nodes::CountedEvaluator;
use form_pool::FormPool;
use halts::Halt;
use listing_text::{write_end, write_zoom};
use outside_io::{Sink, SinkFailed, Steps};
use std::alloc::{AllocError, Global};
use std::sync::ledger::Ledger;
use style_layout::{Scene, SourceTile, TextTests};
use text_pieces::TextPieces;

impl KeptLayers {
    /// Appends the listing of a style, and gives how many cells were evaluated for it: those that it asks and that
    /// are not kept, which are kept afterwards. Where an allocation fails, out may have a part of it.
    #[tactic(auto, unfolding(listing_text::specs::Listing::listing, style_layout::specs::CodeView::scene_seen))]
    pub fn list<'a, V: TextTests, L: Ledger>(
        &mut self,
        alloc: Global,
        style: &'a StyleLayers<'a>,
        scene: &'a Scene<'a, V>,
        steps: &mut Steps<L>,
        out: &mut Vec<u8>,
    ) -> Result<u64, AllocError>
        requires numbered { AreNumbered self.old }
        requires prepared { IsPrepared style.now }
        requires holds { HoldsLayers ⟦<FormPool as CountedEvaluator>⟧.slots (tiles_in style.now)
            (globals_in style.now) (trees_in style.now) self.old }
        requires right { IsRightIn ⟦<FormPool as CountedEvaluator>⟧.slots (tiles_in style.now) (globals_in style.now)
            (scene_seen V.tests scene.now) (trees_in style.now) self.old }
        ensures numbered { AreNumbered self.new }
        ensures counts { Counts (scene_seen V.tests scene.now) (tiles_in style.now) (globals_in style.now)
            (trees_in style.now) (kept_seen self.old) result steps.old steps.new }
        ensures listed { OnOk result (HaveListed ⟦<FormPool as CountedEvaluator>⟧.slots (scene_seen V.tests scene.now)
            (tiles_in style.now) (globals_in style.now) (trees_in style.now) self.old self.new) }
        ensures text { OnOk result (out.new.items ≡ out.old.items
            ++ listing (layers_layout (scene_seen V.tests scene.now) (tiles_in style.now)
            (prepared_layers (globals_in style.now) (trees_in style.now)))) }
    {
        write_zoom(scene.zoom.exact(), out)?;
        let number = self.list_layers(alloc, style, scene, steps, out)?;
        write_end(out)?;
        Ok(number)
    }

    /// As `list`, where nothing is listed afterwards: where nothing is kept, each cell is evaluated where it is listed,
    /// and none is kept. The listing is added to a text that is written out piece by piece, and at the end all that
    /// waits is.
    #[tactic(auto, unfolding(listing_text::specs::Listing::listing, style_layout::specs::CodeView::scene_seen))]
    pub fn list_last<'a, V: TextTests, L: Ledger, O: Sink>(
        &mut self,
        alloc: Global,
        style: &'a StyleLayers<'a>,
        scene: &'a Scene<'a, V>,
        steps: &mut Steps<L>,
        pieces: &mut TextPieces<'_, O>,
    ) -> Result<u64, Halt<SinkFailed>>
        requires numbered { AreNumbered self.old }
        requires prepared { IsPrepared style.now }
        requires holds { HoldsLayers ⟦<FormPool as CountedEvaluator>⟧.slots (tiles_in style.now)
            (globals_in style.now) (trees_in style.now) self.old }
        requires right { IsRightIn ⟦<FormPool as CountedEvaluator>⟧.slots (tiles_in style.now) (globals_in style.now)
            (scene_seen V.tests scene.now) (trees_in style.now) self.old }
        ensures numbered { AreNumbered self.new }
        ensures counts { Counts (scene_seen V.tests scene.now) (tiles_in style.now) (globals_in style.now)
            (trees_in style.now) (kept_seen self.old) result steps.old steps.new }
        ensures text { Adds O.held O.faults result pieces.old pieces.new
            (listing (layers_layout (scene_seen V.tests scene.now) (tiles_in style.now)
            (prepared_layers (globals_in style.now) (trees_in style.now)))) }
        ensures all { OnOk result (pieces.new.text.items ≡ []) }
    {
        write_zoom(scene.zoom.exact(), &mut pieces.text)?;
        let number = self.list_layers_last(alloc, style, scene, steps, pieces)?;
        write_end(&mut pieces.text)?;
        pieces.pour()?;
        Ok(number)
    }

    fn list_layers<'a, V: TextTests, L: Ledger>(
        &mut self,
        alloc: Global,
        style: &'a StyleLayers<'a>,
        scene: &'a Scene<'a, V>,
        steps: &mut Steps<L>,
        out: &mut Vec<u8>,
    ) -> Result<u64, AllocError>
        requires numbered { AreNumbered self.old }
        requires prepared { IsPrepared style.now }
        requires holds { HoldsLayers ⟦<FormPool as CountedEvaluator>⟧.slots (tiles_in style.now)
            (globals_in style.now) (trees_in style.now) self.old }
        requires right { IsRightIn ⟦<FormPool as CountedEvaluator>⟧.slots (tiles_in style.now) (globals_in style.now)
            (scene_seen V.tests scene.now) (trees_in style.now) self.old }
        ensures numbered { AreNumbered self.new }
        ensures counts { Counts (scene_seen V.tests scene.now) (tiles_in style.now) (globals_in style.now)
            (trees_in style.now) (kept_seen self.old) result steps.old steps.new }
        ensures listed { OnOk result (HaveListed ⟦<FormPool as CountedEvaluator>⟧.slots (scene_seen V.tests scene.now)
            (tiles_in style.now) (globals_in style.now) (trees_in style.now) self.old self.new) }
        ensures text { OnOk result (out.new.items ≡ out.old.items ++ flat_map layer_lines
            (map (layer_out (scene_seen V.tests scene.now) (tiles_in style.now))
            (prepared_layers (globals_in style.now) (trees_in style.now)))) }
    {
        filters_are_decided();
        let mut number = 0;
        for place in 0..self.numbers.len() {
            let at = LayerAt {
                number: self.numbers[place],
                layer: style.listed_layer(place),
                scene,
            };
            let more = self.list_layer(alloc, &at, style.tiles, steps, out)?;
            number = sum_of(number, more)?;
        }
        Ok(number)
    }

    // Keeps nothing where nothing is kept.
    fn list_layers_last<'a, V: TextTests, L: Ledger, O: Sink>(
        &mut self,
        alloc: Global,
        style: &'a StyleLayers<'a>,
        scene: &'a Scene<'a, V>,
        steps: &mut Steps<L>,
        pieces: &mut TextPieces<'_, O>,
    ) -> Result<u64, Halt<SinkFailed>>
        requires numbered { AreNumbered self.old }
        requires prepared { IsPrepared style.now }
        requires holds { HoldsLayers ⟦<FormPool as CountedEvaluator>⟧.slots (tiles_in style.now)
            (globals_in style.now) (trees_in style.now) self.old }
        requires right { IsRightIn ⟦<FormPool as CountedEvaluator>⟧.slots (tiles_in style.now) (globals_in style.now)
            (scene_seen V.tests scene.now) (trees_in style.now) self.old }
        ensures numbered { AreNumbered self.new }
        ensures counts { Counts (scene_seen V.tests scene.now) (tiles_in style.now) (globals_in style.now)
            (trees_in style.now) (kept_seen self.old) result steps.old steps.new }
        ensures text { Adds O.held O.faults result pieces.old pieces.new (flat_map layer_lines
            (map (layer_out (scene_seen V.tests scene.now) (tiles_in style.now))
            (prepared_layers (globals_in style.now) (trees_in style.now)))) }
    {
        if self.cells.buckets.is_bare() {
            return self.list_bare(alloc, style, scene, steps, pieces);
        }
        Ok(self.list_layers(alloc, style, scene, steps, &mut pieces.text)?)
    }

    // Evaluates each cell where it is listed, and keeps none.
    fn list_bare<'a, V: TextTests, L: Ledger, O: Sink>(
        &mut self,
        alloc: Global,
        style: &'a StyleLayers<'a>,
        scene: &'a Scene<'a, V>,
        steps: &mut Steps<L>,
        pieces: &mut TextPieces<'_, O>,
    ) -> Result<u64, Halt<SinkFailed>>
        requires numbered { AreNumbered self.old }
        requires prepared { IsPrepared style.now }
        requires holds { HoldsLayers ⟦<FormPool as CountedEvaluator>⟧.slots (tiles_in style.now)
            (globals_in style.now) (trees_in style.now) self.old }
        requires right { IsRightIn ⟦<FormPool as CountedEvaluator>⟧.slots (tiles_in style.now) (globals_in style.now)
            (scene_seen V.tests scene.now) (trees_in style.now) self.old }
        requires bare { (cell : Cell) → kept_at self.old.cells.buckets cell ≡ None }
        ensures numbered { AreNumbered self.new }
        ensures counts { Counts (scene_seen V.tests scene.now) (tiles_in style.now) (globals_in style.now)
            (trees_in style.now) (kept_seen self.old) result steps.old steps.new }
        ensures text { Adds O.held O.faults result pieces.old pieces.new (flat_map layer_lines
            (map (layer_out (scene_seen V.tests scene.now) (tiles_in style.now))
            (prepared_layers (globals_in style.now) (trees_in style.now)))) }
    {
        filters_are_decided();
        properties_are_given();
        properties_are_read_by_expressions();
        let mut evaluated = 0;
        for place in 0..self.numbers.len() {
            let at = LayerAt {
                number: self.numbers[place],
                layer: style.listed_layer(place),
                scene,
            };
            let more = write_bare_layer(alloc, &mut self.cells, &at, style.tiles, steps, pieces)?;
            evaluated = sum_of(evaluated, more)?;
        }
        Ok(evaluated)
    }

    // Asks the cells of a layer, and appends its lines.
    fn list_layer<V: TextTests, L: Ledger>(
        &mut self,
        alloc: Global,
        at: &LayerAt<'_, V>,
        tiles: &[SourceTile<'_>],
        steps: &mut Steps<L>,
        out: &mut Vec<u8>,
    ) -> Result<u64, AllocError>
        requires sound { IsSound self.old.cells.buckets }
        requires layer { IsKeptLayer ⟦<FormPool as CountedEvaluator>⟧.slots (scene_at V.tests at.now)
            (map tile_seen tiles.now) at.now.number (layer_at at.now) self.old.cells.buckets }
        ensures numbers { self.new.numbers ≡ self.old.numbers }
        ensures reads { self.new.reads_globals ≡ self.old.reads_globals }
        ensures states { self.new.state_places ≡ self.old.state_places }
        ensures sound { IsSound self.new.cells.buckets }
        ensures sources { LeavesSources at.now.number self.old.cells.buckets self.new.cells.buckets }
        ensures asks { AsksLayer ⟦<FormPool as CountedEvaluator>⟧.slots at.now.number (scene_at V.tests at.now)
            (map tile_seen tiles.now) (layer_at at.now) self.old.cells.buckets self.new.cells.buckets
            result steps.old steps.new }
        ensures lines { OnOk result (out.new.items ≡ out.old.items
            ++ layer_lines (layer_out (scene_at V.tests at.now) (map tile_seen tiles.now) (layer_at at.now))) }
    {
        filters_are_decided();
        properties_are_given();
        properties_are_read_by_expressions();
        let number = self.cells.ask_layer(at, tiles, steps)?;
        write_layer(alloc, &self.cells.buckets, at, tiles, out)?;
        Ok(number)
    }
}
