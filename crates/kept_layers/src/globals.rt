//! Other values of the global state.

ghost use Rattle.std.specs.Prelude.{◌≡◌, ◌≢◌, ℕ, List, length, is_some, true, false, OnOk};
ghost use Rattle.decimal_json.specs.Tree.{object, fields_of};
ghost use Rattle.decimal_json.specs.View.{tree_of};
ghost use Rattle.prop_values.specs.Data.{Data};
ghost use Rattle.layer_buckets.specs.Cells.{reads_globals};
ghost use Rattle.layer_buckets.specs.Seen.{IsSound, features_of, source_of};
ghost use Rattle.layer_buckets.specs.declared.cell.CellItem.{CellItem};
ghost use Rattle.cell_sources.specs.CellExpressions.{IsItemOf, item_expression};
ghost use Rattle.cell_sources.specs.Sourced.{LeavesOthers};
ghost use Rattle.kept_layers.specs.Changes.{IsOneLayer, TurnsGlobals, globals_of};
ghost use Rattle.kept_layers.specs.KeptLayers.{layer_expressions};
ghost use Rattle.kept_layers.specs.Turning.{LeavesItem, TurnsItem};
ghost use Rattle.kept_layers.specs.View.{AreNumbered, HoldsLayers, IsPrepared, globals_in, tiles_in, trees_in};

use crate::kept_layers::KeptLayers;
use crate::style_layers::{OneLayer, StyleLayers};
use cell_sources::{LayerValues, globals_change_no_other, set_item};
use expr_nodes::CountedEvaluator;
use form_pool::FormPool;
use layer_buckets::CellItem;
use property_tables::{LayerType, row_count};
use std::alloc::{AllocError, Global};

impl KeptLayers {
    /// The values of the global state are those of a style, which had others: the expressions that use them are read
    /// anew, and their cells are dropped. Takes time linear in the items of the layers, in the values that are read
    /// and in the cells that are dropped; in the style where the evaluator has twice as many expressions as when all
    /// were of items; and constant time as long as no expression has used the global state.
    pub fn turn_globals(&mut self, alloc: Global, style: &StyleLayers<'_>) -> Result<(), AllocError>
        requires numbered { AreNumbered self.old }
        requires prepared { IsPrepared style.now }
        requires holds { (before : List (List ℕ × Data))
            × HoldsLayers ⟦<FormPool as CountedEvaluator>⟧.slots (tiles_in style.now) before (trees_in style.now)
            self.old }
        ensures { (before : List (List ℕ × Data))
            → HoldsLayers ⟦<FormPool as CountedEvaluator>⟧.slots (tiles_in style.now) before
            (trees_in style.now) self.old
            → OnOk result (TurnsGlobals ⟦<FormPool as CountedEvaluator>⟧.slots (tiles_in style.now)
            before (globals_in style.now) (trees_in style.now) self.old self.new) }
    {
        self.turn_layers(alloc, style)?;
        self.tidy(alloc, style)
    }

    // Reads the expressions that use the global state.
    fn turn_layers(&mut self, alloc: Global, style: &StyleLayers<'_>) -> Result<(), AllocError>
        requires numbered { AreNumbered self.old }
        requires prepared { IsPrepared style.now }
        requires counted { length self.old.numbers.items ≡ length (trees_in style.now) }
        ensures { (before : List (List ℕ × Data))
            → HoldsLayers ⟦<FormPool as CountedEvaluator>⟧.slots (tiles_in style.now) before
            (trees_in style.now) self.old
            → OnOk result (TurnsGlobals ⟦<FormPool as CountedEvaluator>⟧.slots (tiles_in style.now)
            before (globals_in style.now) (trees_in style.now) self.old self.new) }
    {
        globals_change_no_other();
        if !self.reads_globals {
            return Ok(());
        }
        for place in 0..self.numbers.len() {
            let one = style.one(place);
            let number = self.numbers[place];
            self.turn_layer(alloc, number, &one)?;
            let reads_state = self.layer_reads_state(number, one.prepared.layer_type);
            self.state_places.note_if(reads_state, place)?;
        }
        Ok(())
    }

    // Reads the expressions of a layer that use the global state.
    fn turn_layer(
        &mut self,
        alloc: Global,
        number: u32,
        one: &OneLayer<'_>,
    ) -> Result<(), AllocError>
        requires sound { IsSound self.old.cells.buckets }
        requires there { is_some (features_of self.old.cells.buckets number) ≡ true }
        requires layer { IsOneLayer one.now }
        ensures numbers { self.new.numbers ≡ self.old.numbers }
        ensures reads { self.new.reads_globals ≡ self.old.reads_globals }
        ensures states { self.new.state_places ≡ self.old.state_places }
        ensures sound { IsSound self.new.cells.buckets }
        ensures others { LeavesOthers ⟦<FormPool as CountedEvaluator>⟧.slots number
            self.old.cells.buckets self.new.cells.buckets }
        ensures turned { OnOk result ((item : CellItem) → TurnsItem ⟦<FormPool as CountedEvaluator>⟧.slots number item
            (layer_expressions (globals_of one.now) (tree_of one.now.layer.now) item)
            self.old.cells.buckets self.new.cells.buckets) }
    {
        let values = one.values();
        for row in 0..row_count(values.layer_type) {
            self.turn_item(alloc, number, CellItem::Property(row), &values)?;
        }
        self.turn_item(alloc, number, CellItem::Filter, &values)
    }

    // Reads the expression of an item, if it uses the global state.
    fn turn_item(
        &mut self,
        alloc: Global,
        number: u32,
        item: CellItem,
        values: &LayerValues<'_>,
    ) -> Result<(), AllocError>
        requires sound { IsSound self.old.cells.buckets }
        requires there { is_some (features_of self.old.cells.buckets number) ≡ true }
        requires row { IsItemOf values.now.layer_type item }
        ensures numbers { self.new.numbers ≡ self.old.numbers }
        ensures reads { self.new.reads_globals ≡ self.old.reads_globals }
        ensures states { self.new.state_places ≡ self.old.state_places }
        ensures sound { IsSound self.new.cells.buckets }
        ensures others { LeavesOthers ⟦<FormPool as CountedEvaluator>⟧.slots number
            self.old.cells.buckets self.new.cells.buckets }
        ensures turned { OnOk result (TurnsItem ⟦<FormPool as CountedEvaluator>⟧.slots number item
            (item_expression values.now.globals.now values.now.layer_type
            (object (fields_of values.now.members.now)) item)
            self.old.cells.buckets self.new.cells.buckets) }
        ensures left { OnOk result ((other : CellItem) → item ≢ other
            → LeavesItem number other self.old.cells.buckets self.new.cells.buckets) }
    {
        if !self.item_reads_globals(number, item) {
            return Ok(());
        }
        set_item(alloc, number, values, item, &mut self.cells.buckets)
    }

    /// Whether an expression of a layer was read by the values of the global state.
    pub(crate) fn layer_reads_globals(&self, number: u32, layer_type: LayerType) -> bool
        ensures { result ≡ false → (item : CellItem) → IsItemOf layer_type item
            → reads_globals (source_of self.now.cells.buckets number item) ≡ false }
    {
        for row in 0..row_count(layer_type) {
            if self.item_reads_globals(number, CellItem::Property(row)) {
                return true;
            }
        }
        self.item_reads_globals(number, CellItem::Filter)
    }

    /// Whether the expression of an item was read by the values of the global state.
    pub(crate) fn item_reads_globals(&self, number: u32, item: CellItem) -> bool
        ensures { result ≡ reads_globals (source_of self.now.cells.buckets number item) }
    {
        match self.cells.buckets.source(number, item) {
            Some(source) => source.globals,
            None => false,
        }
    }
}
