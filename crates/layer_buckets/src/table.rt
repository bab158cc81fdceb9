//! The cells of layers, by the columns of their items.

ghost use Rattle.std.specs.Prelude.{◌≡◌, ℕ, ◌+◌, ◌<◌, ◌≤◌, Some, None, IfOk, OnOk, OnErr, is_some, length, nat_eq};
ghost use Rattle.std.specs.Prelude.{true, if◌then◌else◌};
ghost use Rattle.std.specs.List.{slice_get};
ghost use Rattle.layer_buckets.specs.Cells.{cell_eq, is_item};
ghost use Rattle.layer_buckets.specs.Drops.{AreKept, Drops, DropsList};
ghost use Rattle.layer_buckets.specs.Growing.{IsPlaceFor, IsPlaceOf, IsSame};
ghost use Rattle.layer_buckets.specs.Keeping.{slot_named};
ghost use Rattle.layer_buckets.specs.Listing.{IsThere};
ghost use Rattle.layer_buckets.specs.KeptSlots.{column_at};
ghost use Rattle.layer_buckets.specs.Slotted.{slotted_at};
ghost use Rattle.layer_buckets.specs.Sources.{HasSource, HasStates, IsCleared, StayShown, is_column, no_source_column};
ghost use Rattle.layer_buckets.specs.declared.cell.Cell.{Cell};
ghost use Rattle.layer_buckets.specs.declared.cell.CellItem.{CellItem};
ghost use Rattle.layer_buckets.specs.Outcomes.{outcome_owned, seen_outcome};
ghost use Rattle.layer_buckets.specs.LaidOut.{IsCellTable, column_of, feature_count, features_in, features_in_table};
ghost use Rattle.layer_buckets.specs.LaidOut.{item_of, items_in, kept_in_table, row_of, source_in_table};
ghost use Rattle.layer_buckets.specs.LaidOut.{state_of_feature, states_in};
ghost use Rattle.layer_buckets.specs.declared.cell.Stale.TheVariants.{Globals, Images, Item, Layer, State, Zoom};

use crate::cell::{Cell, CellItem, Source, Stale};
use crate::kept_cells::KeptCells;
use crate::layers::{
    LayerColumns, column_numbered, column_of, features_of, grow_layers, item_count, make_item,
    name_column, row_count, row_of, row_within, set_features, set_states, state_list_of,
};
use crate::lists::ListName;
use crate::slots::CellPlace;
use prop_values::{EvalFault, Value};
use std::alloc::{AllocError, Global};

/// Layers, and the kept cells of their columns.
#[derive(Drop)]
pub struct CellTable {
    pub layers: Vec<LayerColumns>,
    pub cells: KeptCells,
}

impl CellTable {
    /// No layers.
    pub fn new(alloc: Global) -> Result<CellTable, AllocError>
        ensures table { IfOk result IsCellTable }
        ensures kept { IfOk result (λ table. (cell : Cell) → kept_in_table table cell ≡ None) }
        ensures features { IfOk result (λ table. (layer : ℕ) → features_in_table table layer ≡ None) }
        ensures sources { IfOk result
            (λ table. (layer : ℕ) (item : CellItem) → source_in_table table layer item ≡ None) }
    {
        Ok(CellTable {
            layers: Vec::new(alloc),
            cells: KeptCells::new(alloc)?,
        })
    }

    /// Adds a layer without sources.
    pub fn add(&mut self, alloc: Global, layer: u32, features: u32) -> Result<(), AllocError>
        requires table { IsCellTable self.old }
        requires absent { features_in_table self.old layer ≡ None }
        requires few { features < 4294967295 }
        ensures table { IsCellTable self.new }
        ensures kept { (cell : Cell) → kept_in_table self.new cell ≡ kept_in_table self.old cell }
        ensures sources { (l : ℕ) (i : CellItem) → source_in_table self.new l i ≡ source_in_table self.old l i }
        ensures ok { OnOk result ((l : ℕ) → features_in_table self.new l
            ≡ (if nat_eq l layer then Some features else features_in_table self.old l)) }
        ensures err { OnErr result ((l : ℕ) → features_in_table self.new l ≡ features_in_table self.old l) }
    {
        grow_layers(alloc, &mut self.layers, layer)?;
        set_features(&mut self.layers, layer, Some(features));
        Ok(())
    }

    /// Gives an item of a layer a source, and drops the cells of the item.
    pub fn set_source(
        &mut self,
        alloc: Global,
        layer: u32,
        source: &Source,
    ) -> Result<(), AllocError>
        requires table { IsCellTable self.old }
        requires there { is_some (features_in_table self.old layer) ≡ true }
        ensures table { IsCellTable self.new }
        ensures features { (l : ℕ) → features_in_table self.new l ≡ features_in_table self.old l }
        ensures ok { OnOk result (HasSource self.old self.new layer source.now.item (Some source.now)) }
        ensures err { OnErr result (StayShown self.old self.new) }
    {
        let column = self.column_for(alloc, layer, source.item)?;
        let first = self.first_state_for(layer, source.mentions.state)?;
        self.put_source(layer, column, source, first);
        Ok(())
    }

    // Gives an item with a column a source.
    fn put_source(&mut self, layer: u32, column: u32, source: &Source, first_state: u32)
        requires table { IsCellTable self.old }
        requires there { is_some (features_in_table self.old layer) ≡ true }
        requires column { column_of self.old.layers.items layer source.now.item ≡ Some column }
        requires states { source.now.mentions.state ≡ true →
            HasStates (slice_get self.old.layers.items layer) first_state }
        ensures table { IsCellTable self.new }
        ensures layers { self.new.layers.items ≡ self.old.layers.items }
        ensures changed { HasSource self.old self.new layer source.now.item (Some source.now) }
    {
        self.drop_item(layer, source.item);
        self.cells.set_source(column, Some(*source), first_state);
    }

    // The column of an item, which is made where there is none.
    fn column_for(&mut self, alloc: Global, layer: u32, item: CellItem) -> Result<u32, AllocError>
        requires table { IsCellTable self.old }
        requires there { layer < length self.old.layers.items }
        ensures table { IsCellTable self.new }
        ensures shown { StayShown self.old self.new }
        ensures ok { IfOk result (λ column. column_of self.new.layers.items layer item ≡ Some column) }
    {
        match self.column(layer, item) {
            Some(column) => Ok(column),
            None => self.new_column(alloc, layer, item),
        }
    }

    fn new_column(&mut self, alloc: Global, layer: u32, item: CellItem) -> Result<u32, AllocError>
        requires table { IsCellTable self.old }
        requires there { layer < length self.old.layers.items }
        requires none { column_of self.old.layers.items layer item ≡ None }
        ensures table { IsCellTable self.new }
        ensures shown { StayShown self.old self.new }
        ensures ok { IfOk result (λ column. column_of self.new.layers.items layer item ≡ Some column) }
    {
        make_item(&mut self.layers, layer, item)?;
        let column = self.cells.lists.item_lists;
        self.cells.add_column(alloc)?;
        name_column(&mut self.layers, layer, item, column);
        Ok(column)
    }

    // The number of the layer's first list of states, where it needs some, which are made where there are none.
    fn first_state_for(&mut self, layer: u32, needed: bool) -> Result<u32, AllocError>
        requires table { IsCellTable self.old }
        requires there { layer < length self.old.layers.items }
        ensures table { IsCellTable self.new }
        ensures shown { StayShown self.old self.new }
        ensures columns { (l : ℕ) (i : CellItem) →
            column_of self.new.layers.items l i ≡ column_of self.old.layers.items l i }
        ensures ok { IfOk result (λ first. needed ≡ true → HasStates (slice_get self.new.layers.items layer) first) }
    {
        if !needed {
            return Ok(0);
        }
        let own = &self.layers[layer as usize];
        let features = own.features.unwrap_or(0);
        if features <= own.states {
            return Ok(own.first_state);
        }
        let states = features.max(own.states.saturating_mul(2));
        self.new_states(layer, states)
    }

    fn new_states(&mut self, layer: u32, states: u32) -> Result<u32, AllocError>
        requires table { IsCellTable self.old }
        requires there { layer < length self.old.layers.items }
        requires few { states_in (slice_get self.old.layers.items layer)
            < feature_count (features_in (slice_get self.old.layers.items layer)) }
        requires more { feature_count (features_in (slice_get self.old.layers.items layer)) ≤ states }
        ensures table { IsCellTable self.new }
        ensures shown { StayShown self.old self.new }
        ensures columns { (l : ℕ) (i : CellItem) →
            column_of self.new.layers.items l i ≡ column_of self.old.layers.items l i }
        ensures ok { IfOk result (λ first. HasStates (slice_get self.new.layers.items layer) first) }
    {
        let first = self.cells.lists.state_lists;
        self.cells.add_states(states)?;
        set_states(&mut self.layers, layer, first, states);
        Ok(first)
    }

    /// Takes the source of an item away, and drops the cells of the item.
    pub fn remove_source(&mut self, layer: u32, item: CellItem)
        requires { IsCellTable self.old }
        ensures table { IsCellTable self.new }
        ensures layers { self.new.layers.items ≡ self.old.layers.items }
        ensures sources { (l : ℕ) (i : CellItem) → source_in_table self.new l i
            ≡ (if is_item layer item l i then None else source_in_table self.old l i) }
        ensures kept { (cell : Cell) → kept_in_table self.new cell
            ≡ (if is_item layer item cell.layer cell.item then None else kept_in_table self.old cell) }
    {
        self.drop_item(layer, item);
        if let Some(column) = self.column(layer, item) {
            self.cells.set_source(column, None, 0);
        }
    }

    /// Gives the source of an item, if it has one, another number in the evaluator. All else stays.
    pub fn set_number(&mut self, layer: u32, item: CellItem, number: u32)
        requires { IsCellTable self.old }
        ensures table { IsCellTable self.new }
        ensures layers { self.new.layers.items ≡ self.old.layers.items }
        ensures sources { (l : ℕ) (i : CellItem) → source_in_table self.new l i
            ≡ slotted_at layer item number l i (source_in_table self.old l i) }
        ensures kept { (cell : Cell) → kept_in_table self.new cell ≡ kept_in_table self.old cell }
    {
        if let Some(column) = self.column(layer, item) {
            self.cells.set_number(column, number);
        }
    }

    /// The outcome of a kept cell.
    #[tactic(auto, using(crate::proofs::ItemLaws::unrowed))]
    pub fn outcome(&self, cell: &Cell) -> Option<Result<&Value, EvalFault>>
        requires { IsCellTable self.now }
        ensures { seen_outcome result ≡ kept_in_table self.now cell.now }
    {
        let Some(row) = row_of(cell.feature) else {
            return None;
        };
        match self.column(cell.layer, cell.item) {
            Some(column) => self.cells.outcome(CellPlace { column, row }),
            None => None,
        }
    }

    /// Whether there is no slot, so that no cell is kept.
    pub fn is_bare(&self) -> bool
        ensures { result ≡ true → (cell : Cell) → kept_in_table self.now cell ≡ None }
    {
        self.cells.is_bare()
    }

    /// The source of an item.
    pub fn source(&self, layer: u32, item: CellItem) -> Option<Source>
        ensures { result ≡ source_in_table self.now layer item }
    {
        match self.column(layer, item) {
            Some(column) => self.cells.source(column),
            None => None,
        }
    }

    /// The place of a cell whose item has a column.
    pub fn place(&self, cell: &Cell) -> CellPlace
        requires table { IsCellTable self.now }
        requires column { is_some (column_of self.now.layers.items cell.now.layer cell.now.item) ≡ true }
        requires feature { row_of cell.now.feature
            ≤ feature_count (features_in_table self.now cell.now.layer) }
        ensures { IsPlaceOf self.now cell.now result }
    {
        let Some(column) = self.column(cell.layer, cell.item) else {
            unreachable!()
        };
        CellPlace {
            column,
            row: row_within(cell.feature),
        }
    }

    /// Whether the cell of a place is kept.
    pub fn is_kept(&self, cell: &Cell, place: CellPlace) -> bool
        requires { IsPlaceOf self.now cell.now place }
        ensures { result ≡ is_some (kept_in_table self.now cell.now) }
    {
        self.cells.is_kept(place)
    }

    /// The source of the item of a place's cell.
    pub fn source_at(&self, cell: &Cell, place: CellPlace) -> Option<Source>
        requires { IsPlaceOf self.now cell.now place }
        ensures { result ≡ source_in_table self.now cell.now.layer cell.now.item }
    {
        self.cells.source(place.column)
    }

    /// Makes what the cell of a place needs to be kept.
    pub fn make_place(&mut self, cell: &Cell, place: CellPlace) -> Result<(), AllocError>
        requires table { IsCellTable self.old }
        requires place { IsPlaceOf self.old cell.now place }
        requires feature { row_of cell.now.feature
            ≤ feature_count (features_in_table self.old cell.now.layer) }
        ensures table { IsCellTable self.new }
        ensures same { IsSame self.old self.new }
        ensures ok { OnOk result (IsPlaceFor self.new cell.now place) }
    {
        let features = self.features(cell.layer);
        self.make_rows(cell, place.column, row_count(cell.feature, features))?;
        self.reserve_more()
    }

    // Makes rows of the column of a cell.
    fn make_rows(&mut self, cell: &Cell, column: u32, rows: u32) -> Result<(), AllocError>
        requires table { IsCellTable self.old }
        requires column { column_of self.old.layers.items cell.now.layer cell.now.item ≡ Some column }
        requires rows { rows ≤ 1 + feature_count (features_in_table self.old cell.now.layer) }
        ensures table { IsCellTable self.new }
        ensures same { IsSame self.old self.new }
        ensures ok { OnOk result ((row : ℕ) → row < rows →
            is_some (slot_named self.new.cells (record { column = column; row = row })) ≡ true) }
    {
        self.cells.make_rows(column, rows)
    }

    // Makes a slot free where none is.
    fn reserve_more(&mut self) -> Result<(), AllocError>
        requires { IsCellTable self.old }
        ensures table { IsCellTable self.new }
        ensures same { IsSame self.old self.new }
        ensures columns { self.new.cells.columns.items ≡ self.old.cells.columns.items }
        ensures ok { OnOk result (0 < length self.new.cells.free.items) }
    {
        self.cells.reserve_more()
    }

    /// Keeps the outcome of a cell.
    pub fn keep(&mut self, cell: &Cell, place: CellPlace, outcome: Result<Value, EvalFault>)
        requires table { IsCellTable self.old }
        requires place { IsPlaceFor self.old cell.now place }
        requires new { kept_in_table self.old cell.now ≡ None }
        ensures table { IsCellTable self.new }
        ensures layers { self.new.layers.items ≡ self.old.layers.items }
        ensures sources { (l : ℕ) (i : CellItem) → source_in_table self.new l i ≡ source_in_table self.old l i }
        ensures kept { (other : Cell) → kept_in_table self.new other
            ≡ (if cell_eq cell.now other then Some (outcome_owned outcome) else kept_in_table self.old other) }
    {
        self.cells.keep(place, outcome);
    }

    /// Drops the cells of a list.
    fn drop_list(&mut self, name: ListName)
        requires table { IsCellTable self.old }
        requires there { IsThere self.old.cells.lists name }
        ensures table { IsCellTable self.new }
        ensures kept { AreKept self.old self.new }
        ensures dropped { DropsList name self.old self.new }
    {
        self.cells.drop_list(name);
    }

    fn drop_zoomed(&mut self, floor: bool)
        requires { IsCellTable self.old }
        ensures table { IsCellTable self.new }
        ensures kept { AreKept self.old self.new }
        ensures dropped { Drops (Zoom floor) self.old self.new }
    {
        self.drop_list(ListName::Zoom(0));
        if floor {
            self.drop_list(ListName::Zoom(1));
        }
    }

    fn drop_images(&mut self)
        requires { IsCellTable self.old }
        ensures table { IsCellTable self.new }
        ensures kept { AreKept self.old self.new }
        ensures dropped { Drops Images self.old self.new }
    {
        self.drop_list(ListName::Image(0));
        self.drop_list(ListName::Image(1));
    }

    fn drop_globals(&mut self)
        requires { IsCellTable self.old }
        ensures table { IsCellTable self.new }
        ensures kept { AreKept self.old self.new }
        ensures dropped { Drops Globals self.old self.new }
    {
        self.drop_list(ListName::Image(1));
        self.drop_list(ListName::Image(2));
    }

    fn drop_item(&mut self, layer: u32, item: CellItem)
        requires { IsCellTable self.old }
        ensures table { IsCellTable self.new }
        ensures kept { AreKept self.old self.new }
        ensures dropped { Drops (Item layer item) self.old self.new }
    {
        if let Some(column) = self.column(layer, item) {
            self.drop_list(ListName::Item(column));
        }
    }

    fn drop_state(&mut self, layer: u32, feature: u32)
        requires { IsCellTable self.old }
        ensures table { IsCellTable self.new }
        ensures kept { AreKept self.old self.new }
        ensures dropped { Drops (State layer feature) self.old self.new }
    {
        if let Some(list) = self.state_list(layer, feature) {
            self.drop_list(ListName::State(list));
        }
    }

    fn drop_layer(&mut self, layer: u32)
        requires { IsCellTable self.old }
        ensures table { IsCellTable self.new }
        ensures kept { AreKept self.old self.new }
        ensures dropped { Drops (Layer layer) self.old self.new }
    {
        for number in 0..self.item_count(layer) {
            self.drop_numbered(layer, number);
        }
    }

    /// Takes a layer away, with its sources, and drops its cells.
    pub fn remove(&mut self, layer: u32)
        requires { IsCellTable self.old }
        ensures table { IsCellTable self.new }
        ensures kept { (cell : Cell) → kept_in_table self.new cell
            ≡ (if nat_eq layer cell.layer then None else kept_in_table self.old cell) }
        ensures sources { (l : ℕ) (i : CellItem) → source_in_table self.new l i
            ≡ (if nat_eq layer l then None else source_in_table self.old l i) }
        ensures features { (l : ℕ) → features_in_table self.new l
            ≡ (if nat_eq l layer then None else features_in_table self.old l) }
    {
        self.clear(layer);
        self.forget(layer);
    }

    // Takes the sources of a layer away, and drops its cells.
    fn clear(&mut self, layer: u32)
        requires { IsCellTable self.old }
        ensures table { IsCellTable self.new }
        ensures layers { self.new.layers.items ≡ self.old.layers.items }
        ensures kept { (cell : Cell) → kept_in_table self.new cell
            ≡ (if nat_eq layer cell.layer then None else kept_in_table self.old cell) }
        ensures sources { (l : ℕ) (i : CellItem) → source_in_table self.new l i
            ≡ (if nat_eq layer l then None else source_in_table self.old l i) }
        ensures rows { IsCleared self.new layer (items_in (slice_get self.new.layers.items layer)) }
    {
        for number in 0..self.item_count(layer) {
            self.clear_numbered(layer, number);
        }
    }

    // Takes the source of the item of a number away, and drops its cells.
    fn clear_numbered(&mut self, layer: u32, number: usize)
        requires { IsCellTable self.old }
        ensures table { IsCellTable self.new }
        ensures layers { self.new.layers.items ≡ self.old.layers.items }
        ensures sources { (l : ℕ) (i : CellItem) → source_in_table self.new l i
            ≡ (if is_item layer (item_of number) l i then None else source_in_table self.old l i) }
        ensures kept { (cell : Cell) → kept_in_table self.new cell
            ≡ (if is_item layer (item_of number) cell.layer cell.item then None else kept_in_table self.old cell) }
        ensures columns { (c : ℕ) → column_at self.new.cells.columns.items c
            ≡ (if is_column c (column_of self.old.layers.items layer (item_of number))
            then Some no_source_column else column_at self.old.cells.columns.items c) }
    {
        self.drop_numbered(layer, number);
        if let Some(column) = self.numbered(layer, number) {
            self.cells.set_source(column, None, 0);
        }
    }

    // Says that a layer without sources is not there.
    fn forget(&mut self, layer: u32)
        requires table { IsCellTable self.old }
        requires sources { (i : CellItem) → source_in_table self.old layer i ≡ None }
        requires rows { IsCleared self.old layer (items_in (slice_get self.old.layers.items layer)) }
        ensures table { IsCellTable self.new }
        ensures kept { (cell : Cell) → kept_in_table self.new cell ≡ kept_in_table self.old cell }
        ensures sources { (l : ℕ) (i : CellItem) → source_in_table self.new l i ≡ source_in_table self.old l i }
        ensures features { (l : ℕ) → features_in_table self.new l
            ≡ (if nat_eq l layer then None else features_in_table self.old l) }
    {
        if (layer as usize) < self.layers.len() {
            set_features(&mut self.layers, layer, None);
        }
    }

    // Drops the cells of the item of a number.
    fn drop_numbered(&mut self, layer: u32, number: usize)
        requires { IsCellTable self.old }
        ensures table { IsCellTable self.new }
        ensures kept { AreKept self.old self.new }
        ensures dropped { Drops (Item layer (item_of number)) self.old self.new }
    {
        if let Some(column) = self.numbered(layer, number) {
            self.drop_list(ListName::Item(column));
        }
    }

    /// Drops the cells that a cause names.
    pub fn drop_cells(&mut self, stale: &Stale)
        requires { IsCellTable self.old }
        ensures table { IsCellTable self.new }
        ensures kept { AreKept self.old self.new }
        ensures dropped { Drops stale.now self.old self.new }
    {
        match *stale {
            Stale::Item(layer, item) => self.drop_item(layer, item),
            Stale::Layer(layer) => self.drop_layer(layer),
            Stale::Zoom(floor) => self.drop_zoomed(floor),
            Stale::State(layer, feature) => self.drop_state(layer, feature),
            Stale::Images => self.drop_images(),
            Stale::Globals => self.drop_globals(),
        }
    }

    // The column of an item.
    fn column(&self, layer: u32, item: CellItem) -> Option<u32>
        ensures { result ≡ column_of self.now.layers.items layer item }
    {
        column_of(&self.layers, layer, item)
    }

    // The column of the item of a number.
    fn numbered(&self, layer: u32, number: usize) -> Option<u32>
        ensures { result ≡ column_of self.now.layers.items layer (item_of number) }
    {
        column_numbered(&self.layers, layer, number)
    }

    /// How many features a layer has.
    pub fn features(&self, layer: u32) -> Option<u32>
        ensures { result ≡ features_in_table self.now layer }
    {
        features_of(&self.layers, layer)
    }

    // The items of a layer that have columns have smaller numbers.
    fn item_count(&self, layer: u32) -> usize
        ensures { result ≡ items_in (slice_get self.now.layers.items layer) }
    {
        item_count(&self.layers, layer)
    }

    // The number of the list of a feature among those of states.
    fn state_list(&self, layer: u32, feature: u32) -> Option<u32>
        requires { IsCellTable self.now }
        ensures { result ≡ state_of_feature (slice_get self.now.layers.items layer) feature }
    {
        state_list_of(&self.layers, layer, feature)
    }
}
