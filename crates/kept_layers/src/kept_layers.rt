//! The kept cells of the layers of a style.

ghost use Rattle.std.specs.Prelude.{◌≡◌, ◌<◌, ◌≤◌, None, length, IfOk, OnOk};
ghost use Rattle.layer_buckets.specs.Seen.{features_of};
ghost use Rattle.style_layout.specs.Forms.{Scene};
ghost use Rattle.kept_layers.specs.Changes.{AddsLayer, IsOneLayer, MovesLayer, RemovesLayer, nothing_kept};
ghost use Rattle.kept_layers.specs.View.{AreNumbered, HoldsLayers, IsPrepared, IsRightIn, globals_in, kept_seen};
ghost use Rattle.kept_layers.specs.View.{tiles_in, trees_in};

use crate::style_layers::{OneLayer, StyleLayers};
use asked_cells::ViewCells;
use cell_sources::add_sources;
use expr_nodes::CountedEvaluator;
use form_pool::FormPool;
use moved_slices::move_element;
use noted_places::NotedPlaces;
use std::alloc::{AllocError, Global};

/// The kept cells of the layers of a style, as one view has them, with the expressions that give their values.
/// `kept_seen` is which cells are kept, for clauses.
#[derive(Drop)]
pub struct KeptLayers {
    pub(crate) cells: ViewCells<FormPool>,
    /// The number of each layer in the buckets, in the order of the layers.
    pub(crate) numbers: Vec<u32>,
    /// Whether an expression that they have or had was read by the values of the global state.
    pub(crate) reads_globals: bool,
    /// The place of each layer of which an expression reads a feature's state, and of others of which one did.
    pub(crate) state_places: NotedPlaces,
    /// How many expressions the evaluator had when all were of items: at first, and each time that they were put anew.
    pub(crate) tidy_count: usize,
}

impl KeptLayers {
    /// Those of a style, of which nothing is kept. Takes time linear in the style.
    pub fn of(alloc: Global, style: &StyleLayers<'_>) -> Result<KeptLayers, AllocError>
        requires { IsPrepared style.now }
        ensures numbered { IfOk result AreNumbered }
        ensures kept { IfOk result (λ made. kept_seen made ≡ nothing_kept (trees_in style.now)) }
        ensures holds { IfOk result (HoldsLayers ⟦<FormPool as CountedEvaluator>⟧.slots
            (tiles_in style.now) (globals_in style.now) (trees_in style.now)) }
        ensures right { (scene : Scene) → IfOk result (IsRightIn ⟦<FormPool as CountedEvaluator>⟧.slots
            (tiles_in style.now) (globals_in style.now) scene (trees_in style.now)) }
    {
        let mut kept = KeptLayers {
            cells: ViewCells::new(alloc, FormPool::new(alloc))?,
            numbers: Vec::new(alloc),
            reads_globals: false,
            state_places: NotedPlaces::new(alloc),
            tidy_count: 0,
        };
        for place in 0..style.layers.len() {
            let one = style.one(place);
            kept.add(alloc, place, &one)?;
        }
        kept.tidy_count = kept.cells.buckets.expressions().count();
        Ok(kept)
    }

    /// Adds a layer before the one at a place, or last where the place is the number of layers. Nothing is kept of
    /// it. Takes time linear in the layer and in the number of layers.
    pub fn add(&mut self, alloc: Global, place: usize, one: &OneLayer<'_>) -> Result<(), AllocError>
        requires numbered { AreNumbered self.old }
        requires layer { IsOneLayer one.now }
        requires within { place ≤ length self.old.numbers.items }
        ensures { OnOk result (AddsLayer ⟦<FormPool as CountedEvaluator>⟧.slots place one.now self.old self.new) }
    {
        let number = self.unused_number()?;
        self.cells
            .add_layer(alloc, number, one.prepared, one.tiles)?;
        let values = one.values();
        add_sources(alloc, number, &values, &mut self.cells.buckets)?;
        let reads = self.layer_reads_globals(number, values.layer_type);
        self.reads_globals |= reads;
        let reads_state = self.layer_reads_state(number, values.layer_type);
        let count = self.numbers.len();
        self.state_places.follow_insert(place, count);
        self.state_places.note_if(reads_state, place)?;
        let Ok(()) = self.numbers.insert(place, number) else {
            return Err(AllocError);
        };
        Ok(())
    }

    // A number that no layer has: that of the layers, which is free as long as none was removed, or the first that
    // is. Each layer takes memory, so that there is none is refused as a failed allocation is.
    fn unused_number(&self) -> Result<u32, AllocError>
        ensures { IfOk result (λ number. features_of self.now.cells.buckets number ≡ None) }
    {
        let count = u32::try_from(self.numbers.len()).unwrap_or(u32::MAX);
        if self.cells.buckets.features(count).is_none() {
            return Ok(count);
        }
        for number in 0..u32::MAX {
            if self.cells.buckets.features(number).is_none() {
                return Ok(number);
            }
        }
        Err(AllocError)
    }

    /// Takes the layer at a place away, with what is kept of it. Takes time linear in the layers and its kept cells.
    pub fn remove(&mut self, place: usize)
        requires numbered { AreNumbered self.old }
        requires within { place < length self.old.numbers.items }
        ensures { RemovesLayer ⟦<FormPool as CountedEvaluator>⟧.slots place self.old self.new }
    {
        let number = self.numbers.remove(place);
        self.cells.buckets.remove(number);
        self.state_places.follow_remove(place);
    }

    /// Moves the layer at a place to another, with what is kept of it. Takes time linear in how many layers are in
    /// between and in those of which an expression reads a state, and no memory.
    pub fn move_layer(&mut self, from: usize, to: usize)
        requires numbered { AreNumbered self.old }
        requires from { from < length self.old.numbers.items }
        requires to { to < length self.old.numbers.items }
        ensures { MovesLayer ⟦<FormPool as CountedEvaluator>⟧.slots from to self.old self.new }
    {
        move_element(self.numbers.as_mut_slice(), from, to);
        self.state_places.follow_move(from, to);
    }
}
