//! What a view keeps, and what a listing asks of it.

ghost use Rattle.std.specs.Prelude.{◌≡◌, ℕ, ◌<◌, Some, None, IfOk, OnErr, OnOk, length, map, nat_eq, if◌then◌else◌};
ghost use Rattle.layer_buckets.specs.Seen.{IsSound, evaluator_of, features_of, kept_at, source_of};
ghost use Rattle.layer_buckets.specs.declared.cell.Cell.{Cell};
ghost use Rattle.layer_buckets.specs.declared.cell.CellItem.{CellItem};
ghost use Rattle.style_layout.specs.CodeView.{layer_seen, tile_seen};
ghost use Rattle.style_layout.specs.Shown.{layer_features};
ghost use Rattle.asked_cells.specs.Asking.{AsksLayer, HasSlots, LeavesSources};
ghost use Rattle.asked_cells.specs.SeenCells.{layer_at, scene_at};

use expr_nodes::{CountedEvaluator, Workspace};
use layer_buckets::Buckets;
use listing_text::Show;
use outside_io::Steps;
use std::alloc::{AllocError, Global};
use std::sync::ledger::Ledger;
use style_layout::{DocumentLayer, LayerFeatures, Scene, SourceTile, StyleLayer, TextTests};

/// What a view of a style keeps: the values of its cells, and the memory of evaluations.
#[derive(Drop)]
pub struct ViewCells<E: CountedEvaluator + Drop> {
    pub buckets: Buckets<E>,
    pub workspace: Workspace,
}

/// A layer that is listed: its number in the buckets, and the scene.
#[derive(Clone, Copy)]
pub struct LayerAt<'a, V> {
    pub number: u32,
    pub layer: DocumentLayer<'a>,
    pub scene: &'a Scene<'a, V>,
}

impl<E: CountedEvaluator + Drop> ViewCells<E> {
    /// No layers, over an evaluator.
    pub fn new(alloc: Global, evaluator: E) -> Result<ViewCells<E>, AllocError>
        ensures sound { IfOk result (λ cells. IsSound cells.buckets) }
        ensures evaluator { IfOk result (λ cells. evaluator_of cells.buckets ≡ evaluator) }
        ensures kept { IfOk result (λ cells. (cell : Cell) → kept_at cells.buckets cell ≡ None) }
        ensures features { IfOk result (λ cells. (layer : ℕ) → features_of cells.buckets layer ≡ None) }
        ensures sources { IfOk result (λ cells. (layer : ℕ) (item : CellItem) →
            source_of cells.buckets layer item ≡ None) }
    {
        Ok(ViewCells {
            buckets: Buckets::new(alloc, evaluator)?,
            workspace: Workspace::new(alloc),
        })
    }

    /// Adds a layer with the features that it has over tiles, and with no source. Nothing else changes.
    pub fn add_layer(
        &mut self,
        alloc: Global,
        number: u32,
        layer: &StyleLayer,
        tiles: &[SourceTile<'_>],
    ) -> Result<(), AllocError>
        requires sound { IsSound self.old.buckets }
        requires absent { features_of self.old.buckets number ≡ None }
        requires few { length (layer_features (map tile_seen tiles.now) (layer_seen layer.now)) < 4294967295 }
        ensures sound { IsSound self.new.buckets }
        ensures evaluator { evaluator_of self.new.buckets ≡ evaluator_of self.old.buckets }
        ensures sources { (l : ℕ) (item : CellItem) →
            source_of self.new.buckets l item ≡ source_of self.old.buckets l item }
        ensures kept { (cell : Cell) → kept_at self.new.buckets cell ≡ kept_at self.old.buckets cell }
        ensures ok { OnOk result ((l : ℕ) → features_of self.new.buckets l ≡ (if nat_eq l number
            then Some (length (layer_features (map tile_seen tiles.now) (layer_seen layer.now)))
            else features_of self.old.buckets l)) }
        ensures err { OnErr result ((l : ℕ) → features_of self.new.buckets l ≡ features_of self.old.buckets l) }
    {
        self.buckets.add(alloc, number, feature_count(layer, tiles))
    }

    /// Asks the cells that a listing asks of a layer: evaluates those that are not kept, keeps them, and gives
    /// their number. Where an allocation fails, what was kept is kept.
    pub fn ask_layer<V: TextTests, L: Ledger>(
        &mut self,
        at: &LayerAt<'_, V>,
        tiles: &[SourceTile<'_>],
        steps: &mut Steps<L>,
    ) -> Result<u64, AllocError>
        requires sound { IsSound self.old.buckets }
        requires slots { HasSlots E.slots self.old.buckets at.now.number }
        requires features { features_of self.old.buckets at.now.number
            ≡ Some (length (layer_features (map tile_seen tiles.now) (layer_at at.now))) }
        ensures sound { IsSound self.new.buckets }
        ensures sources { LeavesSources at.now.number self.old.buckets self.new.buckets }
        ensures asks { AsksLayer E.slots at.now.number (scene_at V.tests at.now) (map tile_seen tiles.now)
            (layer_at at.now) self.old.buckets self.new.buckets result steps.old steps.new }
    {
        match at.layer.show(at.scene.zoom.exact()) {
            Show::Hidden => Ok(0),
            Show::Unread => Ok(0),
            Show::OutsideFilter => self.ask_values(at, None, steps),
            Show::Plain => self.ask_plain(at, tiles, steps),
        }
    }
}

// How many features a layer has over tiles.
fn feature_count(layer: &StyleLayer, tiles: &[SourceTile<'_>]) -> u32
    requires { length (layer_features (map tile_seen tiles.now) (layer_seen layer.now)) < 4294967295 }
    ensures { result ≡ length (layer_features (map tile_seen tiles.now) (layer_seen layer.now)) }
{
    let mut features = LayerFeatures::new(layer, tiles);
    let mut count = 0;
    while let Some(_found) = features.next() {
        count += 1;
    }
    count
}
