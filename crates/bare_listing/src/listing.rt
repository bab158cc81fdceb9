//! The lines of a layer.

ghost use Rattle.std.specs.Prelude.{◌≡◌, ◌++◌, ◌+◌, ◌<◌, ◌≤◌, ◌^◌, [], None, true, length, flat_map, map, IfOk, OnOk};
ghost use Rattle.std.specs.Prelude.{if◌then◌else◌};
ghost use Rattle.layer_buckets.specs.declared.cell.CellItem.TheVariants as items;
ghost use Rattle.listing_text.specs.Listing.{below_layer, feature_lines, layer_lines};
ghost use Rattle.listing_text.specs.declared.show.Show.TheVariants.{Plain};
ghost use Rattle.style_layout.specs.CodeView.{feature_seen, tile_seen};
ghost use Rattle.style_layout.specs.Layers.{has_features};
ghost use Rattle.style_layout.specs.Shown.{feature_out, feature_outs, is_shown, layer_features, shown_features};
ghost use Rattle.style_layout.specs.StyleLayout.{features_shown, layer_out, values_shown};
ghost use Rattle.asked_cells.specs.SeenCells.{layer_at, scene_at};
ghost use Rattle.bare_listing.specs.BareListing.{EvaluatesLayer, IsBareListable};
ghost use Rattle.bare_listing.specs.Costs.{feature_cost, features_cost, nodes_by, one_of, shown_cost};
ghost use Rattle.bare_listing.specs.Given.{IsCommonAnswer};
ghost use Rattle.bare_listing.specs.SeenLayer.{IsGivenIn, layer_in, lines_of, scene_in, slots_in, sources_in, tiles_in};
ghost use Rattle.text_pieces.specs.Adding.{Adds};

use crate::bare_layer::BareLayer;
use asked_cells::{LayerAt, ViewCells, sum_of};
use expr_nodes::{CountedEvaluator, Workspace};
use halts::Halt;
use listing_text::{Show, write_layer_line};
use outside_io::{Sink, SinkFailed, Steps};
use std::alloc::{AllocError, Global};
use std::sync::ledger::Ledger;
use style_layout::{LayerFeature, LayerFeatures, SourceTile, TextTests};
use text_pieces::TextPieces;

/// Adds the lines of a layer, and gives how many cells were evaluated for it: all that a listing asks of it. None is
/// kept, and what was kept is not looked at. The layer has fewer than 2^32 features. What waits is written out once it
/// fills a piece, before the line of the layer and after each feature. Where an allocation or a write fails, some of
/// the lines may have been written out.
pub fn write_bare_layer<E: CountedEvaluator + Drop, V: TextTests, L: Ledger, O: Sink>(
    alloc: Global,
    cells: &mut ViewCells<E>,
    at: &LayerAt<'_, V>,
    tiles: &[SourceTile<'_>],
    steps: &mut Steps<L>,
    pieces: &mut TextPieces<'_, O>,
) -> Result<u64, Halt<SinkFailed>>
    requires few { length (layer_features (map tile_seen tiles.now) (layer_at at.now)) < 2 ^ 32 }
    requires listable { IsBareListable E.slots at.now.number (scene_at V.tests at.now) (layer_at at.now)
        cells.old.buckets }
    ensures stays { cells.new.buckets ≡ cells.old.buckets }
    ensures evaluates { EvaluatesLayer E.slots at.now.number (scene_at V.tests at.now) (map tile_seen tiles.now)
        (layer_at at.now) cells.old.buckets result steps.old steps.new }
    ensures text { Adds O.held O.faults result pieces.old pieces.new
        (layer_lines (layer_out (scene_at V.tests at.now) (map tile_seen tiles.now) (layer_at at.now))) }
{
    let layer = BareLayer {
        alloc,
        buckets: &cells.buckets,
        at,
        tiles,
    };
    pieces.pour_piece()?;
    let show = at.layer.show(at.scene.zoom.exact());
    let prepared = at.layer.prepared;
    write_layer_line(
        prepared.id.as_str(),
        prepared.layer_type,
        show,
        &mut pieces.text,
    )?;
    layer.write_below(&mut cells.workspace, show, steps, pieces)
}

impl<E: CountedEvaluator + Drop, V: TextTests> BareLayer<'_, E, V> {
    // Adds what is below the line of the layer.
    fn write_below<L: Ledger, O: Sink>(
        &self,
        workspace: &mut Workspace,
        show: Show,
        steps: &mut Steps<L>,
        pieces: &mut TextPieces<'_, O>,
    ) -> Result<u64, Halt<SinkFailed>>
        requires few { length (layer_features (tiles_in self.now) (layer_in self.now)) < 2 ^ 32 }
        requires given { IsGivenIn E.slots V.tests self.now }
        ensures number { IfOk result (λ n. n ≡ shown_cost one_of (sources_in self.now) (scene_in V.tests self.now)
            (layer_in self.now) show (tiles_in self.now)) }
        ensures least { IfOk result (λ n. steps.old + n ≤ steps.new) }
        ensures most { steps.new ≤ steps.old + shown_cost (nodes_by (slots_in E.slots self.now)) (sources_in self.now)
            (scene_in V.tests self.now) (layer_in self.now) show (tiles_in self.now) }
        ensures text { Adds O.held O.faults result pieces.old pieces.new (below_layer show
            (values_shown (scene_in V.tests self.now) (tiles_in self.now) show (layer_in self.now))
            (features_shown (scene_in V.tests self.now) (tiles_in self.now) show (layer_in self.now))) }
    {
        match show {
            Show::Hidden => Ok(0),
            Show::Unread => Ok(0),
            Show::OutsideFilter => {
                let layer = self.at.layer;
                let properties = layer.prepared.properties.as_slice();
                Ok(self.write_values(workspace, properties, None, steps, &mut pieces.text)?)
            }
            Show::Plain => self.write_plain(workspace, steps, pieces),
        }
    }

    // Adds the values that are listed with the layer, and the features that pass.
    fn write_plain<L: Ledger, O: Sink>(
        &self,
        workspace: &mut Workspace,
        steps: &mut Steps<L>,
        pieces: &mut TextPieces<'_, O>,
    ) -> Result<u64, Halt<SinkFailed>>
        requires few { length (layer_features (tiles_in self.now) (layer_in self.now)) < 2 ^ 32 }
        requires given { IsGivenIn E.slots V.tests self.now }
        ensures number { IfOk result (λ n. n ≡ shown_cost one_of (sources_in self.now) (scene_in V.tests self.now)
            (layer_in self.now) Plain (tiles_in self.now)) }
        ensures least { IfOk result (λ n. steps.old + n ≤ steps.new) }
        ensures most { steps.new ≤ steps.old + shown_cost (nodes_by (slots_in E.slots self.now)) (sources_in self.now)
            (scene_in V.tests self.now) (layer_in self.now) Plain (tiles_in self.now) }
        ensures text { Adds O.held O.faults result pieces.old pieces.new (below_layer Plain
            (values_shown (scene_in V.tests self.now) (tiles_in self.now) Plain (layer_in self.now))
            (features_shown (scene_in V.tests self.now) (tiles_in self.now) Plain (layer_in self.now))) }
    {
        let layer = self.at.layer;
        let properties = layer.prepared.properties.as_slice();
        let own = self.write_values(workspace, properties, None, steps, &mut pieces.text)?;
        let (common, first) = self.common_answer(workspace, steps)?;
        let others = self.write_features(workspace, common, steps, pieces)?;
        Ok(sum_of(own, sum_of(first, others)?)?)
    }

    fn write_features<L: Ledger, O: Sink>(
        &self,
        workspace: &mut Workspace,
        common: Option<bool>,
        steps: &mut Steps<L>,
        pieces: &mut TextPieces<'_, O>,
    ) -> Result<u64, Halt<SinkFailed>>
        requires few { length (layer_features (tiles_in self.now) (layer_in self.now)) < 2 ^ 32 }
        requires given { IsGivenIn E.slots V.tests self.now }
        requires common { IsCommonAnswer (scene_in V.tests self.now) (sources_in self.now items.Filter)
            (layer_in self.now) common }
        ensures number { IfOk result (λ n. n ≡ features_cost one_of (sources_in self.now) (scene_in V.tests self.now)
            (layer_in self.now) (tiles_in self.now)) }
        ensures least { IfOk result (λ n. steps.old + n ≤ steps.new) }
        ensures most { steps.new ≤ steps.old
            + features_cost (nodes_by (slots_in E.slots self.now)) (sources_in self.now)
            (scene_in V.tests self.now) (layer_in self.now) (tiles_in self.now) }
        ensures text { Adds O.held O.faults result pieces.old pieces.new
            (flat_map feature_lines
            (feature_outs (scene_in V.tests self.now) (layer_in self.now) (tiles_in self.now))) }
    {
        match self.sort_source() {
            Some(sort) => self.write_in_order(workspace, common, &sort, steps, pieces),
            None => self.write_as_listed(workspace, common, steps, pieces),
        }
    }

    // Each feature is written as it comes, and a piece once it is full.
    fn write_as_listed<L: Ledger, O: Sink>(
        &self,
        workspace: &mut Workspace,
        common: Option<bool>,
        steps: &mut Steps<L>,
        pieces: &mut TextPieces<'_, O>,
    ) -> Result<u64, Halt<SinkFailed>>
        requires few { length (layer_features (tiles_in self.now) (layer_in self.now)) < 2 ^ 32 }
        requires given { IsGivenIn E.slots V.tests self.now }
        requires common { IsCommonAnswer (scene_in V.tests self.now) (sources_in self.now items.Filter)
            (layer_in self.now) common }
        ensures number { IfOk result (λ n. n ≡ features_cost one_of (sources_in self.now) (scene_in V.tests self.now)
            (layer_in self.now) (tiles_in self.now)) }
        ensures least { IfOk result (λ n. steps.old + n ≤ steps.new) }
        ensures most { steps.new ≤ steps.old
            + features_cost (nodes_by (slots_in E.slots self.now)) (sources_in self.now)
            (scene_in V.tests self.now) (layer_in self.now) (tiles_in self.now) }
        ensures text { Adds O.held O.faults result pieces.old pieces.new (lines_of (scene_in V.tests self.now)
            (layer_in self.now) (shown_features (scene_in V.tests self.now) (layer_in self.now) (tiles_in self.now))) }
    {
        let mut number = 0;
        let layer = self.at.layer;
        let mut features = LayerFeatures::new(layer.prepared, self.tiles);
        while let Some(found) = features.next() {
            let feature = self.with_state(found.0, found.1);
            let more = self.write_if_passed(workspace, common, &feature, steps, &mut pieces.text)?;
            number = sum_of(number, more)?;
            pieces.pour_piece()?;
        }
        Ok(number)
    }

    // Appends the lines of a feature, where it passes.
    #[inline(always)]
    fn write_if_passed<L: Ledger>(
        &self,
        workspace: &mut Workspace,
        common: Option<bool>,
        feature: &LayerFeature<'_>,
        steps: &mut Steps<L>,
        out: &mut Vec<u8>,
    ) -> Result<u64, AllocError>
        requires typed { has_features (layer_in self.now).type ≡ true }
        requires given { IsGivenIn E.slots V.tests self.now }
        requires common { IsCommonAnswer (scene_in V.tests self.now) (sources_in self.now items.Filter)
            (layer_in self.now) common }
        ensures number { IfOk result (λ n. n ≡ feature_cost one_of (sources_in self.now) (scene_in V.tests self.now)
            (layer_in self.now) (feature_seen feature.now)) }
        ensures least { IfOk result (λ n. steps.old + n ≤ steps.new) }
        ensures most { steps.new ≤ steps.old + feature_cost (nodes_by (slots_in E.slots self.now)) (sources_in self.now)
            (scene_in V.tests self.now) (layer_in self.now) (feature_seen feature.now) }
        ensures lines { OnOk result (out.new.items ≡ out.old.items
            ++ (if is_shown (scene_in V.tests self.now) (layer_in self.now) (feature_seen feature.now)
            then feature_lines (feature_out (scene_in V.tests self.now) (layer_in self.now) (feature_seen feature.now))
            else [])) }
    {
        let (passes, first) = self.passes(workspace, common, feature, steps)?;
        if !passes {
            return Ok(first);
        }
        let others = self.write_feature(workspace, feature, steps, out)?;
        sum_of(first, others)
    }
}
