//! What is asked of a layer that is shown.

ghost use Rattle.std.specs.Prelude.{◌≡◌, Some, None, length, map, if◌then◌else◌};
ghost use Rattle.fixed_num.specs.Number.{floor_of};
ghost use Rattle.layer_buckets.specs.Seen.{HasFeature, IsSound, features_of, source_of};
ghost use Rattle.layer_buckets.specs.declared.cell.CellItem.TheVariants.{Filter};
ghost use Rattle.listing_text.specs.declared.show.Show.TheVariants.{Plain};
ghost use Rattle.style_layout.specs.CodeView.{document_property, feature_seen, tile_seen};
ghost use Rattle.style_layout.specs.Shown.{layer_features, numbered};
ghost use Rattle.style_layout.specs.declared.document_layer.DocumentLayer.{DocumentLayer};
ghost use Rattle.asked_cells.specs.Asked.{IsDecided, common_asked, common_cell, each_asked, feature_asked};
ghost use Rattle.asked_cells.specs.Asked.{feature_number, features_asked, filter_asked, is_listed, item_asked};
ghost use Rattle.asked_cells.specs.Asked.{passed_asked, shown_asked, value_asked, values_asked};
ghost use Rattle.asked_cells.specs.Asking.{AsksAll, AsksIf, HasSlots, IsAnswer, IsCommonAnswer, LeavesSources};
ghost use Rattle.asked_cells.specs.Asking.{common_answer};
ghost use Rattle.asked_cells.specs.Counted.{kept_in};
ghost use Rattle.asked_cells.specs.SeenCells.{HasCellFeature, cell_feature, layer_at, property_at, scene_at};

use crate::cell_world::CellWorld;
use crate::filters::{constant_answer, has_feature_cells, is_passed, sum_of};
use crate::view_cells::{LayerAt, ViewCells};
use expr_nodes::CountedEvaluator;
use fixed_num::Fixed;
use layer_buckets::{Cell, CellItem};
use outside_io::Steps;
use std::alloc::AllocError;
use std::sync::ledger::Ledger;
use style_layout::{LayerFeature, LayerFeatures, Property, SourceTile, TextTests, Zoom, state_of};

impl<E: CountedEvaluator + Drop> ViewCells<E> {
    /// Asks the values that are listed with a layer, and the cells of its features.
    pub(crate) fn ask_plain<V: TextTests, L: Ledger>(
        &mut self,
        at: &LayerAt<'_, V>,
        tiles: &[SourceTile<'_>],
        steps: &mut Steps<L>,
    ) -> Result<u64, AllocError>
        requires sound { IsSound self.old.buckets }
        requires slots { HasSlots E.slots self.old.buckets at.now.number }
        requires features { features_of self.old.buckets at.now.number
            ≡ Some (length (layer_features (map tile_seen tiles.now) (layer_at at.now))) }
        ensures sound { IsSound self.new.buckets }
        ensures sources { LeavesSources at.now.number self.old.buckets self.new.buckets }
        ensures asks { AsksIf E.slots at.now.number
            (λ x. IsDecided (scene_at V.tests at.now) (x Filter) (layer_at at.now))
            (λ x. shown_asked x (scene_at V.tests at.now) (map tile_seen tiles.now) Plain
            (layer_at at.now))
            self.old.buckets self.new.buckets result steps.old steps.new }
    {
        let own = self.ask_values(at, None, steps)?;
        let others = self.ask_features(at, tiles, steps)?;
        sum_of(own, others)
    }

    // Asks the cells of the features of a layer, with those of its filter.
    fn ask_features<V: TextTests, L: Ledger>(
        &mut self,
        at: &LayerAt<'_, V>,
        tiles: &[SourceTile<'_>],
        steps: &mut Steps<L>,
    ) -> Result<u64, AllocError>
        requires sound { IsSound self.old.buckets }
        requires slots { HasSlots E.slots self.old.buckets at.now.number }
        requires features { features_of self.old.buckets at.now.number
            ≡ Some (length (layer_features (map tile_seen tiles.now) (layer_at at.now))) }
        ensures sound { IsSound self.new.buckets }
        ensures sources { LeavesSources at.now.number self.old.buckets self.new.buckets }
        ensures asks { AsksIf E.slots at.now.number
            (λ x. IsDecided (scene_at V.tests at.now) (x Filter) (layer_at at.now))
            (λ x. features_asked x (scene_at V.tests at.now) (map tile_seen tiles.now)
            (layer_at at.now))
            self.old.buckets self.new.buckets result steps.old steps.new }
    {
        let common = self.ask_common_filter(at, steps)?;
        let answer = self.common_answer(at);
        let others = self.ask_each(at, tiles, answer, steps)?;
        sum_of(common, others)
    }

    // Asks the cell of a filter that serves all features.
    fn ask_common_filter<V: TextTests, L: Ledger>(
        &mut self,
        at: &LayerAt<'_, V>,
        steps: &mut Steps<L>,
    ) -> Result<u64, AllocError>
        requires sound { IsSound self.old.buckets }
        requires slots { HasSlots E.slots self.old.buckets at.now.number }
        ensures sound { IsSound self.new.buckets }
        ensures sources { LeavesSources at.now.number self.old.buckets self.new.buckets }
        ensures asks { AsksAll E.slots at.now.number (λ x. common_asked x (scene_at V.tests at.now))
            self.old.buckets self.new.buckets result steps.old steps.new }
    {
        let source = self.buckets.source(at.number, CellItem::Filter);
        if has_feature_cells(source) {
            return Ok(0);
        }
        self.ask_filter(at, None, steps)
    }

    // Asks the cell of a filter for a feature, or the one that serves all.
    fn ask_filter<V: TextTests, L: Ledger>(
        &mut self,
        at: &LayerAt<'_, V>,
        feature: Option<&LayerFeature<'_>>,
        steps: &mut Steps<L>,
    ) -> Result<u64, AllocError>
        requires sound { IsSound self.old.buckets }
        requires slots { HasSlots E.slots self.old.buckets at.now.number }
        requires feature { HasCellFeature self.old.buckets at.now.number (cell_feature feature) }
        ensures sound { IsSound self.new.buckets }
        ensures sources { LeavesSources at.now.number self.old.buckets self.new.buckets }
        ensures asks { AsksAll E.slots at.now.number
            (λ x. filter_asked x (scene_at V.tests at.now) (cell_feature feature.entry))
            self.old.buckets self.new.buckets result steps.old steps.new }
    {
        self.ask_item(at, feature, CellItem::Filter, steps)
    }

    // What the filter answers of all features, where it has no cell for each: its one cell is asked before.
    fn common_answer<V>(&self, at: &LayerAt<'_, V>) -> Option<bool>
        requires { IsSound self.now.buckets }
        ensures { result ≡ common_answer (source_of self.now.buckets at.now.number Filter) (layer_at at.now).filter
            (kept_in self.now.buckets at.now.number common_cell) }
    {
        let source = self.buckets.source(at.number, CellItem::Filter);
        if has_feature_cells(source) {
            return None;
        }
        if source.is_none() {
            return Some(constant_answer(&at.layer.prepared.filter));
        }
        let cell = Cell {
            layer: at.number,
            feature: None,
            item: CellItem::Filter,
        };
        Some(is_passed(self.buckets.value(&cell)))
    }

    // Asks the cells of each feature of a layer.
    fn ask_each<V: TextTests, L: Ledger>(
        &mut self,
        at: &LayerAt<'_, V>,
        tiles: &[SourceTile<'_>],
        answer: Option<bool>,
        steps: &mut Steps<L>,
    ) -> Result<u64, AllocError>
        requires sound { IsSound self.old.buckets }
        requires slots { HasSlots E.slots self.old.buckets at.now.number }
        requires features { features_of self.old.buckets at.now.number
            ≡ Some (length (layer_features (map tile_seen tiles.now) (layer_at at.now))) }
        ensures sound { IsSound self.new.buckets }
        ensures sources { LeavesSources at.now.number self.old.buckets self.new.buckets }
        ensures asks { AsksIf E.slots at.now.number
            (λ x. IsCommonAnswer x (scene_at V.tests at.now) (layer_at at.now) answer)
            (λ x. each_asked x (scene_at V.tests at.now) (layer_at at.now)
            (numbered 0 (layer_features (map tile_seen tiles.now) (layer_at at.now))))
            self.old.buckets self.new.buckets result steps.old steps.new }
    {
        let mut features = LayerFeatures::new(at.layer.prepared, tiles);
        let mut number = 0;
        while let Some(found) = features.next() {
            let feature = LayerFeature {
                number: found.0,
                feature: found.1,
                state: state_of(at.layer.prepared, at.scene, found.1.id.get()),
            };
            let more = self.ask_feature(at, &feature, answer, steps)?;
            number = sum_of(number, more)?;
        }
        Ok(number)
    }

    // Asks the cells of a feature.
    fn ask_feature<V: TextTests, L: Ledger>(
        &mut self,
        at: &LayerAt<'_, V>,
        feature: &LayerFeature<'_>,
        answer: Option<bool>,
        steps: &mut Steps<L>,
    ) -> Result<u64, AllocError>
        requires sound { IsSound self.old.buckets }
        requires slots { HasSlots E.slots self.old.buckets at.now.number }
        requires feature { HasFeature (features_of self.old.buckets at.now.number) (Some feature.now.number) }
        ensures sound { IsSound self.new.buckets }
        ensures sources { LeavesSources at.now.number self.old.buckets self.new.buckets }
        ensures asks { AsksIf E.slots at.now.number
            (λ x. IsAnswer x (scene_at V.tests at.now) (layer_at at.now) answer (feature_seen feature.now))
            (λ x. feature_asked x (scene_at V.tests at.now) (layer_at at.now) (feature_seen feature.now))
            self.old.buckets self.new.buckets result steps.old steps.new }
    {
        match answer {
            Some(passes) => self.ask_passed(at, feature, passes, steps),
            None => self.ask_if_passed(at, feature, steps),
        }
    }

    // Asks the cell that the filter has for a feature, and the values of the feature where it passes.
    fn ask_if_passed<V: TextTests, L: Ledger>(
        &mut self,
        at: &LayerAt<'_, V>,
        feature: &LayerFeature<'_>,
        steps: &mut Steps<L>,
    ) -> Result<u64, AllocError>
        requires sound { IsSound self.old.buckets }
        requires slots { HasSlots E.slots self.old.buckets at.now.number }
        requires feature { HasFeature (features_of self.old.buckets at.now.number) (Some feature.now.number) }
        ensures sound { IsSound self.new.buckets }
        ensures sources { LeavesSources at.now.number self.old.buckets self.new.buckets }
        ensures asks { AsksIf E.slots at.now.number
            (λ x. IsAnswer x (scene_at V.tests at.now) (layer_at at.now) None (feature_seen feature.now))
            (λ x. feature_asked x (scene_at V.tests at.now) (layer_at at.now) (feature_seen feature.now))
            self.old.buckets self.new.buckets result steps.old steps.new }
    {
        let first = self.ask_filter(at, Some(feature), steps)?;
        let cell = Cell {
            layer: at.number,
            feature: Some(feature.number),
            item: CellItem::Filter,
        };
        let passes = is_passed(self.buckets.value(&cell));
        let others = self.ask_passed(at, feature, passes, steps)?;
        sum_of(first, others)
    }

    // Asks the values of a feature, where it passes.
    fn ask_passed<V: TextTests, L: Ledger>(
        &mut self,
        at: &LayerAt<'_, V>,
        feature: &LayerFeature<'_>,
        passes: bool,
        steps: &mut Steps<L>,
    ) -> Result<u64, AllocError>
        requires sound { IsSound self.old.buckets }
        requires slots { HasSlots E.slots self.old.buckets at.now.number }
        requires feature { HasFeature (features_of self.old.buckets at.now.number) (Some feature.now.number) }
        ensures sound { IsSound self.new.buckets }
        ensures sources { LeavesSources at.now.number self.old.buckets self.new.buckets }
        ensures asks { AsksAll E.slots at.now.number (λ x. passed_asked x (scene_at V.tests at.now) passes
            (feature_seen feature.now) (layer_at at.now).properties)
            self.old.buckets self.new.buckets result steps.old steps.new }
    {
        if passes {
            self.ask_values(at, Some(feature), steps)
        } else {
            Ok(0)
        }
    }

    /// Asks the values that are listed with a feature, or with the layer.
    pub(crate) fn ask_values<V: TextTests, L: Ledger>(
        &mut self,
        at: &LayerAt<'_, V>,
        feature: Option<&LayerFeature<'_>>,
        steps: &mut Steps<L>,
    ) -> Result<u64, AllocError>
        requires sound { IsSound self.old.buckets }
        requires slots { HasSlots E.slots self.old.buckets at.now.number }
        requires feature { HasCellFeature self.old.buckets at.now.number (cell_feature feature) }
        ensures sound { IsSound self.new.buckets }
        ensures sources { LeavesSources at.now.number self.old.buckets self.new.buckets }
        ensures asks { AsksAll E.slots at.now.number (λ x. values_asked x (scene_at V.tests at.now)
            (cell_feature feature.entry) (layer_at at.now).properties)
            self.old.buckets self.new.buckets result steps.old steps.new }
    {
        self.ask_listed(at, at.layer.prepared.properties.as_slice(), feature, steps)
    }

    fn ask_listed<V: TextTests, L: Ledger>(
        &mut self,
        at: &LayerAt<'_, V>,
        properties: &[Property],
        feature: Option<&LayerFeature<'_>>,
        steps: &mut Steps<L>,
    ) -> Result<u64, AllocError>
        requires sound { IsSound self.old.buckets }
        requires slots { HasSlots E.slots self.old.buckets at.now.number }
        requires feature { HasCellFeature self.old.buckets at.now.number (cell_feature feature) }
        ensures sound { IsSound self.new.buckets }
        ensures sources { LeavesSources at.now.number self.old.buckets self.new.buckets }
        ensures asks { AsksAll E.slots at.now.number (λ x. values_asked x (scene_at V.tests at.now)
            (cell_feature feature.entry) (map (property_at at.now) properties.now))
            self.old.buckets self.new.buckets result steps.old steps.new }
    {
        let mut number = 0;
        for property in properties {
            let more = self.ask_value(at, property, feature, steps)?;
            number = sum_of(number, more)?;
        }
        Ok(number)
    }

    // Asks the value of a property, where it is listed with the feature, or with the layer.
    fn ask_value<V: TextTests, L: Ledger>(
        &mut self,
        at: &LayerAt<'_, V>,
        property: &Property,
        feature: Option<&LayerFeature<'_>>,
        steps: &mut Steps<L>,
    ) -> Result<u64, AllocError>
        requires sound { IsSound self.old.buckets }
        requires slots { HasSlots E.slots self.old.buckets at.now.number }
        requires feature { HasCellFeature self.old.buckets at.now.number (cell_feature feature) }
        ensures sound { IsSound self.new.buckets }
        ensures sources { LeavesSources at.now.number self.old.buckets self.new.buckets }
        ensures asks { AsksAll E.slots at.now.number (λ x. value_asked x (scene_at V.tests at.now)
            (cell_feature feature.entry) (property_at at.now property.now))
            self.old.buckets self.new.buckets result steps.old steps.new }
    {
        if is_listed(feature, property) {
            self.ask_item(at, feature, CellItem::Property(property.row.number), steps)
        } else {
            Ok(0)
        }
    }

    // Asks a cell, where its item has a source.
    fn ask_item<V: TextTests, L: Ledger>(
        &mut self,
        at: &LayerAt<'_, V>,
        feature: Option<&LayerFeature<'_>>,
        item: CellItem,
        steps: &mut Steps<L>,
    ) -> Result<u64, AllocError>
        requires sound { IsSound self.old.buckets }
        requires slots { HasSlots E.slots self.old.buckets at.now.number }
        requires feature { HasCellFeature self.old.buckets at.now.number (cell_feature feature) }
        ensures sound { IsSound self.new.buckets }
        ensures sources { LeavesSources at.now.number self.old.buckets self.new.buckets }
        ensures asks { AsksAll E.slots at.now.number
            (λ x. item_asked x (scene_at V.tests at.now) (cell_feature feature.entry) item)
            self.old.buckets self.new.buckets result steps.old steps.new }
    {
        match self.buckets.source(at.number, item) {
            None => Ok(0),
            Some(source) => {
                let cell = Cell {
                    layer: at.number,
                    feature: number_of(feature),
                    item,
                };
                let world = CellWorld {
                    scene: at.scene,
                    zoom: zoom_for(at.scene.zoom, source.paint),
                    feature,
                };
                self.buckets
                    .refresh(&mut self.workspace, &cell, &world, steps)
            }
        }
    }
}

/// The zoom that a value sees: a paint value the zoom, and every other its floor.
pub fn zoom_for(zoom: Zoom, paint: bool) -> Fixed
    ensures { result ≡ (if paint then zoom else floor_of zoom) }
{
    if paint { zoom.exact() } else { zoom.floor() }
}

/// Whether a value is listed with the feature, or with the layer.
pub fn is_listed(feature: Option<&LayerFeature<'_>>, property: &Property) -> bool
    ensures { (layer : DocumentLayer) →
        result ≡ is_listed (cell_feature feature.entry) (document_property layer property.now) }
{
    match feature {
        Some(_) => property.is_per_feature,
        None => !property.is_per_feature,
    }
}

fn number_of(feature: Option<&LayerFeature<'_>>) -> Option<u32>
    ensures { result ≡ feature_number (cell_feature feature.entry) }
{
    match feature {
        Some(feature) => Some(feature.number),
        None => None,
    }
}
