//! The features of a layer that pass, in the order of their sort keys.

ghost use Rattle.std.specs.Prelude.{◌≡◌, ◌++◌, ◌+◌, ◌<◌, ◌≤◌, ◌^◌, Some, None, is_some, true};
ghost use Rattle.std.specs.Prelude.{MatchOption, length, map, take, drop, IfOk, IfSome, OnOk};
ghost use Rattle.layer_buckets.specs.Outcomes.{outcome_owned};
ghost use Rattle.layer_buckets.specs.declared.cell.CellItem.TheVariants as items;
ghost use Rattle.listing_text.specs.Listing.{feature_lines};
ghost use Rattle.stable_order.specs.InOrder.{in_order};
ghost use Rattle.style_layout.specs.CodeView.{document_property, feature_seen};
ghost use Rattle.style_layout.specs.Layers.{has_features};
ghost use Rattle.style_layout.specs.Shown.{feature_out, goes_before, is_shown, layer_features, numbered};
ghost use Rattle.style_layout.specs.Shown.{shown_features};
ghost use Rattle.style_layout.specs.declared.document_layer.DocumentLayer.{DocumentLayer};
ghost use Rattle.bare_listing.specs.Costs.{features_cost, key_cost, keys_cost, nodes_by, one_of, rest_cost, rests_cost};
ghost use Rattle.bare_listing.specs.Given.{IsCommonAnswer, KeepsOrder, given_from};
ghost use Rattle.bare_listing.specs.SeenLayer.{AreKeyed, IsGivenIn, IsKeyed, Sorts, feature_of, key_by, keyed_before};
ghost use Rattle.bare_listing.specs.SeenLayer.{keyed_seen};
ghost use Rattle.bare_listing.specs.SeenLayer.{layer_in, lines_of, property_in, scene_in, slots_in, sources_in};
ghost use Rattle.bare_listing.specs.SeenLayer.{tiles_in, with_given};
ghost use Rattle.text_pieces.specs.Adding.{Adds};

use crate::bare_layer::{BareLayer, write_evaluated};
use asked_cells::sum_of;
use cell_listing::number_of;
use expr_nodes::{CountedEvaluator, Workspace};
use halts::Halt;
use layer_buckets::{CellItem, Source};
use listing_text::write_feature_line;
use outside_io::{Sink, SinkFailed, Steps};
use prop_values::{EvalFault, Value};
use std::alloc::AllocError;
use std::sync::ledger::Ledger;
use style_layout::{LayerFeature, LayerFeatures, Property, TextTests};
use text_pieces::TextPieces;

/// A property whose values order the features of a layer, its place among the properties, and what gives its values.
#[derive(Clone, Copy)]
pub(crate) struct SortSource<'a> {
    pub(crate) place: usize,
    pub(crate) property: &'a Property,
    pub(crate) source: Source,
}

/// A feature that passes, with the value of the property that orders features.
#[derive(Drop)]
pub(crate) struct PassedFeature<'a> {
    pub(crate) feature: LayerFeature<'a>,
    pub(crate) value: Result<Value, EvalFault>,
}

impl<E: CountedEvaluator + Drop, V: TextTests> BareLayer<'_, E, V> {
    /// The property that orders the features, where each has a value of its own. Without one they keep the order of
    /// the list: a value that is listed with the layer is one key for all.
    pub(crate) fn sort_source(&self) -> Option<SortSource<'_>>
        requires { IsGivenIn E.slots V.tests self.now }
        ensures { MatchOption result (KeepsOrder (scene_in V.tests self.now) (layer_in self.now))
            (λ sort. Sorts self.now sort) }
    {
        let sort = self.at.layer.sort_property()?;
        if !sort.property.is_per_feature {
            return None;
        }
        let source = self.source(CellItem::Property(sort.property.row.number))?;
        Some(SortSource {
            place: sort.place,
            property: sort.property,
            source,
        })
    }

    /// Adds the lines of the features that pass, in ascending order of a property, and gives how many cells were
    /// evaluated. A feature whose key faulted comes first, and equal ones keep the order of the list.
    pub(crate) fn write_in_order<L: Ledger, O: Sink>(
        &self,
        workspace: &mut Workspace,
        common: Option<bool>,
        sort: &SortSource<'_>,
        steps: &mut Steps<L>,
        pieces: &mut TextPieces<'_, O>,
    ) -> Result<u64, Halt<SinkFailed>>
        requires few { length (layer_features (tiles_in self.now) (layer_in self.now)) < 2 ^ 32 }
        requires given { IsGivenIn E.slots V.tests self.now }
        requires common { IsCommonAnswer (scene_in V.tests self.now) (sources_in self.now items.Filter)
            (layer_in self.now) common }
        requires sorts { Sorts self.now sort.now }
        ensures number { IfOk result (λ n. n ≡ features_cost one_of (sources_in self.now) (scene_in V.tests self.now)
            (layer_in self.now) (tiles_in self.now)) }
        ensures least { IfOk result (λ n. steps.old + n ≤ steps.new) }
        ensures most { steps.new ≤ steps.old
            + features_cost (nodes_by (slots_in E.slots self.now)) (sources_in self.now)
            (scene_in V.tests self.now) (layer_in self.now) (tiles_in self.now) }
        ensures text { Adds O.held O.faults result pieces.old pieces.new
            (lines_of (scene_in V.tests self.now) (layer_in self.now)
            (in_order (goes_before (scene_in V.tests self.now) (property_in self.now sort.now.property.now))
            (shown_features (scene_in V.tests self.now) (layer_in self.now) (tiles_in self.now)))) }
    {
        let mut first = 0;
        let mut keyed = self.keyed_features(workspace, common, sort, steps, &mut first)?;
        put_in_order(&mut keyed)?;
        let others = self.write_keyed(workspace, sort, keyed.as_slice(), steps, pieces)?;
        Ok(sum_of(first, others)?)
    }

    // The features that pass, with their keys. The cells that were evaluated are counted.
    fn keyed_features<'b, L: Ledger>(
        &'b self,
        workspace: &mut Workspace,
        common: Option<bool>,
        sort: &SortSource<'_>,
        steps: &mut Steps<L>,
        number: &mut u64,
    ) -> Result<Vec<PassedFeature<'b>>, AllocError>
        requires few { length (layer_features (tiles_in self.now) (layer_in self.now)) < 2 ^ 32 }
        requires given { IsGivenIn E.slots V.tests self.now }
        requires common { IsCommonAnswer (scene_in V.tests self.now) (sources_in self.now items.Filter)
            (layer_in self.now) common }
        requires slot { sort.now.source.slot < length (slots_in E.slots self.now) }
        ensures number { OnOk result
            (number.new ≡ number.old + keys_cost one_of (sources_in self.now) (scene_in V.tests self.now)
            (layer_in self.now) sort.now.source (numbered 0 (layer_features (tiles_in self.now) (layer_in self.now)))) }
        ensures least { OnOk result (steps.old + number.new ≤ steps.new + number.old) }
        ensures most { steps.new ≤ steps.old + keys_cost (nodes_by (slots_in E.slots self.now)) (sources_in self.now)
            (scene_in V.tests self.now) (layer_in self.now) sort.now.source
            (numbered 0 (layer_features (tiles_in self.now) (layer_in self.now))) }
        ensures keyed { IfOk result (λ keyed. map keyed_seen keyed.items
            ≡ map (with_given (scene_in V.tests self.now) (slots_in E.slots self.now) sort.now.source)
            (shown_features (scene_in V.tests self.now) (layer_in self.now) (tiles_in self.now))) }
    {
        let mut keyed = Vec::new(self.alloc);
        let layer = self.at.layer;
        let mut features = LayerFeatures::new(layer.prepared, self.tiles);
        while let Some(found) = features.next() {
            let feature = self.with_state(found.0, found.1);
            let (key, more) = self.key_value(workspace, common, sort, &feature, steps)?;
            *number = sum_of(*number, more)?;
            if let Some(value) = key {
                keyed.push(PassedFeature { feature, value })?;
            }
        }
        Ok(keyed)
    }

    // The value that orders a feature, where it passes, and how many cells were evaluated.
    fn key_value<L: Ledger>(
        &self,
        workspace: &mut Workspace,
        common: Option<bool>,
        sort: &SortSource<'_>,
        feature: &LayerFeature<'_>,
        steps: &mut Steps<L>,
    ) -> Result<(Option<Result<Value, EvalFault>>, u64), AllocError>
        requires typed { has_features (layer_in self.now).type ≡ true }
        requires given { IsGivenIn E.slots V.tests self.now }
        requires common { IsCommonAnswer (scene_in V.tests self.now) (sources_in self.now items.Filter)
            (layer_in self.now) common }
        requires slot { sort.now.source.slot < length (slots_in E.slots self.now) }
        ensures number { IfOk result (λ found. found.1 ≡ key_cost one_of (sources_in self.now)
            (scene_in V.tests self.now) (layer_in self.now) sort.now.source (feature_seen feature.now)) }
        ensures least { IfOk result (λ found. steps.old + found.1 ≤ steps.new) }
        ensures most { steps.new ≤ steps.old + key_cost (nodes_by (slots_in E.slots self.now)) (sources_in self.now)
            (scene_in V.tests self.now) (layer_in self.now) sort.now.source (feature_seen feature.now) }
        ensures shown { IfOk result (λ found. is_some found.0
            ≡ is_shown (scene_in V.tests self.now) (layer_in self.now) (feature_seen feature.now)) }
        ensures given { IfOk result (λ found. IfSome found.0 (λ value.
            given_from (scene_in V.tests self.now) (slots_in E.slots self.now) sort.now.source
            (Some (feature_seen feature.now)) ≡ Some (outcome_owned value))) }
    {
        let (passes, first) = self.passes(workspace, common, feature, steps)?;
        if !passes {
            return Ok((None, first));
        }
        let value = self.evaluate(workspace, &sort.source, Some(feature), steps)?;
        Ok((Some(value), sum_of(first, 1)?))
    }

    // Adds the lines of features with their keys, and gives how many cells were evaluated.
    fn write_keyed<L: Ledger, O: Sink>(
        &self,
        workspace: &mut Workspace,
        sort: &SortSource<'_>,
        keyed: &[PassedFeature<'_>],
        steps: &mut Steps<L>,
        pieces: &mut TextPieces<'_, O>,
    ) -> Result<u64, Halt<SinkFailed>>
        requires given { IsGivenIn E.slots V.tests self.now }
        requires sorts { Sorts self.now sort.now }
        requires keyed { AreKeyed (scene_in V.tests self.now) (slots_in E.slots self.now) sort.now.source keyed.now }
        ensures number { IfOk result (λ n. n ≡ rests_cost one_of (sources_in self.now) sort.now.place
            (layer_in self.now).properties (map feature_of keyed.now)) }
        ensures least { IfOk result (λ n. steps.old + n ≤ steps.new) }
        ensures most { steps.new ≤ steps.old + rests_cost (nodes_by (slots_in E.slots self.now)) (sources_in self.now)
            sort.now.place (layer_in self.now).properties (map feature_of keyed.now) }
        ensures text { Adds O.held O.faults result pieces.old pieces.new
            (lines_of (scene_in V.tests self.now) (layer_in self.now) (map feature_of keyed.now)) }
    {
        let mut number = 0;
        for one in keyed {
            let more = self.write_keyed_feature(workspace, sort, one, steps, &mut pieces.text)?;
            number = sum_of(number, more)?;
            pieces.pour_piece()?;
        }
        Ok(number)
    }

    // Appends the lines of a feature, of which the value of one property is there already.
    fn write_keyed_feature<L: Ledger>(
        &self,
        workspace: &mut Workspace,
        sort: &SortSource<'_>,
        one: &PassedFeature<'_>,
        steps: &mut Steps<L>,
        out: &mut Vec<u8>,
    ) -> Result<u64, AllocError>
        requires given { IsGivenIn E.slots V.tests self.now }
        requires sorts { Sorts self.now sort.now }
        requires keyed { IsKeyed (scene_in V.tests self.now) (slots_in E.slots self.now) sort.now.source one.now }
        ensures number { IfOk result (λ n. n ≡ rest_cost one_of (sources_in self.now) sort.now.place
            (layer_in self.now).properties (feature_of one.now)) }
        ensures least { IfOk result (λ n. steps.old + n ≤ steps.new) }
        ensures most { steps.new ≤ steps.old + rest_cost (nodes_by (slots_in E.slots self.now)) (sources_in self.now)
            sort.now.place (layer_in self.now).properties (feature_of one.now) }
        ensures lines { OnOk result (out.new.items ≡ out.old.items
            ++ feature_lines (feature_out (scene_in V.tests self.now) (layer_in self.now) (feature_of one.now))) }
    {
        let feature = &one.feature;
        let layer = self.at.layer;
        let properties = layer.prepared.properties.as_slice();
        write_feature_line(
            feature.number,
            feature.feature.shape,
            feature.feature.id.get(),
            out,
        )?;
        let front = before(properties, sort.place);
        let first = self.write_values(workspace, front, Some(feature), steps, out)?;
        write_evaluated(b"    ", sort.property, &one.value, out)?;
        let back = after(properties, sort.place);
        let others = self.write_values(workspace, back, Some(feature), steps, out)?;
        sum_of(first, others)
    }
}

// The properties before a place.
fn before(properties: &[Property], place: usize) -> &[Property]
    requires { place < length properties.now }
    ensures { (layer : DocumentLayer) → map (document_property layer) result.now
        ≡ take place (map (document_property layer) properties.now) }
{
    &properties[..place]
}

// The properties after a place.
fn after(properties: &[Property], place: usize) -> &[Property]
    requires { place < length properties.now }
    ensures { (layer : DocumentLayer) → map (document_property layer) result.now
        ≡ drop (place + 1) (map (document_property layer) properties.now) }
{
    &properties[place + 1..]
}

// The number that orders a feature by the value of the property; none after a fault.
#[tactic(auto, using(prop_values::proofs::ViewLaws::value_again))]
fn key_of(value: &Result<Value, EvalFault>) -> Option<i128>
    ensures { result ≡ key_by (outcome_owned value.now) }
{
    match value {
        Ok(value) => number_of(value),
        Err(_) => None,
    }
}

fn put_in_order(keyed: &mut Vec<PassedFeature<'_>>) -> Result<(), AllocError>
    ensures { OnOk result (keyed.new.items ≡ in_order keyed_before keyed.old.items) }
{
    keyed.sort_by_key(|one| key_of(&one.value))?;
    Ok(())
}
