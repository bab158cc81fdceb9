//! A layer whose cells are evaluated where they are listed.

ghost use Rattle.std.specs.Prelude.{◌≡◌, ◌++◌, ◌+◌, ◌<◌, ◌≤◌, Some, true, length, map, IfOk, OnOk};
ghost use Rattle.eval_face.specs.Resolved.{resolved};
ghost use Rattle.eval_face.specs.World as world;
ghost use Rattle.eval_face.specs.World.{World};
ghost use Rattle.expr_nodes.specs.Evaluators.{nodes_at};
ghost use Rattle.layer_buckets.specs.Outcomes.{outcome_owned};
ghost use Rattle.layer_buckets.specs.declared.cell.CellItem.TheVariants as items;
ghost use Rattle.listing_text.specs.Listing.{feature_lines, value_line, value_lines};
ghost use Rattle.style_layout.specs.CodeView.{feature_seen, property_seen};
ghost use Rattle.style_layout.specs.Forms.{outcome_of};
ghost use Rattle.style_layout.specs.Shown.{feature_out, state_of, with_state};
ghost use Rattle.asked_cells.specs.Asked.{is_listed};
ghost use Rattle.asked_cells.specs.Expressions.{is_fixed};
ghost use Rattle.asked_cells.specs.SeenCells.{cell_feature};
ghost use Rattle.bare_listing.specs.Costs.{nodes_by, one_of, values_cost};
ghost use Rattle.bare_listing.specs.Given.{AreGivenBy, GivesValue, given_from, margin_of, outcome_in, shown_values};
ghost use Rattle.bare_listing.specs.SeenLayer.{layer_in, property_in, scene_in, slots_in, sources_in};

use asked_cells::{CellWorld, LayerAt, is_listed, sum_of, zoom_for};
use cell_listing::write_fault;
use expr_nodes::{CountedEvaluator, Workspace};
use layer_buckets::{Buckets, CellItem, Source};
use listing_text::{write_feature_line, write_given, write_value};
use outside_io::Steps;
use prop_values::{Entries, EvalFault, Outcome, Value};
use std::alloc::{AllocError, Global};
use std::sync::ledger::Ledger;
use style_layout::{LayerFeature, Property, PropertyValue, SourceTile, TextTests, state_of};
use tile_reader::Feature;

/// A layer over tiles, and the buckets that have the sources of its items under its number.
#[derive(Clone, Copy)]
pub(crate) struct BareLayer<'a, E: CountedEvaluator + Drop, V> {
    pub(crate) alloc: Global,
    pub(crate) buckets: &'a Buckets<E>,
    pub(crate) at: &'a LayerAt<'a, V>,
    pub(crate) tiles: &'a [SourceTile<'a>],
}

impl<E: CountedEvaluator + Drop, V: TextTests> BareLayer<'_, E, V> {
    /// What gives the values of an item of the layer.
    pub(crate) fn source(&self, item: CellItem) -> Option<Source>
        ensures { result ≡ sources_in self.now item }
    {
        self.buckets.source(self.at.number, item)
    }

    /// What the expression of a source gives of a feature, or of the layer.
    #[tactic(auto, unfolding(style_layout::specs::CodeView::scene_seen))]
    pub(crate) fn evaluate<L: Ledger>(
        &self,
        workspace: &mut Workspace,
        source: &Source,
        feature: Option<&LayerFeature<'_>>,
        steps: &mut Steps<L>,
    ) -> Result<Result<Value, EvalFault>, AllocError>
        requires { source.now.slot < length (slots_in E.slots self.now) }
        ensures given { IfOk result
            (λ value. given_from (scene_in V.tests self.now) (slots_in E.slots self.now) source.now
            (cell_feature feature.entry) ≡ Some (outcome_owned value)) }
        ensures least { steps.old < steps.new }
        ensures most { steps.new ≤ steps.old + nodes_at (slots_in E.slots self.now) source.now.slot }
    {
        let world = CellWorld {
            scene: self.at.scene,
            zoom: zoom_for(self.at.scene.zoom, source.paint),
            feature,
        };
        self.buckets.evaluate(workspace, source, &world, steps)
    }

    /// Appends the lines of a feature, and gives how many cells were evaluated for them.
    #[inline(always)]
    pub(crate) fn write_feature<L: Ledger>(
        &self,
        workspace: &mut Workspace,
        feature: &LayerFeature<'_>,
        steps: &mut Steps<L>,
        out: &mut Vec<u8>,
    ) -> Result<u64, AllocError>
        requires given { AreGivenBy (scene_in V.tests self.now) (slots_in E.slots self.now) (sources_in self.now)
            (layer_in self.now).properties }
        ensures number { IfOk result
            (λ n. n ≡ values_cost one_of (sources_in self.now) (Some (feature_seen feature.now))
            (layer_in self.now).properties) }
        ensures least { IfOk result (λ n. steps.old + n ≤ steps.new) }
        ensures most { steps.new ≤ steps.old + values_cost (nodes_by (slots_in E.slots self.now)) (sources_in self.now)
            (Some (feature_seen feature.now)) (layer_in self.now).properties }
        ensures lines { OnOk result (out.new.items ≡ out.old.items
            ++ feature_lines (feature_out (scene_in V.tests self.now) (layer_in self.now) (feature_seen feature.now))) }
    {
        write_feature_line(
            feature.number,
            feature.feature.shape,
            feature.feature.id.get(),
            out,
        )?;
        let layer = self.at.layer;
        self.write_values(
            workspace,
            layer.prepared.properties.as_slice(),
            Some(feature),
            steps,
            out,
        )
    }

    /// Appends the lines of those properties that are listed with a feature, or with the layer, and gives how many
    /// cells were evaluated for them.
    pub(crate) fn write_values<L: Ledger>(
        &self,
        workspace: &mut Workspace,
        properties: &[Property],
        feature: Option<&LayerFeature<'_>>,
        steps: &mut Steps<L>,
        out: &mut Vec<u8>,
    ) -> Result<u64, AllocError>
        requires given { AreGivenBy (scene_in V.tests self.now) (slots_in E.slots self.now) (sources_in self.now)
            (map (property_in self.now) properties.now) }
        ensures number { IfOk result (λ n. n ≡ values_cost one_of (sources_in self.now) (cell_feature feature.entry)
            (map (property_in self.now) properties.now)) }
        ensures least { IfOk result (λ n. steps.old + n ≤ steps.new) }
        ensures most { steps.new ≤ steps.old + values_cost (nodes_by (slots_in E.slots self.now)) (sources_in self.now)
            (cell_feature feature.entry) (map (property_in self.now) properties.now) }
        ensures lines { OnOk result
            (out.new.items ≡ out.old.items ++ value_lines (margin_of (cell_feature feature.entry))
            (shown_values (scene_in V.tests self.now) (cell_feature feature.entry)
            (map (property_in self.now) properties.now))) }
    {
        let mut number = 0;
        for property in properties {
            if self.is_listed(feature, property) {
                let more = self.write_property(workspace, property, feature, steps, out)?;
                number = sum_of(number, more)?;
            }
        }
        Ok(number)
    }

    // Whether a value is listed with the feature, or with the layer.
    fn is_listed(&self, feature: Option<&LayerFeature<'_>>, property: &Property) -> bool
        ensures { result ≡ is_listed (cell_feature feature.entry) (property_in self.now property.now) }
    {
        is_listed(feature, property)
    }

    // Appends the line of a property, and gives how many cells were evaluated for it.
    fn write_property<L: Ledger>(
        &self,
        workspace: &mut Workspace,
        property: &Property,
        feature: Option<&LayerFeature<'_>>,
        steps: &mut Steps<L>,
        out: &mut Vec<u8>,
    ) -> Result<u64, AllocError>
        requires given { GivesValue (scene_in V.tests self.now) (slots_in E.slots self.now)
            (sources_in self.now (items.Property property.now.row.number)) (property_in self.now property.now) }
        ensures number { IfOk result (λ n. n ≡ one_of (sources_in self.now (items.Property property.now.row.number))) }
        ensures least { IfOk result (λ n. steps.old + n ≤ steps.new) }
        ensures most { steps.new ≤ steps.old + nodes_by (slots_in E.slots self.now)
            (sources_in self.now (items.Property property.now.row.number)) }
        ensures line { OnOk result (out.new.items ≡ out.old.items
            ++ value_line (margin_of (cell_feature feature.entry)) property.now.row.name.now
            (outcome_in (scene_in V.tests self.now) (cell_feature feature.entry) (property_in self.now property.now))) }
    {
        let margin = margin_of(feature);
        match self.source(CellItem::Property(property.row.number)) {
            None => {
                self.write_fixed(margin, property, out)?;
                Ok(0)
            }
            Some(source) => {
                let value = self.evaluate(workspace, &source, feature, steps)?;
                write_evaluated(margin, property, &value, out)?;
                Ok(1)
            }
        }
    }

    // Appends the line of a property that has no cell.
    #[tactic(auto, using(prop_values::proofs::ViewLaws::value_again, crate::proofs::ValueLaws::evaluated_is_not_fixed))]
    fn write_fixed(
        &self,
        margin: &'static [u8],
        property: &Property,
        out: &mut Vec<u8>,
    ) -> Result<(), AllocError>
        requires { is_fixed (property_in self.now property.now).value ≡ true }
        ensures { (world : World) → OnOk result (out.new.items ≡ out.old.items
            ++ value_line margin.now property.now.row.name.now (outcome_of (property_in self.now property.now) world)) }
    {
        match &property.value {
            PropertyValue::Literal(value) => write_given(margin, property.row.name, value, out),
            PropertyValue::Outside => {
                write_value(margin, property.row.name, &Outcome::Outside, out)
            }
            PropertyValue::Evaluated => unreachable!(),
        }
    }

    /// A feature with its state.
    #[inline(always)]
    pub(crate) fn with_state<'b>(&'b self, number: u32, feature: &'b Feature) -> LayerFeature<'b>
        ensures { feature_seen result
            ≡ with_state (scene_in V.tests self.now) (layer_in self.now) (number, feature.now) }
    {
        LayerFeature {
            number,
            feature,
            state: self.state(feature.id.get()),
        }
    }

    // The members of the state of a feature. One without an id has none, and they are not looked up.
    #[inline(always)]
    fn state(&self, id: Option<u64>) -> Option<&Entries>
        ensures { world.state_of result ≡ state_of (scene_in V.tests self.now) (layer_in self.now) id }
    {
        let layer = self.at.layer;
        match id {
            None => None,
            Some(_) => state_of(layer.prepared, self.at.scene, id),
        }
    }
}

// The margin of the values of a feature, or of a layer.
fn margin_of(feature: Option<&LayerFeature<'_>>) -> &'static [u8]
    ensures { result.now ≡ margin_of (cell_feature feature.entry) }
{
    match feature {
        Some(_) => b"    ",
        None => b"  ",
    }
}

/// Appends the line of a property by what its expression gave.
#[tactic(auto, using(prop_values::proofs::ViewLaws::value_again))]
pub(crate) fn write_evaluated(
    margin: &'static [u8],
    property: &Property,
    value: &Result<Value, EvalFault>,
    out: &mut Vec<u8>,
) -> Result<(), AllocError>
    ensures { OnOk result (out.new.items ≡ out.old.items ++ value_line margin.now property.now.row.name.now
        (resolved (property_seen property.now).fallback (outcome_owned value.now))) }
{
    match value {
        Ok(value) => write_given(margin, property.row.name, value, out),
        Err(fault) => write_fault(margin, property, *fault, out),
    }
}
