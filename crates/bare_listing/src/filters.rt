//! Which features of a layer pass.

ghost use Rattle.std.specs.Prelude.{◌≡◌, ◌+◌, ◌≤◌, true, IfOk};
ghost use Rattle.eval_face.specs.Resolved.{passes};
ghost use Rattle.layer_buckets.specs.Outcomes.{outcome_owned};
ghost use Rattle.layer_buckets.specs.declared.cell.CellItem.TheVariants as items;
ghost use Rattle.style_layout.specs.CodeView.{feature_seen};
ghost use Rattle.style_layout.specs.Layers.{has_features};
ghost use Rattle.style_layout.specs.Shown.{is_shown};
ghost use Rattle.asked_cells.specs.Asking.{has_feature_cells};
ghost use Rattle.bare_listing.specs.Costs.{common_cost, nodes_by, one_of, own_cost};
ghost use Rattle.bare_listing.specs.Given.{Filters, IsCommonAnswer};
ghost use Rattle.bare_listing.specs.SeenLayer.{layer_in, scene_in, slots_in, sources_in};

use crate::bare_layer::BareLayer;
use asked_cells::{constant_answer, has_feature_cells};
use expr_nodes::{CountedEvaluator, Workspace};
use layer_buckets::CellItem;
use outside_io::Steps;
use prop_values::{EvalFault, Value};
use std::alloc::AllocError;
use std::sync::ledger::Ledger;
use style_layout::{LayerFeature, TextTests};

impl<E: CountedEvaluator + Drop, V: TextTests> BareLayer<'_, E, V> {
    /// What the filter answers of all features, where it has no cell for each, and how many cells were evaluated.
    pub(crate) fn common_answer<L: Ledger>(
        &self,
        workspace: &mut Workspace,
        steps: &mut Steps<L>,
    ) -> Result<(Option<bool>, u64), AllocError>
        requires filter { Filters (scene_in V.tests self.now) (slots_in E.slots self.now)
            (sources_in self.now items.Filter) (layer_in self.now) }
        ensures answer { IfOk result (λ found. IsCommonAnswer (scene_in V.tests self.now)
            (sources_in self.now items.Filter) (layer_in self.now) found.0) }
        ensures number { IfOk result (λ found. found.1 ≡ common_cost one_of (sources_in self.now)) }
        ensures least { IfOk result (λ found. steps.old + found.1 ≤ steps.new) }
        ensures most { steps.new ≤ steps.old
            + common_cost (nodes_by (slots_in E.slots self.now)) (sources_in self.now) }
    {
        let source = self.source(CellItem::Filter);
        if has_feature_cells(source) {
            return Ok((None, 0));
        }
        let layer = self.at.layer;
        match source {
            None => Ok((Some(constant_answer(&layer.prepared.filter)), 0)),
            Some(source) => {
                let value = self.evaluate(workspace, &source, None, steps)?;
                Ok((Some(passes(&value)), 1))
            }
        }
    }

    /// Whether a feature passes, by what the filter answers of all where that is known, and how many cells were
    /// evaluated.
    #[inline(always)]
    pub(crate) fn passes<L: Ledger>(
        &self,
        workspace: &mut Workspace,
        common: Option<bool>,
        feature: &LayerFeature<'_>,
        steps: &mut Steps<L>,
    ) -> Result<(bool, u64), AllocError>
        requires typed { has_features (layer_in self.now).type ≡ true }
        requires filter { Filters (scene_in V.tests self.now) (slots_in E.slots self.now)
            (sources_in self.now items.Filter) (layer_in self.now) }
        requires common { IsCommonAnswer (scene_in V.tests self.now) (sources_in self.now items.Filter)
            (layer_in self.now) common }
        ensures answer { IfOk result (λ found. found.0
            ≡ is_shown (scene_in V.tests self.now) (layer_in self.now) (feature_seen feature.now)) }
        ensures number { IfOk result (λ found. found.1 ≡ own_cost one_of (sources_in self.now)) }
        ensures least { IfOk result (λ found. steps.old + found.1 ≤ steps.new) }
        ensures most { steps.new ≤ steps.old + own_cost (nodes_by (slots_in E.slots self.now)) (sources_in self.now) }
    {
        match common {
            Some(passes) => Ok((passes, 0)),
            None => self.own_answer(workspace, feature, steps),
        }
    }

    // Whether a feature passes, by the cell that the filter has for it.
    fn own_answer<L: Ledger>(
        &self,
        workspace: &mut Workspace,
        feature: &LayerFeature<'_>,
        steps: &mut Steps<L>,
    ) -> Result<(bool, u64), AllocError>
        requires typed { has_features (layer_in self.now).type ≡ true }
        requires filter { Filters (scene_in V.tests self.now) (slots_in E.slots self.now)
            (sources_in self.now items.Filter) (layer_in self.now) }
        requires own { has_feature_cells (sources_in self.now items.Filter) ≡ true }
        ensures answer { IfOk result (λ found. found.0
            ≡ is_shown (scene_in V.tests self.now) (layer_in self.now) (feature_seen feature.now)) }
        ensures number { IfOk result (λ found. found.1 ≡ own_cost one_of (sources_in self.now)) }
        ensures least { IfOk result (λ found. steps.old + found.1 ≤ steps.new) }
        ensures most { steps.new ≤ steps.old + own_cost (nodes_by (slots_in E.slots self.now)) (sources_in self.now) }
    {
        match self.source(CellItem::Filter) {
            None => unreachable!(),
            Some(source) => {
                let value = self.evaluate(workspace, &source, Some(feature), steps)?;
                Ok((passes(&value), 1))
            }
        }
    }
}

// Whether what a filter's expression gave lets a feature pass. A fault is false.
fn passes(value: &Result<Value, EvalFault>) -> bool
    ensures { result ≡ passes (outcome_owned value.now) }
{
    match value {
        Ok(Value::Bool(passes)) => *passes,
        _ => false,
    }
}
