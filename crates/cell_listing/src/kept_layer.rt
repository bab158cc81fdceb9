//! A layer, and what is kept of its cells.

ghost use Rattle.std.specs.Prelude.{◌≡◌, ◌++◌, ◌∷◌, [], MatchOption, Some, None, Err, true, is_some, OnOk};
ghost use Rattle.layer_buckets.specs.Outcomes.{seen_outcome};
ghost use Rattle.layer_buckets.specs.Seen.{IsSound};
ghost use Rattle.eval_face.specs.Resolved.{resolved};
ghost use Rattle.listing_text.specs.Listing.{feature_lines, value_line, value_lines};
ghost use Rattle.style_layout.specs.CodeView.{document_property, property_seen};
ghost use Rattle.style_layout.specs.declared.document_layer.DocumentLayer.{DocumentLayer};
ghost use Rattle.style_layout.specs.Walk.{HasFewLeft, features_left};
ghost use Rattle.cell_listing.specs.KeptListing.{is_known, is_listed, kept_for, kept_outcome, outcome_by, passed};
ghost use Rattle.cell_listing.specs.KeptListing.{passes_at};
ghost use Rattle.cell_listing.specs.SeenLayers.{KnowsValues, answer_in, feature_in, listed_in, property_in, values_in};

use asked_cells::{constant_answer, has_feature_cells, is_passed};
use expr_nodes::CountedEvaluator;
use layer_buckets::{Buckets, Cell, CellItem};
use listing_text::{write_feature_line, write_given, write_value};
use prop_values::{EvalFault, Outcome, Value, copy};
use std::alloc::AllocError;
use style_layout::{DocumentLayer, LayerFeatures, Property, PropertyValue};
use tile_reader::Feature;

/// A layer, and the buckets that keep the values of its cells under its number.
#[derive(Clone, Copy)]
pub(crate) struct KeptLayer<'a, E: CountedEvaluator + Drop> {
    pub(crate) buckets: &'a Buckets<E>,
    pub(crate) number: u32,
    pub(crate) layer: DocumentLayer<'a>,
}

impl<E: CountedEvaluator + Drop> KeptLayer<'_, E> {
    /// Appends the lines of a feature.
    pub(crate) fn write_feature(
        &self,
        number: u32,
        feature: &Feature,
        out: &mut Vec<u8>,
    ) -> Result<(), AllocError>
        requires sound { IsSound self.now.buckets.now }
        requires known { KnowsValues self.now (Some number) }
        ensures { OnOk result (out.new.items ≡ out.old.items
            ++ feature_lines (feature_in self.now (number, feature.now))) }
    {
        write_feature_line(number, feature.shape, feature.id.get(), out)?;
        self.write_values(Some(number), b"    ", out)
    }

    /// Appends the lines of the values that are listed with the feature of a number, or with the layer.
    pub(crate) fn write_values(
        &self,
        feature: Option<u32>,
        margin: &'static [u8],
        out: &mut Vec<u8>,
    ) -> Result<(), AllocError>
        requires sound { IsSound self.now.buckets.now }
        requires known { KnowsValues self.now feature }
        ensures { OnOk result (out.new.items ≡ out.old.items
            ++ value_lines margin.now (listed_in self.now feature)) }
    {
        for property in self.layer.prepared.properties.as_slice() {
            if is_listed(feature, property) {
                self.write_property(feature, property, margin, out)?;
            }
        }
        Ok(())
    }

    #[tactic(auto, using(prop_values::proofs::ViewLaws::value_again, crate::proofs::ValueLaws::listed_evaluated, crate::proofs::ValueLaws::known_evaluated))]
    fn write_property(
        &self,
        feature: Option<u32>,
        property: &Property,
        margin: &'static [u8],
        out: &mut Vec<u8>,
    ) -> Result<(), AllocError>
        requires sound { IsSound self.now.buckets.now }
        requires known { is_known (property_in self.now property.now).value
            (kept_for (values_in self.now) feature (property_in self.now property.now)) ≡ true }
        ensures { OnOk result (out.new.items ≡ out.old.items ++ value_line margin.now property.now.row.name.now
            (kept_outcome (values_in self.now) feature (property_in self.now property.now))) }
    {
        match &property.value {
            PropertyValue::Literal(value) => write_given(margin, property.row.name, value, out),
            PropertyValue::Outside => {
                write_value(margin, property.row.name, &Outcome::Outside, out)
            }
            PropertyValue::Evaluated => self.write_kept(feature, property, margin, out),
        }
    }

    // Appends the line of a property by what is kept of its cell.
    #[tactic(auto, using(prop_values::proofs::ViewLaws::value_again))]
    fn write_kept(
        &self,
        feature: Option<u32>,
        property: &Property,
        margin: &'static [u8],
        out: &mut Vec<u8>,
    ) -> Result<(), AllocError>
        requires sound { IsSound self.now.buckets.now }
        requires kept { is_some (kept_for (values_in self.now) feature (property_in self.now property.now)) ≡ true }
        ensures { OnOk result (out.new.items ≡ out.old.items ++ value_line margin.now property.now.row.name.now
            (outcome_by (property_in self.now property.now).fallback
            (kept_for (values_in self.now) feature (property_in self.now property.now)))) }
    {
        match self.value(feature, CellItem::Property(property.row.number)) {
            Some(Ok(value)) => write_given(margin, property.row.name, value, out),
            Some(Err(fault)) => write_fault(margin, property, fault, out),
            None => unreachable!(),
        }
    }

    /// What is kept of a cell of the layer.
    pub(crate) fn value(
        &self,
        feature: Option<u32>,
        item: CellItem,
    ) -> Option<Result<&Value, EvalFault>>
        requires { IsSound self.now.buckets.now }
        ensures { seen_outcome result ≡ values_in self.now (record { feature = feature; item = item }) }
    {
        self.buckets.value(&Cell {
            layer: self.number,
            feature,
            item,
        })
    }

    /// Takes the next feature that passes, by what the filter answers of all features where that is known.
    pub(crate) fn next_passed<'b>(
        &self,
        answer: Option<bool>,
        features: &mut LayerFeatures<'b>,
    ) -> Option<(u32, &'b Feature)>
        requires sound { IsSound self.now.buckets.now }
        requires few { HasFewLeft features.old }
        ensures left { MatchOption result (passed (values_in self.now) answer (features_left features.old) ≡ [])
            (λ found. passed (values_in self.now) answer (features_left features.old)
            ≡ (found.0, found.1.now) ∷ passed (values_in self.now) answer (features_left features.new)) }
        ensures few { HasFewLeft features.new }
    {
        while let Some(found) = features.next() {
            if self.passes(answer, found.0) {
                return Some(found);
            }
        }
        None
    }

    fn passes(&self, answer: Option<bool>, number: u32) -> bool
        requires { IsSound self.now.buckets.now }
        ensures { result ≡ passes_at (values_in self.now) answer number }
    {
        match answer {
            Some(passes) => passes,
            None => is_passed(self.value(Some(number), CellItem::Filter)),
        }
    }

    /// What the filter answers of all features, where it has no cell for each.
    pub(crate) fn common_answer(&self) -> Option<bool>
        requires { IsSound self.now.buckets.now }
        ensures { result ≡ answer_in self.now }
    {
        let source = self.buckets.source(self.number, CellItem::Filter);
        if has_feature_cells(source) {
            return None;
        }
        if source.is_none() {
            return Some(constant_answer(&self.layer.prepared.filter));
        }
        Some(is_passed(self.value(None, CellItem::Filter)))
    }
}

// Whether a value is listed with the feature of a number, or with the layer.
fn is_listed(feature: Option<u32>, property: &Property) -> bool
    ensures { (layer : DocumentLayer) → result ≡ is_listed feature (document_property layer property.now) }
{
    match feature {
        Some(_) => property.is_per_feature,
        None => !property.is_per_feature,
    }
}

/// Appends the line of a property after a fault, with its default.
#[tactic(auto, using(prop_values::proofs::ViewLaws::value_again))]
pub fn write_fault(
    margin: &'static [u8],
    property: &Property,
    fault: EvalFault,
    out: &mut Vec<u8>,
) -> Result<(), AllocError>
    ensures { OnOk result (out.new.items ≡ out.old.items ++ value_line margin.now property.now.row.name.now
        (resolved (property_seen property.now).fallback (Err fault))) }
{
    let fallback = match &property.fallback {
        Some(value) => Some(copy(value)?),
        None => None,
    };
    write_value(
        margin,
        property.row.name,
        &Outcome::Faulted(fallback, fault),
        out,
    )
}
