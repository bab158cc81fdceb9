//! The features of a layer that pass, in the order of their sort keys.

ghost use Rattle.std.specs.Prelude.{◌≡◌, ◌++◌, ◌<◌, ◌^◌, Option, length, map, OnOk, IfOk};
ghost use Rattle.prop_values.specs.Data.{Data};
ghost use Rattle.prop_values.specs.View.{data_of};
ghost use Rattle.stable_order.specs.InOrder.{in_order};
ghost use Rattle.layer_buckets.specs.Outcomes.{seen_outcome};
ghost use Rattle.layer_buckets.specs.Seen.{IsSound};
ghost use Rattle.style_layout.specs.CodeView.{document_property, tile_seen};
ghost use Rattle.style_layout.specs.Shown.{layer_features};
ghost use Rattle.style_layout.specs.declared.document_layer.DocumentLayer.{DocumentLayer};
ghost use Rattle.style_layout.specs.SortKeys.{key_of, number_of};
ghost use Rattle.cell_listing.specs.KeptListing.{kept_for, kept_key, key_feature, key_goes_before, outcome_by};
ghost use Rattle.cell_listing.specs.SeenLayers.{KnowsFeatures, keyed_before, keyed_seen, layer_in, lines_in};
ghost use Rattle.cell_listing.specs.SeenLayers.{numbered_seen, passed_in, property_in, values_in, with_key};

use crate::kept_layer::KeptLayer;
use expr_nodes::CountedEvaluator;
use layer_buckets::CellItem;
use prop_values::{EvalFault, Value};
use std::alloc::{AllocError, Global};
use style_layout::{LayerFeatures, Property, PropertyValue, SourceTile};
use tile_reader::Feature;

/// A feature that passes, with the key that orders it.
#[derive(Clone, Copy)]
pub(crate) struct KeyedFeature<'a> {
    pub(crate) number: u32,
    pub(crate) feature: &'a Feature,
    pub(crate) key: Option<i128>,
}

impl<E: CountedEvaluator + Drop> KeptLayer<'_, E> {
    /// Appends the lines of the features that pass, in ascending order of a property. A feature whose key faulted
    /// comes first, and equal ones keep the order of the list.
    pub(crate) fn write_in_order(
        &self,
        alloc: Global,
        sort: &Property,
        tiles: &[SourceTile<'_>],
        out: &mut Vec<u8>,
    ) -> Result<(), AllocError>
        requires sound { IsSound self.now.buckets.now }
        requires few { length (layer_features (map tile_seen tiles.now) (layer_in self.now)) < 2 ^ 32 }
        requires known { KnowsFeatures self.now (passed_in self.now (map tile_seen tiles.now)) }
        ensures { OnOk result (out.new.items ≡ out.old.items ++ lines_in self.now (in_order
            (key_goes_before (values_in self.now) (property_in self.now sort.now))
            (passed_in self.now (map tile_seen tiles.now)))) }
    {
        let mut keyed = self.keyed_features(alloc, sort, tiles)?;
        put_in_order(&mut keyed)?;
        self.write_keyed(keyed.as_slice(), out)
    }

    fn keyed_features<'b>(
        &'b self,
        alloc: Global,
        sort: &Property,
        tiles: &'b [SourceTile<'b>],
    ) -> Result<Vec<KeyedFeature<'b>>, AllocError>
        requires sound { IsSound self.now.buckets.now }
        requires few { length (layer_features (map tile_seen tiles.now) (layer_in self.now)) < 2 ^ 32 }
        ensures { IfOk result (λ keyed. map keyed_seen keyed.items
            ≡ map (with_key (values_in self.now) (property_in self.now sort.now))
            (passed_in self.now (map tile_seen tiles.now))) }
    {
        let mut keyed = Vec::new(alloc);
        let answer = self.common_answer();
        let mut features = LayerFeatures::new(self.layer.prepared, tiles);
        while let Some((number, feature)) = self.next_passed(answer, &mut features) {
            let key = self.sort_key(sort, number);
            keyed.push(KeyedFeature {
                number,
                feature,
                key,
            })?;
        }
        Ok(keyed)
    }

    #[tactic(auto, using(crate::proofs::ValueLaws::listed_evaluated))]
    fn sort_key(&self, sort: &Property, number: u32) -> Option<i128>
        requires { IsSound self.now.buckets.now }
        ensures { result ≡ kept_key (values_in self.now) (property_in self.now sort.now) number }
    {
        match &sort.value {
            PropertyValue::Literal(value) => number_of(value),
            PropertyValue::Outside => None,
            PropertyValue::Evaluated => self.cell_key(sort, number),
        }
    }

    // The key that is kept of the cell of a feature, or of that of the layer.
    fn cell_key(&self, sort: &Property, number: u32) -> Option<i128>
        requires { IsSound self.now.buckets.now }
        ensures { result ≡ key_of (outcome_by (property_in self.now sort.now).fallback
            (kept_for (values_in self.now) (key_feature (property_in self.now sort.now) number)
            (property_in self.now sort.now))) }
    {
        let item = CellItem::Property(sort.row.number);
        number_in(self.value(key_feature(sort, number), item))
    }

    fn write_keyed(&self, keyed: &[KeyedFeature<'_>], out: &mut Vec<u8>) -> Result<(), AllocError>
        requires sound { IsSound self.now.buckets.now }
        requires known { KnowsFeatures self.now (map numbered_seen keyed.now) }
        ensures { OnOk result (out.new.items ≡ out.old.items ++ lines_in self.now (map numbered_seen keyed.now)) }
    {
        for one in keyed {
            self.write_feature(one.number, one.feature, out)?;
        }
        Ok(())
    }
}

// The feature whose cell gives the key: none where the cell of the layer does.
fn key_feature(sort: &Property, number: u32) -> Option<u32>
    ensures { (layer : DocumentLayer) → result ≡ key_feature (document_property layer sort.now) number }
{
    if sort.is_per_feature {
        Some(number)
    } else {
        None
    }
}

// The number that is kept; none after a fault.
#[tactic(auto, using(prop_values::proofs::ViewLaws::value_again))]
fn number_in(kept: Option<Result<&Value, EvalFault>>) -> Option<i128>
    ensures { (fallback : Option Data) → result ≡ key_of (outcome_by fallback (seen_outcome kept.entry)) }
{
    match kept {
        Some(Ok(value)) => number_of(value),
        _ => None,
    }
}

/// The number by which a value orders its feature, in millionths; none of a value of another kind.
pub fn number_of(value: &Value) -> Option<i128>
    ensures { result ≡ number_of (data_of value.now) }
{
    match value {
        Value::Num(number) => Some(number.millionths()),
        _ => None,
    }
}

fn put_in_order(keyed: &mut Vec<KeyedFeature<'_>>) -> Result<(), AllocError>
    ensures { OnOk result (keyed.new.items ≡ in_order keyed_before keyed.old.items) }
{
    keyed.sort_by_key(|one| one.key)?;
    Ok(())
}
