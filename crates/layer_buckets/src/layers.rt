//! Layers by their numbers.

ghost use Rattle.std.specs.Prelude.{◌≡◌, ℕ, ◌+◌, ◌<◌, ◌≤◌, [], Some, None, IfSome, IfNone, OnOk, OnErr, length, nat_eq};
ghost use Rattle.std.specs.Prelude.{if◌then◌else◌};
ghost use Rattle.std.specs.List.{slice_get};
ghost use Rattle.layer_buckets.specs.Cells.{is_item, item_eq};
ghost use Rattle.layer_buckets.specs.Sources.{StayLayers};
ghost use Rattle.layer_buckets.specs.declared.cell.CellItem.{CellItem};
ghost use Rattle.layer_buckets.specs.LaidOut.{column_of, feature_count, features_in, first_state_in, flat, item_number};
ghost use Rattle.layer_buckets.specs.LaidOut.{item_of, items_in, row_of, state_of_feature, states_in};

use crate::cell::CellItem;
use std::alloc::{AllocError, Global};

/// What a layer number has. Its columns and its lists of states stay for the next layer of the number.
#[derive(Drop)]
pub struct LayerColumns {
    /// How many features the layer has; none where it is not there.
    pub features: Option<u32>,
    /// The column of each item, by the item's number.
    pub columns: Vec<Option<u32>>,
    /// The number of the list of the first feature among those of states, and how many there are.
    pub first_state: u32,
    pub states: u32,
}

impl LayerColumns {
    // A layer number that was not there yet.
    fn new(alloc: Global) -> LayerColumns
        ensures features { result.features ≡ None }
        ensures columns { result.columns.items ≡ [] }
        ensures first { result.first_state ≡ 0 }
        ensures states { result.states ≡ 0 }
    {
        LayerColumns {
            features: None,
            columns: Vec::new(alloc),
            first_state: 0,
            states: 0,
        }
    }

    fn make_item(&mut self, item: CellItem) -> Result<(), AllocError>
        ensures columns { (n : ℕ) →
            flat (slice_get self.new.columns.items n) ≡ flat (slice_get self.old.columns.items n) }
        ensures features { self.new.features ≡ self.old.features }
        ensures first { self.new.first_state ≡ self.old.first_state }
        ensures states { self.new.states ≡ self.old.states }
        ensures ok { OnOk result (item_number item < length self.new.columns.items) }
    {
        let count = (item_number(item) + 1).max(self.columns.len());
        self.columns.resize(count, None)
    }

    #[tactic(auto, using(crate::proofs::ItemLaws::item_number_test))]
    fn name(&mut self, item: CellItem, column: u32)
        requires { item_number item < length self.old.columns.items }
        ensures columns { (i : CellItem) → flat (slice_get self.new.columns.items (item_number i))
            ≡ (if item_eq item i then Some column else flat (slice_get self.old.columns.items (item_number i))) }
        ensures features { self.new.features ≡ self.old.features }
        ensures first { self.new.first_state ≡ self.old.first_state }
        ensures states { self.new.states ≡ self.old.states }
    {
        self.columns[item_number(item)] = Some(column);
    }

    fn column(&self, item: CellItem) -> Option<u32>
        ensures { result ≡ flat (slice_get self.now.columns.items (item_number item)) }
    {
        match self.columns.get(item_number(item)) {
            Some(column) => *column,
            None => None,
        }
    }

    #[tactic(auto, using(crate::proofs::ItemLaws::number_of))]
    fn numbered(&self, number: usize) -> Option<u32>
        ensures { result ≡ flat (slice_get self.now.columns.items (item_number (item_of number))) }
    {
        match self.columns.get(number) {
            Some(column) => *column,
            None => None,
        }
    }

    fn state_list(&self, feature: u32) -> Option<u32>
        requires { self.now.first_state + self.now.states < 4294967296 }
        ensures { result ≡ state_of_feature (Some self.now) feature }
    {
        if feature < self.states {
            Some(self.first_state + feature)
        } else {
            None
        }
    }
}

/// The column of an item.
pub fn column_of(layers: &[LayerColumns], layer: u32, item: CellItem) -> Option<u32>
    ensures { result ≡ column_of layers.now layer item }
{
    match layers.get(layer as usize) {
        Some(layer) => layer.column(item),
        None => None,
    }
}

/// The number of an item in its layer: the filter is before the properties.
fn item_number(item: CellItem) -> usize
    ensures { result ≡ item_number item }
{
    match item {
        CellItem::Filter => 0,
        CellItem::Property(number) => number as usize + 1,
    }
}

/// The row of a cell: row 0 is of no feature. None where the number of the feature is the greatest; no layer has it.
pub fn row_of(feature: Option<u32>) -> Option<u32>
    ensures some { IfSome result (λ row. row ≡ row_of feature) }
    ensures none { IfNone result (4294967296 ≤ row_of feature) }
{
    match feature {
        None => Some(0),
        Some(u32::MAX) => None,
        Some(feature) => Some(feature + 1),
    }
}

/// The column of the item of a number.
pub fn column_numbered(layers: &[LayerColumns], layer: u32, number: usize) -> Option<u32>
    ensures { result ≡ column_of layers.now layer (item_of number) }
{
    match layers.get(layer as usize) {
        Some(layer) => layer.numbered(number),
        None => None,
    }
}

/// The items of a layer that have columns have smaller numbers.
pub fn item_count(layers: &[LayerColumns], layer: u32) -> usize
    ensures { result ≡ items_in (slice_get layers.now layer) }
{
    match layers.get(layer as usize) {
        Some(layer) => layer.columns.len(),
        None => 0,
    }
}

/// The number of the list of a feature among those of states, where it has one.
pub fn state_list_of(layers: &[LayerColumns], layer: u32, feature: u32) -> Option<u32>
    requires { first_state_in (slice_get layers.now layer) + states_in (slice_get layers.now layer) < 4294967296 }
    ensures { result ≡ state_of_feature (slice_get layers.now layer) feature }
{
    match layers.get(layer as usize) {
        Some(layer) => layer.state_list(feature),
        None => None,
    }
}

/// The row of a cell of a feature that a layer has.
pub fn row_within(feature: Option<u32>) -> u32
    requires { row_of feature < 4294967296 }
    ensures { result ≡ row_of feature }
{
    match feature {
        None => 0,
        Some(feature) => feature + 1,
    }
}

/// How many features a layer has.
pub fn features_of(layers: &[LayerColumns], layer: u32) -> Option<u32>
    ensures { result ≡ features_in (slice_get layers.now layer) }
{
    match layers.get(layer as usize) {
        Some(layer) => layer.features,
        None => None,
    }
}

/// How many rows the column of a cell is given.
pub fn row_count(feature: Option<u32>, features: Option<u32>) -> u32
    requires within { row_of feature ≤ feature_count features }
    requires few { feature_count features < 4294967295 }
    ensures more { row_of feature < result }
    ensures most { result ≤ 1 + feature_count features }
{
    match (feature, features) {
        (Some(_), Some(features)) => features + 1,
        _ => 1,
    }
}

/// Makes layer numbers until this one has a place.
pub fn grow_layers(
    alloc: Global,
    layers: &mut Vec<LayerColumns>,
    layer: u32,
) -> Result<(), AllocError>
    ensures stay { StayLayers layers.old.items layers.new.items }
    ensures columns { (l : ℕ) (i : CellItem) → column_of layers.new.items l i ≡ column_of layers.old.items l i }
    ensures ok { OnOk result (layer < length layers.new.items) }
{
    for _number in layers.len()..layer as usize + 1 {
        push_layer(alloc, layers)?;
    }
    Ok(())
}

fn push_layer(alloc: Global, layers: &mut Vec<LayerColumns>) -> Result<(), AllocError>
    ensures stay { StayLayers layers.old.items layers.new.items }
    ensures columns { (l : ℕ) (i : CellItem) → column_of layers.new.items l i ≡ column_of layers.old.items l i }
    ensures ok { OnOk result (length layers.new.items ≡ length layers.old.items + 1) }
    ensures err { OnErr result (length layers.new.items ≡ length layers.old.items) }
{
    layers.push(LayerColumns::new(alloc))?;
    Ok(())
}

/// Makes a place for the column of an item.
pub fn make_item(
    layers: &mut Vec<LayerColumns>,
    layer: u32,
    item: CellItem,
) -> Result<(), AllocError>
    requires { layer < length layers.old.items }
    ensures stay { StayLayers layers.old.items layers.new.items }
    ensures columns { (l : ℕ) (i : CellItem) → column_of layers.new.items l i ≡ column_of layers.old.items l i }
    ensures count { length layers.new.items ≡ length layers.old.items }
    ensures ok { OnOk result (item_number item < items_in (slice_get layers.new.items layer)) }
{
    layers[layer as usize].make_item(item)
}

/// Names the column of an item.
pub fn name_column(layers: &mut Vec<LayerColumns>, layer: u32, item: CellItem, column: u32)
    requires { item_number item < items_in (slice_get layers.old.items layer) }
    ensures stay { StayLayers layers.old.items layers.new.items }
    ensures columns { (l : ℕ) (i : CellItem) → column_of layers.new.items l i
        ≡ (if is_item layer item l i then Some column else column_of layers.old.items l i) }
    ensures count { length layers.new.items ≡ length layers.old.items }
{
    layers[layer as usize].name(item, column);
}

/// Gives a layer its lists of states.
pub fn set_states(layers: &mut Vec<LayerColumns>, layer: u32, first_state: u32, states: u32)
    requires { layer < length layers.old.items }
    ensures columns { (l : ℕ) (i : CellItem) → column_of layers.new.items l i ≡ column_of layers.old.items l i }
    ensures features { (l : ℕ) →
        features_in (slice_get layers.new.items l) ≡ features_in (slice_get layers.old.items l) }
    ensures first { (l : ℕ) → first_state_in (slice_get layers.new.items l)
        ≡ (if nat_eq l layer then first_state else first_state_in (slice_get layers.old.items l)) }
    ensures states { (l : ℕ) → states_in (slice_get layers.new.items l)
        ≡ (if nat_eq l layer then states else states_in (slice_get layers.old.items l)) }
    ensures count { length layers.new.items ≡ length layers.old.items }
{
    let own = &mut layers[layer as usize];
    own.first_state = first_state;
    own.states = states;
}

/// Says how many features a layer has.
pub fn set_features(layers: &mut Vec<LayerColumns>, layer: u32, features: Option<u32>)
    requires { layer < length layers.old.items }
    ensures columns { (l : ℕ) (i : CellItem) → column_of layers.new.items l i ≡ column_of layers.old.items l i }
    ensures features { (l : ℕ) → features_in (slice_get layers.new.items l)
        ≡ (if nat_eq l layer then features else features_in (slice_get layers.old.items l)) }
    ensures first { (l : ℕ) →
        first_state_in (slice_get layers.new.items l) ≡ first_state_in (slice_get layers.old.items l) }
    ensures states { (l : ℕ) → states_in (slice_get layers.new.items l) ≡ states_in (slice_get layers.old.items l) }
    ensures count { length layers.new.items ≡ length layers.old.items }
{
    layers[layer as usize].features = features;
}
