//! The sources of a layer's items.

ghost use Rattle.std.specs.Prelude.{◌≡◌, ◌<◌, ℕ, List, ◌++◌, ◌∷◌, [], None, Some, false, true, is_some, length};
ghost use Rattle.std.specs.Prelude.{option_map, slice_get, if◌then◌else◌, IfOk, IfSome, OnOk, OnErr};
ghost use Rattle.decimal_json.specs.Tree.{object, fields_of};
ghost use Rattle.prop_values.specs.Data.{Data};
ghost use Rattle.property_tables.specs.Rows.{rows_of};
ghost use Rattle.property_tables.specs.RowView.{row_seen};
ghost use Rattle.expr_nodes.specs.Evaluators.{sized_node, sized_term};
ghost use Rattle.layer_buckets.specs.Cells.{is_item};
ghost use Rattle.layer_buckets.specs.Seen.{IsSound, evaluator_of, features_of, kept_at, source_of};
ghost use Rattle.layer_buckets.specs.declared.cell.Cell.{Cell};
ghost use Rattle.layer_buckets.specs.declared.cell.CellItem.{CellItem};
ghost use Rattle.layer_buckets.specs.declared.cell.CellItem.TheVariants as items;
ghost use Rattle.style_layout.specs.Layers.{has_features, set_value};
ghost use Rattle.asked_cells.specs.Expressions.{HasExpressions};
ghost use Rattle.cell_sources.specs.CellExpressions.{IsItemOf, item_expression, row_expression};
ghost use Rattle.cell_sources.specs.Sourced.{KeepsNoMore, KeepsOthers, LeavesOthers, SetsItem};
ghost use Rattle.cell_sources.specs.Views.{IsFormed, IsFormedAs, expression_seen, form_term};
ghost use Rattle.legacy_laws.specs.LegacyFunctionLaw.{IsTableRow};
ghost use Rattle.form_pool.specs.LegacyForms.{IsReadForm, sized_form};

use crate::expressions::{ItemExpression, ItemForm, filter_expression, value_expression};
use decimal_json::Members;
use expr_nodes::{BoxedExpression, CountedEvaluator};
use expr_resolving::boxed;
use form_pool::{FormPool, LegacyForm};
use layer_buckets::{Buckets, CellItem, Source};
use prop_values::{Entries, Want};
use property_tables::{LayerType, Row, row_count, row_numbered, tables_keep_their_rules};
use std::alloc::{AllocError, Global};
use style_layout::{PlacedLayer, VISIBILITY, set_value};

/// A layer of a document without findings, and the values of the global state.
#[derive(Clone, Copy)]
pub struct LayerValues<'a> {
    pub layer_type: LayerType,
    pub members: &'a Members,
    pub globals: &'a Entries,
}

/// Gives each item of a layer the source of its expression, and puts the expressions into the evaluator. The layer is
/// there and has no source yet. Takes time linear in the layer. What is kept was kept before. Where an allocation
/// fails, some of the items have theirs, and other layers are as they were.
pub fn add_sources(
    alloc: Global,
    number: u32,
    layer: &LayerValues<'_>,
    buckets: &mut Buckets<FormPool>,
) -> Result<(), AllocError>
    requires sound { IsSound buckets.old }
    requires there { is_some (features_of buckets.old number) ≡ true }
    requires bare { (item : CellItem) → source_of buckets.old number item ≡ None }
    ensures sound { IsSound buckets.new }
    ensures others { LeavesOthers ⟦<FormPool as CountedEvaluator>⟧.slots number buckets.old buckets.new }
    ensures sources { OnOk result (HasExpressions ⟦<FormPool as CountedEvaluator>⟧.slots number
        (item_expression layer.now.globals.now layer.now.layer_type (object (fields_of layer.now.members.now)))
        buckets.new) }
    ensures kept { KeepsNoMore buckets.old buckets.new }
{
    let placed = PlacedLayer::of(layer.members);
    for row in 0..row_count(layer.layer_type) {
        add_property(alloc, number, layer, &placed, row, buckets)?;
    }
    let expression = layer_filter(alloc, layer)?;
    add_item(alloc, number, CellItem::Filter, expression, buckets)
}

/// After an edit of an item of a layer: drops the values of the item, and gives it the source of its expression, or
/// takes its source away where it has none. The layer is there. Takes time linear in the item's value in the style and
/// in its kept values. An expression that the item had before stays in the evaluator. Where an allocation fails, the
/// item has no source.
pub fn set_item(
    alloc: Global,
    number: u32,
    layer: &LayerValues<'_>,
    item: CellItem,
    buckets: &mut Buckets<FormPool>,
) -> Result<(), AllocError>
    requires sound { IsSound buckets.old }
    requires there { is_some (features_of buckets.old number) ≡ true }
    requires row { IsItemOf layer.now.layer_type item }
    ensures sound { IsSound buckets.new }
    ensures others { LeavesOthers ⟦<FormPool as CountedEvaluator>⟧.slots number buckets.old buckets.new }
    ensures source { OnOk result (SetsItem ⟦<FormPool as CountedEvaluator>⟧.slots number item
        (item_expression layer.now.globals.now layer.now.layer_type (object (fields_of layer.now.members.now)) item)
        buckets.old buckets.new) }
    ensures err { OnErr result (SetsItem ⟦<FormPool as CountedEvaluator>⟧.slots number item None
        buckets.old buckets.new) }
    ensures kept { (cell : Cell) → kept_at buckets.new cell
        ≡ (if is_item number item cell.layer cell.item then None else kept_at buckets.old cell) }
{
    buckets.remove_source(number, &item);
    let expression = item_expression(alloc, layer, item)?;
    add_item(alloc, number, item, expression, buckets)
}

// The expression of an item of a layer.
fn item_expression(
    alloc: Global,
    layer: &LayerValues<'_>,
    item: CellItem,
) -> Result<Option<ItemExpression>, AllocError>
    requires { IsItemOf layer.now.layer_type item }
    ensures seen { IfOk result (λ made. option_map expression_seen made
        ≡ item_expression layer.now.globals.now layer.now.layer_type (object (fields_of layer.now.members.now)) item) }
    ensures formed { IfOk result (λ made. IfSome made IsFormed) }
{
    match item {
        CellItem::Filter => layer_filter(alloc, layer),
        CellItem::Property(row) => property_expression(alloc, layer, row),
    }
}

fn add_property(
    alloc: Global,
    number: u32,
    layer: &LayerValues<'_>,
    placed: &PlacedLayer<'_>,
    row: u16,
    buckets: &mut Buckets<FormPool>,
) -> Result<(), AllocError>
    requires placed { placed.now ≡ layer.now.members.now }
    requires sound { IsSound buckets.old }
    requires there { is_some (features_of buckets.old number) ≡ true }
    requires row { row < length (rows_of layer.now.layer_type) }
    requires bare { source_of buckets.old number (items.Property row) ≡ None }
    ensures sound { IsSound buckets.new }
    ensures others { LeavesOthers ⟦<FormPool as CountedEvaluator>⟧.slots number buckets.old buckets.new }
    ensures source { OnOk result (SetsItem ⟦<FormPool as CountedEvaluator>⟧.slots number (items.Property row)
        (item_expression layer.now.globals.now layer.now.layer_type (object (fields_of layer.now.members.now))
        (items.Property row))
        buckets.old buckets.new) }
    ensures kept { KeepsNoMore buckets.old buckets.new }
{
    if is_set(layer.layer_type, placed, row) {
        let expression = property_expression(alloc, layer, row)?;
        return add_item(alloc, number, CellItem::Property(row), expression, buckets);
    }
    Ok(())
}

// Whether a layer sets the property of a row's number. One that it does not set has no expression.
#[tactic(auto, using(crate::proofs::UnsetItems::unset_item))]
fn is_set(layer_type: LayerType, layer: &PlacedLayer<'_>, row: u16) -> bool
    requires { row < length (rows_of layer_type) }
    ensures { result ≡ false → (globals : List (List ℕ × Data))
        → item_expression globals layer_type (object (fields_of layer.now)) (items.Property row) ≡ None }
{
    match row_at(layer_type, row) {
        Some(row) => sets_row(layer, &row),
        None => false,
    }
}

fn sets_row(layer: &PlacedLayer<'_>, row: &Row) -> bool
    ensures { result ≡ is_some
        (set_value (object (fields_of layer.now)) (row_seen row.now).place (row_seen row.now).name) }
{
    layer.get(row.place, row.name).is_some()
}

// The expression of the property of a row's number.
#[tactic(auto, using(style_layout::proofs::TableRows::table_row))]
pub(crate) fn property_expression(
    alloc: Global,
    layer: &LayerValues<'_>,
    row: u16,
) -> Result<Option<ItemExpression>, AllocError>
    requires { row < length (rows_of layer.now.layer_type) }
    ensures seen { IfOk result (λ made. option_map expression_seen made
        ≡ item_expression layer.now.globals.now layer.now.layer_type (object (fields_of layer.now.members.now))
        (items.Property row)) }
    ensures formed { IfOk result (λ made. IfSome made IsFormed) }
{
    tables_keep_their_rules();
    match row_at(layer.layer_type, row) {
        Some(row) => row_expression(alloc, layer, &row),
        None => Ok(None),
    }
}

fn row_at(layer_type: LayerType, row: u16) -> Option<Row>
    requires { row < length (rows_of layer_type) }
    ensures { option_map row_seen result ≡ slice_get (rows_of layer_type) row }
{
    Some(row_numbered(layer_type, row))
}

fn row_expression(
    alloc: Global,
    layer: &LayerValues<'_>,
    row: &Row,
) -> Result<Option<ItemExpression>, AllocError>
    requires { IsTableRow (row_seen row.now) }
    ensures seen { IfOk result (λ made. option_map expression_seen made
        ≡ row_expression layer.now.globals.now layer.now.layer_type (object (fields_of layer.now.members.now))
        (row_seen row.now)) }
    ensures formed { IfOk result (λ made. IfSome made IsFormed) }
{
    if row.name == VISIBILITY {
        return Ok(None);
    }
    match set_value(layer.members, row.place, row.name) {
        Some(json) => value_expression(alloc, row, layer.globals, json),
        None => Ok(None),
    }
}

pub(crate) fn layer_filter(
    alloc: Global,
    layer: &LayerValues<'_>,
) -> Result<Option<ItemExpression>, AllocError>
    ensures seen { IfOk result (λ made. option_map expression_seen made
        ≡ item_expression layer.now.globals.now layer.now.layer_type (object (fields_of layer.now.members.now))
        items.Filter) }
    ensures formed { IfOk result (λ made. IfSome made IsFormed) }
{
    if !has_features(layer.layer_type) {
        return Ok(None);
    }
    match layer.members.get("filter") {
        Some(json) => filter_expression(alloc, layer.globals, json),
        None => Ok(None),
    }
}

fn has_features(layer_type: LayerType) -> bool
    ensures { result ≡ has_features layer_type }
{
    match layer_type {
        LayerType::Background => false,
        LayerType::Raster => false,
        LayerType::Hillshade => false,
        LayerType::ColorRelief => false,
        _ => true,
    }
}

// Gives an item the source of its expression, where it has one.
fn add_item(
    alloc: Global,
    number: u32,
    item: CellItem,
    expression: Option<ItemExpression>,
    buckets: &mut Buckets<FormPool>,
) -> Result<(), AllocError>
    requires sound { IsSound buckets.old }
    requires there { is_some (features_of buckets.old number) ≡ true }
    requires bare { source_of buckets.old number item ≡ None }
    requires formed { IfSome expression IsFormed }
    ensures sound { IsSound buckets.new }
    ensures others { LeavesOthers ⟦<FormPool as CountedEvaluator>⟧.slots number buckets.old buckets.new }
    ensures source { OnOk result (SetsItem ⟦<FormPool as CountedEvaluator>⟧.slots number item
        (option_map expression_seen expression) buckets.old buckets.new) }
    ensures err { OnErr result ((l : ℕ) (i : CellItem) → source_of buckets.new l i ≡ source_of buckets.old l i) }
    ensures kept { KeepsOthers number item buckets.old buckets.new }
{
    match expression {
        Some(expression) => add_source(alloc, number, item, expression, buckets),
        None => Ok(()),
    }
}

// Puts an expression into the evaluator, and gives an item its source.
fn add_source(
    alloc: Global,
    number: u32,
    item: CellItem,
    expression: ItemExpression,
    buckets: &mut Buckets<FormPool>,
) -> Result<(), AllocError>
    requires sound { IsSound buckets.old }
    requires there { is_some (features_of buckets.old number) ≡ true }
    requires formed { IsFormed expression }
    ensures sound { IsSound buckets.new }
    ensures others { LeavesOthers ⟦<FormPool as CountedEvaluator>⟧.slots number buckets.old buckets.new }
    ensures source { OnOk result
        (SetsItem ⟦<FormPool as CountedEvaluator>⟧.slots number item (Some (expression_seen expression)) buckets.old
        buckets.new) }
    ensures err { OnErr result ((l : ℕ) (i : CellItem) → source_of buckets.new l i ≡ source_of buckets.old l i) }
    ensures kept { KeepsOthers number item buckets.old buckets.new }
{
    let slot = put_item(alloc, expression.form, expression.want, buckets)?;
    let source = Source {
        item,
        slot,
        mentions: expression.mentions,
        paint: expression.paint,
        globals: expression.globals,
    };
    buckets.set_source(alloc, number, &source)
}

// Puts what gives the values of an item after what the evaluator has.
#[tactic(auto, using(form_pool::proofs::FormLaws::sized_as))]
pub(crate) fn put_item(
    alloc: Global,
    form: ItemForm,
    want: Want,
    buckets: &mut Buckets<FormPool>,
) -> Result<u32, AllocError>
    requires sound { IsSound buckets.old }
    requires form { IsFormedAs form want }
    ensures sound { IsSound buckets.new }
    ensures features { (l : ℕ) → features_of buckets.new l ≡ features_of buckets.old l }
    ensures source { (l : ℕ) (item : CellItem) → source_of buckets.new l item ≡ source_of buckets.old l item }
    ensures kept { (cell : Cell) → kept_at buckets.new cell ≡ kept_at buckets.old cell }
    ensures slot { IfOk result
        (λ slot. slot ≡ length (⟦<FormPool as CountedEvaluator>⟧.slots (evaluator_of buckets.old))) }
    ensures ok { OnOk result (⟦<FormPool as CountedEvaluator>⟧.slots (evaluator_of buckets.new)
        ≡ ⟦<FormPool as CountedEvaluator>⟧.slots (evaluator_of buckets.old) ++ sized_term (form_term form) want ∷ []) }
    ensures err { OnErr result (⟦<FormPool as CountedEvaluator>⟧.slots (evaluator_of buckets.new)
        ≡ ⟦<FormPool as CountedEvaluator>⟧.slots (evaluator_of buckets.old)) }
{
    match form {
        ItemForm::Legacy(form) => put_form(form, buckets),
        ItemForm::Expression(expression) => {
            let made = boxed(alloc, expression, want)?;
            put_expression(made, buckets)
        }
    }
}

// Puts a legacy form after what the evaluator has.
fn put_form(form: LegacyForm, buckets: &mut Buckets<FormPool>) -> Result<u32, AllocError>
    requires sound { IsSound buckets.old }
    requires form { IsReadForm form }
    ensures sound { IsSound buckets.new }
    ensures features { (l : ℕ) → features_of buckets.new l ≡ features_of buckets.old l }
    ensures source { (l : ℕ) (item : CellItem) → source_of buckets.new l item ≡ source_of buckets.old l item }
    ensures kept { (cell : Cell) → kept_at buckets.new cell ≡ kept_at buckets.old cell }
    ensures slot { IfOk result
        (λ slot. slot ≡ length (⟦<FormPool as CountedEvaluator>⟧.slots (evaluator_of buckets.old))) }
    ensures ok { OnOk result (⟦<FormPool as CountedEvaluator>⟧.slots (evaluator_of buckets.new)
        ≡ ⟦<FormPool as CountedEvaluator>⟧.slots (evaluator_of buckets.old) ++ sized_form form ∷ []) }
    ensures err { OnErr result (⟦<FormPool as CountedEvaluator>⟧.slots (evaluator_of buckets.new)
        ≡ ⟦<FormPool as CountedEvaluator>⟧.slots (evaluator_of buckets.old)) }
{
    buckets.evaluator().put_legacy(form)
}

// Puts an expression after what the evaluator has.
fn put_expression(
    expression: BoxedExpression,
    buckets: &mut Buckets<FormPool>,
) -> Result<u32, AllocError>
    requires { IsSound buckets.old }
    ensures sound { IsSound buckets.new }
    ensures features { (l : ℕ) → features_of buckets.new l ≡ features_of buckets.old l }
    ensures source { (l : ℕ) (item : CellItem) → source_of buckets.new l item ≡ source_of buckets.old l item }
    ensures kept { (cell : Cell) → kept_at buckets.new cell ≡ kept_at buckets.old cell }
    ensures slot { IfOk result
        (λ slot. slot ≡ length (⟦<FormPool as CountedEvaluator>⟧.slots (evaluator_of buckets.old))) }
    ensures ok { OnOk result (⟦<FormPool as CountedEvaluator>⟧.slots (evaluator_of buckets.new)
        ≡ ⟦<FormPool as CountedEvaluator>⟧.slots (evaluator_of buckets.old) ++ sized_node expression ∷ []) }
    ensures err { OnErr result (⟦<FormPool as CountedEvaluator>⟧.slots (evaluator_of buckets.new)
        ≡ ⟦<FormPool as CountedEvaluator>⟧.slots (evaluator_of buckets.old)) }
{
    buckets.evaluator().put(expression)
}
