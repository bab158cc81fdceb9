//! The expressions of all layers are put into an empty evaluator anew.

ghost use Rattle.std.specs.Prelude.{◌≡◌, ◌<◌, ℕ, [], IfSome, OnOk, Some, length, option_map};
ghost use Rattle.decimal_json.specs.Tree.{object, fields_of};
ghost use Rattle.property_tables.specs.Rows.{rows_of};
ghost use Rattle.layer_buckets.specs.Seen.{IsSound, evaluator_of, features_of, kept_at, source_of};
ghost use Rattle.layer_buckets.specs.declared.cell.Cell.{Cell};
ghost use Rattle.layer_buckets.specs.declared.cell.CellItem.{CellItem};
ghost use Rattle.layer_buckets.specs.declared.cell.CellItem.TheVariants as items;
ghost use Rattle.asked_cells.specs.Expressions.{HasExpressions};
ghost use Rattle.cell_sources.specs.CellExpressions.{item_expression};
ghost use Rattle.cell_sources.specs.Sourced.{HasSources, KeepsNumbers, KeepsSources, RenewsItem};
ghost use Rattle.cell_sources.specs.Views.{IsFormed, expression_seen};

use crate::expressions::ItemExpression;
use crate::sources::{LayerValues, layer_filter, property_expression, put_item};
use expr_nodes::CountedEvaluator;
use form_pool::FormPool;
use layer_buckets::{Buckets, CellItem};
use property_tables::row_count;
use std::alloc::{AllocError, Global};

/// Takes all expressions out of the evaluator. Each source stays as it is, and so does what is kept. The numbers of
/// sources point to nothing until `renew_sources` gives them others.
pub fn clear_expressions(alloc: Global, buckets: &mut Buckets<FormPool>)
    requires { IsSound buckets.old }
    ensures sound { IsSound buckets.new }
    ensures features { (l : ℕ) → features_of buckets.new l ≡ features_of buckets.old l }
    ensures source { (l : ℕ) (item : CellItem) → source_of buckets.new l item ≡ source_of buckets.old l item }
    ensures kept { (cell : Cell) → kept_at buckets.new cell ≡ kept_at buckets.old cell }
    ensures none { ⟦<FormPool as CountedEvaluator>⟧.slots (evaluator_of buckets.new) ≡ [] }
{
    *buckets.evaluator() = FormPool::new(alloc);
}

/// Puts the expressions of a layer after those that the evaluator has, and gives the sources of its items their
/// numbers. Takes time linear in the layer. Each source of the layer stays but for its number, an item without a source
/// gets none, those of other layers stay with their numbers, and what is kept stays: also where an allocation fails.
pub fn renew_sources(
    alloc: Global,
    number: u32,
    layer: &LayerValues<'_>,
    buckets: &mut Buckets<FormPool>,
) -> Result<(), AllocError>
    requires { IsSound buckets.old }
    ensures sound { IsSound buckets.new }
    ensures sources { KeepsSources buckets.old buckets.new }
    ensures others { KeepsNumbers ⟦<FormPool as CountedEvaluator>⟧.slots number buckets.old buckets.new }
    ensures renewed { OnOk result (HasSources number
        (item_expression layer.now.globals.now layer.now.layer_type (object (fields_of layer.now.members.now)))
        buckets.old
        → HasExpressions ⟦<FormPool as CountedEvaluator>⟧.slots number
        (item_expression layer.now.globals.now layer.now.layer_type (object (fields_of layer.now.members.now)))
        buckets.new) }
{
    for row in 0..row_count(layer.layer_type) {
        renew_property(alloc, number, layer, row, buckets)?;
    }
    let expression = layer_filter(alloc, layer)?;
    renew_item(alloc, number, CellItem::Filter, expression, buckets)
}

fn renew_property(
    alloc: Global,
    number: u32,
    layer: &LayerValues<'_>,
    row: u16,
    buckets: &mut Buckets<FormPool>,
) -> Result<(), AllocError>
    requires sound { IsSound buckets.old }
    requires row { row < length (rows_of layer.now.layer_type) }
    ensures sound { IsSound buckets.new }
    ensures sources { KeepsSources buckets.old buckets.new }
    ensures others { KeepsNumbers ⟦<FormPool as CountedEvaluator>⟧.slots number buckets.old buckets.new }
    ensures renewed { OnOk result (RenewsItem ⟦<FormPool as CountedEvaluator>⟧.slots number (items.Property row)
        (item_expression layer.now.globals.now layer.now.layer_type (object (fields_of layer.now.members.now))
        (items.Property row))
        buckets.old buckets.new) }
{
    let expression = property_expression(alloc, layer, row)?;
    renew_item(alloc, number, CellItem::Property(row), expression, buckets)
}

// Puts the expression of an item, if it has one, and gives the item's source its number.
fn renew_item(
    alloc: Global,
    number: u32,
    item: CellItem,
    expression: Option<ItemExpression>,
    buckets: &mut Buckets<FormPool>,
) -> Result<(), AllocError>
    requires sound { IsSound buckets.old }
    requires formed { IfSome expression IsFormed }
    ensures sound { IsSound buckets.new }
    ensures sources { KeepsSources buckets.old buckets.new }
    ensures others { KeepsNumbers ⟦<FormPool as CountedEvaluator>⟧.slots number buckets.old buckets.new }
    ensures renewed { OnOk result (RenewsItem ⟦<FormPool as CountedEvaluator>⟧.slots number item
        (option_map expression_seen expression) buckets.old buckets.new) }
{
    match expression {
        Some(expression) => renew_source(alloc, number, item, expression, buckets),
        None => Ok(()),
    }
}

fn renew_source(
    alloc: Global,
    number: u32,
    item: CellItem,
    expression: ItemExpression,
    buckets: &mut Buckets<FormPool>,
) -> Result<(), AllocError>
    requires sound { IsSound buckets.old }
    requires formed { IsFormed expression }
    ensures sound { IsSound buckets.new }
    ensures sources { KeepsSources buckets.old buckets.new }
    ensures others { KeepsNumbers ⟦<FormPool as CountedEvaluator>⟧.slots number buckets.old buckets.new }
    ensures renewed { OnOk result (RenewsItem ⟦<FormPool as CountedEvaluator>⟧.slots number item
        (Some (expression_seen expression)) buckets.old buckets.new) }
{
    let slot = put_item(alloc, expression.form, expression.want, buckets)?;
    buckets.set_number(number, &item, slot);
    Ok(())
}
