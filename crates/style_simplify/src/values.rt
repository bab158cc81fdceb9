//! The simplified values of properties, and filters.

ghost use Rattle.std.specs.Prelude.{◌≡◌, IfOk};
ghost use Rattle.decimal_json.specs.View.{tree_of};
ghost use Rattle.expr_syntax.specs.ReadView.{reading_of};
ghost use Rattle.property_tables.specs.RowView.{row_seen};
ghost use Rattle.style_simplify.specs.SimplifiedStyle.{accepted_or_node, expression_read, filter_read, is_accepted};
ghost use Rattle.style_simplify.specs.SimplifiedStyle.{simplified_filter, simplified_value, unless_legacy};
ghost use Rattle.style_simplify.specs.View.{choices_seen};
ghost use Rattle.value_forms.specs.Forms.{is_token_text};

use crate::choices::{NodeChoices, chosen};
use crate::simplifying::choices;
use decimal_json::{Json, copy};
use expr_syntax::{Reading, SynFault, read_expr};
use expr_types::KindScope;
use legacy_filters::is_legacy;
use legacy_functions::has_tokens;
use prop_values::Want;
use property_tables::{Row, literal};
use std::alloc::{AllocError, Global};
use value_forms::{Form, form_of};

/// The simplified value of a property of a row.
pub(crate) fn simplify_value(alloc: Global, row: &Row, json: &Json) -> Result<Json, AllocError>
    ensures { IfOk result (λ made. tree_of made ≡ simplified_value (row_seen row.now) (tree_of json.now)) }
{
    match form_of(row, json) {
        Form::Expression => expression_read(alloc, row, json, read_expr(alloc, json)?),
        Form::Function => copy(alloc, json),
        Form::TokenText => copy(alloc, json),
        Form::Literal => copy(alloc, json),
    }
}

fn expression_read(
    alloc: Global,
    row: &Row,
    json: &Json,
    read: Result<Reading, SynFault>,
) -> Result<Json, AllocError>
    ensures { IfOk result
        (λ made. tree_of made ≡ expression_read (row_seen row.now) (tree_of json.now) (reading_of read)) }
{
    match read {
        Ok(Reading::Inside(expression)) => {
            let found = choices(alloc, &expression, json, &row.want, &KindScope::Empty)?;
            accepted_or_node(alloc, row, found)
        }
        Ok(Reading::Outside) => copy(alloc, json),
        Err(_) => copy(alloc, json),
    }
}

// What the row does not accept keeps its simplified arguments.
fn accepted_or_node(alloc: Global, row: &Row, found: NodeChoices) -> Result<Json, AllocError>
    ensures { IfOk result (λ made. tree_of made ≡ accepted_or_node (row_seen row.now) (choices_seen found)) }
{
    let node = copy(alloc, &found.node.json)?;
    let value = chosen(false, found).json;
    if is_accepted(alloc, row, &value)? {
        Ok(value)
    } else {
        Ok(node)
    }
}

// A bare literal has to be one of the row, and no token text.
fn is_accepted(alloc: Global, row: &Row, json: &Json) -> Result<bool, AllocError>
    ensures { IfOk result (λ accepted. accepted ≡ is_accepted (row_seen row.now) (tree_of json.now)) }
{
    match json {
        Json::List(_) => Ok(true),
        _ => {
            let found = literal(alloc, json, row)?;
            Ok(found.is_some() && !is_token_text(row, json))
        }
    }
}

fn is_token_text(row: &Row, json: &Json) -> bool
    ensures { result ≡ is_token_text (row_seen row.now) (tree_of json.now) }
{
    match json {
        Json::Text(text) => row.takes_tokens && has_tokens(text.as_str()),
        _ => false,
    }
}

/// A simplified filter. It stays where it is legacy, and where it would become so.
pub(crate) fn simplify_filter(alloc: Global, filter: &Json) -> Result<Json, AllocError>
    ensures { IfOk result (λ made. tree_of made ≡ simplified_filter (tree_of filter.now)) }
{
    if is_legacy(filter) {
        return copy(alloc, filter);
    }
    filter_read(alloc, filter, read_expr(alloc, filter)?)
}

fn filter_read(
    alloc: Global,
    filter: &Json,
    read: Result<Reading, SynFault>,
) -> Result<Json, AllocError>
    ensures { IfOk result (λ made. tree_of made ≡ filter_read (tree_of filter.now) (reading_of read)) }
{
    match read {
        Ok(Reading::Inside(expression)) => {
            let found = choices(
                alloc,
                &expression,
                filter,
                &Want::Boolean,
                &KindScope::Empty,
            )?;
            unless_legacy(alloc, filter, chosen(false, found).json)
        }
        Ok(Reading::Outside) => copy(alloc, filter),
        Err(_) => copy(alloc, filter),
    }
}

fn unless_legacy(alloc: Global, filter: &Json, simplified: Json) -> Result<Json, AllocError>
    ensures { IfOk result (λ made. tree_of made ≡ unless_legacy (tree_of filter.now) (tree_of simplified)) }
{
    if is_legacy(&simplified) {
        copy(alloc, filter)
    } else {
        Ok(simplified)
    }
}
