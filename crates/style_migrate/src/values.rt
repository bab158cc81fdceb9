//! The migrated values of properties.

ghost use Rattle.std.specs.Prelude.{◌≡◌, IfOk};
ghost use Rattle.decimal_json.specs.View.{tree_of};
ghost use Rattle.property_tables.specs.RowView.{row_seen};
ghost use Rattle.legacy_functions.specs.Form.{form};
ghost use Rattle.style_migrate.specs.Migrated.{migrated_value, function_or, tokens_or};

use decimal_json::{Json, copy};
use legacy_functions::{FunctionReading, read, token_expr};
use property_tables::Row;
use std::alloc::{AllocError, Global};
use value_forms::{Form, form_of};

/// The migrated value of a property of a row. A row of literals alone keeps its value.
pub(crate) fn migrate_value(alloc: Global, row: &Row, json: &Json) -> Result<Json, AllocError>
    ensures { IfOk result (λ made. tree_of made ≡ migrated_value (row_seen row.now) (tree_of json.now)) }
{
    match form_of(row, json) {
        Form::Function => migrate_function(alloc, row, json),
        Form::TokenText => migrate_tokens(alloc, json),
        Form::Expression => copy(alloc, json),
        Form::Literal => copy(alloc, json),
    }
}

fn migrate_tokens(alloc: Global, json: &Json) -> Result<Json, AllocError>
    ensures { IfOk result (λ made. tree_of made ≡ tokens_or (tree_of json.now)) }
{
    match json {
        Json::Text(text) => token_expr(alloc, text.as_str()),
        _ => copy(alloc, json),
    }
}

fn migrate_function(alloc: Global, row: &Row, json: &Json) -> Result<Json, AllocError>
    ensures { IfOk result (λ made. tree_of made
        ≡ function_or (row_seen row.now) (tree_of json.now) (form (row_seen row.now) (tree_of json.now))) }
{
    match read(alloc, json, row)? {
        Ok(FunctionReading::Inside(function)) => function.to_expr(alloc),
        Ok(FunctionReading::Outside) => copy(alloc, json),
        Err(_) => copy(alloc, json),
    }
}
