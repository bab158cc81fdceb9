//! What the value of a property is, and what a filter is: what is read of them, and what is prepared.

ghost use Rattle.std.specs.Prelude.{◌≡◌, ℕ, List, IfOk};
ghost use Rattle.decimal_json.specs.View.{tree_of, tree_at};
ghost use Rattle.prop_values.specs.Data.{Data};
ghost use Rattle.property_tables.specs.RowView.{row_seen};
ghost use Rattle.expr_syntax.specs.Mentioned.{mentions};
ghost use Rattle.expr_syntax.specs.Reading.{reading_with};
ghost use Rattle.expr_syntax.specs.TermView.{term_of};
ghost use Rattle.legacy_filters.specs.Form.{reading};
ghost use Rattle.legacy_functions.specs.Form.{form};
ghost use Rattle.legacy_functions.specs.View.{function_of, row_of};
ghost use Rattle.property_tables.specs.Literals.{literal_of};
ghost use Rattle.style_layout.specs.CodeView.{filter_seen, value_read, value_seen};
ghost use Rattle.style_layout.specs.Forms.{condition, condition_of, expression_value, function_value, is_per_feature};
ghost use Rattle.style_layout.specs.Forms.{layer_filter, legacy_function, legacy_of, literal_value, property_value};
ghost use Rattle.style_layout.specs.Forms.{reads_feature, text_value, token_text};
ghost use Rattle.style_layout.specs.Outlines.{filter_outline, value_outline};
ghost use Rattle.style_layout.specs.ReadValues.{IsReadFunction, IsReadValue};

use decimal_json::{Json, Text};
use dependency_sets::mentions;
use expr_syntax::{Expr, Reading, read_with};
use legacy_functions::{Function, FunctionReading, has_tokens};
use legacy_laws::{
    expressions_mean_their_functions, migrated_functions_mention_the_same,
    migrated_token_texts_mention_the_feature, token_expressions_mean_their_texts,
};
use prop_values::{Entries, Value};
use property_tables::{Row, literal};
use std::alloc::{AllocError, Global};
use value_forms::{Form, form_of};

/// The value of a property.
#[derive(Drop)]
pub enum PropertyValue {
    /// A literal, fitted to its row.
    Literal(Value),
    /// An expression, a function or a text with tokens, which is in the document.
    Evaluated,
    /// It is not evaluated.
    Outside,
}

/// The filter of a layer.
#[derive(Drop)]
pub enum LayerFilter {
    /// There is none, and every feature passes.
    Every,
    /// A truth value.
    Fixed(bool),
    /// An expression or a legacy filter, which is in the document.
    Evaluated,
    /// It is not evaluated.
    Outside,
}

/// What the value of a property is read as.
#[derive(Drop)]
pub(crate) enum ReadValue {
    /// A literal, fitted to its row.
    Literal(Value),
    Expression(Expr),
    Function(Function),
    TokenText(Text),
    /// It is not evaluated.
    Outside,
}

/// What the value of a property of a row is, by the values of the global state.
pub(crate) fn property_value(
    alloc: Global,
    row: &Row,
    globals: &Entries,
    json: &Json,
) -> Result<ReadValue, AllocError>
    ensures { IfOk result (λ value. value_read value
        ≡ property_value (row_seen row.now) globals.now (tree_of json.now)) }
{
    match form_of(row, json) {
        Form::Expression => expression_value(alloc, globals, json),
        Form::Function => function_value(alloc, row, json),
        Form::TokenText => text_value(json),
        Form::Literal => literal_value(alloc, row, json),
    }
}

fn text_value(json: &Json) -> Result<ReadValue, AllocError>
    ensures { IfOk result (λ value. value_read value ≡ text_value (tree_of json.now)) }
{
    match json {
        Json::Text(text) => Ok(ReadValue::TokenText(text.share()?)),
        _ => Ok(ReadValue::Outside),
    }
}

fn literal_value(alloc: Global, row: &Row, json: &Json) -> Result<ReadValue, AllocError>
    ensures { IfOk result (λ value. value_read value
        ≡ literal_value (literal_of (tree_of json.now) (row_seen row.now))) }
{
    match literal(alloc, json, row)? {
        Some(value) => Ok(ReadValue::Literal(value)),
        None => Ok(ReadValue::Outside),
    }
}

fn expression_value(alloc: Global, globals: &Entries, json: &Json) -> Result<ReadValue, AllocError>
    ensures { IfOk result (λ value. value_read value ≡ expression_value (reading_with (tree_of json.now) globals.now)) }
{
    match read_with(alloc, json, globals)? {
        Ok(Reading::Inside(expression)) => Ok(ReadValue::Expression(expression)),
        _ => Ok(ReadValue::Outside),
    }
}

fn function_value(alloc: Global, row: &Row, json: &Json) -> Result<ReadValue, AllocError>
    ensures { IfOk result (λ value. value_read value
        ≡ function_value (row_seen row.now) (form (row_seen row.now) (tree_of json.now))) }
{
    match legacy_functions::read(alloc, json, row)? {
        Ok(FunctionReading::Inside(function)) => Ok(ReadValue::Function(function)),
        _ => Ok(ReadValue::Outside),
    }
}

/// Whether a value is listed with each feature. A function and a token text read what their expressions read, which
/// are not made.
pub(crate) fn is_per_feature(value: &ReadValue) -> bool
    requires { IsReadValue (value_read value.now) }
    ensures { (globals : List (List ℕ × Data)) → result ≡ is_per_feature globals (value_read value.now) }
{
    match value {
        ReadValue::Expression(expression) => reads_feature(expression),
        ReadValue::Function(function) => function_reads_feature(function),
        ReadValue::TokenText(text) => tokens_read_feature(text),
        _ => false,
    }
}

fn function_reads_feature(function: &Function) -> bool
    requires { IsReadFunction (row_of function.now) (function_of function.now) }
    ensures { (globals : List (List ℕ × Data)) → result
        ≡ is_per_feature globals (legacy_function (row_of function.now) (function_of function.now)) }
{
    expressions_mean_their_functions();
    migrated_functions_mention_the_same();
    function.asks_feature()
}

#[tactic(auto, using(crate::proofs::LegacyReads::tokens_read))]
fn tokens_read_feature(text: &Text) -> bool
    ensures { (globals : List (List ℕ × Data)) → result ≡ is_per_feature globals (token_text text.now) }
{
    token_expressions_mean_their_texts();
    migrated_token_texts_mention_the_feature();
    has_tokens(text.as_str())
}

/// Whether an expression reads the feature or its state.
fn reads_feature(expression: &Expr) -> bool
    ensures { result ≡ reads_feature (mentions (term_of expression.now)) }
{
    let found = mentions(expression);
    found.feature || found.state
}

/// What is prepared of a value.
pub(crate) fn outlined(value: ReadValue) -> PropertyValue
    ensures { value_seen result ≡ value_outline (value_read value) }
{
    match value {
        ReadValue::Literal(value) => PropertyValue::Literal(value),
        ReadValue::Outside => PropertyValue::Outside,
        _ => PropertyValue::Evaluated,
    }
}

/// What is prepared of the filter of a layer, by the values of the global state.
pub(crate) fn layer_filter(
    alloc: Global,
    globals: &Entries,
    filter: Option<&Json>,
) -> Result<LayerFilter, AllocError>
    ensures { IfOk result (λ value. filter_seen value
        ≡ filter_outline (layer_filter globals.now (tree_at filter.entry))) }
{
    let Some(filter) = filter else {
        return Ok(LayerFilter::Every);
    };
    if legacy_filters::is_legacy(filter) {
        return legacy_outline(alloc, filter);
    }
    condition_outline(alloc, globals, filter)
}

fn legacy_outline(alloc: Global, filter: &Json) -> Result<LayerFilter, AllocError>
    ensures { IfOk result (λ value. filter_seen value ≡ filter_outline (legacy_of (reading (tree_of filter.now)))) }
{
    match legacy_filters::read(alloc, filter)? {
        Ok(_) => Ok(LayerFilter::Evaluated),
        Err(_) => Ok(LayerFilter::Outside),
    }
}

fn condition_outline(
    alloc: Global,
    globals: &Entries,
    filter: &Json,
) -> Result<LayerFilter, AllocError>
    ensures { IfOk result (λ value. filter_seen value
        ≡ filter_outline (condition_of (reading_with (tree_of filter.now) globals.now))) }
{
    match read_with(alloc, filter, globals)? {
        Ok(Reading::Inside(expression)) => Ok(outlined_condition(&expression)),
        _ => Ok(LayerFilter::Outside),
    }
}

fn outlined_condition(expression: &Expr) -> LayerFilter
    ensures { filter_seen result ≡ filter_outline (condition (term_of expression.now)) }
{
    match expression {
        Expr::Literal(Value::Bool(answer)) => LayerFilter::Fixed(*answer),
        _ => LayerFilter::Evaluated,
    }
}
