//! The expression that gives the value of an item of a layer.

ghost use Rattle.std.specs.Prelude.{◌≡◌, ℕ, List, false, IfOk, IfSome, Some, option_map};
ghost use Rattle.decimal_json.specs.View.{tree_of};
ghost use Rattle.prop_values.specs.Data.{Data};
ghost use Rattle.property_tables.specs.RowView.{row_seen};
ghost use Rattle.expr_syntax.specs.Mentioned.{mentions, nothing};
ghost use Rattle.legacy_functions.specs.ToExpression.{function_expression};
ghost use Rattle.legacy_functions.specs.Tokens.{token_expression};
ghost use Rattle.legacy_functions.specs.View.{function_of, row_of};
ghost use Rattle.legacy_functions.specs.Form.{form};
ghost use Rattle.legacy_laws.specs.LegacyFunctionLaw.{IsTableRow, function_mentions};
ghost use Rattle.form_pool.specs.LegacyForms.{IsReadForm};
ghost use Rattle.form_pool.specs.declared.legacy_form.LegacyForm.TheVariants as forms;
ghost use Rattle.legacy_filters.specs.Form.{reading};
ghost use Rattle.legacy_filters.specs.ToExpression.{expression};
ghost use Rattle.legacy_filters.specs.View.{filter_of};
ghost use Rattle.asked_cells.specs.Expressions.{is_paint};
ghost use Rattle.cell_sources.specs.CellExpressions.{filter_expression, filter_read, read_as_filter, read_as_value};
ghost use Rattle.cell_sources.specs.CellExpressions.{value_expression, value_read, function_tree, tokens_tree};
ghost use Rattle.cell_sources.specs.CellExpressions.{legacy_tree};
ghost use Rattle.cell_sources.specs.Views.{IsFormAs, IsFormed, expression_seen, legacy_term};

use decimal_json::{Json, Text};
use dependency_sets::mentions;
use expr_syntax::{Expr, Mentions, Reading, read_with, uses_globals};
use form_pool::LegacyForm;
use legacy_filters::LegacyFilter;
use legacy_functions::{Function, FunctionReading, has_tokens};
use legacy_laws::{
    expressions_mean_their_filters, expressions_mean_their_functions,
    migrated_filters_mention_the_feature, migrated_filters_use_no_globals,
    migrated_functions_mention_the_same, migrated_functions_use_no_globals,
    migrated_token_texts_mention_the_feature, migrated_token_texts_use_no_globals,
    token_expressions_mean_their_texts,
};
use prop_values::{Entries, Want};
use property_tables::{Place, Row};
use std::alloc::{AllocError, Global};
use value_forms::{Form, form_of};

/// An expression by which the cells of an item are evaluated, and what a source says of it.
#[derive(Drop)]
pub(crate) struct ItemExpression {
    pub(crate) form: ItemForm,
    pub(crate) mentions: Mentions,
    pub(crate) want: Want,
    /// It sees the zoom as a paint value does, and else its floor.
    pub(crate) paint: bool,
    /// It was read by the values of the global state.
    pub(crate) globals: bool,
}

/// What an expression is evaluated by.
#[derive(Drop)]
pub(crate) enum ItemForm {
    Expression(Expr),
    /// The legacy form whose expression it is, which is evaluated in its place.
    Legacy(LegacyForm),
}

/// The expression of a value of a row; none of a literal.
pub(crate) fn value_expression(
    alloc: Global,
    row: &Row,
    globals: &Entries,
    json: &Json,
) -> Result<Option<ItemExpression>, AllocError>
    requires { IsTableRow (row_seen row.now) }
    ensures seen { IfOk result
        (λ made. option_map expression_seen made ≡ value_expression (row_seen row.now) globals.now (tree_of json.now)) }
    ensures formed { IfOk result (λ made. IfSome made IsFormed) }
{
    match form_of(row, json) {
        Form::Expression => value_read(alloc, row, globals, json),
        Form::Function => function_read(alloc, row, json),
        Form::TokenText => tokens_read(row, json),
        Form::Literal => Ok(None),
    }
}

fn value_read(
    alloc: Global,
    row: &Row,
    globals: &Entries,
    json: &Json,
) -> Result<Option<ItemExpression>, AllocError>
    ensures seen { IfOk result
        (λ made. option_map expression_seen made ≡ value_read (row_seen row.now) globals.now (tree_of json.now)) }
    ensures formed { IfOk result (λ made. IfSome made IsFormed) }
{
    match read_with(alloc, json, globals)? {
        Ok(Reading::Inside(expression)) => Ok(Some(ItemExpression {
            mentions: mentions(&expression),
            form: ItemForm::Expression(expression),
            want: row.want,
            paint: is_paint(row.place),
            globals: uses_globals(json),
        })),
        _ => Ok(None),
    }
}

fn is_paint(place: Place) -> bool
    ensures { result ≡ is_paint place }
{
    match place {
        Place::Paint => true,
        Place::Layout => false,
    }
}

// The expression of a legacy function is not made: what a source says of it is read off the function.
fn function_read(
    alloc: Global,
    row: &Row,
    json: &Json,
) -> Result<Option<ItemExpression>, AllocError>
    requires { IsTableRow (row_seen row.now) }
    ensures seen { IfOk result (λ made. (globals : List (List ℕ × Data)) → option_map expression_seen made
        ≡ read_as_value (row_seen row.now) globals
        (function_tree (row_seen row.now) (form (row_seen row.now) (tree_of json.now)))) }
    ensures formed { IfOk result (λ made. IfSome made IsFormed) }
{
    match legacy_functions::read(alloc, json, row)? {
        Ok(FunctionReading::Inside(function)) => Ok(Some(migrated_function(row, function))),
        _ => Ok(None),
    }
}

fn migrated_function(row: &Row, function: Function) -> ItemExpression
    requires row { row_of function ≡ row_seen row.now }
    requires read { IsReadForm (forms.Function function) }
    ensures seen { (globals : List (List ℕ × Data)) → Some (expression_seen result)
        ≡ value_read (row_seen row.now) globals (function_expression (row_seen row.now) (function_of function)) }
    ensures formed { IsFormed result }
{
    expressions_mean_their_functions();
    migrated_functions_mention_the_same();
    migrated_functions_use_no_globals();
    let mentioned = function_mentions(&function);
    by_form(
        LegacyForm::Function(function),
        mentioned,
        row.want,
        is_paint(row.place),
    )
}

fn function_mentions(function: &Function) -> Mentions
    ensures { result ≡ function_mentions (row_of function.now) (function_of function.now) }
{
    Mentions {
        zoom: function.asks_zoom(),
        feature: function.asks_feature(),
        state: false,
        image: false,
    }
}

fn tokens_read(row: &Row, json: &Json) -> Result<Option<ItemExpression>, AllocError>
    ensures seen { IfOk result (λ made. (globals : List (List ℕ × Data)) → option_map expression_seen made
        ≡ read_as_value (row_seen row.now) globals (tokens_tree (tree_of json.now))) }
    ensures formed { IfOk result (λ made. IfSome made IsFormed) }
{
    match json {
        Json::Text(text) => Ok(Some(text_read(row, text)?)),
        _ => Ok(None),
    }
}

// The expression of a text with tokens, which is not made either.
fn text_read(row: &Row, text: &Text) -> Result<ItemExpression, AllocError>
    ensures seen { IfOk result (λ made. (globals : List (List ℕ × Data)) → Some (expression_seen made)
        ≡ value_read (row_seen row.now) globals (token_expression text.now)) }
    ensures formed { IfOk result IsFormed }
{
    token_expressions_mean_their_texts();
    migrated_token_texts_mention_the_feature();
    migrated_token_texts_use_no_globals();
    let form = tokens_form(text, row)?;
    let mentioned = feature_alone(has_tokens(text.as_str()));
    Ok(by_form(form, mentioned, row.want, is_paint(row.place)))
}

fn tokens_form(text: &Text, row: &Row) -> Result<LegacyForm, AllocError>
    ensures { IfOk result (λ form. form ≡ forms.Tokens text.now (row_seen row.now).want) }
{
    Ok(LegacyForm::Tokens(text.share()?, row.want))
}

/// The expression of a filter; none of a truth value.
pub(crate) fn filter_expression(
    alloc: Global,
    globals: &Entries,
    json: &Json,
) -> Result<Option<ItemExpression>, AllocError>
    ensures seen { IfOk result
        (λ made. option_map expression_seen made ≡ filter_expression globals.now (tree_of json.now)) }
    ensures formed { IfOk result (λ made. IfSome made IsFormed) }
{
    if let Json::Bool(_) = json {
        return Ok(None);
    }
    if legacy_filters::is_legacy(json) {
        return legacy_read(alloc, json);
    }
    filter_read(alloc, globals, json)
}

// Nor is the expression of a legacy filter made.
fn legacy_read(alloc: Global, json: &Json) -> Result<Option<ItemExpression>, AllocError>
    ensures seen { IfOk result (λ made. (globals : List (List ℕ × Data)) → option_map expression_seen made
        ≡ read_as_filter globals (legacy_tree (reading (tree_of json.now)))) }
    ensures formed { IfOk result (λ made. IfSome made IsFormed) }
{
    match legacy_filters::read(alloc, json)? {
        Ok(filter) => Ok(Some(migrated_filter(filter))),
        Err(_) => Ok(None),
    }
}

fn migrated_filter(filter: LegacyFilter) -> ItemExpression
    requires { IsReadForm (forms.Filter filter) }
    ensures seen { (globals : List (List ℕ × Data))
        → Some (expression_seen result) ≡ filter_read globals (expression (filter_of filter)) }
    ensures formed { IsFormed result }
{
    expressions_mean_their_filters();
    migrated_filters_mention_the_feature();
    migrated_filters_use_no_globals();
    let mentioned = feature_alone(filter.asks_feature());
    by_form(LegacyForm::Filter(filter), mentioned, Want::Boolean, false)
}

fn filter_read(
    alloc: Global,
    globals: &Entries,
    json: &Json,
) -> Result<Option<ItemExpression>, AllocError>
    ensures seen { IfOk result (λ made. option_map expression_seen made ≡ filter_read globals.now (tree_of json.now)) }
    ensures formed { IfOk result (λ made. IfSome made IsFormed) }
{
    match read_with(alloc, json, globals)? {
        Ok(Reading::Inside(expression)) => Ok(Some(ItemExpression {
            mentions: mentions(&expression),
            form: ItemForm::Expression(expression),
            want: Want::Boolean,
            paint: false,
            globals: uses_globals(json),
        })),
        _ => Ok(None),
    }
}

// The expression of a legacy form, which is not made. None reads the global state.
fn by_form(form: LegacyForm, mentioned: Mentions, want: Want, paint: bool) -> ItemExpression
    requires mentioned { mentioned ≡ mentions (legacy_term form) }
    requires form { IsFormAs form (legacy_term form) want }
    ensures seen { expression_seen result
        ≡ record { term = legacy_term form; want = want; paint = paint; globals = false } }
    ensures formed { IsFormed result }
{
    ItemExpression {
        form: ItemForm::Legacy(form),
        mentions: mentioned,
        want,
        paint,
        globals: false,
    }
}

// The feature alone, or nothing.
fn feature_alone(asked: bool) -> Mentions
    ensures { result ≡ record nothing { feature = asked } }
{
    Mentions {
        zoom: false,
        feature: asked,
        state: false,
        image: false,
    }
}
