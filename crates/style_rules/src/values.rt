//! What is reported of the value of a property.

ghost use Rattle.std.specs.Prelude.{◌≡◌, [], Some, option_map, IfOk};
ghost use Rattle.decimal_json.specs.View.{tree_of};
ghost use Rattle.property_tables.specs.RowView.{row_seen};
ghost use Rattle.expr_syntax.specs.ReadView.{reading_of};
ghost use Rattle.legacy_functions.specs.Form.{form};
ghost use Rattle.legacy_functions.specs.View.{function_of, row_of};
ghost use Rattle.style_rules.specs.CodeView.{judged_mark};
ghost use Rattle.style_rules.specs.Values.{value_mark, literal_mark, read_mark, expression_mark, rule_of};
ghost use Rattle.style_rules.specs.Values.{function_mark, function_reads};

use crate::diagnostics::Mark;
use crate::possible_faults::PossibleFaults;
use decimal_json::{Json, Path};
use expr_syntax::{Reading, SynFault, read_expr};
use expr_types::{TypeCode, TypeFault, Typed, check};
use legacy_functions::{Function, FunctionReading, read};
use prop_values::Want;
use property_tables::{Row, literal};
use std::alloc::{AllocError, Global};
use value_forms::{Form, form_of};

/// What is reported of the value of a property of a row. Where faults are listed, those of a function are found
/// at once.
pub(crate) fn value_mark(
    alloc: Global,
    row: &Row,
    json: &Json,
    lists_faults: bool,
) -> Result<Mark, AllocError>
    ensures { IfOk result (λ mark. mark ≡ value_mark (row_seen row.now) (tree_of json.now)) }
{
    match form_of(row, json) {
        Form::Expression => expression_mark(alloc, &row.want, Some(row), json),
        Form::Function => function_mark(alloc, row, json, lists_faults),
        Form::TokenText => Ok(Mark::Sound(PossibleFaults::none())),
        Form::Literal => literal_mark(alloc, row, json),
    }
}

/// A place breaks a rule.
pub(crate) fn broken(alloc: Global, rule: u8) -> Mark
    ensures { result ≡ Mark.Broken [] rule }
{
    Mark::Broken(Path::new(alloc), rule)
}

fn literal_mark(alloc: Global, row: &Row, json: &Json) -> Result<Mark, AllocError>
    ensures { IfOk result (λ mark. mark ≡ literal_mark (row_seen row.now) (tree_of json.now)) }
{
    match literal(alloc, json, row)? {
        Some(_) => Ok(Mark::Sound(PossibleFaults::none())),
        None => Ok(broken(alloc, 15)),
    }
}

/// What is reported of an expression, as the value of a row, or as a filter where there is none.
pub(crate) fn expression_mark(
    alloc: Global,
    want: &Want,
    row: Option<&Row>,
    json: &Json,
) -> Result<Mark, AllocError>
    ensures { IfOk result
        (λ mark. mark ≡ expression_mark want.now (option_map (λ r. row_seen r.now) row.entry) (tree_of json.now)) }
{
    let read = read_expr(alloc, json)?;
    read_mark(alloc, want, row, read)
}

// What is reported of what an expression reads as.
#[tactic(auto, using(crate::proofs::ValueLaws::judged_typed))]
fn read_mark(
    alloc: Global,
    want: &Want,
    row: Option<&Row>,
    read: Result<Reading, SynFault>,
) -> Result<Mark, AllocError>
    ensures { IfOk result
        (λ mark. mark ≡ read_mark want.now (option_map (λ r. row_seen r.now) row.entry) (reading_of read)) }
{
    match read {
        Ok(Reading::Inside(expression)) => { Ok(typed_mark(check(alloc, &expression, want, row)?)) }
        Ok(Reading::Outside) => Ok(Mark::Outside),
        Err(fault) => Ok(Mark::Broken(fault.path, 16)),
    }
}

fn typed_mark(typed: Result<Typed<'_>, TypeFault>) -> Mark
    ensures { result ≡ judged_mark typed.entry }
{
    match typed {
        Ok(typed) => Mark::Sound(PossibleFaults::known(typed.may())),
        Err(fault) => Mark::Broken(fault.path, rule_of(fault.code)),
    }
}

fn rule_of(code: TypeCode) -> u8
    ensures { result ≡ rule_of code }
{
    match code {
        TypeCode::Kind => 16,
        TypeCode::NotInterpolable => 16,
        TypeCode::NotComparable => 16,
        TypeCode::Input => 17,
        TypeCode::ZoomPlace => 18,
    }
}

fn function_mark(
    alloc: Global,
    row: &Row,
    json: &Json,
    lists_faults: bool,
) -> Result<Mark, AllocError>
    ensures { IfOk result
        (λ mark. mark ≡ function_mark (row_seen row.now) (form (row_seen row.now) (tree_of json.now))) }
{
    match read(alloc, json, row)? {
        Ok(FunctionReading::Inside(function)) => inside_mark(alloc, row, function, lists_faults),
        Ok(FunctionReading::Outside) => Ok(Mark::Outside),
        Err(_) => Ok(broken(alloc, 19)),
    }
}

/// A function reads what its row may, and may have the faults of its expression.
#[tactic(auto, using(crate::proofs::FunctionFaultLaws::function_reports))]
fn inside_mark(
    alloc: Global,
    row: &Row,
    function: Function,
    lists_faults: bool,
) -> Result<Mark, AllocError>
    requires { row_of function ≡ row_seen row.now }
    ensures { IfOk result (λ mark. mark ≡ function_mark (row_seen row.now) (Some (Some (function_of function)))) }
{
    if !reads_allowed(row, &function) {
        return Ok(broken(alloc, 17));
    }
    Ok(Mark::Sound(PossibleFaults::of_function(alloc, row, function, lists_faults)?))
}

fn reads_allowed(row: &Row, function: &Function) -> bool
    ensures { result ≡ function_reads (row_seen row.now) (function_of function.now) }
{
    (row.zoom || !function.has_zooms()) && (row.feature || !function.has_property())
}
