//! The faults that an evaluation may have.

ghost use Rattle.std.specs.Prelude.{◌≡◌, Some, IfOk};
ghost use Rattle.decimal_json.specs.View.{tree_of};
ghost use Rattle.prop_values.specs.Faults.{no_faults};
ghost use Rattle.property_tables.specs.RowView.{row_seen};
ghost use Rattle.expr_syntax.specs.Reading.{reading};
ghost use Rattle.expr_syntax.specs.ReadView.{reading_of};
ghost use Rattle.legacy_functions.specs.ToExpression.{function_expression};
ghost use Rattle.legacy_functions.specs.View.{function_of, row_of};
ghost use Rattle.style_rules.specs.FunctionFaults.{faults_of_function, faults_of_judged, faults_of_reading};

use decimal_json::Json;
use expr_syntax::{Reading, SynFault, read_expr};
use expr_types::{TypeFault, Typed, check};
use legacy_functions::Function;
use prop_values::FaultSet;
use property_tables::Row;
use std::alloc::{AllocError, Global};
use std::marker::Model;

/// The faults that an evaluation may have. Those of a legacy function are found when they are asked for.
#[derive(Drop)]
pub(crate) struct PossibleFaults {
    known: FaultSet,
    /// The function whose faults these are, where they are not known.
    function: Option<Box<RowFunction>>,
}

/// A legacy function as the value of a row.
#[derive(Drop)]
struct RowFunction {
    row: Row,
    function: Function,
}

impl Model for PossibleFaults {
    ghost use Rattle.prop_values.specs.declared.fault.FaultSet.{FaultSet};
    ghost use Rattle.style_rules.specs.FunctionFaults.{possible_faults};

    ghost Value = { FaultSet };

    ghost view = { λ a. possible_faults a.known a.function };
}

impl PossibleFaults {
    pub(crate) fn none() -> PossibleFaults
        ensures { result ≡ no_faults }
    {
        PossibleFaults::known(FaultSet::empty())
    }

    pub(crate) fn known(faults: FaultSet) -> PossibleFaults
        ensures { result ≡ faults }
    {
        PossibleFaults {
            known: faults,
            function: None,
        }
    }

    /// Those of a function, which are looked for at once where faults are listed.
    pub(crate) fn of_function(
        alloc: Global,
        row: &Row,
        function: Function,
        lists_faults: bool,
    ) -> Result<PossibleFaults, AllocError>
        ensures { IfOk result (λ faults. faults
            ≡ faults_of_function (row_seen row.now) (row_of function) (function_of function)) }
    {
        if lists_faults {
            return Ok(PossibleFaults::known(function_faults(alloc, row, function)?));
        }
        let function = RowFunction {
            row: row.copy(),
            function,
        };
        Ok(PossibleFaults {
            known: FaultSet::empty(),
            function: Some(Box::new(alloc, function)?),
        })
    }

    /// The faults, looked for where they are not known.
    pub(crate) fn found(self, alloc: Global) -> Result<FaultSet, AllocError>
        ensures { IfOk result (λ found. found ≡ self) }
    {
        match self.function {
            Some(boxed) => {
                let RowFunction { row, function } = Box::into_inner(boxed);
                function_faults(alloc, &row, function)
            }
            None => Ok(self.known),
        }
    }
}

/// The function is freed before its expression is read, and the expression's JSON before it is checked: each is many
/// times as large as the function's text.
fn function_faults(alloc: Global, row: &Row, function: Function) -> Result<FaultSet, AllocError>
    ensures { IfOk result (λ faults. faults
        ≡ faults_of_function (row_seen row.now) (row_of function) (function_of function)) }
{
    let json = function_json(alloc, function)?;
    let read = read_json(alloc, json)?;
    read_faults(alloc, row, read)
}

// The expression of a function, which is freed.
fn function_json(alloc: Global, function: Function) -> Result<Json, AllocError>
    ensures { IfOk result (λ json. tree_of json ≡ function_expression (row_of function) (function_of function)) }
{
    function.to_expr(alloc)
}

// What JSON reads as, which is freed.
fn read_json(alloc: Global, json: Json) -> Result<Result<Reading, SynFault>, AllocError>
    ensures { IfOk result (λ read. reading_of read ≡ reading (tree_of json)) }
{
    read_expr(alloc, &json)
}

#[tactic(auto, using(crate::proofs::FunctionFaultLaws::judged_faults))]
fn read_faults(
    alloc: Global,
    row: &Row,
    read: Result<Reading, SynFault>,
) -> Result<FaultSet, AllocError>
    ensures { IfOk result (λ faults. faults ≡ faults_of_reading (row_seen row.now) (reading_of read)) }
{
    match read {
        Ok(Reading::Inside(expression)) => {
            Ok(typed_faults(check(alloc, &expression, &row.want, Some(row))?))
        }
        _ => Ok(FaultSet::empty()),
    }
}

fn typed_faults(typed: Result<Typed<'_>, TypeFault>) -> FaultSet
    ensures { result ≡ faults_of_judged typed.entry }
{
    match typed {
        Ok(typed) => typed.may(),
        Err(_) => FaultSet::empty(),
    }
}
