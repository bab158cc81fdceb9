//! `value`: the value of an expression.

ghost use Rattle.std.specs.Prelude.{◌≡◌, ℕ, pos, List, Option, IfOk, IfErr};
ghost use Rattle.prop_values.specs.ViewParts.{evaluated_of};
ghost use Rattle.expr_syntax.specs.ReadView.{reading_of};
ghost use Rattle.expr_syntax.specs.TermView.{term_of};
ghost use Rattle.program_runs.specs.Progress.{outcome_of, HaltsAt};
ghost use Rattle.program_runs.specs.Runs.{HasOutcome};
ghost use Rattle.style_program.specs.ValueRun.{value_run, expression_outcome, fault_in, judged_outcome, value_outcome};

use crate::refusals::{no_expression, no_type, outside};
use eval_face::Context;
use expr_once::evaluated_once;
use expr_syntax::{Expr, Reading, SynFault, read_expr};
use expr_types::{TypeFault, Typed, check_free};
use fixed_num::Fixed;
use host_ops::HostOp;
use program_runs::{Ending, RunHalt, RunOutput, Subject, answer_out, parse_json};
use prop_values::{EvalFault, Value, Want, write_listed};
use std::alloc::{AllocError, Global};

/// The answer to an expression's text.
pub fn answer_value<'a>(
    alloc: Global,
    text: &'a str,
    images: &dyn HostOp,
    scripts: &dyn HostOp,
) -> Result<RunOutput, RunHalt<'a>>
    ensures answer { (files : List ℕ → Option (List ℕ)) (asked : List (List ℕ)) → IfOk result (λ answer.
        HasOutcome files (value_run (test images.now) (test scripts.now) text.now) asked asked (outcome_of answer)) }
    ensures halt { (files : List ℕ → Option (List ℕ)) (count : ℕ) (failed : Option (List ℕ)) (asked : List (List ℕ))
        → IfErr result (λ halt.
        HaltsAt files (value_run (test images.now) (test scripts.now) text.now)
        count count failed failed asked asked halt) }
{
    let json = parse_json(alloc, &Subject::Expression, text.as_bytes())?;
    let read = read_expr(alloc, &json)?;
    Ok(answer_expression(alloc, read, images, scripts)?)
}

#[tactic(auto, using(crate::proofs::TypedOutcome::judged_typed))]
fn answer_expression(
    alloc: Global,
    read: Result<Reading, SynFault>,
    images: &dyn HostOp,
    scripts: &dyn HostOp,
) -> Result<RunOutput, AllocError>
    ensures { IfOk result
        (λ answer. outcome_of answer ≡ expression_outcome (test images.now) (test scripts.now) (reading_of read)) }
{
    match read {
        Ok(Reading::Inside(expression)) => {
            let fault = type_fault(check_free(alloc, &expression)?);
            answer_checked(alloc, expression, fault, images, scripts)
        }
        Ok(Reading::Outside) => outside(alloc),
        Err(fault) => no_expression(alloc, &fault),
    }
}

// Why an expression that was checked is refused.
fn type_fault(checked: Result<Typed<'_>, TypeFault>) -> Option<TypeFault>
    ensures { result ≡ fault_in checked.entry }
{
    match checked {
        Ok(_) => None,
        Err(fault) => Some(fault),
    }
}

// The answer to an expression that was checked.
fn answer_checked(
    alloc: Global,
    expression: Expr,
    fault: Option<TypeFault>,
    images: &dyn HostOp,
    scripts: &dyn HostOp,
) -> Result<RunOutput, AllocError>
    ensures { IfOk result (λ answer. outcome_of answer
        ≡ judged_outcome (test images.now) (test scripts.now) (term_of expression) fault) }
{
    match fault {
        None => {
            let context = Context {
                zoom: zero(),
                feature: None,
                state: None,
            };
            let evaluated = evaluated_once(
                alloc,
                expression,
                Want::Any,
                &context,
                images,
                scripts,
            )?;
            answer_evaluated(alloc, &evaluated)
        }
        Some(fault) => no_type(alloc, &fault),
    }
}

/// The number 0.
pub(crate) fn zero() -> Fixed
    ensures { result ≡ pos 0 }
{
    match Fixed::from_millionths(0) {
        Some(zero) => zero,
        None => unreachable!(),
    }
}

fn answer_evaluated(
    alloc: Global,
    evaluated: &Result<Value, EvalFault>,
) -> Result<RunOutput, AllocError>
    ensures { IfOk result (λ answer. outcome_of answer ≡ value_outcome (evaluated_of evaluated.now)) }
{
    let mut out = Vec::new(alloc);
    match evaluated {
        Ok(value) => {
            write_listed(value, &mut out)?;
            out.push(b'\n')?;
            Ok(answer_out(alloc, out, Ending::Fine))
        }
        Err(fault) => {
            out.extend_from_slice(b"error ")?;
            out.extend_from_slice(fault.name().as_bytes())?;
            out.push(b'\n')?;
            Ok(answer_out(alloc, out, Ending::Found))
        }
    }
}
