//! Nodes that become the literal that they mean.

ghost use Rattle.std.specs.Prelude.{◌≡◌, [], IfOk, option_map};
ghost use Rattle.decimal_json.specs.View.{tree_of};
ghost use Rattle.prop_values.specs.ViewParts.{evaluated_of};
ghost use Rattle.expr_syntax.specs.ReadView.{reading_of};
ghost use Rattle.expr_syntax.specs.TermView.{term_of};
ghost use Rattle.eval_face.specs.Meaning.{mean};
ghost use Rattle.style_simplify.specs.Folding.{folding_want, unread_world, bare_or_none, literal_of_reading};
ghost use Rattle.style_simplify.specs.Folding.{literal_of, is_closed, as_literal, folded};
ghost use Rattle.style_simplify.specs.View.{element_seen};

use crate::element::SimpleElement;
use crate::literals::{bare_literal, literal_element};
use decimal_json::Json;
use eval_face::Context;
use expr_once::evaluated_once;
use expr_syntax::{Expr, Reading, SynFault, read_expr};
use fixed_num::Fixed;
use host_ops::ScriptTest;
use prop_values::{EvalFault, Value, Want};
use std::alloc::{AllocError, Global};

/// The literal that a node means, where nothing around it decides what it means.
pub(crate) fn folded(
    alloc: Global,
    want: &Want,
    node: &SimpleElement,
) -> Result<Option<SimpleElement>, AllocError>
    ensures { IfOk result (λ made. option_map element_seen made ≡ folded want.now (element_seen node.now)) }
{
    if is_closed(node) {
        as_literal(alloc, want, literal_of(alloc, want, &node.json)?)
    } else {
        Ok(None)
    }
}

fn is_closed(node: &SimpleElement) -> bool
    ensures { result ≡ is_closed (element_seen node.now) }
{
    node.asks.as_slice().is_empty() && !node.reads
}

fn as_literal(
    alloc: Global,
    want: &Want,
    json: Option<Json>,
) -> Result<Option<SimpleElement>, AllocError>
    ensures { IfOk result (λ made. option_map element_seen made ≡ as_literal want.now (option_map tree_of json)) }
{
    match json {
        Some(json) => Ok(Some(literal_element(alloc, want, json)?)),
        None => Ok(None),
    }
}

fn literal_of(alloc: Global, want: &Want, json: &Json) -> Result<Option<Json>, AllocError>
    ensures { IfOk result (λ made. option_map tree_of made ≡ literal_of want.now (tree_of json.now)) }
{
    match json {
        Json::List(_) => literal_of_reading(alloc, want, read_expr(alloc, json)?),
        _ => Ok(None),
    }
}

fn literal_of_reading(
    alloc: Global,
    want: &Want,
    read: Result<Reading, SynFault>,
) -> Result<Option<Json>, AllocError>
    ensures { IfOk result (λ made. option_map tree_of made ≡ literal_of_reading want.now (reading_of read)) }
{
    match read {
        Ok(Reading::Inside(expression)) => {
            let evaluated = evaluated(alloc, expression, folding_want(want))?;
            bare_or_none(alloc, evaluated)
        }
        Ok(Reading::Outside) => Ok(None),
        Err(_) => Ok(None),
    }
}

fn folding_want(want: &Want) -> Want
    ensures { result ≡ folding_want want.now }
{
    match want {
        Want::Shown => Want::Any,
        want => *want,
    }
}

// In a world that is not read.
fn evaluated(
    alloc: Global,
    expression: Expr,
    want: Want,
) -> Result<Result<Value, EvalFault>, AllocError>
    ensures { IfOk result (λ evaluated. evaluated_of evaluated ≡ mean (term_of expression) want [] unread_world) }
{
    let test = ScriptTest::new();
    let context = Context {
        zoom: Fixed::from_millionths(0).unwrap(),
        feature: None,
        state: None,
    };
    evaluated_once(alloc, expression, want, &context, &test, &test)
}

fn bare_or_none(
    alloc: Global,
    evaluated: Result<Value, EvalFault>,
) -> Result<Option<Json>, AllocError>
    ensures { IfOk result (λ made. option_map tree_of made ≡ bare_or_none (evaluated_of evaluated)) }
{
    match evaluated {
        Ok(value) => bare_literal(alloc, value),
        Err(_fault) => Ok(None),
    }
}
