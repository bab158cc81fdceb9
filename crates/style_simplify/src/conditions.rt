//! `case` without the pairs that literals decide.

ghost use Rattle.std.specs.Prelude.{◌≡◌, true, IfOk, option_map};
ghost use Rattle.decimal_json.specs.View.{tree_of};
ghost use Rattle.style_simplify.specs.ShorterNodes.{turn_at, open_pairs, is_literal_turn, some_condition, case_of};
ghost use Rattle.style_simplify.specs.ShorterNodes.{shorter_case};
ghost use Rattle.style_simplify.specs.View.{element_seen, elements_seen};
ghost use Rattle.style_simplify.specs.declared.conditions.CaseTurn.TheVariants.{Condition};

use crate::element::{SimpleElement, copy_of};
use crate::literal_role::headed;
use decimal_json::Json;
use expr_syntax::Operator;
use prop_values::Want;
use std::alloc::{AllocError, Global};

/// What comes next in a `case`: a condition, or the output of one that is no literal, that is false, or that is
/// true.
#[derive(Clone, Copy, Debug, PartialEq, Eq)]
pub(crate) enum CaseTurn {
    Condition,
    Output,
    PassedOutput,
    ChosenOutput,
}

// What comes after a condition.
fn turn_at(json: &Json) -> CaseTurn
    ensures { result ≡ turn_at (tree_of json.now) }
{
    match json {
        Json::Bool(true) => CaseTurn::ChosenOutput,
        Json::Bool(false) => CaseTurn::PassedOutput,
        _ => CaseTurn::Output,
    }
}

fn is_literal_turn(turn: CaseTurn) -> bool
    ensures { result ≡ is_literal_turn turn }
{
    !matches!(turn, CaseTurn::Output)
}

// Whether a condition is a literal.
fn some_condition(pairs: &[SimpleElement]) -> bool
    ensures { result ≡ some_condition true (elements_seen pairs.now) }
{
    let mut is_condition = true;
    for element in pairs {
        if is_condition && is_literal_turn(turn_at(&element.json)) {
            return true;
        }
        is_condition = !is_condition;
    }
    false
}

// The conditions and outputs that are left, and the last output.
#[tactic(auto, using(crate::proofs::ElementLaws::seen_end, crate::proofs::ElementLaws::seen_more))]
fn open_pairs(
    alloc: Global,
    pairs: &[SimpleElement],
    last: &SimpleElement,
) -> Result<Vec<SimpleElement>, AllocError>
    ensures { IfOk result (λ made. elements_seen made.items
        ≡ open_pairs Condition (elements_seen pairs.now) (element_seen last.now)) }
{
    let mut made = Vec::new(alloc);
    let mut turn = CaseTurn::Condition;
    for element in pairs {
        match turn {
            CaseTurn::Condition => {
                turn = turn_at(&element.json);
                if !is_literal_turn(turn) {
                    made.push(copy_of(alloc, element)?)?;
                }
            }
            CaseTurn::Output => {
                made.push(copy_of(alloc, element)?)?;
                turn = CaseTurn::Condition;
            }
            CaseTurn::PassedOutput => turn = CaseTurn::Condition,
            CaseTurn::ChosenOutput => {
                made.push(copy_of(alloc, element)?)?;
                return Ok(made);
            }
        }
    }
    made.push(copy_of(alloc, last)?)?;
    Ok(made)
}

#[tactic(auto, using(crate::proofs::ElementLaws::case_many))]
fn case_of(
    alloc: Global,
    want: &Want,
    head: &SimpleElement,
    elements: &[SimpleElement],
) -> Result<SimpleElement, AllocError>
    ensures { IfOk result
        (λ made. element_seen made ≡ case_of want.now (element_seen head.now) (elements_seen elements.now)) }
{
    match elements {
        [] => headed(alloc, &Operator::Case, want, head, elements),
        [output] => copy_of(alloc, output),
        [_, _, ..] => headed(alloc, &Operator::Case, want, head, elements),
    }
}

/// What a `case` becomes, or `None` exactly where no condition is a literal.
#[tactic(auto, using(crate::proofs::ElementLaws::seen_take, crate::proofs::ElementLaws::seen_got, crate::proofs::ElementLaws::seen_length))]
pub(crate) fn shorter_case(
    alloc: Global,
    want: &Want,
    head: &SimpleElement,
    elements: &[SimpleElement],
) -> Result<Option<SimpleElement>, AllocError>
    ensures { IfOk result (λ made. option_map element_seen made
        ≡ shorter_case want.now (element_seen head.now) (elements_seen elements.now)) }
{
    let [pairs @ .., last] = elements else {
        return Ok(None);
    };
    if !some_condition(pairs) {
        return Ok(None);
    }
    let left = open_pairs(alloc, pairs, last)?;
    Ok(Some(case_of(alloc, want, head, left.as_slice())?))
}
