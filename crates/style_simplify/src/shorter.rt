//! What a node becomes by the literals among its arguments.

ghost use Rattle.std.specs.Prelude.{◌≡◌, IfOk, length, option_map};
ghost use Rattle.std.specs.List.{slice_get};
ghost use Rattle.prop_values.specs.View.{data_of};
ghost use Rattle.style_simplify.specs.ShorterNodes.{arguments_in, chosen_output, shorter_match, shorter_by, shorter};
ghost use Rattle.style_simplify.specs.View.{element_seen, elements_seen};

use crate::conditions::shorter_case;
use crate::element::{SimpleElement, copy_of};
use crate::literal_role::shorter_join;
use crate::literals::literal_value;
use expr_syntax::{Labels, Operator};
use prop_values::{Value, Want};
use std::alloc::{AllocError, Global};

fn argument_count(elements: &[SimpleElement]) -> usize
    ensures { result ≡ length (arguments_in (elements_seen elements.now)) }
{
    let mut count = 0;
    for element in elements {
        if !element.is_part {
            count += 1;
        }
    }
    count
}

// The argument of a number, counted from 0.
fn argument_at(number: usize, elements: &[SimpleElement]) -> Option<&SimpleElement>
    ensures { option_map (λ e. element_seen e.now) result
        ≡ slice_get (arguments_in (elements_seen elements.now)) number }
{
    let mut before = number;
    for element in elements {
        if !element.is_part {
            if before == 0 {
                return Some(element);
            }
            before -= 1;
        }
    }
    None
}

// The output that a value chooses.
fn chosen_output(
    alloc: Global,
    labels: &Labels,
    elements: &[SimpleElement],
    value: Option<Value>,
) -> Result<Option<SimpleElement>, AllocError>
    ensures { IfOk result (λ made. option_map element_seen made
        ≡ chosen_output labels.now (arguments_in (elements_seen elements.now)) (option_map data_of value)) }
{
    let Some(value) = value else {
        return Ok(None);
    };
    let last = argument_count(elements).saturating_sub(2);
    let Some(number) = labels.output_of(&value, last).checked_add(1) else {
        return Ok(None);
    };
    match argument_at(number, elements) {
        Some(output) => Ok(Some(copy_of(alloc, output)?)),
        None => Ok(None),
    }
}

fn shorter_match(
    alloc: Global,
    labels: &Labels,
    elements: &[SimpleElement],
) -> Result<Option<SimpleElement>, AllocError>
    ensures { IfOk result
        (λ made. option_map element_seen made ≡ shorter_match labels.now (elements_seen elements.now)) }
{
    match elements {
        [] => Ok(None),
        [input, ..] => {
            let value = literal_value(alloc, &input.json)?;
            chosen_output(alloc, labels, elements, value)
        }
    }
}

fn shorter_by(
    alloc: Global,
    op: &Operator,
    want: &Want,
    head: &SimpleElement,
    elements: &[SimpleElement],
) -> Result<Option<SimpleElement>, AllocError>
    ensures { IfOk result (λ made. option_map element_seen made
        ≡ shorter_by op.now want.now (element_seen head.now) (elements_seen elements.now)) }
{
    match op {
        Operator::All => shorter_join(alloc, op, want, head, elements),
        Operator::Any => shorter_join(alloc, op, want, head, elements),
        Operator::Coalesce => shorter_join(alloc, op, want, head, elements),
        Operator::Case => shorter_case(alloc, want, head, elements),
        Operator::Match(labels) => shorter_match(alloc, labels, elements),
        _ => Ok(None),
    }
}

/// What a node of elements, its name first, becomes by the literals among them, or `None` exactly where none
/// decides.
pub(crate) fn shorter(
    alloc: Global,
    op: &Operator,
    want: &Want,
    elements: &[SimpleElement],
) -> Result<Option<SimpleElement>, AllocError>
    ensures { IfOk result
        (λ made. option_map element_seen made ≡ shorter op.now want.now (elements_seen elements.now)) }
{
    match elements {
        [] => Ok(None),
        [head, others @ ..] => shorter_by(alloc, op, want, head, others),
    }
}
