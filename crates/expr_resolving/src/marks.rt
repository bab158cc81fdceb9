//! Which nodes of an expression are marked as always fitting: a truth value for each, in preorder.

ghost use Rattle.std.specs.Prelude.{◌≡◌, drop, IfOk};
ghost use Rattle.expr_syntax.specs.TermSize.{nodes};
ghost use Rattle.expr_syntax.specs.TermView.{term_of};
ghost use Rattle.eval_face.specs.Rules.{rule_of};
ghost use Rattle.expr_nodes.specs.Resolving.{has_fit, is_marked, own_want, untested};
ghost use Rattle.fit_laws.specs.MarkedNodes.{marks_of};

use crate::node_count::node_count;
use expr_syntax::{Expr, Operator};
use expr_types::Placed;
use prop_values::Want;
use std::alloc::{AllocError, Global};

/// The marks of nodes of which this is known.
pub(crate) fn marks_of(alloc: Global, places: &[Placed]) -> Result<Vec<bool>, AllocError>
    ensures { IfOk result (λ marks. marks.items ≡ marks_of places.now) }
{
    let mut marks = Vec::new(alloc);
    for place in places {
        marks.push(place.always)?;
    }
    Ok(marks)
}

/// What a node fits its value to: where it is marked, nothing, but for what is shown.
pub(crate) fn own_want(op: &Operator, marks: &[bool], want: Want) -> Want
    ensures { result ≡ own_want op.now marks.now want }
{
    if has_fit(op) && is_marked(marks) {
        untested(want)
    } else {
        want
    }
}

/// The marks of the nodes below the first.
pub(crate) fn below(marks: &[bool]) -> &[bool]
    ensures { result.now ≡ drop 1 marks.now }
{
    match marks {
        [_, rest @ ..] => rest,
        [] => marks,
    }
}

/// The marks of the nodes after those of an expression. Where there are none, its nodes are not counted.
#[tactic(auto, using(crate::proofs::MarkLaws::none_left))]
pub(crate) fn after<'m>(marks: &'m [bool], expression: &Expr) -> &'m [bool]
    ensures { result.now ≡ drop (nodes (term_of expression.now)) marks.now }
{
    if marks.is_empty() {
        return marks;
    }
    match node_count(expression) {
        Some(count) if count < marks.len() as u64 => &marks[count as usize..],
        _ => &[],
    }
}

// Whether a node of an operator fits its own value.
fn has_fit(op: &Operator) -> bool
    ensures { result ≡ has_fit (rule_of op.now) }
{
    !matches!(
        op,
        Operator::Case
            | Operator::Match(_)
            | Operator::Step(_)
            | Operator::Interpolate(_)
            | Operator::Let(_)
    )
}

fn is_marked(marks: &[bool]) -> bool
    ensures { result ≡ is_marked marks.now }
{
    match marks {
        [first, ..] => *first,
        [] => false,
    }
}

fn untested(want: Want) -> Want
    ensures { result ≡ untested want }
{
    match want {
        Want::Shown => Want::Shown,
        _ => Want::Any,
    }
}
