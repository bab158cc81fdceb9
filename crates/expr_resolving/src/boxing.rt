//! Expressions for an evaluator that counts.

ghost use Rattle.std.specs.Prelude.{◌≡◌, [], IfOk};
ghost use Rattle.expr_syntax.specs.ReadTerms.{IsRead};
ghost use Rattle.expr_syntax.specs.TermView.{term_of};
ghost use Rattle.expr_types.specs.JudgedFacts.{places_in};
ghost use Rattle.eval_face.specs.World.{World};
ghost use Rattle.expr_nodes.specs.Marks.{MarksHold};
ghost use Rattle.expr_nodes.specs.Evaluators.{sized_node, sized_term};

use crate::marks::marks_of;
use crate::node_count::node_count;
use crate::resolving::{resolve, resolve_marked};
use expr_nodes::{
    BoxedExpression, marked_expressions_mean_the_same, resolved_expressions_mean_the_same,
};
use expr_syntax::Expr;
use expr_types::Placed;
use fit_laws::checked_nodes_fit;
use prop_values::Want;
use std::alloc::{AllocError, Global};

/// An expression under a want as its nodes, which give in every world what the expression means, with how many nodes
/// the expression has. It is an error only where an allocation fails or there are more than `u64::MAX` nodes.
pub fn boxed(alloc: Global, expression: Expr, want: Want) -> Result<BoxedExpression, AllocError>
    ensures { IfOk result (λ made. sized_node made ≡ sized_term (term_of expression) want) }
{
    resolved_expressions_mean_the_same();
    let Some(nodes) = node_count(&expression) else {
        return Err(AllocError);
    };
    let (root, bindings) = resolve(alloc, expression, want)?;
    Ok(BoxedExpression::new(root, bindings, nodes))
}

/// The same, where the tests that always succeed are left out. The places are those of a check of the expression under
/// the want (`Typed::into_places`). One that is refused has none, and keeps all its tests.
pub fn boxed_checked(
    alloc: Global,
    expression: Expr,
    want: Want,
    places: &[Placed],
) -> Result<BoxedExpression, AllocError>
    requires read { IsRead [] (term_of expression) }
    requires places { places.now ≡ places_in (term_of expression, want) }
    ensures { IfOk result (λ made. sized_node made ≡ sized_term (term_of expression) want) }
{
    checked_nodes_fit();
    let marks = marks_of(alloc, places)?;
    boxed_marked(alloc, expression, want, marks.as_slice())
}

// The same by marks, each of which says of a node, in preorder, that under its want it gives what it gives where
// anything is wanted.
fn boxed_marked(
    alloc: Global,
    expression: Expr,
    want: Want,
    marks: &[bool],
) -> Result<BoxedExpression, AllocError>
    requires { (world : World) → MarksHold (term_of expression) want marks.now [] world }
    ensures { IfOk result (λ made. sized_node made ≡ sized_term (term_of expression) want) }
{
    marked_expressions_mean_the_same();
    let Some(nodes) = node_count(&expression) else {
        return Err(AllocError);
    };
    let (root, bindings) = resolve_marked(alloc, expression, want, marks)?;
    Ok(BoxedExpression::new(root, bindings, nodes))
}
