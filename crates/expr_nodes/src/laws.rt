//! What resolving promises, on a function that does nothing.
ghost use Rattle.expr_nodes.specs.Resolved.{ResolvedExpressionsMeanTheSame, MarkedExpressionsMeanTheSame};

/// An expression and its node with its bindings give the same in every world under every want. The node and
/// the bindings can be evaluated from the first binding to the last, and have no more nodes than the
/// expression. Source: own.
pub fn resolved_expressions_mean_the_same()
    ensures { ResolvedExpressionsMeanTheSame }
{}

/// The same where the tests of marked nodes are left out, if each of them gives under its want what it gives where
/// anything is wanted. Source: own.
pub fn marked_expressions_mean_the_same()
    ensures { MarkedExpressionsMeanTheSame }
{}
