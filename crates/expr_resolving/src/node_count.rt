//! How many nodes an expression has.

ghost use Rattle.std.specs.Prelude.{◌≡◌, ◌^◌, ◌≤◌, IfNone, IfSome};
ghost use Rattle.expr_syntax.specs.TermSize.{nodes};
ghost use Rattle.expr_syntax.specs.TermView.{term_of, weight};

use expr_syntax::Expr;

/// How many nodes an expression has, literals counted. `None` exactly where there are 2^64 or more.
#[cycle(node_count)]
pub(crate) fn node_count(expression: &Expr) -> Option<u64>
    ensures some { IfSome result (λ count. count ≡ nodes (term_of expression.now)) }
    ensures none { IfNone result (2 ^ 64 ≤ nodes (term_of expression.now)) }
{
    match expression {
        Expr::Literal(_) => Some(1),
        Expr::Node(_, arguments) => total_count(arguments.as_slice())?.checked_add(1),
    }
}

#[tactic(auto, using(expr_syntax::proofs::Falls::argument_weight))]
#[cycle(node_count)]
fn total_count(expressions: &[Expr]) -> Option<u64>
    ensures some { IfSome result (λ count. count ≡ weight expressions.now) }
    ensures none { IfNone result (2 ^ 64 ≤ weight expressions.now) }
{
    let mut total = 0u64;
    for expression in expressions {
        let Some(count) = node_count(expression) else {
            return None;
        };
        let Some(sum) = total.checked_add(count) else {
            return None;
        };
        total = sum;
    }
    Some(total)
}
