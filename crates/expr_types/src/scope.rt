//! The kinds of the names around an expression.

ghost use Rattle.std.specs.Prelude.{◌≡◌};
ghost use Rattle.expr_types.specs.Typing.{own_named};
ghost use Rattle.expr_types.specs.ScopeView.{scope_of};

use crate::bindings::{Bound, last_kind};
use crate::own::{Own, ill_typed, owns};
use prop_values::FaultSet;

/// The names around an expression with their kinds: those of each `let`, the innermost first.
#[derive(Drop)]
pub enum KindScope<'a> {
    Empty,
    Inside(Bound<'a>, &'a KindScope<'a>),
}

/// What a `var` has of its own.
pub(crate) fn own_named(scope: &KindScope<'_>, asked: &str) -> Own
    ensures { result ≡ own_named (scope_of scope.now) asked.now }
{
    match scope {
        KindScope::Empty => ill_typed(),
        KindScope::Inside(bound, outer) => match last_kind(bound, asked) {
            Some(kind) => owns(kind, FaultSet::empty()),
            None => own_named(outer, asked),
        },
    }
}
