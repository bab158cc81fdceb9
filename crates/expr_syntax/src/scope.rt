//! The names around an expression.

ghost use Rattle.std.specs.Prelude.{◌≡◌, option_map};
ghost use Rattle.prop_values.specs.View.{data_of};
ghost use Rattle.expr_syntax.specs.Scopes.{is_known, global_at};
ghost use Rattle.expr_syntax.specs.ReadView.{scope_of};
ghost use Rattle.expr_syntax.specs.BoundNames.{is_among};

use crate::bound_names::Names;
use prop_values::{Entries, Value};

/// The names around an expression: the values of the global state, and inside of them the names of each
/// `let`.
#[derive(Drop)]
pub(crate) enum Scope<'a> {
    Globals(&'a Entries),
    Inside(&'a Names, &'a Scope<'a>),
}

/// Whether a `let` binds a name. Time is logarithmic in the names of each `let`, and linear in their number.
pub(crate) fn knows(scope: &Scope<'_>, name: &str) -> bool
    ensures { result ≡ is_known (scope_of scope.now) name.now }
{
    match scope {
        Scope::Globals(_) => false,
        Scope::Inside(names, outer) => binds(names, name) || knows(outer, name),
    }
}

#[tactic(auto, using(crate::proofs::NameIndexLaws::place_of_known))]
fn binds(names: &Names, name: &str) -> bool
    ensures { result ≡ is_among names.now name.now }
{
    names.last_place(name).is_some()
}

/// The value of a name of the global state.
pub(crate) fn global_at<'a>(scope: &Scope<'a>, name: &str) -> Option<&'a Value>
    ensures { option_map (λ v. data_of v.now) result ≡ global_at (scope_of scope.now) name.now }
{
    match scope {
        Scope::Globals(values) => values.get(name),
        Scope::Inside(_, outer) => global_at(outer, name),
    }
}
