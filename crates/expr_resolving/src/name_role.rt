//! What an operator has to do with names.

ghost use Rattle.expr_resolving.specs.NameRoles.{IsRoleOf};

use decimal_json::Text;
use expr_syntax::{Names, Operator};

/// An operator by what it has to do with names.
#[derive(Drop)]
pub(crate) enum NameRole {
    /// `let`.
    Binds(Names),
    /// `var`.
    Asks(Text),
    Neither(Operator),
}

pub(crate) fn name_role(op: Operator) -> NameRole
    ensures { IsRoleOf result op }
{
    match op {
        Operator::Let(names) => NameRole::Binds(names),
        Operator::Var(name) => NameRole::Asks(name.into_text()),
        other => NameRole::Neither(other),
    }
}
