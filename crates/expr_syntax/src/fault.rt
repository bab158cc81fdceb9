ghost use Rattle.std.specs.Prelude.{◌≡◌};
ghost use Rattle.expr_syntax.specs.FaultName.{code_name};

use decimal_json::Path;

/// Why a JSON tree is no expression. Of two at one node the earlier counts.
#[derive(Clone, Copy, Debug, PartialEq, Eq)]
pub enum SynCode {
    /// An array is empty or does not begin with a text.
    NoOperator,
    UnknownOperator,
    /// The operator does not take so many elements.
    Arity,
    /// A part of the operator is not of its form, or occurs twice, or is out of order.
    Part,
    /// There is an object where an expression has to be.
    BareObject,
    /// A number is past the bound.
    NumberRange,
    /// No `let` around a `var` binds its name.
    UnknownVar,
}

impl SynCode {
    pub fn name(self) -> &'static str
        ensures { result.now ≡ code_name self }
    {
        match self {
            SynCode::NoOperator => "NoOperator",
            SynCode::UnknownOperator => "UnknownOperator",
            SynCode::Arity => "Arity",
            SynCode::Part => "Part",
            SynCode::BareObject => "BareObject",
            SynCode::NumberRange => "NumberRange",
            SynCode::UnknownVar => "UnknownVar",
        }
    }
}

/// The first fault of a tree that is no expression, and the path of its node.
#[derive(Drop)]
pub struct SynFault {
    pub path: Path,
    pub code: SynCode,
}
