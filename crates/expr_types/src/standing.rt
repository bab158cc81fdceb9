ghost use Rattle.std.specs.Prelude.{◌≡◌, ◌<◌, ◌^◌};
ghost use Rattle.expr_types.specs.Visits.{below_reached, standing_of};

use expr_syntax::Operator;

/// The place of a node in an expression.
#[derive(Clone, Copy, Debug, PartialEq, Eq)]
pub enum Standing {
    /// At the root, or where a node that is reached takes its value from.
    Reached,
    /// As the input of a `step` or `interpolate` that is reached.
    Input,
    Elsewhere,
}

impl Standing {
    /// The argument of a node, by its number from 0 and the number of arguments.
    pub(crate) fn of_argument(self, op: &Operator, count: usize, argument: usize) -> Standing
        requires { argument < 2 ^ 63 }
        ensures { result ≡ standing_of self op.now count argument }
    {
        match self {
            Standing::Reached => below_reached(op, count, argument),
            _ => Standing::Elsewhere,
        }
    }
}

fn below_reached(op: &Operator, count: usize, argument: usize) -> Standing
    requires { argument < 2 ^ 63 }
    ensures { result ≡ below_reached op.now count argument }
{
    match op {
        Operator::Coalesce => Standing::Reached,
        Operator::Let(_) if argument + 1 == count => Standing::Reached,
        Operator::Step(_) | Operator::Interpolate(_) if argument == 0 => Standing::Input,
        _ => Standing::Elsewhere,
    }
}
