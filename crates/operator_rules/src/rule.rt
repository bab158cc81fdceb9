//! The rules of operators, with their parts.

ghost use Rattle.std.specs.Prelude.{◌≡◌};
ghost use Rattle.eval_face.specs.Rules.{rule_of};
ghost use Rattle.operator_rules.specs.ProgramRules.{rule_in, HasAscendingInputs};

use decimal_json::Text;
use expr_syntax::{Labels, Manner, Names, Operator, Ramp};
use fixed_num::Fixed;

/// How an operator evaluates its arguments, and what decides between them.
#[derive(Drop)]
pub enum OperatorRule<'a> {
    /// All of them, and their values decide.
    Each,
    /// One after the other, to the first that decides.
    Deciding,
    /// `case`.
    Cases,
    /// `match`.
    Labels(&'a Labels),
    /// `step`.
    Stops(&'a [Fixed]),
    /// `interpolate`.
    Ramp(&'a Ramp),
    /// `let`.
    Bindings(&'a Names),
    /// `var`.
    Variable(&'a Text),
}

/// The rule of an operator. Where no part decides it is that of the manner in the operator's row.
pub fn rule_of<'a>(op: &'a Operator) -> OperatorRule<'a>
    ensures rule { rule_in op.now result ≡ rule_of op.now }
    ensures sound { HasAscendingInputs result }
{
    match op {
        Operator::Case => OperatorRule::Cases,
        Operator::Match(labels) => OperatorRule::Labels(labels),
        Operator::Step(inputs) => OperatorRule::Stops(inputs.as_slice()),
        Operator::Interpolate(ramp) => OperatorRule::Ramp(ramp),
        Operator::Let(names) => OperatorRule::Bindings(names),
        Operator::Var(name) => OperatorRule::Variable(name.as_text()),
        _ => match op.row().manner {
            Manner::Deciding => OperatorRule::Deciding,
            _ => OperatorRule::Each,
        },
    }
}
