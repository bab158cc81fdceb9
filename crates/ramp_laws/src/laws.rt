//! What the definitions mean, each law on a function that does nothing.
ghost use Rattle.ramp_laws.specs.RampLaw.{RampsGiveTheirOutputs, StepsGiveTheirOutputs};
ghost use Rattle.ramp_laws.specs.RampLaw.{FunctionsGiveTheirOutputs, FunctionsGiveTheirRules, RulesGiveTheirOutputs};

/// An `interpolate` that gives a value gives at each of its inputs the output of the input.
pub fn ramps_give_their_outputs()
    ensures { RampsGiveTheirOutputs }
{}

/// A `step` gives at each of its inputs what the output of the input gives.
pub fn steps_give_their_outputs()
    ensures { StepsGiveTheirOutputs }
{}

/// A legacy function over numbers that gives a value gives at each of its stops the output of the stop.
pub fn functions_give_their_outputs()
    ensures { FunctionsGiveTheirOutputs }
{}

/// A legacy function with a rule for each of some zooms gives at these zooms the result of the rule, where it
/// gives a value.
pub fn functions_give_their_rules()
    ensures { FunctionsGiveTheirRules }
{}

/// A rule over numbers that gives a value gives at each of its stops the output of the stop.
pub fn rules_give_their_outputs()
    ensures { RulesGiveTheirOutputs }
{}
