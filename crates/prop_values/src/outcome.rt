use crate::fault::EvalFault;
use crate::value::Value;
use fixed_num::Fixed;

/// How a stop function goes from one stop to the next: evenly, or by powers of a base.
#[derive(Clone, Copy, Debug, PartialEq, Eq)]
pub enum Curve {
    Linear,
    Exponential(Fixed),
}

/// What a listing has for a property: its value; the value in its place (none where the property has no
/// default) and the fault of its evaluation; or that it is outside of what is evaluated.
#[derive(Drop)]
pub enum Outcome {
    Given(Value),
    Faulted(Option<Value>, EvalFault),
    Outside,
}
