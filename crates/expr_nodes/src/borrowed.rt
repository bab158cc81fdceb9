//! Values that are there without an evaluation: they are borrowed, and nothing is copied.

ghost use Rattle.std.specs.Prelude.{◌≡◌, ◌+◌, ◌<◌, ◌≤◌, ℤ, List, [], length, IfSome, Ok, true, unwrap_or};
ghost use Rattle.std.specs.Option.{option_map};
ghost use Rattle.prop_values.specs.Data.{null, number, pairs_of};
ghost use Rattle.prop_values.specs.View.{data_of};
ghost use Rattle.prop_values.specs.declared.kinds.Want.TheVariants.{Any};
ghost use Rattle.interpolate_fixed.specs.PlaceFacts.{IsBetween};
ghost use Rattle.interpolate_fixed.specs.Places.{input_at};
ghost use Rattle.property_tables.specs.Fitting.{fit};
ghost use Rattle.operator_values.specs.Evaluated.{Evaluated, GivesValue};
ghost use Rattle.eval_face.specs.Branches.{match_of, between_values};
ghost use Rattle.eval_face.specs.Lookups.{entry_at};
ghost use Rattle.eval_face.specs.World.{World, state_of};
ghost use Rattle.operator_rules.specs.RuleParts.{asserts};
ghost use Rattle.expr_nodes.specs.Node.{inner, children, children_of};
ghost use Rattle.expr_nodes.specs.EvaluatesNode.{outcome_at};
ghost use Rattle.expr_nodes.specs.Outcome.{outcome, each_outcome, all_known};

use crate::access::{NodeForm, NodeHandle};
use decimal_json::Text;
use expr_syntax::{Labels, Operator};
use fixed_num::Fixed;
use operator_rules::{WorldView, asserts, between};
use operator_values::Halt;
use prop_values::{Value, Want};
use std::alloc::Global;
use tile_reader::FeatureProperties;

/// The number that a node of an operator gives without an evaluation: the zoom, or the first argument of `number` where
/// it is there. Most inputs of curves, comparisons and sums are one.
pub(crate) fn number_there<N: NodeHandle, W: WorldView>(
    tree: &N,
    op: &Operator,
    want: &Want,
    world: &W,
) -> Option<Fixed>
    requires { N.node tree.now ≡ inner op.now want.now (children_of (children (N.node tree.now))) }
    ensures { IfSome result (λ there. (promises : List Evaluated) →
        outcome (N.node tree.now) promises (W.world world.now) ≡ Ok (number there)) }
{
    if !takes_numbers(want) {
        return None;
    }
    match op {
        Operator::Zoom if tree.count() == 0 => Some(world.zoom()),
        Operator::Number if tree.count() > 0 => number_in(&tree.child(0), world),
        _ => None,
    }
}

/// Whether a number is wanted, or anything.
pub(crate) fn takes_numbers(want: &Want) -> bool
    ensures { result ≡ true → (z : ℤ) → fit want.now (number z) ≡ Ok (number z) }
{
    matches!(want, Want::Any | Want::Number)
}

// The number that is there.
fn number_in<N: NodeHandle, W: WorldView>(node: &N, world: &W) -> Option<Fixed>
    ensures { IfSome result (λ there. (promises : List Evaluated) →
        outcome (N.node node.now) promises (W.world world.now) ≡ Ok (number there)) }
{
    match borrowed_value(node, world) {
        Some(Value::Num(there)) => Some(*there),
        _ => None,
    }
}

/// The number of the output that a `match` chooses, where its input is there.
pub(crate) fn output_there<N: NodeHandle, W: WorldView>(
    tree: &N,
    labels: &Labels,
    world: &W,
) -> Option<usize>
    requires { 1 ≤ length (children (N.node tree.now)) }
    ensures { IfSome result (λ place. (promises : List Evaluated) →
        outcome_at (each_outcome (children (N.node tree.now)) promises (W.world world.now)) (place + 1)
        ≡ match_of labels.now (all_known (each_outcome (children (N.node tree.now)) promises (W.world world.now)))
        Any [] (W.world world.now)) }
{
    let absent = Value::Null;
    let input = tree.child(0);
    let value = borrowed_or(&input, world, &absent)?;
    Some(labels.output_of(value, (tree.count() - 1).saturating_sub(1)))
}

/// What is between the outputs of a ramp at input i and at the next, where both are constants.
pub(crate) fn between_there<N: NodeHandle>(
    alloc: Global,
    tree: &N,
    inputs: &[Fixed],
    at: Fixed,
    i: usize,
) -> Option<Result<Value, Halt>>
    requires { IsBetween inputs.now at i }
    ensures within { IfSome result (λ _. i + 2 < length (children (N.node tree.now))) }
    ensures given { IfSome result (λ value. (promises : List Evaluated) (world : World) → GivesValue value
        (between_values at (input_at inputs.now i) (input_at inputs.now (i + 1))
        (outcome_at (each_outcome (children (N.node tree.now)) promises world) (i + 1))
        (outcome_at (each_outcome (children (N.node tree.now)) promises world) (i + 2)))) }
{
    if tree.count() <= i + 2 {
        return None;
    }
    let first = tree.child(i + 1);
    let second = tree.child(i + 2);
    let lower = constant_in(&first)?;
    let upper = constant_in(&second)?;
    Some(between(alloc, inputs, at, i, lower, upper))
}

/// The first argument of a node, where its operator gives it as it is whatever follows.
pub(crate) fn borrowed_decision<'a, N: NodeHandle, W: WorldView>(
    op: &Operator,
    first: &'a N,
    world: &'a W,
) -> Option<&'a Value>
    ensures value { IfSome result (λ value. (promises : List Evaluated) →
        outcome (N.node first.now) promises (W.world world.now) ≡ Ok (data_of value.now)) }
    ensures asserted { IfSome result (λ value. asserts op.now (data_of value.now) ≡ true) }
{
    if !matches!(op, Operator::Number | Operator::String | Operator::Boolean) {
        return None;
    }
    match borrowed_value(first, world) {
        Some(value) if asserts(op, value) => Some(value),
        _ => None,
    }
}

/// A literal that is fitted already.
pub(crate) fn constant_in<'a, N: NodeHandle>(node: &'a N) -> Option<&'a Value>
    ensures { IfSome result (λ value. (promises : List Evaluated) (world : World) →
        outcome (N.node node.now) promises world ≡ Ok (data_of value.now)) }
{
    match node.form() {
        NodeForm::Constant(value) => Some(value),
        _ => None,
    }
}

/// A constant, or the property of a key that is wanted as it is, where the feature has it.
pub(crate) fn borrowed_value<'a, N: NodeHandle, W: WorldView>(
    node: &'a N,
    world: &'a W,
) -> Option<&'a Value>
    ensures { IfSome result (λ value. (promises : List Evaluated) →
        outcome (N.node node.now) promises (W.world world.now) ≡ Ok (data_of value.now)) }
{
    match node.form() {
        NodeForm::Constant(value) => Some(value),
        NodeForm::Property(key, Want::Any) => property_at(world.properties(), key),
        _ => None,
    }
}

/// The same, where a property that the feature does not have is the null that is given.
pub(crate) fn borrowed_or<'a, N: NodeHandle, W: WorldView>(
    node: &'a N,
    world: &'a W,
    absent: &'a Value,
) -> Option<&'a Value>
    requires { data_of absent.now ≡ null }
    ensures { IfSome result (λ value. (promises : List Evaluated) →
        outcome (N.node node.now) promises (W.world world.now) ≡ Ok (data_of value.now)) }
{
    match node.form() {
        NodeForm::Constant(value) => Some(value),
        NodeForm::Property(key, Want::Any) => match property_at(world.properties(), key) {
            Some(value) => Some(value),
            None => Some(absent),
        },
        _ => None,
    }
}

/// The property of a key, or `None` where there is none, which is null.
pub(crate) fn property_at<'a>(
    properties: Option<&'a FeatureProperties>,
    key: &Text,
) -> Option<&'a Value>
    ensures { unwrap_or (option_map (λ value. data_of value.now) result) null
        ≡ entry_at key.now (pairs_of (state_of properties.entry)) }
{
    match properties {
        Some(properties) => properties.get(key.as_str()),
        None => None,
    }
}
