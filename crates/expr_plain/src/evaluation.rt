//! The memory of an evaluation: what bindings gave so far, and the values of arguments that wait for their node.

ghost use Rattle.std.specs.Prelude.{◌≡◌, ◌++◌, ◌<◌, ◌≤◌, [], drop, length, take, slice_set, IfOk};
ghost use Rattle.std.specs.Option.{option_map};
ghost use Rattle.std.specs.List.{slice_get};
ghost use Rattle.prop_values.specs.View.{data_of};
ghost use Rattle.prop_values.specs.ViewParts.{values_view};
ghost use Rattle.property_tables.specs.Fitting.{fit};
ghost use Rattle.operator_values.specs.Evaluated.{GivesValue, then_value};
ghost use Rattle.eval_face.specs.Rules.{rule_of};
ghost use Rattle.operator_rules.specs.RuleParts.{applied_by};
ghost use Rattle.expr_plain.specs.Slots.{waiting, done_in};
ghost use Rattle.expr_plain.specs.declared.evaluation.BindingSlot.TheVariants.{Done};

use expr_syntax::{Expr, Operator};
use operator_rules::{WorldView, node_value};
use operator_values::Halt;
use prop_values::{Value, Want, copy};
use std::alloc::{AllocError, Global};

/// What a binding gave when it was asked for, or nothing yet.
#[derive(Drop)]
pub(crate) enum BindingSlot {
    Waiting,
    Done(Value),
}

/// An evaluation under way.
#[derive(Drop)]
pub(crate) struct Evaluation {
    pub(crate) alloc: Global,
    /// A slot for each binding of the frames that were entered and not left, those of the first frame first.
    pub(crate) slots: Vec<BindingSlot>,
    /// The stack of the values of arguments whose node is not evaluated yet.
    pub(crate) values: Vec<Value>,
}

impl Evaluation {
    pub(crate) fn new(alloc: Global) -> Evaluation
        ensures slots { result.slots.items ≡ [] }
        ensures values { result.values.items ≡ [] }
    {
        Evaluation {
            alloc,
            slots: Vec::new(alloc),
            values: Vec::new(alloc),
        }
    }

    /// Adds a slot for each binding, and gives the place of the first.
    pub(crate) fn open_slots(&mut self, bindings: &[Expr]) -> Result<usize, AllocError>
        ensures first { IfOk result (λ first. first ≡ length self.old.slots.items) }
        ensures slots { IfOk result (λ _. self.new.slots.items ≡ self.old.slots.items ++ waiting bindings.now) }
        ensures values { IfOk result (λ _. self.new.values ≡ self.old.values) }
    {
        let first = self.slots.as_slice().len();
        self.slots.reserve(bindings.len())?;
        for _binding in bindings {
            self.slots.push(BindingSlot::Waiting)?;
        }
        Ok(first)
    }

    /// Lets go of the slots from a place on.
    pub(crate) fn close_slots(&mut self, first: usize)
        ensures slots { self.new.slots.items ≡ take first self.old.slots.items }
        ensures values { self.new.values ≡ self.old.values }
    {
        self.slots.truncate(first);
    }

    /// What a binding gave, where it was asked for.
    pub(crate) fn kept(&self, slot: usize) -> Option<&Value>
        requires { slot < length self.now.slots.items }
        ensures { option_map (λ value. data_of value.now) result
            ≡ done_in (slice_get self.now.slots.items slot) }
    {
        match &self.slots[slot] {
            BindingSlot::Done(value) => Some(value),
            BindingSlot::Waiting => None,
        }
    }

    /// Keeps what a binding gave.
    #[tactic(auto, using(prop_values::proofs::ViewLaws::value_again))]
    pub(crate) fn keep(&mut self, slot: usize, value: &Value) -> Result<(), AllocError>
        requires { slot < length self.old.slots.items }
        ensures slots { IfOk result (λ _. self.new.slots.items
            ≡ slice_set self.old.slots.items slot (Done value.now)) }
        ensures values { self.new.values ≡ self.old.values }
    {
        self.slots[slot] = BindingSlot::Done(copy(value)?);
        Ok(())
    }

    /// What an operator gives of the values of the stack from a base on, of which it lets go.
    pub(crate) fn take_value<W: WorldView>(
        &mut self,
        op: &Operator,
        base: usize,
        want: &Want,
        world: &W,
    ) -> Result<Value, Halt>
        requires { base ≤ length self.old.values.items }
        ensures meant { GivesValue result
            (then_value (applied_by (rule_of op.now) (W.world world.now)
            (values_view (drop base self.old.values.items))) (fit want.now)) }
        ensures values { self.new.values.items ≡ take base self.old.values.items }
        ensures slots { self.new.slots ≡ self.old.slots }
    {
        let values = self.values.as_slice();
        let value = node_value(self.alloc, op, &values[base..], want, world);
        self.values.truncate(base);
        value
    }
}
