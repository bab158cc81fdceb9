//! The memory of evaluations: what bindings gave so far, and the values of arguments that wait for their node.

ghost use Rattle.std.specs.Prelude.{◌≡◌, ◌<◌, ◌≤◌, [], drop, length, take, slice_set, replicate, IfOk};
ghost use Rattle.std.specs.Option.{option_map};
ghost use Rattle.std.specs.List.{slice_get};
ghost use Rattle.prop_values.specs.View.{data_of};
ghost use Rattle.prop_values.specs.ViewParts.{values_view};
ghost use Rattle.property_tables.specs.Fitting.{fit};
ghost use Rattle.operator_values.specs.Evaluated.{GivesValue, then_value};
ghost use Rattle.eval_face.specs.Rules.{rule_of};
ghost use Rattle.operator_rules.specs.RuleParts.{applied_by};
ghost use Rattle.expr_nodes.specs.Slots.{done_in};
ghost use Rattle.expr_nodes.specs.declared.workspace.PromiseSlot.TheVariants.{Waiting, Done};

use expr_syntax::Operator;
use operator_rules::{WorldView, node_value};
use operator_values::Halt;
use prop_values::{EvalFault, Value, Want, copy};
use std::alloc::{AllocError, Global};

/// What a binding gave when it was asked for, or nothing yet.
#[derive(Drop)]
pub(crate) enum PromiseSlot {
    Waiting,
    Done(Value),
}

/// The memory in which expressions are evaluated, one after another. It keeps its room, and what an evaluation leaves
/// in it means nothing to the next one.
#[derive(Drop)]
pub struct Workspace {
    pub(crate) alloc: Global,
    /// A slot for each binding.
    pub(crate) slots: Vec<PromiseSlot>,
    /// What bindings gave that were evaluated in turn.
    pub(crate) given: Vec<Result<Value, EvalFault>>,
    /// The stack of the values of arguments whose node is not evaluated yet.
    pub(crate) values: Vec<Value>,
}

impl Workspace {
    /// An empty one, which takes no memory.
    pub fn new(alloc: Global) -> Workspace {
        Workspace {
            alloc,
            slots: Vec::new(alloc),
            given: Vec::new(alloc),
            values: Vec::new(alloc),
        }
    }

    /// Begins the evaluation of an expression with so many bindings, none of which was asked for.
    pub(crate) fn begin(&mut self, count: usize) -> Result<(), AllocError>
        ensures { IfOk result (λ _. self.new.slots.items ≡ replicate count Waiting) }
    {
        self.clear();
        if count == 0 {
            return Ok(());
        }
        self.slots.reserve(count)?;
        for _slot in 0..count {
            self.slots.push(PromiseSlot::Waiting)?;
        }
        Ok(())
    }

    /// Begins the evaluation of a node that asks for no binding.
    pub(crate) fn clear(&mut self)
        ensures { self.new.slots.items ≡ [] }
    {
        empty(&mut self.values);
        empty(&mut self.slots);
    }

    /// What a binding gave, where it was asked for.
    pub(crate) fn kept(&self, slot: usize) -> Option<&Value>
        requires { slot < length self.now.slots.items }
        ensures { option_map (λ value. data_of value.now) result
            ≡ done_in (slice_get self.now.slots.items slot) }
    {
        match &self.slots[slot] {
            PromiseSlot::Done(value) => Some(value),
            PromiseSlot::Waiting => None,
        }
    }

    /// Keeps what a binding gave.
    #[tactic(auto, using(prop_values::proofs::ViewLaws::value_again))]
    pub(crate) fn keep(&mut self, slot: usize, value: &Value) -> Result<(), AllocError>
        requires { slot < length self.old.slots.items }
        ensures slots { IfOk result (λ _. self.new.slots.items
            ≡ slice_set self.old.slots.items slot (Done value.now)) }
        ensures values { self.new.values ≡ self.old.values }
    {
        self.slots[slot] = PromiseSlot::Done(copy(value)?);
        Ok(())
    }

    /// What an operator gives of the values of the stack from a base on, of which it lets go.
    pub(crate) fn take_value<W: WorldView>(
        &mut self,
        op: &Operator,
        base: usize,
        want: &Want,
        world: &W,
    ) -> Result<Value, Halt>
        requires { base ≤ length self.old.values.items }
        ensures meant { GivesValue result
            (then_value (applied_by (rule_of op.now) (W.world world.now)
            (values_view (drop base self.old.values.items))) (fit want.now)) }
        ensures values { self.new.values.items ≡ take base self.old.values.items }
        ensures slots { self.new.slots ≡ self.old.slots }
    {
        let values = self.values.as_slice();
        let value = node_value(self.alloc, op, &values[base..], want, world);
        self.values.truncate(base);
        value
    }
}

/// Lets go of all items. Most evaluations leave none.
#[tactic(auto, using(crate::proofs::SlotLaws::none_there))]
pub(crate) fn empty<T: Drop>(items: &mut Vec<T>)
    ensures { items.new.items ≡ [] }
{
    if !items.is_empty() {
        items.clear();
    }
}
