//! Nodes whose arguments are evaluated from left to right: the first fault is the answer.

ghost use Rattle.std.specs.Prelude.{◌≡◌, ◌<◌, [], length, Ok, Some};
ghost use Rattle.std.specs.List.{slice_get};
ghost use Rattle.prop_values.specs.Data.{items_of, list};
ghost use Rattle.expr_syntax.specs.declared.expression.Operator.TheVariants.{In};
ghost use Rattle.eval_face.specs.Meanings.{values_of};
ghost use Rattle.prop_values.specs.declared.kinds.Want.TheVariants.{Any};
ghost use Rattle.operator_rules.specs.RuleParts.{each_of, deciding_of};
ghost use Rattle.expr_nodes.specs.Node.{children, constant, total_size};
ghost use Rattle.expr_nodes.specs.Limits.{EachAsksBelow};
ghost use Rattle.expr_nodes.specs.EvaluatesNode.{IsReady, EvaluatesNode, EvaluatesNodes};
ghost use Rattle.expr_nodes.specs.EvaluatesNode.{known_arguments, arguments_of, argument_in, size_in};

use crate::access::{Bindings, NodeHandle};
use crate::borrowed::{borrowed_decision, borrowed_or};
use crate::evaluation::Surroundings;
use crate::leaves::{has_sequence, membership, pair_value, sequence_value, undecided_value};
use crate::workspace::Workspace;
use expr_syntax::Operator;
use item_index::IndexedList;
use operator_rules::{WorldView, decided, fitted, fitted_copy, is_sequence, node_value};
use operator_values::Halt;
use outside_io::Steps;
use prop_values::{Value, Want};
use std::sync::ledger::Ledger;

impl Workspace {
    /// A node whose operator evaluates all its arguments. The values of up to two take no memory, where none has to be
    /// a text or a list, and two numbers that are known no evaluation.
    #[tactic(auto, using(crate::proofs::NodeLaws::below_at, crate::proofs::NodeLaws::child_size))]
    #[cycle(nodes)]
    pub(crate) fn evaluate_each<N: NodeHandle, B: Bindings<N>, W: WorldView, L: Ledger>(
        &mut self,
        tree: N,
        op: &Operator,
        want: &Want,
        around: &Surroundings<'_, B, W>,
        steps: &mut Steps<L>,
    ) -> Result<Value, Halt>
        requires below { EachAsksBelow around.now.limit (children (N.node tree)) }
        requires ready { IsReady around.now.limit (B.listed around.now.bindings.now)
            (W.world around.now.world.now) self.old }
        ensures { EvaluatesNode around.now.limit (B.listed around.now.bindings.now)
            (W.world around.now.world.now) result
            (each_of op.now
            (known_arguments (N.node tree) (B.listed around.now.bindings.now) (W.world around.now.world.now))
            want.now [] (W.world around.now.world.now))
            (total_size (children (N.node tree))) self.old self.new steps.old steps.new }
    {
        if has_sequence(op) {
            return self.evaluate_many(tree, op, want, around, steps);
        }
        match tree.count() {
            0 => node_value(self.alloc, op, &[], want, around.world),
            1 => {
                let argument = tree.child(0);
                let value = self.evaluate_node(argument, around, steps)?;
                node_value(self.alloc, op, &[value], want, around.world)
            }
            2 => {
                let left = tree.child(0);
                let right = tree.child(1);
                if let Some(known) = self.numbers_known(&left, &right, around) {
                    steps.tick();
                    steps.tick();
                    return pair_value(
                        self.alloc,
                        op,
                        Value::Num(known.0),
                        Value::Num(known.1),
                        want,
                        around.world,
                    );
                }
                let first = self.evaluate_node(left, around, steps)?;
                let second = self.evaluate_node(right, around, steps)?;
                pair_value(self.alloc, op, first, second, want, around.world)
            }
            _ => self.evaluate_many(tree, op, want, around, steps),
        }
    }

    // `in` of a literal list. Neither the list nor a needle that is there is evaluated.
    #[tactic(auto, using(crate::proofs::NodeLaws::below_at, crate::proofs::NodeLaws::child_size))]
    #[cycle(nodes)]
    fn evaluate_among<N: NodeHandle, B: Bindings<N>, W: WorldView, L: Ledger>(
        &mut self,
        tree: N,
        items: &IndexedList,
        want: &Want,
        around: &Surroundings<'_, B, W>,
        steps: &mut Steps<L>,
    ) -> Result<Value, Halt>
        requires two { length (children (N.node tree)) ≡ 2 }
        requires items { slice_get (children (N.node tree)) 1 ≡ Some (constant (Ok (list (items_of items.now)))) }
        requires below { EachAsksBelow around.now.limit (children (N.node tree)) }
        requires ready { IsReady around.now.limit (B.listed around.now.bindings.now)
            (W.world around.now.world.now) self.old }
        ensures { EvaluatesNode around.now.limit (B.listed around.now.bindings.now)
            (W.world around.now.world.now) result
            (each_of In
            (known_arguments (N.node tree) (B.listed around.now.bindings.now) (W.world around.now.world.now))
            want.now [] (W.world around.now.world.now))
            (total_size (children (N.node tree))) self.old self.new steps.old steps.new }
    {
        let absent = Value::Null;
        let needle = tree.child(0);
        if let Some(value) = borrowed_or(&needle, around.world, &absent) {
            steps.tick();
            steps.tick();
            return membership(self.alloc, items, value, want);
        }
        let value = self.evaluate_node(needle, around, steps)?;
        steps.tick();
        membership(self.alloc, items, &value, want)
    }

    // The values of the arguments are at the end of the stack of values while the node is evaluated, but for `in` of a
    // literal list.
    #[tactic(auto, using(crate::proofs::NodeLaws::below_at, crate::proofs::NodeLaws::child_size))]
    #[cycle(nodes)]
    fn evaluate_many<N: NodeHandle, B: Bindings<N>, W: WorldView, L: Ledger>(
        &mut self,
        tree: N,
        op: &Operator,
        want: &Want,
        around: &Surroundings<'_, B, W>,
        steps: &mut Steps<L>,
    ) -> Result<Value, Halt>
        requires below { EachAsksBelow around.now.limit (children (N.node tree)) }
        requires ready { IsReady around.now.limit (B.listed around.now.bindings.now)
            (W.world around.now.world.now) self.old }
        ensures { EvaluatesNode around.now.limit (B.listed around.now.bindings.now)
            (W.world around.now.world.now) result
            (each_of op.now
            (known_arguments (N.node tree) (B.listed around.now.bindings.now) (W.world around.now.world.now))
            want.now [] (W.world around.now.world.now))
            (total_size (children (N.node tree))) self.old self.new steps.old steps.new }
    {
        if matches!(op, Operator::In) && tree.count() == 2 {
            let sequence = tree.child(1);
            if let Some(items) = sequence.indexed() {
                return self.evaluate_among(tree, items, want, around, steps);
            }
        }
        let base = self.values.as_slice().len();
        self.evaluate_values(tree, op, around, steps)?;
        self.take_value(op, base, want, around.world)
    }

    #[tactic(auto, using(crate::proofs::NodeLaws::below_at, crate::proofs::NodeLaws::child_size))]
    #[cycle(nodes)]
    fn evaluate_values<N: NodeHandle, B: Bindings<N>, W: WorldView, L: Ledger>(
        &mut self,
        tree: N,
        op: &Operator,
        around: &Surroundings<'_, B, W>,
        steps: &mut Steps<L>,
    ) -> Result<(), Halt>
        requires below { EachAsksBelow around.now.limit (children (N.node tree)) }
        requires ready { IsReady around.now.limit (B.listed around.now.bindings.now)
            (W.world around.now.world.now) self.old }
        ensures { EvaluatesNodes around.now.limit (B.listed around.now.bindings.now)
            (W.world around.now.world.now) result
            (values_of op.now (length
            (known_arguments (N.node tree) (B.listed around.now.bindings.now) (W.world around.now.world.now))
            ) 0
            (known_arguments (N.node tree) (B.listed around.now.bindings.now) (W.world around.now.world.now))
            Any [] (W.world around.now.world.now))
            (total_size (children (N.node tree))) self.old self.new steps.old steps.new }
    {
        let count = tree.count();
        for place in 0..count {
            let value = self.evaluate_argument(tree, op, place, around, steps)?;
            self.values.push(value)?;
        }
        Ok(())
    }

    // The argument of a place from 0.
    #[tactic(auto, using(crate::proofs::NodeLaws::below_at, crate::proofs::NodeLaws::child_size))]
    #[cycle(nodes)]
    fn evaluate_argument<N: NodeHandle, B: Bindings<N>, W: WorldView, L: Ledger>(
        &mut self,
        tree: N,
        op: &Operator,
        place: usize,
        around: &Surroundings<'_, B, W>,
        steps: &mut Steps<L>,
    ) -> Result<Value, Halt>
        requires within { place < length (children (N.node tree)) }
        requires below { EachAsksBelow around.now.limit (children (N.node tree)) }
        requires ready { IsReady around.now.limit (B.listed around.now.bindings.now)
            (W.world around.now.world.now) self.old }
        ensures { EvaluatesNode around.now.limit (B.listed around.now.bindings.now)
            (W.world around.now.world.now) result
            (argument_in op.now
            (arguments_of (N.node tree) (B.listed around.now.bindings.now) (W.world around.now.world.now))
            place)
            (size_in (children (N.node tree)) place) self.old self.new steps.old steps.new }
    {
        if !is_sequence(op, place) {
            return self.evaluate_node(tree.child(place), around, steps);
        }
        let value = self.evaluate_node(tree.child(place), around, steps)?;
        sequence_value(value)
    }

    /// A node whose operator stops at the argument that decides. The first is borrowed where it decides as it is.
    #[tactic(auto, using(crate::proofs::NodeLaws::below_at, crate::proofs::NodeLaws::child_size))]
    #[cycle(nodes)]
    pub(crate) fn evaluate_deciding<N: NodeHandle, B: Bindings<N>, W: WorldView, L: Ledger>(
        &mut self,
        tree: N,
        op: &Operator,
        want: &Want,
        around: &Surroundings<'_, B, W>,
        steps: &mut Steps<L>,
    ) -> Result<Value, Halt>
        requires below { EachAsksBelow around.now.limit (children (N.node tree)) }
        requires ready { IsReady around.now.limit (B.listed around.now.bindings.now)
            (W.world around.now.world.now) self.old }
        ensures { EvaluatesNode around.now.limit (B.listed around.now.bindings.now)
            (W.world around.now.world.now) result
            (deciding_of op.now
            (known_arguments (N.node tree) (B.listed around.now.bindings.now) (W.world around.now.world.now))
            want.now [] (W.world around.now.world.now))
            (total_size (children (N.node tree))) self.old self.new steps.old steps.new }
    {
        if tree.count() > 0 {
            let first = tree.child(0);
            if let Some(value) = borrowed_decision(op, &first, around.world) {
                steps.tick();
                return fitted_copy(self.alloc, value, want);
            }
        }
        self.evaluate_until_decided(tree, op, want, around, steps)
    }

    // The same, of arguments that are evaluated one after the other.
    #[tactic(auto, using(crate::proofs::NodeLaws::below_at, crate::proofs::NodeLaws::child_size))]
    #[cycle(nodes)]
    fn evaluate_until_decided<N: NodeHandle, B: Bindings<N>, W: WorldView, L: Ledger>(
        &mut self,
        tree: N,
        op: &Operator,
        want: &Want,
        around: &Surroundings<'_, B, W>,
        steps: &mut Steps<L>,
    ) -> Result<Value, Halt>
        requires below { EachAsksBelow around.now.limit (children (N.node tree)) }
        requires ready { IsReady around.now.limit (B.listed around.now.bindings.now)
            (W.world around.now.world.now) self.old }
        ensures { EvaluatesNode around.now.limit (B.listed around.now.bindings.now)
            (W.world around.now.world.now) result
            (deciding_of op.now
            (known_arguments (N.node tree) (B.listed around.now.bindings.now) (W.world around.now.world.now))
            want.now [] (W.world around.now.world.now))
            (total_size (children (N.node tree))) self.old self.new steps.old steps.new }
    {
        let count = tree.count();
        for place in 0..count {
            let value = self.evaluate_argument(tree, op, place, around, steps)?;
            if let Some(found) = decided(op, value) {
                return fitted(self.alloc, found, want);
            }
        }
        undecided_value(self.alloc, op, want)
    }
}
