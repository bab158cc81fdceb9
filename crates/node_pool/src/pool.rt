//! The evaluator whose nodes are kept together.

ghost use Rattle.std.specs.Prelude.{◌≡◌, ◌<◌, [], ◌++◌, ◌∷◌, length, slice_set, IfOk, OnErr, OnOk};
ghost use Rattle.expr_nodes.specs.Evaluators.{nodes_at, sized_node};

use crate::adding::added;
use crate::block::evaluated;
use crate::gathering::{moved_blocks, put_one_after_another};
use crate::pooled_expression::PooledExpression;
use crate::pooled_node::PooledNode;
use expr_nodes::{BoxedExpression, CountedEvaluator, Workspace};
use operator_rules::WorldView;
use operator_values::Halt;
use outside_io::Steps;
use prop_values::Value;
use std::alloc::{AllocError, Global};
use std::marker::Model;
use std::sync::ledger::Ledger;

/// Expressions by their numbers, whose nodes are all in one vector.
///
/// The nodes of an expression that was replaced stay in it, unused, until they are more than half of all. Then the
/// others are moved together, which takes time linear in the nodes that have become unused since the last time.
#[derive(Drop)]
pub struct Pool {
    alloc: Global,
    nodes: Vec<PooledNode>,
    expressions: Vec<PooledExpression>,
    /// How many of the nodes are unused.
    unused: usize,
}

impl Model for Pool {
    ghost use Rattle.node_pool.specs.Blocks.{BoundNodes, bound_nodes_code};

    ghost Value = { BoundNodes };

    ghost coded = { bound_nodes_code };

    ghost use Rattle.node_pool.specs.Blocks.{IsSound, bound_nodes};

    ghost view = { λ p. bound_nodes p.nodes.items p.expressions.items };

    ghost invariant = { λ p. IsSound p.nodes.items p.expressions.items p.unused };
}

impl Pool {
    /// No expression, which takes no memory.
    pub fn new(alloc: Global) -> Pool
        ensures { ⟦<Pool as CountedEvaluator>⟧.slots result ≡ [] }
    {
        Pool {
            alloc,
            nodes: Vec::new(alloc),
            expressions: Vec::new(alloc),
            unused: 0,
        }
    }

    /// Adds an expression after those that are there, and gives its number. One beyond `u32::MAX` expressions is
    /// refused as a failed allocation is.
    pub fn put(&mut self, expression: BoxedExpression) -> Result<u32, AllocError>
        ensures slot { IfOk result (λ slot. slot ≡ length (⟦<Pool as CountedEvaluator>⟧.slots self.old)) }
        ensures ok { OnOk result (⟦<Pool as CountedEvaluator>⟧.slots self.new
            ≡ ⟦<Pool as CountedEvaluator>⟧.slots self.old ++ sized_node expression ∷ []) }
        ensures err { OnErr result (⟦<Pool as CountedEvaluator>⟧.slots self.new
            ≡ ⟦<Pool as CountedEvaluator>⟧.slots self.old) }
    {
        let slot = self.expressions.as_slice().len();
        if slot >= u32::MAX as usize {
            return Err(AllocError);
        }
        self.expressions.reserve(1)?;
        let expression = added(self.alloc, expression, &mut self.nodes)?;
        self.expressions.push_reserved(expression);
        Ok(slot as u32)
    }

    /// Puts an expression in the place of the one of a number.
    pub fn put_at(&mut self, slot: u32, expression: BoxedExpression) -> Result<(), AllocError>
        requires { slot < length (⟦<Pool as CountedEvaluator>⟧.slots self.old) }
        ensures ok { OnOk result (⟦<Pool as CountedEvaluator>⟧.slots self.new
            ≡ slice_set (⟦<Pool as CountedEvaluator>⟧.slots self.old) slot (sized_node expression)) }
        ensures err { OnErr result (⟦<Pool as CountedEvaluator>⟧.slots self.new
            ≡ ⟦<Pool as CountedEvaluator>⟧.slots self.old) }
    {
        let place = slot as usize;
        let replaced = self.expressions[place];
        let expression = added(self.alloc, expression, &mut self.nodes)?;
        self.expressions[place] = expression;
        self.unused += replaced.length();
        self.gather();
        Ok(())
    }

    /// How many nodes the expression of a number has, literals counted.
    pub fn nodes(&self, slot: u32) -> u64
        requires { slot < length (⟦<Pool as CountedEvaluator>⟧.slots self.now) }
        ensures { result ≡ nodes_at (⟦<Pool as CountedEvaluator>⟧.slots self.now) slot }
    {
        let expression = &self.expressions[slot as usize];
        expression.nodes
    }

    // Moves the nodes together where more than half of them are unused. Without memory for that they stay where they
    // are.
    fn gather(&mut self)
        ensures { self.new ≡ self.old }
    {
        let count = self.nodes.as_slice().len();
        if self.unused <= count / 2 {
            return;
        }
        let expressions = self.expressions.as_slice();
        if let Ok(moved) = moved_blocks(
            self.alloc,
            &mut self.nodes,
            expressions,
            count - self.unused,
        ) {
            put_one_after_another(&mut self.expressions);
            self.nodes = moved;
            self.unused = 0;
        }
    }
}

impl CountedEvaluator for Pool {
    ghost use Rattle.std.specs.Prelude.{map};
    ghost use Rattle.expr_nodes.specs.Evaluators.{sized_node};

    ghost slots = { λ s. map sized_node s };

    fn evaluated<W: WorldView, L: Ledger>(
        &self,
        workspace: &mut Workspace,
        slot: u32,
        world: &W,
        steps: &mut Steps<L>,
    ) -> Result<Value, Halt> {
        let expression = &self.expressions[slot as usize];
        evaluated(self.nodes.as_slice(), expression, workspace, world, steps)
    }
}
