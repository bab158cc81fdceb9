//! The evaluator whose nodes own their arguments.

ghost use Rattle.std.specs.Prelude.{◌≡◌, ◌<◌, [], ◌++◌, ◌∷◌, length, OnOk, OnErr};
ghost use Rattle.expr_nodes.specs.Evaluators.{nodes_at, sized_node};

use crate::boxed_expression::BoxedExpression;
use crate::evaluator::CountedEvaluator;
use crate::workspace::Workspace;
use operator_rules::WorldView;
use operator_values::Halt;
use outside_io::Steps;
use prop_values::Value;
use std::alloc::{AllocError, Global};
use std::sync::ledger::Ledger;

/// Expressions by their numbers, each with nodes of its own.
#[derive(Drop)]
pub struct Boxed {
    expressions: Vec<BoxedExpression>,
}

impl Boxed {
    /// No expression.
    pub fn new(alloc: Global) -> Boxed
        ensures { ⟦<Boxed as CountedEvaluator>⟧.slots result ≡ [] }
    {
        Boxed {
            expressions: Vec::new(alloc),
        }
    }

    /// Adds an expression after those that are there.
    pub fn put(&mut self, expression: BoxedExpression) -> Result<(), AllocError>
        ensures ok { OnOk result (⟦<Boxed as CountedEvaluator>⟧.slots self.new
            ≡ ⟦<Boxed as CountedEvaluator>⟧.slots self.old ++ sized_node expression ∷ []) }
        ensures err { OnErr result (⟦<Boxed as CountedEvaluator>⟧.slots self.new
            ≡ ⟦<Boxed as CountedEvaluator>⟧.slots self.old) }
    {
        self.expressions.push(expression)?;
        Ok(())
    }

    /// How many nodes the expression of a number has, literals counted.
    pub fn nodes(&self, slot: u32) -> u64
        requires { slot < length (⟦<Boxed as CountedEvaluator>⟧.slots self.now) }
        ensures { result ≡ nodes_at (⟦<Boxed as CountedEvaluator>⟧.slots self.now) slot }
    {
        let expression = &self.expressions[slot as usize];
        expression.nodes()
    }
}

impl CountedEvaluator for Boxed {
    ghost use Rattle.std.specs.Prelude.{map};
    ghost use Rattle.expr_nodes.specs.Evaluators.{sized_node};

    ghost slots = { λ s. map sized_node s.expressions.items };

    fn evaluated<W: WorldView, L: Ledger>(
        &self,
        workspace: &mut Workspace,
        slot: u32,
        world: &W,
        steps: &mut Steps<L>,
    ) -> Result<Value, Halt> {
        let expression = &self.expressions[slot as usize];
        expression.evaluated(workspace, world, steps)
    }
}
