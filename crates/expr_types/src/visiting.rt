//! A walk over the nodes of an expression in document order.

ghost use Rattle.std.specs.Prelude.{◌≡◌, ◌<◌, ◌^◌, IfOk};
ghost use Rattle.decimal_json.specs.View.{path_of};
ghost use Rattle.expr_syntax.specs.TermView.{term_of, terms};
ghost use Rattle.expr_syntax.specs.Mentioned.{count};
ghost use Rattle.expr_types.specs.MisplacedReads.{all_noted};
ghost use Rattle.expr_types.specs.WalkView.{allowed_in};
ghost use Rattle.expr_types.specs.ArgumentPaths.{argument_path};
ghost use Rattle.expr_types.specs.Visits.{visits, visitings, node_visits, standing_of};

use crate::argument_paths::{element_at, key_at};
use crate::misplaced_reads::{MisplacedReads, allows, noted};
use crate::standing::Standing;
use decimal_json::Here;
use dependency_sets::of_operator;
use expr_syntax::{Expr, Operator};
use property_tables::Row;
use std::alloc::{AllocError, Global};

/// A walk over an expression as the value of a row, or as a filter where there is none.
#[derive(Drop)]
pub(crate) struct ExpressionWalk<'r> {
    pub(crate) alloc: Global,
    pub(crate) row: Option<&'r Row>,
}

/// A node whose arguments are visited: its operator, its place, and its path.
#[derive(Drop)]
pub(crate) struct VisitedNode<'x> {
    op: &'x Operator,
    standing: Standing,
    here: &'x Here<'x>,
}

impl<'r> ExpressionWalk<'r> {
    /// What was found before, and what the nodes of an expression add.
    #[tactic(auto, using(expr_syntax::proofs::Falls::argument_weight))]
    #[cycle(visiting)]
    pub(crate) fn visit<'x>(
        &self,
        expression: &'x Expr,
        standing: Standing,
        here: &'x Here<'x>,
        before: MisplacedReads,
    ) -> Result<MisplacedReads, AllocError>
        ensures { IfOk result
            (λ s. s ≡ all_noted (allowed_in self.now)
            (visits (term_of expression.now) standing (path_of here.now)) before) }
    {
        match expression {
            Expr::Literal(_) => Ok(before),
            Expr::Node(op, arguments) => {
                let node = VisitedNode {
                    op,
                    standing,
                    here: &*here,
                };
                self.visit_node(&node, arguments.as_slice(), before)
            }
        }
    }

    #[tactic(auto, using(expr_syntax::proofs::Falls::argument_weight, expr_syntax::proofs::Falls::count_terms))]
    #[cycle(visiting)]
    fn visit_node<'x>(
        &self,
        node: &'x VisitedNode<'x>,
        arguments: &'x [Expr],
        before: MisplacedReads,
    ) -> Result<MisplacedReads, AllocError>
        ensures { IfOk result
            (λ s. s ≡ all_noted (allowed_in self.now)
            (node_visits node.now.op.now (count (terms arguments.now)) (visitings (terms arguments.now))
            node.now.standing (path_of node.now.here.now)) before) }
    {
        let reads = of_operator(node.op, arguments);
        let is_allowed = allows(self.row, reads);
        let mut found = noted(
            self.alloc,
            before,
            is_allowed,
            reads,
            node.standing,
            node.here,
        )?;
        for (place, argument) in arguments.iter().enumerate() {
            found = self.visit_argument(node, arguments.len(), place, argument, found)?;
        }
        Ok(found)
    }

    // The argument of a place, of so many.
    #[tactic(auto, using(expr_syntax::proofs::Falls::argument_weight))]
    #[cycle(visiting)]
    fn visit_argument<'x>(
        &self,
        node: &'x VisitedNode<'x>,
        count: usize,
        place: usize,
        argument: &'x Expr,
        before: MisplacedReads,
    ) -> Result<MisplacedReads, AllocError>
        requires { place < 2 ^ 60 }
        ensures { IfOk result
            (λ s. s ≡ all_noted (allowed_in self.now)
            (visits (term_of argument.now) (standing_of node.now.standing node.now.op.now count place)
            (argument_path node.now.op.now count place (path_of node.now.here.now))) before) }
    {
        if matches!(argument, Expr::Literal(_)) {
            return Ok(before);
        }
        let below = node.standing.of_argument(node.op, count, place);
        let element = Here::Index(element_at(node.op, count, place), &*node.here);
        match key_at(node.op, place) {
            None => self.visit(&*argument, below, &element, before),
            Some(key) => {
                let option = Here::Key(key, &element);
                self.visit(&*argument, below, &option, before)
            }
        }
    }
}
