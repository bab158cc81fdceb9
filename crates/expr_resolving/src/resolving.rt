//! Expressions become nodes without names.

ghost use Rattle.std.specs.Prelude.{◌≡◌, ◌<◌, ◌^◌, [], ◌∷◌, length, IfOk};
ghost use Rattle.prop_values.specs.View.{data_of};
ghost use Rattle.property_tables.specs.Fitting.{fit};
ghost use Rattle.expr_syntax.specs.TermView.{term_of, terms};
ghost use Rattle.eval_face.specs.Rules.{rule_of};
ghost use Rattle.expr_nodes.specs.Boxed.{boxed_node, boxed_nodes};
ghost use Rattle.expr_nodes.specs.Node.{constant};
ghost use Rattle.expr_resolving.specs.NumberScopes.{HasNumbers, numbered, numbered_scope};
ghost use Rattle.expr_nodes.specs.Resolving.{resolve, resolve_let, argument_want, number_of, outputs_want};
ghost use Rattle.expr_nodes.specs.Resolving.{variable_node};
ghost use Rattle.expr_resolving.specs.ResolvedParts.{inner_of, resolved_node};

use crate::marks::{after, below, own_want};
use crate::name_role::{NameRole, name_role};
use crate::number_scope::{NumberScope, number_of};
use crate::property_key::property_node;
use crate::searched::searched;
use decimal_json::Text;
use expr_nodes::{BoxedNode, Literal};
use expr_syntax::{Expr, Names, Operator, Wanted, ramp_want};
use prop_values::{EvalFault, Value, Want};
use property_tables::fit;
use std::alloc::{AllocError, Global};

/// The node of an expression under a want, and its bindings in order, each after those that it asks for. The operators
/// of the expression are moved into them.
pub fn resolve(
    alloc: Global,
    expression: Expr,
    want: Want,
) -> Result<(BoxedNode, Vec<BoxedNode>), AllocError>
    ensures { IfOk result (λ made. (boxed_node made.0, boxed_nodes made.1.items)
        ≡ resolve (term_of expression) want [] [] []) }
{
    resolve_marked(alloc, expression, want, &[])
}

/// The same, where the tests of marked nodes are left out. The marks are in preorder, literals have theirs, and where
/// they are missing no node is marked.
pub(crate) fn resolve_marked(
    alloc: Global,
    expression: Expr,
    want: Want,
    marks: &[bool],
) -> Result<(BoxedNode, Vec<BoxedNode>), AllocError>
    ensures { IfOk result (λ made. (boxed_node made.0, boxed_nodes made.1.items)
        ≡ resolve (term_of expression) want marks.now [] []) }
{
    let mut resolver = Resolver {
        alloc,
        bindings: Vec::new(alloc),
    };
    let root = resolver.resolve(expression, want, marks, &NumberScope::Empty)?;
    Ok((root, resolver.bindings))
}

// The bindings so far.
#[derive(Drop)]
struct Resolver {
    alloc: Global,
    bindings: Vec<BoxedNode>,
}

// An expression with the marks of its nodes.
#[derive(Drop)]
struct MarkedExpr<'m> {
    expression: Expr,
    marks: &'m [bool],
}

impl Resolver {
    #[cycle(resolving)]
    fn resolve<'x>(
        &mut self,
        expression: Expr,
        want: Want,
        marks: &[bool],
        scope: &'x NumberScope<'x>,
    ) -> Result<BoxedNode, AllocError>
        requires { HasNumbers scope.now }
        ensures { IfOk result (λ made. (boxed_node made, boxed_nodes self.new.bindings.items)
            ≡ resolve (term_of expression) want marks.now (numbered_scope scope.now)
            (boxed_nodes self.old.bindings.items)) }
    {
        match expression {
            Expr::Literal(value) => fitted_constant(self.alloc, value, &want),
            Expr::Node(op, arguments) => {
                let own = own_want(&op, marks, want);
                self.resolve_node(op, arguments.into_vec(), own, below(marks), &*scope)
            }
        }
    }

    // A node by its operator, with its own want and the marks of the nodes below it.
    #[cycle(resolving)]
    fn resolve_node<'x>(
        &mut self,
        op: Operator,
        arguments: Vec<Expr>,
        want: Want,
        marks: &[bool],
        scope: &'x NumberScope<'x>,
    ) -> Result<BoxedNode, AllocError>
        requires { HasNumbers scope.now }
        ensures { IfOk result (λ made. (boxed_node made, boxed_nodes self.new.bindings.items)
            ≡ resolved_node op (terms arguments.items) want marks.now (numbered_scope scope.now)
            (boxed_nodes self.old.bindings.items)) }
    {
        if let Some(node) = property_node(&op, arguments.as_slice(), want)? {
            return Ok(node);
        }
        match name_role(op) {
            NameRole::Binds(names) => self.resolve_let(names, arguments, want, marks, &*scope),
            NameRole::Asks(name) => Ok(variable_of(&name, &*scope, want)),
            NameRole::Neither(op) => self.resolve_inner(op, arguments, want, marks, &*scope),
        }
    }

    #[cycle(resolving)]
    fn resolve_inner<'x>(
        &mut self,
        op: Operator,
        arguments: Vec<Expr>,
        want: Want,
        marks: &[bool],
        scope: &'x NumberScope<'x>,
    ) -> Result<BoxedNode, AllocError>
        requires { HasNumbers scope.now }
        ensures { IfOk result (λ made. (boxed_node made, boxed_nodes self.new.bindings.items)
            ≡ inner_of op want marks.now (terms arguments.items) (numbered_scope scope.now)
            (boxed_nodes self.old.bindings.items)) }
    {
        let count = arguments.len();
        let mut nodes = Vec::with_capacity(self.alloc, count)?;
        let mut left = marks;
        for argument in arguments {
            let wanted = argument_want(&op, count, nodes.len(), want);
            let later = after(left, &argument);
            let node = self.resolve(argument, wanted, left, &*scope)?;
            nodes.push(searched(self.alloc, &op, nodes.len(), node)?)?;
            left = later;
        }
        Ok(BoxedNode::Inner(want, op, nodes))
    }

    #[cycle(resolving)]
    fn resolve_let<'x>(
        &mut self,
        names: Names,
        arguments: Vec<Expr>,
        want: Want,
        marks: &[bool],
        scope: &'x NumberScope<'x>,
    ) -> Result<BoxedNode, AllocError>
        requires { HasNumbers scope.now }
        ensures { IfOk result (λ made. (boxed_node made, boxed_nodes self.new.bindings.items)
            ≡ resolve_let (terms arguments.items) names want marks.now (numbered_scope scope.now) []
            (boxed_nodes self.old.bindings.items)) }
    {
        let count = names.len();
        let mut numbers = Vec::new(self.alloc);
        let mut rest = arguments.into_iter();
        let mut left = marks;
        for _place in 0..count {
            let Some(argument) = rest.next() else {
                return Ok(BoxedNode::Faulty(EvalFault::WrongType));
            };
            let later = after(left, &argument);
            let binding = self.resolve(argument, Want::Any, left, &*scope)?;
            left = later;
            numbers.push(self.bindings.len())?;
            self.bindings.push(binding)?;
        }
        let Some(body) = rest.next() else {
            return Ok(BoxedNode::Faulty(EvalFault::WrongType));
        };
        if rest.len() > 0 {
            return Ok(BoxedNode::Faulty(EvalFault::WrongType));
        }
        let body = MarkedExpr {
            expression: body,
            marks: left,
        };
        self.resolve_body(&names, numbers.as_slice(), body, want, &*scope)
    }

    // The body of a `let` whose names have numbers.
    #[cycle(resolving)]
    fn resolve_body<'x>(
        &mut self,
        names: &'x Names,
        numbers: &'x [usize],
        body: MarkedExpr<'x>,
        want: Want,
        scope: &'x NumberScope<'x>,
    ) -> Result<BoxedNode, AllocError>
        requires numbers { length names.now ≡ length numbers.now }
        requires scope { HasNumbers scope.now }
        ensures { IfOk result (λ made. (boxed_node made, boxed_nodes self.new.bindings.items)
            ≡ resolve (term_of body.entry.expression) want body.entry.marks.now
            (numbered names.now numbers.now ∷ numbered_scope scope.now)
            (boxed_nodes self.old.bindings.items)) }
    {
        let MarkedExpr { expression, marks } = body;
        let inside = NumberScope::Frame(names, numbers, &*scope);
        self.resolve(expression, want, marks, &inside)
    }
}

fn fitted_constant(alloc: Global, value: Value, want: &Want) -> Result<BoxedNode, AllocError>
    ensures { IfOk result (λ made. boxed_node made ≡ constant (fit want.now (data_of value))) }
{
    match fit(alloc, value, want)? {
        Ok(value) => Ok(BoxedNode::Constant(Literal::of(value))),
        Err(fault) => Ok(BoxedNode::Faulty(fault)),
    }
}

fn variable_node(number: Option<usize>, want: Want) -> BoxedNode
    ensures { boxed_node result ≡ variable_node number want }
{
    match number {
        Some(number) => BoxedNode::Asked(number, want),
        None => BoxedNode::Faulty(EvalFault::WrongType),
    }
}

// A `var` of a name in a scope.
fn variable_of<'x>(name: &Text, scope: &'x NumberScope<'x>, want: Want) -> BoxedNode
    requires { HasNumbers scope.now }
    ensures { boxed_node result ≡ variable_node (number_of (numbered_scope scope.now) name.now) want }
{
    variable_node(number_of(name, scope), want)
}

// What an argument of an operator is wanted as, by its row.
fn argument_want(op: &Operator, count: usize, place: usize, want: Want) -> Want
    requires { place < 2 ^ 63 }
    ensures { result ≡ argument_want op.now count place want }
{
    match op.wanted(count, place) {
        Wanted::Own(own) => own,
        Wanted::OfNode => outputs_want(op, want),
    }
}

// What the outputs of a node are wanted as.
fn outputs_want(op: &Operator, want: Want) -> Want
    ensures { result ≡ outputs_want (rule_of op.now) want }
{
    match op {
        Operator::Interpolate(_) => ramp_want(&want),
        _ => want,
    }
}
