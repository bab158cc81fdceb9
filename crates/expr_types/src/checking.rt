//! The kind of an expression and the faults that it may give, or its first type fault.

ghost use Rattle.std.specs.Prelude.{◌≡◌, ◌<◌, ◌^◌, [], length, take, drop, IfOk, Ok};
ghost use Rattle.decimal_json.specs.View.{path_of};
ghost use Rattle.expr_syntax.specs.declared.expression.Operator.TheVariants as operators;
ghost use Rattle.expr_types.specs.Typing.{argument_want, handed, finished_node, own_where, sequence_if, is_sequence_of};
ghost use Rattle.prop_values.specs.Faults.{no_faults};
ghost use Rattle.expr_types.specs.TypedView.{typed_of, node_of, founds_in, root_of, added, added_below, kinds_after};
ghost use Rattle.expr_types.specs.TypedView.{kinds_of, all_added, plain_of, let_of, body_of, argument_found, found_at};

use crate::argument_paths::{element_at, key_at};
use crate::bindings::Bound;
use crate::fault::{TypeCode, TypeFault};
use crate::nodes::{
    as_sequence, branched, count, fitted, is_branching, literal_node, own_where, refused, settle,
    with_bindings,
};
use crate::own::Own;
use crate::placed::{Kinded, Placed};
use crate::scope::{KindScope, own_named};
use crate::table::own;
use decimal_json::Here;
use expr_syntax::{Expr, Names, Operator, ramp_want};
use prop_values::{FaultSet, Kind, Want};
use std::alloc::{AllocError, Global};

/// The kinds of the arguments of a node, and the faults that they may give.
#[derive(Drop)]
pub(crate) struct ArgumentKinds {
    kinds: Vec<Kind>,
    may: FaultSet,
}

/// What the arguments of a node are checked by: the operator, the want under which the node is checked, the
/// names around it, and where it is.
#[derive(Drop)]
pub(crate) struct NodeContext<'x> {
    op: &'x Operator,
    is_sequence: bool,
    want: Want,
    scope: &'x KindScope<'x>,
    here: &'x Here<'x>,
}

/// A check of an expression, with what is known of the nodes that it has come to, in preorder.
#[derive(Drop)]
pub(crate) struct Checking {
    pub(crate) alloc: Global,
    pub(crate) places: Vec<Placed>,
}

impl Checking {
    /// What is known of an expression under a want, in the names around it. The places of its nodes are
    /// added.
    #[tactic(auto, using(expr_syntax::proofs::Falls::argument_weight))]
    #[cycle(checking)]
    pub(crate) fn check_expression<'x>(
        &mut self,
        expression: &'x Expr,
        is_sequence: bool,
        want: &Want,
        scope: &'x KindScope<'x>,
        here: &'x Here<'x>,
    ) -> Result<Result<Kinded, TypeFault>, AllocError>
        ensures node { IfOk result (λ r. r
            ≡ root_of (typed_of expression.now is_sequence want.now scope.now here.now)) }
        ensures places { IfOk result (λ r. IfOk r (λ _. Ok self.new.places.items
            ≡ added self.old.places.items (typed_of expression.now is_sequence want.now scope.now here.now))) }
    {
        match expression {
            Expr::Literal(value) => match literal_node(self.alloc, value, want, here)? {
                Ok(node) => {
                    self.places.push(node.root)?;
                    Ok(Ok(node))
                }
                Err(fault) => Ok(Err(fault)),
            },
            Expr::Node(op, arguments) => {
                let context = NodeContext {
                    op,
                    is_sequence,
                    want: *want,
                    scope: &*scope,
                    here: &*here,
                };
                self.check_node(&context, arguments.as_slice())
            }
        }
    }

    #[tactic(auto, using(expr_syntax::proofs::Falls::argument_weight))]
    #[cycle(checking)]
    fn check_node<'x>(
        &mut self,
        context: &'x NodeContext<'x>,
        arguments: &'x [Expr],
    ) -> Result<Result<Kinded, TypeFault>, AllocError>
        ensures node { IfOk result (λ r. r ≡ root_of (node_of context.now arguments.now)) }
        ensures places { IfOk result (λ r. IfOk r (λ _. Ok self.new.places.items
            ≡ added self.old.places.items (node_of context.now arguments.now))) }
    {
        let at = count(&self.places);
        self.places.push(Placed {
            want: context.want,
            always: true,
        })?;
        match self.check_inside(context, arguments)? {
            Ok(node) => {
                settle(&mut self.places, at, node.root);
                Ok(Ok(node))
            }
            Err(fault) => Ok(Err(fault)),
        }
    }

    // The node, without its own place.
    #[tactic(auto, using(expr_syntax::proofs::Falls::argument_weight))]
    #[cycle(checking)]
    fn check_inside<'x>(
        &mut self,
        context: &'x NodeContext<'x>,
        arguments: &'x [Expr],
    ) -> Result<Result<Kinded, TypeFault>, AllocError>
        ensures node { IfOk result (λ r. r ≡ root_of (node_of context.now arguments.now)) }
        ensures places { IfOk result (λ r. IfOk r (λ _. Ok self.new.places.items
            ≡ added_below self.old.places.items (node_of context.now arguments.now))) }
    {
        match context.op {
            Operator::Let(names) => self.check_let(context, names, arguments),
            Operator::Var(name) => fitted(
                self.alloc,
                &context.want,
                own_named(context.scope, name.as_text().as_str()),
                FaultSet::empty(),
                context.here,
            ),
            _ => self.check_plain(context, arguments),
        }
    }

    #[tactic(auto, using(expr_syntax::proofs::Falls::argument_weight))]
    #[cycle(checking)]
    fn check_plain<'x>(
        &mut self,
        context: &'x NodeContext<'x>,
        arguments: &'x [Expr],
    ) -> Result<Result<Kinded, TypeFault>, AllocError>
        ensures node { IfOk result (λ r. r ≡ root_of (plain_of context.now arguments.now)) }
        ensures places { IfOk result (λ r. IfOk r (λ _. Ok self.new.places.items
            ≡ added_below self.old.places.items (plain_of context.now arguments.now))) }
    {
        match self.check_arguments(context, arguments.len(), arguments)? {
            Ok(found) => {
                let own = own(
                    self.alloc,
                    context.op,
                    &context.want,
                    arguments,
                    found.kinds.as_slice(),
                )?;
                finished(self.alloc, context, own, found.may)
            }
            Err(fault) => Ok(Err(fault)),
        }
    }

    #[tactic(auto, using(expr_syntax::proofs::Falls::argument_weight))]
    #[cycle(checking)]
    fn check_let<'x>(
        &mut self,
        context: &'x NodeContext<'x>,
        names: &'x Names,
        arguments: &'x [Expr],
    ) -> Result<Result<Kinded, TypeFault>, AllocError>
        requires { context.now.op.now ≡ operators.Let names.now }
        ensures node { IfOk result (λ r. r ≡ root_of (let_of context.now names.now arguments.now)) }
        ensures places { IfOk result (λ r. IfOk r (λ _. Ok self.new.places.items
            ≡ added_below self.old.places.items (let_of context.now names.now arguments.now))) }
    {
        let (bindings, rest) = cut(arguments, names);
        match self.check_arguments(&*context, arguments.len(), bindings)? {
            Ok(found) => {
                if rest.len() != 1 {
                    return refused(self.alloc, context.here, TypeCode::Kind);
                }
                match self.check_body(&*context, &*names, found.kinds.as_slice(), &rest[0])? {
                    Ok(node) => Ok(Ok(with_bindings(&context.want, found.may, node))),
                    Err(fault) => Ok(Err(fault)),
                }
            }
            Err(fault) => Ok(Err(fault)),
        }
    }

    // The body of a `let`, in the names that it binds.
    #[tactic(auto, using(expr_syntax::proofs::Falls::argument_weight))]
    #[cycle(checking)]
    fn check_body<'x>(
        &mut self,
        context: &'x NodeContext<'x>,
        names: &'x Names,
        kinds: &'x [Kind],
        body: &'x Expr,
    ) -> Result<Result<Kinded, TypeFault>, AllocError>
        requires each { length names.now ≡ length kinds.now }
        ensures node { IfOk result (λ r. r ≡ root_of (body_of context.now names.now kinds.now body.now)) }
        ensures places { IfOk result (λ r. IfOk r (λ _. Ok self.new.places.items
            ≡ added self.old.places.items (body_of context.now names.now kinds.now body.now))) }
    {
        let count = names.len();
        let scope = KindScope::Inside(Bound { names, kinds }, &*context.scope);
        let inside = NodeContext {
            op: &*context.op,
            is_sequence: context.is_sequence,
            want: context.want,
            scope: &scope,
            here: &*context.here,
        };
        self.check_argument(&inside, count + 1, count, &*body)
    }

    // The arguments from left to right, of which the first has the place 0 among so many.
    #[tactic(auto, using(expr_syntax::proofs::Falls::argument_weight))]
    #[cycle(checking)]
    fn check_arguments<'x>(
        &mut self,
        context: &'x NodeContext<'x>,
        count: usize,
        arguments: &'x [Expr],
    ) -> Result<Result<ArgumentKinds, TypeFault>, AllocError>
        ensures kinds { IfOk result (λ r. kinds_of r
            ≡ kinds_after [] no_faults (founds_in context.now count 0 arguments.now)) }
        ensures places { IfOk result (λ r. IfOk r (λ _. Ok self.new.places.items
            ≡ all_added self.old.places.items (founds_in context.now count 0 arguments.now))) }
    {
        let mut kinds = Vec::with_capacity(self.alloc, arguments.len())?;
        let mut may = FaultSet::empty();
        for (place, argument) in arguments.iter().enumerate() {
            match self.check_argument(context, count, place, argument)? {
                Ok(node) => {
                    kinds.push(node.kind)?;
                    may = may.union(node.may);
                }
                Err(fault) => return Ok(Err(fault)),
            }
        }
        Ok(Ok(ArgumentKinds { kinds, may }))
    }

    #[tactic(auto, using(expr_syntax::proofs::Falls::argument_weight))]
    #[cycle(checking)]
    fn check_argument<'x>(
        &mut self,
        context: &'x NodeContext<'x>,
        count: usize,
        place: usize,
        argument: &'x Expr,
    ) -> Result<Result<Kinded, TypeFault>, AllocError>
        requires short { place < 2 ^ 60 }
        ensures node { IfOk result (λ r. r ≡ root_of (argument_found context.now count place argument.now)) }
        ensures places { IfOk result (λ r. IfOk r (λ _. Ok self.new.places.items
            ≡ added self.old.places.items (argument_found context.now count place argument.now))) }
    {
        let element = Here::Index(element_at(context.op, count, place), &*context.here);
        match key_at(context.op, place) {
            None => self.check_at(&*context, count, place, &*argument, &element),
            Some(key) => {
                let option = Here::Key(key, &element);
                self.check_at(&*context, count, place, &*argument, &option)
            }
        }
    }

    // The argument of a place, where it is.
    #[tactic(auto, using(expr_syntax::proofs::Falls::argument_weight))]
    #[cycle(checking)]
    fn check_at<'x>(
        &mut self,
        context: &'x NodeContext<'x>,
        count: usize,
        place: usize,
        argument: &'x Expr,
        there: &'x Here<'x>,
    ) -> Result<Result<Kinded, TypeFault>, AllocError>
        requires short { place < 2 ^ 60 }
        ensures node { IfOk result (λ r. r
            ≡ root_of (found_at context.now count place argument.now (path_of there.now))) }
        ensures places { IfOk result (λ r. IfOk r (λ _. Ok self.new.places.items
            ≡ added self.old.places.items (found_at context.now count place argument.now (path_of there.now)))) }
    {
        let own = argument_want(context.op, count, place, &context.want);
        let asked = is_sequence(context.op, place);
        match self.check_expression(argument, asked, &own, context.scope, there)? {
            Ok(node) => looked_at(self.alloc, asked, node, there),
            Err(fault) => Ok(Err(fault)),
        }
    }
}

fn finished(
    alloc: Global,
    context: &NodeContext<'_>,
    own: Own,
    may: FaultSet,
) -> Result<Result<Kinded, TypeFault>, AllocError>
    ensures { IfOk result (λ node. node
        ≡ finished_node context.now.op.now context.now.want (own_where context.now.is_sequence own) may
        (path_of context.now.here.now)) }
{
    let own = own_where(context.is_sequence, own);
    if is_branching(context.op) {
        branched(alloc, &context.want, own, may, context.here)
    } else {
        fitted(alloc, &context.want, own, may, context.here)
    }
}

// As many of the first arguments as there are names, as far as there are so many, and the others.
fn cut<'x>(arguments: &'x [Expr], names: &Names) -> (&'x [Expr], &'x [Expr])
    ensures first { result.0.now ≡ take (length names.now) arguments.now }
    ensures others { result.1.now ≡ drop (length names.now) arguments.now }
{
    let count = names.len();
    if count <= arguments.len() {
        arguments.split_at(count)
    } else {
        (arguments, &[])
    }
}

fn looked_at(
    alloc: Global,
    is_sequence: bool,
    node: Kinded,
    there: &Here<'_>,
) -> Result<Result<Kinded, TypeFault>, AllocError>
    ensures { IfOk result (λ found. found ≡ sequence_if is_sequence node (path_of there.now)) }
{
    if is_sequence {
        as_sequence(alloc, node, there)
    } else {
        Ok(Ok(node))
    }
}

fn is_sequence(op: &Operator, place: usize) -> bool
    ensures { result ≡ is_sequence_of op.now place }
{
    match op.row().sequence {
        Some(sequence) => place == sequence,
        None => false,
    }
}

fn handed(op: &Operator, want: &Want) -> Want
    ensures { result ≡ handed op.now want.now }
{
    match op {
        Operator::Interpolate(_) => ramp_want(want),
        _ => *want,
    }
}

/// What an argument, counted from 0, of so many is wanted as, in a node under a want.
pub fn argument_want(op: &Operator, count: usize, place: usize, want: &Want) -> Want
    requires { place < 2 ^ 60 }
    ensures { result ≡ argument_want op.now count place want.now }
{
    op.wanted(count, place).under(&handed(op, want))
}
