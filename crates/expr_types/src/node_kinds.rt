//! The kinds of a node, a literal and a name, for whoever has the kinds of a node's arguments.

ghost use Rattle.std.specs.Prelude.{◌≡◌, [], IfOk};
ghost use Rattle.prop_values.specs.View.{data_of};
ghost use Rattle.prop_values.specs.Faults.{no_faults};
ghost use Rattle.expr_types.specs.NodeKinds.{kind_found, literal_kind_under, name_kind, is_possible, may_be_sequence};
ghost use Rattle.expr_types.specs.NodeKinds.{has_sequence, node_kind};
ghost use Rattle.expr_types.specs.ScopeView.{scope_of};
ghost use Rattle.expr_types.specs.Typing.{finished_node};

use crate::fault::TypeFault;
use crate::fits::Fit;
use crate::nodes::{branched, fitted, is_branching, literal_node};
use crate::own::Own;
use crate::placed::Kinded;
use crate::scope::{KindScope, own_named};
use crate::sequences::sequence_fit;
use crate::table::own;
use decimal_json::Here;
use expr_syntax::Operator;
use prop_values::{FaultSet, Kind, Value, Want};
use std::alloc::{AllocError, Global};

/// The kind of a literal under a want, or `None` exactly where it has a type fault.
/// Source: MapLibre style specification, version 8, types of expressions, as this project takes them.
pub fn literal_kind_under(
    alloc: Global,
    value: &Value,
    want: &Want,
) -> Result<Option<Kind>, AllocError>
    ensures { IfOk result (λ kind. kind ≡ literal_kind_under (data_of value.now) want.now) }
{
    Ok(kind_found(literal_node(alloc, value, want, &Here::Root)?))
}

/// The kind of a `var` under a want, in the names around it, or `None` exactly where it has a type fault.
/// Source: the same.
pub fn name_kind(
    alloc: Global,
    scope: &KindScope<'_>,
    name: &str,
    want: &Want,
) -> Result<Option<Kind>, AllocError>
    ensures { IfOk result (λ kind. kind ≡ name_kind (scope_of scope.now) name.now want.now) }
{
    let own = own_named(scope, name);
    Ok(kind_found(fitted(alloc, want, own, FaultSet::empty(), &Here::Root)?))
}

/// The kind of a node under a want by the kinds of its arguments, or `None` exactly where it has a type fault.
/// `let` and `var` have theirs by the names around them, and have none here. Source: the same.
pub fn node_kind(
    alloc: Global,
    op: &Operator,
    want: &Want,
    kinds: &[Kind],
) -> Result<Option<Kind>, AllocError>
    ensures { IfOk result (λ kind. kind ≡ node_kind op.now want.now kinds.now) }
{
    if !has_sequence(op.row().sequence, kinds) {
        return Ok(None);
    }
    let own = own(alloc, op, want, &[], kinds)?;
    Ok(kind_found(finished_at_root(alloc, op, want, own)?))
}

fn finished_at_root(
    alloc: Global,
    op: &Operator,
    want: &Want,
    own: Own,
) -> Result<Result<Kinded, TypeFault>, AllocError>
    ensures { IfOk result (λ node. node ≡ finished_node op.now want.now own no_faults []) }
{
    if is_branching(op) {
        branched(alloc, want, own, FaultSet::empty(), &Here::Root)
    } else {
        fitted(alloc, want, own, FaultSet::empty(), &Here::Root)
    }
}

fn kind_found(node: Result<Kinded, TypeFault>) -> Option<Kind>
    ensures { result ≡ kind_found node }
{
    match node {
        Ok(node) => Some(node.kind),
        Err(_) => None,
    }
}

fn has_sequence(place: Option<usize>, kinds: &[Kind]) -> bool
    ensures { result ≡ has_sequence place kinds.now }
{
    match place {
        Some(place) => match kinds.get(place) {
            Some(kind) => is_possible(sequence_fit(*kind)),
            None => true,
        },
        None => true,
    }
}

fn is_possible(fit: Fit) -> bool
    ensures { result ≡ is_possible fit }
{
    !matches!(fit, Fit::Never)
}
