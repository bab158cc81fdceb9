//! What a node has of its own.

ghost use Rattle.std.specs.Prelude.{◌≡◌};
ghost use Rattle.expr_types.specs.Own.{owns, faults_if, ill_typed, some_kind, all_kinds, common_with, common_kind};

use crate::fault::TypeCode;
use crate::fits::same_kind;
use prop_values::{EvalFault, FaultSet, Kind};

/// What a node has of its own: its kind before it takes the want's, a type fault, and the faults that it may
/// give.
#[derive(Clone, Copy, Debug, PartialEq, Eq)]
pub struct Own {
    pub kind: Kind,
    pub code: Option<TypeCode>,
    pub faults: FaultSet,
}

pub(crate) fn owns(kind: Kind, faults: FaultSet) -> Own
    ensures { result ≡ owns kind faults }
{
    Own {
        kind,
        code: None,
        faults,
    }
}

pub(crate) fn faults_if(holds: bool, fault: EvalFault) -> FaultSet
    ensures { result ≡ faults_if holds fault }
{
    if holds {
        FaultSet::one(fault)
    } else {
        FaultSet::empty()
    }
}

/// A number of arguments that no expression that was read has.
pub(crate) fn ill_typed() -> Own
    ensures { result ≡ ill_typed }
{
    Own {
        kind: Kind::Any,
        code: Some(TypeCode::Kind),
        faults: FaultSet::empty(),
    }
}

pub(crate) fn some_kind(kind: Kind, kinds: &[Kind]) -> bool
    ensures { result ≡ some_kind kind kinds.now }
{
    for other in kinds {
        if same_kind(kind, *other) {
            return true;
        }
    }
    false
}

fn all_kinds(kind: Kind, kinds: &[Kind]) -> bool
    ensures { result ≡ all_kinds kind kinds.now }
{
    for other in kinds {
        if !same_kind(kind, *other) {
            return false;
        }
    }
    true
}

/// The kind that several have in common.
pub(crate) fn common_kind(kinds: &[Kind]) -> Kind
    ensures { result ≡ common_kind kinds.now }
{
    match kinds {
        [] => Kind::Any,
        [first, others @ ..] => common_with(*first, others),
    }
}

fn common_with(first: Kind, others: &[Kind]) -> Kind
    ensures { result ≡ common_with first others.now }
{
    if all_kinds(first, others) {
        first
    } else {
        Kind::Any
    }
}
