//! Kinds that may be compared.

ghost use Rattle.std.specs.Prelude.{◌≡◌};
ghost use Rattle.expr_types.specs.Comparing.{unless_comparable, is_compound, differ, are_comparable, own_equal};
ghost use Rattle.expr_types.specs.Comparing.{may_be_ordered, number_and_text, are_orderable, are_ordered, own_ordered};
ghost use Rattle.expr_types.specs.Comparing.{has_labels, has_such_labels};

use crate::fault::TypeCode;
use crate::own::{Own, faults_if};
use expr_syntax::{Label, Labelled};
use prop_values::{EvalFault, FaultSet, Kind};

pub(crate) fn unless_comparable(comparable: bool) -> Option<TypeCode>
    ensures { result ≡ unless_comparable comparable }
{
    if comparable {
        None
    } else {
        Some(TypeCode::NotComparable)
    }
}

/// Whether no value of the kind is compared.
pub(crate) fn is_compound(kind: Kind) -> bool
    ensures { result ≡ is_compound kind }
{
    match kind {
        Kind::Color => true,
        Kind::Object => true,
        Kind::List(_, _) => true,
        _ => false,
    }
}

fn differ(one: Kind, other: Kind) -> bool
    ensures { result ≡ differ one other }
{
    match (one, other) {
        (Kind::Boolean, Kind::Number) => true,
        (Kind::Boolean, Kind::Text) => true,
        (Kind::Number, Kind::Boolean) => true,
        (Kind::Number, Kind::Text) => true,
        (Kind::Text, Kind::Boolean) => true,
        (Kind::Text, Kind::Number) => true,
        _ => false,
    }
}

fn are_comparable(one: Kind, other: Kind) -> bool
    ensures { result ≡ are_comparable one other }
{
    !(is_compound(one) || is_compound(other) || differ(one, other))
}

/// `==` and `!=`.
pub(crate) fn own_equal(one: Kind, other: Kind) -> Own
    ensures { result ≡ own_equal one other }
{
    Own {
        kind: Kind::Boolean,
        code: unless_comparable(are_comparable(one, other)),
        faults: FaultSet::empty(),
    }
}

fn may_be_ordered(kind: Kind) -> bool
    ensures { result ≡ may_be_ordered kind }
{
    match kind {
        Kind::Number => true,
        Kind::Text => true,
        Kind::Image => true,
        Kind::Any => true,
        _ => false,
    }
}

fn number_and_text(one: Kind, other: Kind) -> bool
    ensures { result ≡ number_and_text one other }
{
    match (one, other) {
        (Kind::Number, Kind::Text) => true,
        (Kind::Text, Kind::Number) => true,
        _ => false,
    }
}

fn are_orderable(one: Kind, other: Kind) -> bool
    ensures { result ≡ are_orderable one other }
{
    may_be_ordered(one) && may_be_ordered(other) && !number_and_text(one, other)
}

fn are_ordered(one: Kind, other: Kind) -> bool
    ensures { result ≡ are_ordered one other }
{
    match (one, other) {
        (Kind::Number, Kind::Number) => true,
        (Kind::Text, Kind::Text) => true,
        _ => false,
    }
}

/// `<`, `<=`, `>` and `>=`.
pub(crate) fn own_ordered(one: Kind, other: Kind) -> Own
    ensures { result ≡ own_ordered one other }
{
    Own {
        kind: Kind::Boolean,
        code: unless_comparable(are_orderable(one, other)),
        faults: faults_if(!are_ordered(one, other), EvalFault::NotOrdered),
    }
}

fn has_labels(kind: Kind, label: &Label) -> bool
    ensures { result ≡ has_labels kind label.now }
{
    match (kind, label) {
        (Kind::Any, _) => true,
        (Kind::Image, _) => true,
        (Kind::Number, Label::Number(_)) => true,
        (Kind::Text, Label::Text(_)) => true,
        _ => false,
    }
}

/// Whether a value of the kind may be equal to labels, which are all texts or all numbers.
pub(crate) fn has_such_labels(kind: Kind, labels: &[Labelled]) -> bool
    ensures { result ≡ has_such_labels kind labels.now }
{
    match labels {
        [] => true,
        [first, ..] => has_labels(kind, &first.label),
    }
}
