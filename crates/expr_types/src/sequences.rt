//! Operators over texts and lists.

ghost use Rattle.std.specs.Prelude.{◌≡◌};
ghost use Rattle.expr_types.specs.Sequences.{sequence_fit, item_kind, kind_of_items, index_faults, own_at, own_in};
ghost use Rattle.expr_types.specs.Sequences.{own_place, own_index_of, stretch_kind, own_slice};

use crate::comparing::{is_compound, unless_comparable};
use crate::fits::Fit;
use crate::own::{Own, ill_typed, owns};
use prop_values::{EvalFault, FaultSet, Item, Kind};

/// How a kind fits where a text or a list is asked.
pub(crate) fn sequence_fit(kind: Kind) -> Fit
    ensures { result ≡ sequence_fit kind }
{
    match kind {
        Kind::Text => Fit::Always,
        Kind::List(_, _) => Fit::Always,
        Kind::Any => Fit::Maybe,
        _ => Fit::Never,
    }
}

fn item_kind(item: Item) -> Kind
    ensures { result ≡ item_kind item }
{
    match item {
        Item::Any => Kind::Any,
        Item::Boolean => Kind::Boolean,
        Item::Number => Kind::Number,
        Item::Text => Kind::Text,
    }
}

fn kind_of_items(kind: Kind) -> Kind
    ensures { result ≡ kind_of_items kind }
{
    match kind {
        Kind::List(item, _) => item_kind(item),
        _ => Kind::Any,
    }
}

fn index_faults() -> FaultSet
    ensures { result ≡ index_faults }
{
    FaultSet::one(EvalFault::IndexOutside).union(FaultSet::one(EvalFault::IndexNotWhole))
}

pub(crate) fn own_at(_index: Kind, list: Kind) -> Own
    ensures { result ≡ own_at _index list }
{
    owns(kind_of_items(list), index_faults())
}

pub(crate) fn own_in(needle: Kind, sequence: Kind) -> Own
    ensures { result ≡ own_in needle sequence }
{
    Own {
        kind: Kind::Boolean,
        code: unless_comparable(!is_compound(needle)),
        faults: FaultSet::empty(),
    }
}

pub(crate) fn own_index_of(kinds: &[Kind]) -> Own
    ensures { result ≡ own_index_of kinds.now }
{
    match kinds {
        [needle, _] => own_place(*needle, FaultSet::empty()),
        [needle, _, _] => own_place(*needle, index_faults()),
        _ => ill_typed(),
    }
}

fn own_place(needle: Kind, faults: FaultSet) -> Own
    ensures { result ≡ own_place needle faults }
{
    Own {
        kind: Kind::Number,
        code: unless_comparable(!is_compound(needle)),
        faults,
    }
}

fn stretch_kind(kind: Kind) -> Kind
    ensures { result ≡ stretch_kind kind }
{
    match kind {
        Kind::Text => Kind::Text,
        Kind::List(item, _) => Kind::List(item, None),
        _ => Kind::Any,
    }
}

pub(crate) fn own_slice(kinds: &[Kind]) -> Own
    ensures { result ≡ own_slice kinds.now }
{
    match kinds {
        [] => ill_typed(),
        [sequence, ..] => owns(
            stretch_kind(*sequence),
            FaultSet::one(EvalFault::IndexNotWhole),
        ),
    }
}
