//! What each operator has of its own.

ghost use Rattle.std.specs.Prelude.{◌≡◌, ◌<◌, ◌^◌, IfOk, length, drop};
ghost use Rattle.prop_values.specs.Faults.{no_faults};
ghost use Rattle.expr_types.specs.Own.{owns, one_own, two_own, common_kind};
ghost use Rattle.expr_types.specs.CommonKinds.{joined, noted};
ghost use Rattle.expr_types.specs.Sequences.{own_at, own_in};
ghost use Rattle.expr_types.specs.Comparing.{own_equal, own_ordered};
ghost use Rattle.expr_types.specs.Assertions.{own_array};
ghost use Rattle.expr_types.specs.OwnTable.{own, plain_own, own_match, is_output, output_kinds, section_count};
ghost use Rattle.expr_types.specs.LiteralView.{literals_of};

use crate::arithmetic::{own_divide, own_remainder, own_subtract};
use crate::assertions::{item_or_any, own_array, own_asserted, own_to_color, own_to_number};
use crate::comparing::{has_such_labels, own_equal, own_ordered, unless_comparable};
use crate::fits::same_kind;
use crate::literals::count_of;
use crate::own::{Own, common_kind, ill_typed, owns};
use crate::ramping::own_ramp;
use crate::sequences::{own_at, own_in, own_index_of, own_slice};
use expr_syntax::{Expr, FormatPiece, Labelled, Operator, Role};
use prop_values::{EvalFault, FaultSet, Item, Kind, Want};
use std::alloc::{AllocError, Global};

/// What an operator has of its own, by its arguments and their kinds. `let` and `var` have it by the names
/// around them.
pub(crate) fn own(
    alloc: Global,
    op: &Operator,
    want: &Want,
    arguments: &[Expr],
    kinds: &[Kind],
) -> Result<Own, AllocError>
    ensures { IfOk result (λ found. found ≡ own op.now want.now (literals_of arguments.now) kinds.now) }
{
    match op {
        Operator::Interpolate(ramp) => own_ramp(alloc, ramp, want, arguments, kinds),
        _ => Ok(own_plain(op, arguments, kinds)),
    }
}

fn own_plain(op: &Operator, arguments: &[Expr], kinds: &[Kind]) -> Own
    ensures { result ≡ plain_own op.now (literals_of arguments.now) kinds.now }
{
    match op {
        Operator::Array(item, count) => own_array_of(item_or_any(*item), *count, kinds),
        Operator::Boolean => own_asserted(Kind::Boolean, kinds),
        Operator::Number => own_asserted(Kind::Number, kinds),
        Operator::String => own_asserted(Kind::Text, kinds),
        Operator::Object => own_asserted(Kind::Object, kinds),
        Operator::ToBoolean => just(Kind::Boolean),
        Operator::ToColor => own_to_color(arguments, kinds),
        Operator::ToNumber => own_to_number(kinds),
        Operator::ToString => just(Kind::Text),
        Operator::TypeOf => just(Kind::Text),
        Operator::Get => just(Kind::Any),
        Operator::Has => just(Kind::Boolean),
        Operator::Properties => just(Kind::Object),
        Operator::Id => just(Kind::Any),
        Operator::GeometryType => just(Kind::Text),
        Operator::FeatureState => just(Kind::Any),
        Operator::At => at_two(kinds),
        Operator::In => in_two(kinds),
        Operator::IndexOf => own_index_of(kinds),
        Operator::Length => just(Kind::Number),
        Operator::Slice => own_slice(kinds),
        Operator::Not => just(Kind::Boolean),
        Operator::Equal | Operator::NotEqual => equal_two(kinds),
        Operator::Less | Operator::LessOrEqual | Operator::Greater | Operator::GreaterOrEqual =>
            ordered_two(kinds),
        Operator::All | Operator::Any => just(Kind::Boolean),
        Operator::Case => just(common_output(kinds)),
        Operator::Match(labels) => own_match(labels.as_slice(), kinds),
        Operator::Coalesce => just(common_kind(kinds)),
        Operator::Step(_) => just(common_kind(later(kinds))),
        Operator::Interpolate(_) | Operator::Let(_) | Operator::Var(_) => ill_typed(),
        Operator::Zoom => just(Kind::Number),
        Operator::Concat => just(Kind::Text),
        Operator::Rgb | Operator::Rgba => owns(Kind::Color, FaultSet::one(EvalFault::ColorRange)),
        Operator::ToRgba => just(Kind::List(Item::Number, Some(4))),
        Operator::Add | Operator::Multiply => owns(
            Kind::Number,
            FaultSet::one(EvalFault::Overflow),
        ),
        Operator::Subtract => own_subtract(kinds),
        Operator::Divide => own_divide(arguments),
        Operator::Remainder => own_remainder(arguments),
        Operator::Abs
        | Operator::Ceil
        | Operator::Floor
        | Operator::Round
        | Operator::Min
        | Operator::Max => { just(Kind::Number) }
        Operator::Image => just(Kind::Image),
        Operator::IsSupportedScript => just(Kind::Boolean),
        Operator::Format(pieces) => just(Kind::List(
            Item::Any,
            count_of(section_count(pieces.as_slice())),
        )),
    }
}

fn just(kind: Kind) -> Own
    ensures { result ≡ owns kind no_faults }
{
    owns(kind, FaultSet::empty())
}

fn later(kinds: &[Kind]) -> &[Kind]
    ensures { result.now ≡ drop 1 kinds.now }
{
    match kinds {
        [] => kinds,
        [_, others @ ..] => others,
    }
}

fn own_array_of(item: Item, count: Option<u32>, kinds: &[Kind]) -> Own
    ensures { result ≡ one_own (own_array item count) kinds.now }
{
    match kinds {
        [kind] => own_array(item, count, *kind),
        _ => ill_typed(),
    }
}

fn at_two(kinds: &[Kind]) -> Own
    ensures { result ≡ two_own own_at kinds.now }
{
    match kinds {
        [index, list] => own_at(*index, *list),
        _ => ill_typed(),
    }
}

fn in_two(kinds: &[Kind]) -> Own
    ensures { result ≡ two_own own_in kinds.now }
{
    match kinds {
        [needle, sequence] => own_in(*needle, *sequence),
        _ => ill_typed(),
    }
}

fn equal_two(kinds: &[Kind]) -> Own
    ensures { result ≡ two_own own_equal kinds.now }
{
    match kinds {
        [one, other] => own_equal(*one, *other),
        _ => ill_typed(),
    }
}

fn ordered_two(kinds: &[Kind]) -> Own
    ensures { result ≡ two_own own_ordered kinds.now }
{
    match kinds {
        [one, other] => own_ordered(*one, *other),
        _ => ill_typed(),
    }
}

// `case`: the kind of its outputs, which follow their conditions; the last is an output.
#[tactic(auto, using(crate::proofs::KindLaws::noted_step))]
fn common_output(kinds: &[Kind]) -> Kind
    ensures { result ≡ common_kind (output_kinds (length kinds.now) 0 kinds.now) }
{
    let mut common: Option<Kind> = None;
    for (place, kind) in kinds.iter().enumerate() {
        common = noted(common, is_output(kinds.len(), place), *kind);
    }
    match common {
        Some(kind) => kind,
        None => Kind::Any,
    }
}

// Whether an argument of a `case` is an output.
fn is_output(count: usize, place: usize) -> bool
    requires { place < 2 ^ 63 }
    ensures { result ≡ is_output count place }
{
    place + 1 == count || place % 2 != 0
}

// The common kind of some kinds, and of one more where it is an output.
fn noted(common: Option<Kind>, is_output: bool, kind: Kind) -> Option<Kind>
    ensures { result ≡ noted common is_output kind }
{
    if is_output {
        Some(joined(common, kind))
    } else {
        common
    }
}

fn joined(common: Option<Kind>, kind: Kind) -> Kind
    ensures { result ≡ joined common kind }
{
    match common {
        Some(found) if same_kind(found, kind) => found,
        Some(_) => Kind::Any,
        None => kind,
    }
}

fn own_match(labels: &[Labelled], kinds: &[Kind]) -> Own
    ensures { result ≡ own_match labels.now kinds.now }
{
    match kinds {
        [] => ill_typed(),
        [input, outputs @ ..] => Own {
            kind: common_kind(outputs),
            code: unless_comparable(has_such_labels(*input, labels)),
            faults: FaultSet::empty(),
        },
    }
}

// How many sections a `format` has: one for each content.
fn section_count(pieces: &[FormatPiece]) -> usize
    ensures { result ≡ section_count pieces.now }
{
    let mut count = 0;
    for piece in pieces {
        if let Role::Content = piece.role {
            count += 1;
        }
    }
    count
}
