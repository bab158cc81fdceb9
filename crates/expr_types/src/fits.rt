//! How a kind fits a want.

ghost use Rattle.std.specs.Prelude.{◌≡◌};
ghost use Rattle.expr_types.specs.Fits.{same_item, same_count, same_kind, is_any_item, is_open, list_fit, choices_fit};
ghost use Rattle.expr_types.specs.Fits.{fits, is_always, wanted_kind, list_under, kind_under, branch_kind, misfits};
ghost use Rattle.expr_types.specs.Fits.{fit_faults};

use prop_values::{EvalFault, FaultSet, Item, Kind, Want};

/// Whether the values of a kind are what is wanted: all of them, some, or none.
#[derive(Clone, Copy, Debug, PartialEq, Eq)]
pub enum Fit {
    Always,
    Maybe,
    Never,
}

impl Fit {
    pub(crate) fn is_always(self) -> bool
        ensures { result ≡ is_always self }
    {
        match self {
            Fit::Always => true,
            _ => false,
        }
    }
}

fn same_item(one: Item, other: Item) -> bool
    ensures { result ≡ same_item one other }
{
    match (one, other) {
        (Item::Any, Item::Any) => true,
        (Item::Boolean, Item::Boolean) => true,
        (Item::Number, Item::Number) => true,
        (Item::Text, Item::Text) => true,
        _ => false,
    }
}

fn same_count(one: Option<u32>, other: Option<u32>) -> bool
    ensures { result ≡ same_count one other }
{
    match (one, other) {
        (None, None) => true,
        (Some(one), Some(other)) => one == other,
        _ => false,
    }
}

/// Whether two kinds are the same.
pub fn same_kind(one: Kind, other: Kind) -> bool
    ensures { result ≡ same_kind one other }
{
    match (one, other) {
        (Kind::Any, Kind::Any) => true,
        (Kind::Boolean, Kind::Boolean) => true,
        (Kind::Number, Kind::Number) => true,
        (Kind::Text, Kind::Text) => true,
        (Kind::Color, Kind::Color) => true,
        (Kind::Object, Kind::Object) => true,
        (Kind::Image, Kind::Image) => true,
        (Kind::List(one, count), Kind::List(other, number)) => same_item(one, other)
            && same_count(count, number),
        _ => false,
    }
}

fn is_any_item(item: Item) -> bool
    ensures { result ≡ is_any_item item }
{
    same_item(item, Item::Any)
}

fn is_open(count: Option<u32>) -> bool
    ensures { result ≡ is_open count }
{
    same_count(count, None)
}

// How a list fits where a list is wanted.
fn list_fit(item: Item, count: Option<u32>, wanted: Item, number: Option<u32>) -> Fit
    ensures { result ≡ list_fit item count wanted number }
{
    if (is_any_item(wanted) || same_item(item, wanted))
        && (is_open(number) || same_count(count, number))
    {
        Fit::Always
    } else if (is_any_item(item) || (is_any_item(wanted) || same_item(item, wanted)))
        && (is_open(count) || (is_open(number) || same_count(count, number)))
    {
        Fit::Maybe
    } else {
        Fit::Never
    }
}

fn choices_fit(item: Item) -> Fit
    ensures { result ≡ choices_fit item }
{
    if is_any_item(item) || same_item(item, Item::Text) {
        Fit::Maybe
    } else {
        Fit::Never
    }
}

/// How a kind fits a want.
pub(crate) fn fits(kind: Kind, want: &Want) -> Fit
    ensures { result ≡ fits kind want.now }
{
    match (kind, *want) {
        (_, Want::Any) => Fit::Always,
        (_, Want::Shown) => Fit::Always,
        (Kind::Boolean, Want::Boolean) => Fit::Always,
        (Kind::Number, Want::Number) => Fit::Always,
        (Kind::Text, Want::Text) => Fit::Always,
        (Kind::Color, Want::Color) => Fit::Always,
        (Kind::Object, Want::Object) => Fit::Always,
        (Kind::Image, Want::Image) => Fit::Always,
        (Kind::Text, Want::Image) => Fit::Always,
        (Kind::List(item, count), Want::List(wanted, number)) => list_fit(
            item, count, wanted, number,
        ),
        (Kind::Any, _) => Fit::Maybe,
        (Kind::Image, Want::Text) => Fit::Maybe,
        (Kind::Image, Want::Color) => Fit::Maybe,
        (Kind::Image, Want::Enum(_)) => Fit::Maybe,
        (Kind::Text, Want::Color) => Fit::Maybe,
        (Kind::Text, Want::Enum(_)) => Fit::Maybe,
        (Kind::List(item, _), Want::EnumList(_)) => choices_fit(item),
        _ => Fit::Never,
    }
}

fn wanted_kind(want: &Want) -> Kind
    ensures { result ≡ wanted_kind want.now }
{
    match *want {
        Want::Any => Kind::Any,
        Want::Shown => Kind::Text,
        Want::Boolean => Kind::Boolean,
        Want::Number => Kind::Number,
        Want::Text => Kind::Text,
        Want::Color => Kind::Color,
        Want::Object => Kind::Object,
        Want::Image => Kind::Image,
        Want::List(item, count) => Kind::List(item, count),
        Want::Enum(_) => Kind::Text,
        Want::EnumList(_) => Kind::List(Item::Text, None),
    }
}

fn list_under(wanted: Item, number: Option<u32>, item: Item, count: Option<u32>) -> Kind
    ensures { result ≡ list_under wanted number item count }
{
    match (wanted, number) {
        (Item::Any, None) => Kind::List(item, count),
        _ => Kind::List(wanted, number),
    }
}

/// The kind that a node of a kind has under a want.
pub(crate) fn kind_under(want: &Want, kind: Kind) -> Kind
    ensures { result ≡ kind_under want.now kind }
{
    match (*want, kind) {
        (Want::Any, kind) => kind,
        (Want::List(wanted, number), Kind::List(item, count)) => list_under(
            wanted, number, item, count,
        ),
        _ => wanted_kind(want),
    }
}

/// The kind, under a want, of a node that hands it to its branches.
pub fn branch_kind(want: &Want, kind: Kind) -> Kind
    ensures { result ≡ branch_kind want.now kind }
{
    match *want {
        Want::Any => kind,
        _ => wanted_kind(want),
    }
}

fn misfits(want: &Want, kind: Kind) -> FaultSet
    ensures { result ≡ misfits want.now kind }
{
    match (*want, kind) {
        (Want::Color, Kind::Text) => FaultSet::one(EvalFault::NotColor),
        (Want::Color, _) => FaultSet::one(EvalFault::NotColor).union(FaultSet::one(
            EvalFault::WrongType,
        )),
        (Want::Enum(_), Kind::Text) => FaultSet::one(EvalFault::NotInEnum),
        (Want::Enum(_), _) => FaultSet::one(EvalFault::NotInEnum).union(FaultSet::one(
            EvalFault::WrongType,
        )),
        (Want::EnumList(_), Kind::List(Item::Text, _)) => FaultSet::one(EvalFault::NotInEnum),
        (Want::EnumList(_), _) => FaultSet::one(EvalFault::NotInEnum).union(FaultSet::one(
            EvalFault::WrongType,
        )),
        _ => FaultSet::one(EvalFault::WrongType),
    }
}

pub(crate) fn fit_faults(fit: Fit, want: &Want, kind: Kind) -> FaultSet
    ensures { result ≡ fit_faults fit want.now kind }
{
    match fit {
        Fit::Maybe => misfits(want, kind),
        _ => FaultSet::empty(),
    }
}
