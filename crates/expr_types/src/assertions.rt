//! Assertions and conversions.

ghost use Rattle.std.specs.Prelude.{◌≡◌, option_map};
ghost use Rattle.prop_values.specs.View.{data_of};
ghost use Rattle.expr_types.specs.Assertions.{own_array, own_asserted, is_color_text, some_color_text, own_to_color};
ghost use Rattle.expr_types.specs.Assertions.{own_to_number};
ghost use Rattle.expr_syntax.specs.Operators.{item_or_any};
ghost use Rattle.expr_types.specs.LiteralView.{literals_of};

use crate::fits::fits;
use crate::literals::literal_of;
use crate::own::{Own, faults_if, owns, some_kind};
use color_values::read_color;
use expr_syntax::Expr;
use prop_values::{EvalFault, Item, Kind, Value, Want};

pub(crate) fn item_or_any(item: Option<Item>) -> Item
    ensures { result ≡ item_or_any item }
{
    match item {
        Some(item) => item,
        None => Item::Any,
    }
}

pub(crate) fn own_array(item: Item, count: Option<u32>, kind: Kind) -> Own
    ensures { result ≡ own_array item count kind }
{
    let always = fits(kind, &Want::List(item, count)).is_always();
    owns(
        Kind::List(item, count),
        faults_if(!always, EvalFault::WrongType),
    )
}

pub(crate) fn own_asserted(kind: Kind, kinds: &[Kind]) -> Own
    ensures { result ≡ own_asserted kind kinds.now }
{
    owns(
        kind,
        faults_if(!some_kind(kind, kinds), EvalFault::WrongType),
    )
}

fn is_color_text(literal: Option<&Value>) -> bool
    ensures { result ≡ is_color_text (option_map (λ v. data_of v.now) literal.entry) }
{
    match literal {
        Some(Value::Text(text)) => read_color(text.as_str()).is_some(),
        _ => false,
    }
}

fn some_color_text(arguments: &[Expr]) -> bool
    ensures { result ≡ some_color_text (literals_of arguments.now) }
{
    for argument in arguments {
        if is_color_text(literal_of(argument)) {
            return true;
        }
    }
    false
}

pub(crate) fn own_to_color(arguments: &[Expr], kinds: &[Kind]) -> Own
    ensures { result ≡ own_to_color (literals_of arguments.now) kinds.now }
{
    let never = some_kind(Kind::Color, kinds) || some_color_text(arguments);
    owns(Kind::Color, faults_if(!never, EvalFault::NotColor))
}

pub(crate) fn own_to_number(kinds: &[Kind]) -> Own
    ensures { result ≡ own_to_number kinds.now }
{
    let never = some_kind(Kind::Number, kinds) || some_kind(Kind::Boolean, kinds);
    owns(Kind::Number, faults_if(!never, EvalFault::NotNumberText))
}
