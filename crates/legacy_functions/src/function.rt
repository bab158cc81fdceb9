//! Legacy functions as they are read.

ghost use Rattle.std.specs.Prelude.{◌≡◌, is_some};
ghost use Rattle.legacy_functions.specs.Function.{has_zooms};
ghost use Rattle.legacy_functions.specs.View.{function_of};

use crate::categories::Categories;
use crate::stops::{Base, NumberStops, ZoomRules};
use decimal_json::{Json, NumText, Text};
use fixed_num::Fixed;
use prop_values::Value;
use property_tables::Row;

// The four types.
#[derive(Clone, Copy, Debug, PartialEq, Eq)]
pub(crate) enum FunctionType {
    Exponential,
    Interval,
    Categorical,
    Identity,
}

// A number as it is spelled, and the number that it says.
#[derive(Drop)]
pub(crate) struct Spelled {
    pub(crate) spelled: NumText,
    pub(crate) value: Fixed,
}

// The input of a stop of categories.
#[derive(Drop)]
pub(crate) enum Input {
    Flag(bool),
    Number(Spelled),
    Word(Text),
}

// The output of a stop, or a default: a literal as it is, with its value; or a token text.
#[derive(Drop)]
pub(crate) enum Output {
    Literal(Json, Value),
    Tokens(Text),
}

#[derive(Drop)]
pub(crate) struct NumberStop {
    pub(crate) input: Spelled,
    pub(crate) output: Output,
}

#[derive(Drop)]
pub(crate) struct Category {
    pub(crate) input: Input,
    pub(crate) output: Output,
}

// How a function goes over numbers from stop to stop. It does not matter where there are no stops over
// numbers.
#[derive(Drop)]
pub(crate) enum Way {
    Even,
    Curved(Base),
    Stepped,
}

#[derive(Drop)]
pub(crate) enum PropertyRule {
    Numeric(NumberStops),
    Categorical(Categories),
}

#[derive(Drop)]
pub(crate) struct ZoomRule {
    pub(crate) zoom: Spelled,
    pub(crate) rule: PropertyRule,
}

#[derive(Drop)]
pub(crate) enum Body {
    Plain(PropertyRule),
    Zoomed(ZoomRules),
    Identity,
}

/// A legacy function of a row. `function_of` says which function it is to a clause.
#[derive(Drop)]
pub struct Function {
    pub(crate) row: Row,
    pub(crate) property: Option<Text>,
    pub(crate) fallback: Option<Output>,
    pub(crate) way: Way,
    pub(crate) body: Body,
}

/// What an object reads as: a function, or one that is outside of what is evaluated.
#[derive(Drop)]
pub enum FunctionReading {
    Inside(Function),
    Outside,
}

/// That a tree has not the form of a legacy function of the row.
#[derive(Clone, Copy, Debug, PartialEq, Eq)]
pub struct FunctionFault;

impl Function {
    /// Whether its stops are over the zoom.
    pub fn has_zooms(&self) -> bool
        ensures { result ≡ has_zooms (function_of self.now) }
    {
        match &self.body {
            Body::Zoomed(_) => true,
            _ => self.property.is_none(),
        }
    }

    /// Whether it goes by a property of the feature.
    pub fn has_property(&self) -> bool
        ensures { result ≡ is_some (function_of self.now).property }
    {
        self.property.is_some()
    }
}
