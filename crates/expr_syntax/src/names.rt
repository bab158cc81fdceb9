//! The names of operators, and the table of what each is.

ghost use Rattle.std.specs.Prelude.{◌≡◌, ◌<◌};
ghost use Rattle.expr_syntax.specs.Names.{row, name_of};
ghost use Rattle.expr_syntax.specs.ReadView.{row_view};
ghost use Rattle.expr_syntax.specs.Slots.{slot_of, name_in};

use crate::rows::Arity::{AtLeast, Between, EvenFrom, Exactly, OddFrom};
use crate::rows::Wants::{Bindings, Conditions, Each, Input, Then, Third};
use crate::rows::{Arity, ElementLayout, Manner, OperatorRow, Reads, Wants};
use prop_values::{Item, Want};

/// The name of an operator, in the order of the table: lower case with hyphens, where nothing else is said.
/// Those after `format` are outside of what is evaluated. Source: MapLibre style specification, version 8,
/// expressions.
#[derive(Clone, Copy, Debug, PartialEq, Eq)]
pub enum Name {
    Literal,
    Array,
    Boolean,
    Number,
    String,
    Object,
    ToBoolean,
    ToColor,
    ToNumber,
    ToString,
    /// `typeof`.
    TypeOf,
    Get,
    Has,
    Properties,
    Id,
    GeometryType,
    FeatureState,
    At,
    In,
    IndexOf,
    Length,
    Slice,
    /// `!`.
    Not,
    /// `==`.
    Equal,
    /// `!=`.
    NotEqual,
    /// `<`.
    Less,
    /// `<=`.
    LessOrEqual,
    /// `>`.
    Greater,
    /// `>=`.
    GreaterOrEqual,
    All,
    Any,
    Case,
    Match,
    Coalesce,
    Step,
    Interpolate,
    Let,
    Var,
    Zoom,
    Concat,
    Rgb,
    Rgba,
    ToRgba,
    /// `+`.
    Add,
    /// `*`.
    Multiply,
    /// `-`.
    Subtract,
    /// `/`.
    Divide,
    /// `%`.
    Remainder,
    Abs,
    Ceil,
    Floor,
    Round,
    Min,
    Max,
    Image,
    IsSupportedScript,
    GlobalState,
    Format,
    Upcase,
    Downcase,
    Collator,
    ResolvedLocale,
    NumberFormat,
    Within,
    Distance,
    InterpolateHcl,
    InterpolateLab,
    /// `^`.
    Power,
    Sqrt,
    Ln,
    Log10,
    Log2,
    Sin,
    Cos,
    Tan,
    Asin,
    Acos,
    Atan,
    E,
    Pi,
    Ln2,
    HeatmapDensity,
    LineProgress,
    Accumulated,
}

/// The order of the elements of a node: a part of its row.
#[derive(Clone, Copy, Debug, PartialEq, Eq)]
pub(crate) struct NodeShape {
    /// Whether the operator is outside of what is evaluated.
    pub(crate) is_outside: bool,
    /// How many elements may follow the name.
    pub(crate) arity: Arity,
    /// Which elements are arguments.
    pub(crate) layout: ElementLayout,
}

impl Name {
    /// The order of the elements of its nodes.
    pub(crate) fn shape(self) -> NodeShape
        ensures is_outside { result.is_outside ≡ (row self).is_outside }
        ensures arity { result.arity ≡ (row self).arity }
        ensures layout { result.layout ≡ (row self).layout }
    {
        let row = self.row();
        NodeShape {
            is_outside: row.is_outside,
            arity: row.arity,
            layout: row.layout,
        }
    }

    /// What the table says of the operator.
    pub fn row(self) -> &'static OperatorRow
        ensures { row_view result.now ≡ row self }
    {
        &ROWS[self as usize]
    }
}

/// The name that a text is, or `None` exactly where it is the name of no operator. Compares the text with one
/// name alone.
pub fn operator_named(text: &str) -> Option<Name>
    ensures { result ≡ name_of text.now }
{
    let name = name_in(slot(text.as_bytes()));
    if name.row().text == text {
        Some(name)
    } else {
        None
    }
}

#[tactic(auto, using(crate::proofs::NameLaws::slot_place), unfolding(crate::specs::Slots::slots))]
fn name_in(slot: usize) -> Name
    requires { slot < 256 }
    ensures { result ≡ name_in slot }
{
    NAMES[usize::from(SLOTS[slot])]
}

// Where in `SLOTS` a text is looked for. The numbers are such that no two names have one slot.
fn slot(text: &[u8]) -> usize
    ensures slot { result ≡ slot_of text.now }
    ensures within { result < 256 }
{
    let [first, ..] = text else {
        return 0;
    };
    let last = text[text.len() - 1];
    let middle = text[text.len() / 2];
    let length = text.len() % 256;
    (3 * usize::from(*first) + 82 * usize::from(last) + 48 * usize::from(middle) + 38 * length)
        % 256
}

// The row of an operator that evaluates all its arguments, and reads nothing else.
macro_rules! plain {
    ($text:expr, $arity:expr, $wants:expr $(,)?) => {
        OperatorRow {
            text: $text,
            is_outside: false,
            arity: $arity,
            layout: ElementLayout::Arguments,
            wants: $wants,
            sequence: None,
            manner: Manner::Each,
            reads: Reads::Nothing,
        }
    };
}

// The row of an operator that is outside of what is evaluated.
macro_rules! outside {
    ($text:expr) => {
        OperatorRow {
            is_outside: true,
            ..plain!($text, AtLeast(0), Each(Want::Any))
        }
    };
}

// What the table says of each operator, in the order of the names.
static ROWS: [OperatorRow; 84] = [
    OperatorRow {
        layout: ElementLayout::Value,
        ..plain!("literal", Exactly(1), Each(Want::Any))
    },
    OperatorRow {
        layout: ElementLayout::Items,
        ..plain!("array", Between(1, 3), Each(Want::Any))
    },
    OperatorRow {
        manner: Manner::Deciding,
        ..plain!("boolean", AtLeast(1), Each(Want::Any))
    },
    OperatorRow {
        manner: Manner::Deciding,
        ..plain!("number", AtLeast(1), Each(Want::Any))
    },
    OperatorRow {
        manner: Manner::Deciding,
        ..plain!("string", AtLeast(1), Each(Want::Any))
    },
    OperatorRow {
        manner: Manner::Deciding,
        ..plain!("object", AtLeast(1), Each(Want::Any))
    },
    plain!("to-boolean", Exactly(1), Each(Want::Any)),
    OperatorRow {
        manner: Manner::Deciding,
        ..plain!("to-color", AtLeast(1), Each(Want::Any))
    },
    OperatorRow {
        manner: Manner::Deciding,
        ..plain!("to-number", AtLeast(1), Each(Want::Any))
    },
    plain!("to-string", Exactly(1), Each(Want::Any)),
    plain!("typeof", Exactly(1), Each(Want::Any)),
    OperatorRow {
        reads: Reads::FeatureAlone,
        ..plain!("get", Between(1, 2), Then(Want::Text, Want::Object))
    },
    OperatorRow {
        reads: Reads::FeatureAlone,
        ..plain!("has", Between(1, 2), Then(Want::Text, Want::Object))
    },
    OperatorRow {
        reads: Reads::Feature,
        ..plain!("properties", Exactly(0), Each(Want::Any))
    },
    OperatorRow {
        reads: Reads::Feature,
        ..plain!("id", Exactly(0), Each(Want::Any))
    },
    OperatorRow {
        reads: Reads::Feature,
        ..plain!("geometry-type", Exactly(0), Each(Want::Any))
    },
    OperatorRow {
        reads: Reads::State,
        ..plain!("feature-state", Exactly(1), Each(Want::Text))
    },
    plain!(
        "at",
        Exactly(2),
        Then(Want::Number, Want::List(Item::Any, None)),
    ),
    OperatorRow {
        sequence: Some(1),
        ..plain!("in", Exactly(2), Each(Want::Any))
    },
    OperatorRow {
        sequence: Some(1),
        ..plain!(
            "index-of",
            Between(2, 3),
            Third(Want::Any, Want::Any, Want::Number),
        )
    },
    OperatorRow {
        sequence: Some(0),
        ..plain!("length", Exactly(1), Each(Want::Any))
    },
    OperatorRow {
        sequence: Some(0),
        ..plain!("slice", Between(2, 3), Then(Want::Any, Want::Number))
    },
    plain!("!", Exactly(1), Each(Want::Boolean)),
    plain!("==", Exactly(2), Each(Want::Any)),
    plain!("!=", Exactly(2), Each(Want::Any)),
    plain!("<", Exactly(2), Each(Want::Any)),
    plain!("<=", Exactly(2), Each(Want::Any)),
    plain!(">", Exactly(2), Each(Want::Any)),
    plain!(">=", Exactly(2), Each(Want::Any)),
    OperatorRow {
        manner: Manner::Deciding,
        ..plain!("all", AtLeast(0), Each(Want::Boolean))
    },
    OperatorRow {
        manner: Manner::Deciding,
        ..plain!("any", AtLeast(0), Each(Want::Boolean))
    },
    OperatorRow {
        layout: ElementLayout::Cases,
        manner: Manner::Branches,
        ..plain!("case", OddFrom(3), Conditions)
    },
    OperatorRow {
        layout: ElementLayout::Labels,
        manner: Manner::Branches,
        ..plain!("match", EvenFrom(4), Input(Want::Any))
    },
    OperatorRow {
        layout: ElementLayout::Choices,
        manner: Manner::Deciding,
        ..plain!("coalesce", AtLeast(1), Each(Want::Any))
    },
    OperatorRow {
        layout: ElementLayout::Stops,
        manner: Manner::Branches,
        ..plain!("step", EvenFrom(4), Input(Want::Number))
    },
    OperatorRow {
        layout: ElementLayout::Ramp,
        manner: Manner::Branches,
        ..plain!("interpolate", EvenFrom(4), Input(Want::Number))
    },
    OperatorRow {
        layout: ElementLayout::Bindings,
        manner: Manner::Names,
        ..plain!("let", OddFrom(3), Bindings)
    },
    OperatorRow {
        layout: ElementLayout::Variable,
        manner: Manner::Names,
        ..plain!("var", Exactly(1), Each(Want::Any))
    },
    OperatorRow {
        reads: Reads::Zoom,
        ..plain!("zoom", Exactly(0), Each(Want::Any))
    },
    plain!("concat", AtLeast(0), Each(Want::Any)),
    plain!("rgb", Between(3, 4), Each(Want::Number)),
    plain!("rgba", Between(3, 4), Each(Want::Number)),
    plain!("to-rgba", Exactly(1), Each(Want::Color)),
    plain!("+", AtLeast(0), Each(Want::Number)),
    plain!("*", AtLeast(0), Each(Want::Number)),
    plain!("-", Between(1, 2), Each(Want::Number)),
    plain!("/", Exactly(2), Each(Want::Number)),
    plain!("%", Exactly(2), Each(Want::Number)),
    plain!("abs", Exactly(1), Each(Want::Number)),
    plain!("ceil", Exactly(1), Each(Want::Number)),
    plain!("floor", Exactly(1), Each(Want::Number)),
    plain!("round", Exactly(1), Each(Want::Number)),
    plain!("min", AtLeast(1), Each(Want::Number)),
    plain!("max", AtLeast(1), Each(Want::Number)),
    OperatorRow {
        reads: Reads::Images,
        ..plain!("image", Exactly(1), Each(Want::Text))
    },
    plain!("is-supported-script", Exactly(1), Each(Want::Text)),
    OperatorRow {
        layout: ElementLayout::Global,
        ..plain!("global-state", Exactly(1), Each(Want::Any))
    },
    OperatorRow {
        layout: ElementLayout::Sections,
        ..plain!("format", AtLeast(1), Each(Want::Shown))
    },
    outside!("upcase"),
    outside!("downcase"),
    outside!("collator"),
    outside!("resolved-locale"),
    outside!("number-format"),
    outside!("within"),
    outside!("distance"),
    outside!("interpolate-hcl"),
    outside!("interpolate-lab"),
    outside!("^"),
    outside!("sqrt"),
    outside!("ln"),
    outside!("log10"),
    outside!("log2"),
    outside!("sin"),
    outside!("cos"),
    outside!("tan"),
    outside!("asin"),
    outside!("acos"),
    outside!("atan"),
    outside!("e"),
    outside!("pi"),
    outside!("ln2"),
    outside!("heatmap-density"),
    outside!("line-progress"),
    outside!("accumulated"),
];

// The names in the order of the table.
static NAMES: [Name; 84] = [
    Name::Literal,
    Name::Array,
    Name::Boolean,
    Name::Number,
    Name::String,
    Name::Object,
    Name::ToBoolean,
    Name::ToColor,
    Name::ToNumber,
    Name::ToString,
    Name::TypeOf,
    Name::Get,
    Name::Has,
    Name::Properties,
    Name::Id,
    Name::GeometryType,
    Name::FeatureState,
    Name::At,
    Name::In,
    Name::IndexOf,
    Name::Length,
    Name::Slice,
    Name::Not,
    Name::Equal,
    Name::NotEqual,
    Name::Less,
    Name::LessOrEqual,
    Name::Greater,
    Name::GreaterOrEqual,
    Name::All,
    Name::Any,
    Name::Case,
    Name::Match,
    Name::Coalesce,
    Name::Step,
    Name::Interpolate,
    Name::Let,
    Name::Var,
    Name::Zoom,
    Name::Concat,
    Name::Rgb,
    Name::Rgba,
    Name::ToRgba,
    Name::Add,
    Name::Multiply,
    Name::Subtract,
    Name::Divide,
    Name::Remainder,
    Name::Abs,
    Name::Ceil,
    Name::Floor,
    Name::Round,
    Name::Min,
    Name::Max,
    Name::Image,
    Name::IsSupportedScript,
    Name::GlobalState,
    Name::Format,
    Name::Upcase,
    Name::Downcase,
    Name::Collator,
    Name::ResolvedLocale,
    Name::NumberFormat,
    Name::Within,
    Name::Distance,
    Name::InterpolateHcl,
    Name::InterpolateLab,
    Name::Power,
    Name::Sqrt,
    Name::Ln,
    Name::Log10,
    Name::Log2,
    Name::Sin,
    Name::Cos,
    Name::Tan,
    Name::Asin,
    Name::Acos,
    Name::Atan,
    Name::E,
    Name::Pi,
    Name::Ln2,
    Name::HeatmapDensity,
    Name::LineProgress,
    Name::Accumulated,
];

// The place in `NAMES` of the name that has a slot; where none has it, any place.
static SLOTS: [u8; 256] = [
    28, 0, 13, 1, 0, 63, 0, 0, 0, 49, 0, 0, 51, 60, 0, 0, 0, 0, 3, 0, 0, 32, 0, 0, 0, 66, 0, 0, 0,
    0, 0, 0, 0, 21, 0, 0, 0, 0, 8, 77, 0, 0, 0, 0, 0, 0, 0, 0, 71, 0, 0, 0, 0, 0, 0, 35, 0, 0, 74,
    0, 0, 0, 0, 0, 0, 73, 0, 0, 50, 0, 59, 0, 0, 5, 0, 22, 0, 65, 0, 14, 0, 0, 25, 0, 0, 0, 0, 17,
    0, 53, 80, 0, 27, 0, 0, 47, 41, 76, 0, 18, 0, 0, 0, 0, 82, 0, 16, 0, 69, 29, 0, 0, 9, 0, 0, 0,
    0, 0, 0, 0, 0, 68, 0, 0, 40, 43, 0, 0, 0, 0, 0, 54, 0, 0, 0, 45, 37, 0, 0, 0, 0, 0, 0, 0, 0,
    46, 0, 0, 0, 0, 0, 19, 0, 0, 0, 0, 0, 0, 0, 78, 0, 0, 0, 33, 81, 52, 0, 75, 0, 24, 61, 31, 2,
    0, 57, 0, 12, 0, 70, 0, 0, 0, 0, 72, 0, 0, 0, 0, 0, 83, 0, 11, 38, 34, 0, 0, 0, 39, 0, 56, 20,
    0, 0, 48, 0, 58, 36, 0, 62, 0, 0, 0, 0, 0, 0, 0, 42, 0, 0, 0, 10, 15, 0, 0, 7, 0, 0, 0, 6, 0,
    64, 0, 0, 0, 0, 4, 0, 0, 79, 0, 0, 0, 0, 0, 0, 55, 0, 30, 44, 0, 26, 0, 67, 23, 0, 0,
];
