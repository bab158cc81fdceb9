ghost use Rattle.std.specs.Prelude.{◌≡◌, ◌<◌, ◌^◌, [], ◌∷◌, ◌++◌, IfOk, OnOk, OnErr};
ghost use Rattle.expr_syntax.specs.Names.{row};
ghost use Rattle.expr_syntax.specs.Operators.{operator_name, plain_operator, wanted_by};
ghost use Rattle.expr_syntax.specs.ReadView.{row_view};
ghost use Rattle.expr_syntax.specs.TermView.{term_of, terms_view};

use crate::bound_names::{AskedName, Names};
use crate::names::Name;
use crate::parts::{Inputs, Labels, Pieces, Ramp};
use crate::rows::{OperatorRow, Wanted};
use prop_values::{Item, Value, Want};
use std::alloc::{AllocError, Global};
use std::marker::Model;

/// What a node does with its arguments, with its parts. `name` gives its row in the table of operators.
/// Source: MapLibre style specification, version 8, expressions.
#[derive(Drop)]
pub enum Operator {
    /// `array`: the items and the length, where they are asked.
    Array(Option<Item>, Option<u32>),
    Boolean,
    Number,
    String,
    Object,
    ToBoolean,
    ToColor,
    ToNumber,
    ToString,
    TypeOf,
    Get,
    Has,
    Properties,
    Id,
    GeometryType,
    FeatureState,
    At,
    In,
    IndexOf,
    Length,
    Slice,
    Not,
    Equal,
    NotEqual,
    Less,
    LessOrEqual,
    Greater,
    GreaterOrEqual,
    All,
    Any,
    Case,
    Match(Labels),
    Coalesce,
    Step(Inputs),
    Interpolate(Ramp),
    Let(Names),
    Var(AskedName),
    Zoom,
    Concat,
    Rgb,
    Rgba,
    ToRgba,
    Add,
    Multiply,
    Subtract,
    Divide,
    Remainder,
    Abs,
    Ceil,
    Floor,
    Round,
    Min,
    Max,
    Image,
    IsSupportedScript,
    /// `format`: what its arguments are.
    Format(Pieces),
}

impl Operator {
    pub fn name(&self) -> Name
        ensures { result ≡ operator_name self.now }
    {
        match self {
            Operator::Array(_, _) => Name::Array,
            Operator::Boolean => Name::Boolean,
            Operator::Number => Name::Number,
            Operator::String => Name::String,
            Operator::Object => Name::Object,
            Operator::ToBoolean => Name::ToBoolean,
            Operator::ToColor => Name::ToColor,
            Operator::ToNumber => Name::ToNumber,
            Operator::ToString => Name::ToString,
            Operator::TypeOf => Name::TypeOf,
            Operator::Get => Name::Get,
            Operator::Has => Name::Has,
            Operator::Properties => Name::Properties,
            Operator::Id => Name::Id,
            Operator::GeometryType => Name::GeometryType,
            Operator::FeatureState => Name::FeatureState,
            Operator::At => Name::At,
            Operator::In => Name::In,
            Operator::IndexOf => Name::IndexOf,
            Operator::Length => Name::Length,
            Operator::Slice => Name::Slice,
            Operator::Not => Name::Not,
            Operator::Equal => Name::Equal,
            Operator::NotEqual => Name::NotEqual,
            Operator::Less => Name::Less,
            Operator::LessOrEqual => Name::LessOrEqual,
            Operator::Greater => Name::Greater,
            Operator::GreaterOrEqual => Name::GreaterOrEqual,
            Operator::All => Name::All,
            Operator::Any => Name::Any,
            Operator::Case => Name::Case,
            Operator::Match(_) => Name::Match,
            Operator::Coalesce => Name::Coalesce,
            Operator::Step(_) => Name::Step,
            Operator::Interpolate(_) => Name::Interpolate,
            Operator::Let(_) => Name::Let,
            Operator::Var(_) => Name::Var,
            Operator::Zoom => Name::Zoom,
            Operator::Concat => Name::Concat,
            Operator::Rgb => Name::Rgb,
            Operator::Rgba => Name::Rgba,
            Operator::ToRgba => Name::ToRgba,
            Operator::Add => Name::Add,
            Operator::Multiply => Name::Multiply,
            Operator::Subtract => Name::Subtract,
            Operator::Divide => Name::Divide,
            Operator::Remainder => Name::Remainder,
            Operator::Abs => Name::Abs,
            Operator::Ceil => Name::Ceil,
            Operator::Floor => Name::Floor,
            Operator::Round => Name::Round,
            Operator::Min => Name::Min,
            Operator::Max => Name::Max,
            Operator::Image => Name::Image,
            Operator::IsSupportedScript => Name::IsSupportedScript,
            Operator::Format(_) => Name::Format,
        }
    }

    /// What the table says of the operator.
    pub fn row(&self) -> &'static OperatorRow
        ensures { row_view result.now ≡ row (operator_name self.now) }
    {
        self.name().row()
    }

    /// What an argument is wanted as, counted from 0, of so many arguments.
    pub fn wanted(&self, arguments: usize, argument: usize) -> Wanted
        requires { argument < 2 ^ 63 }
        ensures { result ≡ wanted_by self.now arguments argument }
    {
        match self {
            Operator::Format(pieces) => match pieces.as_slice().get(argument) {
                Some(piece) => Wanted::Own(piece.role.want()),
                None => Wanted::Own(Want::Any),
            },
            _ => self.row().wants.wanted(arguments, argument),
        }
    }
}

/// The operator of a name that has no parts.
pub(crate) fn plain_operator(name: Name) -> Option<Operator>
    ensures { result ≡ plain_operator name }
{
    match name {
        Name::Boolean => Some(Operator::Boolean),
        Name::Number => Some(Operator::Number),
        Name::String => Some(Operator::String),
        Name::Object => Some(Operator::Object),
        Name::ToBoolean => Some(Operator::ToBoolean),
        Name::ToColor => Some(Operator::ToColor),
        Name::ToNumber => Some(Operator::ToNumber),
        Name::ToString => Some(Operator::ToString),
        Name::TypeOf => Some(Operator::TypeOf),
        Name::Get => Some(Operator::Get),
        Name::Has => Some(Operator::Has),
        Name::Properties => Some(Operator::Properties),
        Name::Id => Some(Operator::Id),
        Name::GeometryType => Some(Operator::GeometryType),
        Name::FeatureState => Some(Operator::FeatureState),
        Name::At => Some(Operator::At),
        Name::In => Some(Operator::In),
        Name::IndexOf => Some(Operator::IndexOf),
        Name::Length => Some(Operator::Length),
        Name::Slice => Some(Operator::Slice),
        Name::Not => Some(Operator::Not),
        Name::Equal => Some(Operator::Equal),
        Name::NotEqual => Some(Operator::NotEqual),
        Name::Less => Some(Operator::Less),
        Name::LessOrEqual => Some(Operator::LessOrEqual),
        Name::Greater => Some(Operator::Greater),
        Name::GreaterOrEqual => Some(Operator::GreaterOrEqual),
        Name::All => Some(Operator::All),
        Name::Any => Some(Operator::Any),
        Name::Case => Some(Operator::Case),
        Name::Coalesce => Some(Operator::Coalesce),
        Name::Zoom => Some(Operator::Zoom),
        Name::Concat => Some(Operator::Concat),
        Name::Rgb => Some(Operator::Rgb),
        Name::Rgba => Some(Operator::Rgba),
        Name::ToRgba => Some(Operator::ToRgba),
        Name::Add => Some(Operator::Add),
        Name::Multiply => Some(Operator::Multiply),
        Name::Subtract => Some(Operator::Subtract),
        Name::Divide => Some(Operator::Divide),
        Name::Remainder => Some(Operator::Remainder),
        Name::Abs => Some(Operator::Abs),
        Name::Ceil => Some(Operator::Ceil),
        Name::Floor => Some(Operator::Floor),
        Name::Round => Some(Operator::Round),
        Name::Min => Some(Operator::Min),
        Name::Max => Some(Operator::Max),
        Name::Image => Some(Operator::Image),
        Name::IsSupportedScript => Some(Operator::IsSupportedScript),
        _ => None,
    }
}

/// An expression as a tree of operators, without kinds. `term_of` says which term it is to a clause.
#[derive(Drop)]
#[cycle(expression)]
pub enum Expr {
    Literal(Value),
    Node(Operator, Arguments),
}

/// The arguments of a node in order, which clauses see as a list of terms.
#[derive(Drop)]
#[cycle(expression)]
pub struct Arguments {
    arguments: Vec<Expr>,
}

impl Model for Arguments {
    ghost use Rattle.std.specs.Prelude.{List};
    ghost use Rattle.expr_syntax.specs.Term.{Term};
    ghost use Rattle.expr_syntax.specs.TermCode.{terms_code};

    ghost Value = { List Term };

    ghost coded = { terms_code };

    ghost use Rattle.expr_syntax.specs.TermView.{terms_view, terms_size};

    ghost view = { λ a. terms_view a.arguments.items };

    ghost size = { terms_size };

    ghost use Rattle.std.proofs.Common.{arith};
    ghost use Rattle.expr_syntax.specs.Falls.{arguments_fall};

    ghost size_decreases = { λ a h. Prim.omega (arith, arguments_fall a.arguments.items) };
}

impl Arguments {
    pub fn new(alloc: Global) -> Arguments
        ensures { result ≡ [] }
    {
        Arguments {
            arguments: Vec::new(alloc),
        }
    }

    /// None yet, with room for so many.
    pub fn with_room(alloc: Global, room: usize) -> Result<Arguments, AllocError>
        ensures { IfOk result (λ arguments. arguments ≡ []) }
    {
        Ok(Arguments {
            arguments: Vec::with_capacity(alloc, room)?,
        })
    }

    /// Adds an argument at the end.
    pub fn push(&mut self, argument: Expr) -> Result<(), AllocError>
        ensures ok { OnOk result (self.new ≡ self.old ++ term_of argument ∷ []) }
        ensures err { OnErr result (self.new ≡ self.old) }
    {
        self.arguments.push(argument)?;
        Ok(())
    }

    /// The arguments in order.
    pub fn as_slice(&self) -> &[Expr]
        ensures { terms_view result.now ≡ self.now }
    {
        self.arguments.as_slice()
    }

    /// The arguments in order, each to be taken apart.
    pub fn into_vec(self) -> Vec<Expr>
        ensures { terms_view result.items ≡ self }
    {
        self.arguments
    }
}
