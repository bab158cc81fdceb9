//! What a row of the table of operators says.

ghost use Rattle.std.specs.Prelude.{◌≡◌, ◌<◌, ◌^◌};
ghost use Rattle.expr_syntax.specs.Operators.{want_of, ramp_want};
ghost use Rattle.expr_syntax.specs.Rows.{allows, element_place, wanted, is_input, is_label, is_binder};

use prop_values::Want;

/// A row of the table of operators. Source: MapLibre style specification, version 8, expressions.
#[derive(Clone, Copy, Debug, PartialEq, Eq)]
pub struct OperatorRow {
    /// The name as it is written.
    pub text: &'static str,
    /// Whether the operator is outside of what is evaluated. Then nothing but its text counts.
    pub is_outside: bool,
    /// How many elements may follow the name.
    pub arity: Arity,
    /// Which elements are arguments.
    pub layout: ElementLayout,
    pub wants: Wants,
    /// The argument, counted from 0, that has to be a text or a list.
    pub sequence: Option<usize>,
    /// How the arguments are evaluated.
    pub manner: Manner,
    /// What the operator itself reads of the world.
    pub reads: Reads,
}

/// Numbers of elements after a name.
#[derive(Clone, Copy, Debug, PartialEq, Eq)]
pub enum Arity {
    Exactly(usize),
    Between(usize, usize),
    AtLeast(usize),
    /// An odd number, at least this one.
    OddFrom(usize),
    /// An even number, at least this one.
    EvenFrom(usize),
}

/// What the elements after a name are.
#[derive(Clone, Copy, Debug, PartialEq, Eq)]
pub enum ElementLayout {
    Arguments,
    /// Arguments, one of which is the value of the node.
    Choices,
    /// A JSON value.
    Value,
    /// The name of the items and the length, as far as they are there, and an argument.
    Items,
    /// Pairs of a condition and an output, and an output.
    Cases,
    /// An argument, pairs of labels and an output, and an output.
    Labels,
    /// An argument, an output, and pairs of an input and an output.
    Stops,
    /// An interpolation, an argument, and pairs of an input and an argument.
    Ramp,
    /// Pairs of a name and an argument, and an output, the body.
    Bindings,
    /// A name that a `let` binds.
    Variable,
    /// A name of the global state.
    Global,
    /// Contents, each with an object of options or without.
    Sections,
}

/// What an element of a node is: a part of the operator, an argument, or an argument whose value may be that
/// of the node.
#[derive(Clone, Copy, Debug, PartialEq, Eq)]
pub enum ElementPlace {
    Part,
    Argument,
    Output,
}

/// What the arguments of an operator are wanted as, counted from 0.
#[derive(Clone, Copy, Debug, PartialEq, Eq)]
pub enum Wants {
    Each(Want),
    /// The first, and each later one.
    Then(Want, Want),
    /// The first, the second, and each later one.
    Third(Want, Want, Want),
    /// Conditions and outputs in turn; the last is an output.
    Conditions,
    /// The first; each later one is an output.
    Input(Want),
    /// Bindings; the last is the body.
    Bindings,
}

/// What one argument is wanted as: a want of its own, or the want of the node.
#[derive(Clone, Copy, Debug, PartialEq, Eq)]
pub enum Wanted {
    Own(Want),
    OfNode,
}

/// How an operator evaluates its arguments.
#[derive(Clone, Copy, Debug, PartialEq, Eq)]
pub enum Manner {
    /// Each of them, from left to right.
    Each,
    /// One after the other, to the first that decides.
    Deciding,
    /// What decides, and the outputs that it chooses.
    Branches,
    /// A binding where its name is asked for.
    Names,
}

/// What an operator itself reads of the world.
#[derive(Clone, Copy, Debug, PartialEq, Eq)]
pub enum Reads {
    Nothing,
    Zoom,
    Feature,
    /// The feature, where there is no second argument.
    FeatureAlone,
    State,
    Images,
}

impl Arity {
    /// Whether so many elements may follow the name.
    pub fn allows(self, elements: usize) -> bool
        ensures { result ≡ allows self elements }
    {
        match self {
            Arity::Exactly(number) => elements == number,
            Arity::Between(least, most) => least <= elements && elements <= most,
            Arity::AtLeast(least) => least <= elements,
            Arity::OddFrom(least) => least <= elements && elements % 2 == 1,
            Arity::EvenFrom(least) => least <= elements && elements % 2 == 0,
        }
    }
}

impl ElementLayout {
    /// What the element at a place is. Places are counted from the name, which has place 0 and counts as one
    /// of the elements.
    pub fn place(self, elements: usize, at: usize) -> ElementPlace
        requires { at < 2 ^ 63 }
        ensures { result ≡ element_place self elements at }
    {
        if at == 0 {
            return ElementPlace::Part;
        }
        let is_last = at + 1 == elements;
        let is_even = at % 2 == 0;
        match self {
            ElementLayout::Arguments | ElementLayout::Sections => ElementPlace::Argument,
            ElementLayout::Choices => ElementPlace::Output,
            ElementLayout::Value | ElementLayout::Variable | ElementLayout::Global =>
                ElementPlace::Part,
            ElementLayout::Items if is_last => ElementPlace::Argument,
            ElementLayout::Items => ElementPlace::Part,
            ElementLayout::Cases if is_last || is_even => ElementPlace::Output,
            ElementLayout::Cases => ElementPlace::Argument,
            ElementLayout::Labels | ElementLayout::Stops if at == 1 => ElementPlace::Argument,
            ElementLayout::Labels if is_label(elements, at) => ElementPlace::Part,
            ElementLayout::Labels => ElementPlace::Output,
            ElementLayout::Stops if is_input(at) => ElementPlace::Part,
            ElementLayout::Stops => ElementPlace::Output,
            ElementLayout::Ramp if is_even => ElementPlace::Argument,
            ElementLayout::Ramp => ElementPlace::Part,
            ElementLayout::Bindings if is_last => ElementPlace::Output,
            ElementLayout::Bindings if is_even => ElementPlace::Argument,
            ElementLayout::Bindings => ElementPlace::Part,
        }
    }
}

impl Wants {
    /// What an argument is wanted as, counted from 0, of so many arguments.
    pub fn wanted(self, arguments: usize, argument: usize) -> Wanted
        requires { argument < 2 ^ 63 }
        ensures { result ≡ wanted self arguments argument }
    {
        let is_last = argument + 1 == arguments;
        match self {
            Wants::Each(want) => Wanted::Own(want),
            Wants::Then(first, _) if argument == 0 => Wanted::Own(first),
            Wants::Then(_, later) => Wanted::Own(later),
            Wants::Third(first, _, _) if argument == 0 => Wanted::Own(first),
            Wants::Third(_, second, _) if argument == 1 => Wanted::Own(second),
            Wants::Third(_, _, later) => Wanted::Own(later),
            Wants::Conditions if is_last || argument % 2 == 1 => Wanted::OfNode,
            Wants::Conditions => Wanted::Own(Want::Boolean),
            Wants::Input(want) if argument == 0 => Wanted::Own(want),
            Wants::Input(_) => Wanted::OfNode,
            Wants::Bindings if is_last => Wanted::OfNode,
            Wants::Bindings => Wanted::Own(Want::Any),
        }
    }
}

impl Wanted {
    /// The want of an argument, in a node under a want.
    pub fn under(self, want: &Want) -> Want
        ensures { result ≡ want_of self want.now }
    {
        match self {
            Wanted::Own(own) => own,
            Wanted::OfNode => *want,
        }
    }
}

/// The want of the outputs of an `interpolate`, in a node under a want.
pub fn ramp_want(want: &Want) -> Want
    ensures { result ≡ ramp_want want.now }
{
    match want {
        Want::Shown => Want::Any,
        want => *want,
    }
}

/// Whether an input of a stop has this place.
pub(crate) fn is_input(at: usize) -> bool
    ensures { result ≡ is_input at }
{
    at >= 3 && at % 2 != 0
}

/// Whether the labels of an output have this place.
pub(crate) fn is_label(elements: usize, at: usize) -> bool
    requires { at < 2 ^ 63 }
    ensures { result ≡ is_label elements at }
{
    at >= 2 && at % 2 == 0 && at + 1 != elements
}

/// Whether the name of a binding has this place.
pub(crate) fn is_binder(elements: usize, at: usize) -> bool
    requires { at < 2 ^ 63 }
    ensures { result ≡ is_binder elements at }
{
    at % 2 != 0 && at + 1 != elements
}
