ghost use Rattle.std.specs.Prelude.{◌≡◌};

use fixed_num::Fixed;
use prop_values::Want;

/// The member of a layer that a property is in.
#[derive(Clone, Copy, Debug, PartialEq, Eq)]
pub enum Place {
    Layout,
    Paint,
}

/// The default of a property without a value of its own. `default_value` gives it as a value.
#[derive(Clone, Copy, Debug, PartialEq, Eq)]
pub enum Fallback {
    Absent,
    Flag(bool),
    Number(Fixed),
    /// A color's text, a text, or one of a set of texts.
    Word(&'static str),
    /// A list of so many zeros.
    Zeros(u32),
    /// The list of the fonts `Open Sans Regular` and `Arial Unicode MS Regular`.
    Fonts,
}

/// A row of the table of properties.
#[derive(Clone, Copy, Debug, PartialEq, Eq)]
pub struct Row {
    pub name: &'static str,
    /// The place of the row among those of its layer type, counted from 0.
    pub number: u16,
    pub place: Place,
    pub want: Want,
    pub fallback: Fallback,
    /// The least and the most number that a literal or a function's output may be, or each of its items.
    pub least: Option<Fixed>,
    pub most: Option<Fixed>,
    /// Whether a value may read the zoom, feature data and feature state.
    pub zoom: bool,
    pub feature: bool,
    pub state: bool,
    /// Whether a function goes linearly between its stops where its type is not given, and may be
    /// exponential.
    pub ramps: bool,
    /// Whether a text with tokens is a token text.
    pub takes_tokens: bool,
}

impl Row {
    pub fn copy(&self) -> Row
        ensures { result ≡ self.now }
    {
        Row {
            name: self.name,
            number: self.number,
            place: self.place,
            want: self.want,
            fallback: self.fallback.copy(),
            least: self.least,
            most: self.most,
            zoom: self.zoom,
            feature: self.feature,
            state: self.state,
            ramps: self.ramps,
            takes_tokens: self.takes_tokens,
        }
    }
}

impl Fallback {
    fn copy(&self) -> Fallback
        ensures { result ≡ self.now }
    {
        match self {
            Fallback::Absent => Fallback::Absent,
            Fallback::Flag(flag) => Fallback::Flag(*flag),
            Fallback::Number(number) => Fallback::Number(*number),
            Fallback::Word(word) => Fallback::Word(*word),
            Fallback::Zeros(count) => Fallback::Zeros(*count),
            Fallback::Fonts => Fallback::Fonts,
        }
    }
}
