//! The names of which expressions are made. All names of one expression are ranges of one text.

ghost use Rattle.std.specs.Prelude.{◌≡◌};
ghost use Rattle.legacy_functions.specs.AllNames.{all_names};

use decimal_json::Text;
use shared_text::Document;
use std::alloc::{AllocError, Global};

/// All names, one after another. Those that are rare are at the end.
const ALL_NAMES: &str =
    "interpolatelinearzoomcase==typeofgetnumberstepliteralconcatstringarraybooleancoalesceexponential";

/// The name of an operator, or what `typeof` says of a value.
#[derive(Clone, Copy)]
pub(crate) enum CallName {
    Interpolate,
    Linear,
    Zoom,
    Case,
    Equal,
    TypeOf,
    Get,
    Number,
    Step,
    Literal,
    Concat,
    Text,
    Array,
    Boolean,
    Coalesce,
    Exponential,
}

impl CallName {
    ghost use Rattle.std.specs.Prelude.{◌≡◌, ◌≤◌, IsUtf8, length};
    ghost use Rattle.shared_text.specs.Ranges.{part};
    ghost use Rattle.legacy_functions.specs.Names.{name_text};

    // From where to where a name is among all names.
    fn place(self) -> (usize, usize)
        ensures order { result.0 ≤ result.1 }
        ensures within { result.1 ≤ length all_names }
        ensures text { part result.0 result.1 all_names ≡ name_text self }
        ensures utf8 { IsUtf8 (part result.0 result.1 all_names) }
    {
        match self {
            CallName::Interpolate => (0, 11),
            CallName::Linear => (11, 17),
            CallName::Zoom => (17, 21),
            CallName::Case => (21, 25),
            CallName::Equal => (25, 27),
            CallName::TypeOf => (27, 33),
            CallName::Get => (33, 36),
            CallName::Number => (36, 42),
            CallName::Step => (42, 46),
            CallName::Literal => (46, 53),
            CallName::Concat => (53, 59),
            CallName::Text => (59, 65),
            CallName::Array => (65, 70),
            CallName::Boolean => (70, 77),
            CallName::Coalesce => (77, 85),
            CallName::Exponential => (85, 96),
        }
    }
}

/// The text that has all names.
#[derive(Drop)]
pub(crate) struct CallNames {
    document: Document,
    ghost whole: { document ≡ all_names },
}

impl CallNames {
    ghost use Rattle.std.specs.Prelude.{◌≡◌, IfOk};
    ghost use Rattle.legacy_functions.specs.Names.{name_text};

    pub(crate) fn of(alloc: Global) -> Result<CallNames, AllocError> {
        Ok(CallNames {
            document: Document::copy_of(alloc, ALL_NAMES.as_bytes())?,
        })
    }

    /// The text of a name. No byte is copied.
    pub(crate) fn text(&self, name: CallName) -> Result<Text, AllocError>
        ensures { IfOk result (λ text. text ≡ name_text name) }
    {
        let (from, to) = name.place();
        Text::of_range(&self.document, from, to)
    }
}
