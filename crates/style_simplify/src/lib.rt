//! A style with the same meaning and less in it: constants are folded, branches and bindings that nothing asks for go.
//!
//! ```text
//! // of a circle layer: "filter":["all",["!",true],["has","r"]], "circle-radius":["+",1,["*",2,3]]
//! let simplified = simplify(alloc, &style)?;
//! // simplified.document: "filter":false, "circle-radius":7
//! // simplified.never: /layers/0/filter
//! ```
//!
//! What is promised, for all JSON trees: `simplify` gives the document that `simplified` of
//! `specs/SimplifiedStyle.antt` defines, and the paths of the filters that are false there and were not before. A value
//! or filter that is an expression is replaced by its simplified form; order, names, legacy forms, token texts, what
//! is outside and number texts stay. No test of images or scripts is asked: what would ask one is not folded.
//!
//! The rules, of which a node is made by the first that may be used, once, after its arguments:
//! - `Folding`: what reads nothing and asks for no name becomes the literal that it means.
//! - `ShorterNodes`: `case`, `all`, `any`, `coalesce` and `match` lose what literals decide.
//! - `AskedBindings`: a `let` loses what its body does not ask for.
//!
//! A rule is used only where the kind stays. Time is linear in the document times the depth of an expression, which a
//! JSON text bounds by 64. Texts are shared with the document.
//!
//! The text to believe is in `specs/`: `SimpleElements`, `Literals`, `Folding`, `ShorterNodes`, `AskedBindings`,
//! `Choices`, `Simple`, `SimplifiedStyle`.
#![tactic(auto)]

mod asked_bindings;
mod choices;
mod conditions;
mod document;
mod element;
mod folding;
mod layers;
mod leaves;
mod literal_role;
mod literals;
mod never;
mod properties;
mod sections;
mod shorter;
mod simplifying;
mod values;

pub use document::{Simplified, simplify};
