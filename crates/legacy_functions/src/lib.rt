//! Legacy functions and token texts of MapLibre styles: what they give on a feature, and the expressions that
//! give the same.
//!
//! ```text
//! let json = parse(alloc, b"{\"property\":\"rank\",\"stops\":[[0,1],[10,11]]}")?;
//! match read(alloc, &json, &row)? {                // the row circle-radius, whose default is 5
//!     Ok(FunctionReading::Inside(function)) => {
//!         function.value(alloc, zoom, &feature)?;  // 4 where the rank is 3, and 5 where it is no number
//!         function.to_expr(alloc)?;                // ["case",["==",["typeof",["get","rank"]],"number"],["interpolate",..],5]
//!     }
//!     Ok(FunctionReading::Outside) => ..,          // it has `colorSpace`, or a base that is not evaluated
//!     Err(FunctionFault) => ..,                    // it has not the form of a function of the row
//! }
//! has_tokens("{name} ({rank})");                   // true
//! token_text(alloc, "{name} ({rank})", &feature)?; // "Rhine (3)"
//! ```
//!
//! What is promised, for all JSON trees, rows and features: `read` gives the function that the tree is by
//! `specs/Form.antt`, or says that it is outside, or that it is none. `value` is the meaning of
//! `specs/Meaning.antt`, faults included, which goes by the list of stops and names no expression. `to_expr`
//! gives the expression of `specs/ToExpression.antt`; texts and numbers are in it as they were in the
//! function. `asks_zoom` and `asks_feature` say which parts of the world a function asks for, by
//! `specs/AskedParts.antt`. `has_tokens`, `token_text` and `token_expr` go by the pieces of
//! `specs/Tokens.antt`.
//!
//! A function is read in n log n of its stops. Its stops are found by halving, and its categories by an
//! ordered index, so that a feature takes time logarithmic in their number. No list of stops is copied.
//!
//! The text to believe is in `specs/`: `Tokens`, `Function`, `Form`, `Meaning`, `ToExpression`, `AskedParts`,
//! `Parts`, `View`.
#![tactic(auto)]

mod asked_parts;
mod categories;
mod expression;
mod function;
mod leaves;
mod meaning;
mod members;
mod names;
mod placed;
mod reading;
mod rules;
mod stops;
mod tokens;
mod zooms;

pub use function::{Function, FunctionFault, FunctionReading};
pub use reading::read;
pub use tokens::{has_tokens, token_expr, token_text};
