//! Legacy filters of MapLibre styles: which filters are legacy, what they say of a feature, and the
//! expressions that say the same.
//!
//! ```text
//! let filter = parse(alloc, b"[\"<=\",\"rank\",4]")?;
//! is_legacy(&filter);                         // true; false of ["<=",["get","rank"],4]
//! match read(alloc, &filter)? {
//!     Ok(legacy) => {
//!         legacy.passes(&feature);            // whether its rank is a number, and at most 4
//!         legacy.to_expr(alloc)?;             // ["all",["==",["typeof",["get","rank"]],"number"],["<=",["get","rank"],4]]
//!     }
//!     Err(fault) => ..,                       // ["all",["<=","rank",null]]: fault.path is /1
//! }
//! ```
//!
//! What is promised, for all JSON trees and all features: `is_legacy` is the split that `specs/Split.antt`
//! defines. `read` gives the filter that the tree is by `specs/Form.antt`, or the path of its innermost
//! ill-formed part, the first in order. `passes` is the meaning of `specs/Meaning.antt`, which goes by the
//! filter itself and names no expression. `asks_feature` says whether a test asks for the feature, by
//! `specs/AskedParts.antt`. `to_expr` gives the expression of `specs/ToExpression.antt`; texts and numbers are
//! in it as they were in the filter. It is never a legacy filter (`expressions_are_not_legacy`).
//!
//! `is_legacy`, `passes` and `asks_feature` take no memory. Each looks at each node once at most, and recurses
//! as deep as the filter, which has at most 24 groups around each part where it was read. The values of an
//! `in` are indexed when they are read, in n log n of them, so that a feature is looked up in time logarithmic
//! in their number.
//!
//! The text to believe is in `specs/`: `Split`, `Filter`, `Form`, `Scalars`, `Meaning`, `ToExpression`,
//! `AskedParts`, `View`. Laws of it: `Laws`.
#![tactic(auto)]

mod asked_parts;
mod expression;
mod filter;
mod found;
mod laws;
mod meaning;
mod reading;
mod scalars;
mod split;

pub use filter::{FilterFault, LegacyFilter};
pub use laws::expressions_are_not_legacy;
pub use reading::read;
pub use split::is_legacy;
