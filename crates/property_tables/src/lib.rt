//! The properties of style layers: the table of what each may be, and how a value is fitted to what is
//! wanted.
//!
//! ```text
//! LayerType::named("fill-extrusion")                      // Some(LayerType::FillExtrusion)
//! row(LayerType::Circle, Place::Paint, "circle-radius")   // Some(Row { number: 2, want: Want::Number, .. })
//! default_value(alloc, &row)?                             // Some(Value::Num(five))
//! literal(alloc, &json, &row)?                            // None for -1, which is below the least
//! fit(alloc, Value::Text(red), &Want::Color)?             // Ok(Value::Color(..)), 255, 0, 0 and 1
//! fit(alloc, Value::Text(reddish), &Want::Color)?         // Err(EvalFault::NotColor)
//! fit(alloc, Value::Num(one), &Want::Text)?               // Err(EvalFault::WrongType)
//! ```
//!
//! What is promised, for all values and wants: `fit` gives exactly the value or the fault of the definition
//! `fit` of `specs/Fitting.antt`, and a fitted value is left as it is by the same want (`specs/Stays.antt`).
//! The names of layer types are those of `specs/LayerTypes.antt`, in both directions. `row` and `unread` are
//! the table of `specs/Rows.antt`, one line a property in table order, which `row_count` and `row_numbered`
//! go through; `default_value` and `literal` are the value and the test that it says. In each type names
//! differ, layout is before paint, and a default is a literal of its own row (`tables_keep_their_rules`).
//!
//! A row is found by halving, without memory. A value that passes is handed on and not copied. Only the text
//! of a value that is no text takes memory, and time is linear in the items of a list and in a text.
//!
//! The text to believe is in `specs/`: `LayerTypes`, `Rows`, `RowView`, `Defaults`, `Literals`, `Fitting`.
//! Laws of it: `TableLaws`, `Stays`.
#![tactic(auto)]

mod defaults;
mod entry;
mod fitting;
mod laws;
mod layer_type;
mod literals;
mod lookup;
mod property_row;
mod rows;
mod search;

pub use defaults::default_value;
pub use fitting::fit;
pub use laws::{fitted_values_stay, tables_keep_their_rules};
pub use layer_type::LayerType;
pub use literals::literal;
pub use lookup::{row, row_count, row_numbered, unread};
pub use property_row::{Fallback, Place, Row};
