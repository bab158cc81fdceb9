//! An evaluator that counts, in which an expression has nodes and a legacy form stays as it is.
//!
//! ```text
//! // {"property":"rank","stops":[[0,1],[10,11]]} on circle-radius
//! let slot = pool.put_legacy(LegacyForm::Function(function))?;
//! pool.evaluated(&mut workspace, slot, &world, &mut steps)?     // of a feature whose rank is 3: 4, in one step
//! ```
//!
//! What is promised: a legacy form gives in each world what its expression means under its want (`sized_form` in
//! `specs/LegacyForms.antt`), faults included. Its evaluation counts one step, however many nodes its expression has.
//! An expression is that of a [`node_pool::Pool`].
//!
//! A stop or a label is found by halving, a token text is joined piece by piece and a legacy filter is tested as it was
//! read, so that no expression is made or kept for them.
//!
//! The text to believe is in `specs/`: `LegacyForms`.
#![tactic(auto)]

mod form_pool;
mod legacy_form;

pub use form_pool::FormPool;
pub use legacy_form::LegacyForm;
