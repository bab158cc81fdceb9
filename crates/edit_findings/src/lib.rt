//! The findings of a style after an edit, found by looking at the part that the edit changes.
//!
//! ```text
//! // a style without findings, of two layers, and ["set-paint","roads","line-width",-1]
//! findings_after(alloc, &style, &command)?    // Finding { path: /layers/1/paint/line-width, rule: 15 }
//! ```
//!
//! What is promised: `findings_after` gives the findings of the edited document, exactly as `style_rules::findings`
//! does, for each document without findings and each edit without fault; and it leaves the document as it is.
//! A property and a filter are looked at alone, and a new layer with the ids of the others. An edit that takes
//! something away, moves a layer or sets a range finds nothing. Takes time linear in what is put, and in the number
//! of layers where their number or order changes.
//!
//! `findings_after` goes through the layers for each id that the edit names. Whoever knows the places of layers, and
//! that no name occurs twice in them (`layers_have_distinct_members`), calls `findings_at`: its time is constant for a
//! move.
//!
//! The text to believe is that of `style_rules` and `style_edits`.
#![tactic(auto)]

mod after;
mod layers;
mod parts;

pub use after::{findings_after, findings_at, layers_have_distinct_members};
