//! The rules on a style: which of them a document breaks, and what may still go wrong where it breaks none.
//!
//! ```text
//! // {"version":7,"sources":{},"layers":[{"id":"a","type":"circle"}]}
//! findings(alloc, &style)?    // Finding { path: /version, rule: 3 }, Finding { path: /layers/0, rule: 10 }
//! ```
//!
//! What is promised: `findings` gives each place that breaks a rule with the least rule that it breaks, in
//! the order of the text, and none below another. `examined` gives them too, and in the same walk the notes,
//! which are the values and filters that are outside of what is evaluated, and the values and filters whose
//! evaluation may fault, with the faults. Each list is exactly the definition of its name in
//! `specs/Findings.antt`, and each expression is read and typed once for all three. The faults of a
//! legacy function are looked for by `examined` alone. `property_findings`, `filter_findings` and `layer_findings`
//! give the findings of one part, for whoever knows that the others have none.
//!
//! The text to believe is in `specs/`: `LayerContext`, `Rules`, `Values`, `Places`, `Findings`, `Reports`.
#![tactic(auto)]

mod calls;
mod diagnostics;
mod document;
mod filters;
mod keys;
mod late_path;
mod laws;
mod layer;
mod layer_context;
mod lists;
mod names;
mod part_findings;
mod possible_faults;
mod properties;
mod values;

pub use calls::{examined, findings};
pub use laws::{documents_have_distinct_members, findings_go_by_levels};
pub use lists::{Finding, Findings, MayLine, MayLines, Paths, Report};
pub use part_findings::{filter_findings, layer_findings, property_findings};
