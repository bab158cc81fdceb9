//! Laws of simplification: what a simplified value, filter and document mean, what is listed as never passed, and what
//! a second time may do.
//!
//! ```text
//! "filter":["all",["!",true],["has","r"]]                                  // becomes false, and its path is listed
//! "filter":["let","a",["has","r"],"b",true,["var","b"]]                    // becomes ["let","b",true,["var","b"]],
//!                                                                          // and that would become true
//! ```
//!
//! What is promised, for each sound JSON tree, as each that is read is one: simplified as the value of a row it is
//! listed as before, at every zoom, of every feature and state, and whatever the two tests and the values of the global
//! state are (`simplified_values_mean_the_same`); simplified as a filter it lets the same features pass
//! (`simplified_filters_pass_the_same`), and is outside where it was (`simplified_filters_are_outside_alike`); and it
//! has no more nodes (`simplified_values_have_no_more_nodes`, `simplified_filters_have_no_more_nodes`), and reads no
//! more of the world (`simplified_values_read_no_more`, `simplified_filters_read_no_more`). A simplified document has
//! the layers that it had, each with the same properties and filter (`simplified_documents_have_the_same_layers`). Its
//! layout is the same, beside that a value that reads no feature any more is listed with its layer
//! (`simplified_documents_have_the_same_layout`, `simplified_documents_keep_their_layout`); and it has no more cells
//! (`simplified_documents_have_no_more_cells`).
//!
//! For each JSON tree: each path that simplification lists as never passed is that of a filter of the simplified
//! document, and no feature passes this filter in any world (`listed_filters_pass_nothing`). The values of the global
//! state are those that the document gives (`simplified_documents_give_the_same_globals`). Simplifying a document again
//! may change it again: there is such a document (`simplifying_twice_may_do_more`).
//!
//! Each law is a definition, and a function without arguments ensures it: a caller that calls the function has the
//! law. That a simplified style has no findings is the law of `simplify_soundness`.
//!
//! The text to believe is in `specs/`: `MeaningLaw`, `DocumentLaw`, `NeverLaw`, `TwiceLaw`.
#![tactic(auto)]

mod laws;

pub use laws::{
    listed_filters_pass_nothing, simplified_documents_give_the_same_globals,
    simplified_documents_have_no_more_cells, simplified_documents_have_the_same_layers,
    simplified_documents_have_the_same_layout, simplified_documents_keep_their_layout,
    simplified_filters_are_outside_alike, simplified_filters_have_no_more_nodes,
    simplified_filters_pass_the_same, simplified_filters_read_no_more,
    simplified_values_have_no_more_nodes, simplified_values_mean_the_same,
    simplified_values_read_no_more, simplifying_twice_may_do_more,
};
