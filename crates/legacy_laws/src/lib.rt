//! Laws of legacy forms: a legacy filter, a legacy function or a token text and the expression that it is
//! migrated to say the same.
//!
//! ```text
//! ["<=","rank",4]        // of a feature whose rank is "low", or is not there: false
//! ["all",["==",["typeof",["get","rank"]],"number"],["<=",["get","rank"],4]]
//!                        // the same, and never the fault NotOrdered
//! {"property":"rank","stops":[[0,1],[10,11]]}          // on circle-radius, of a feature whose rank is 3: 4; "low": 5
//! ["case",["==",["typeof",["get","rank"]],"number"],["interpolate",["linear"],["get","rank"],0,1,10,11],5]
//!                        // the same
//! ```
//!
//! What is promised of filters, for each tree that `legacy_filters::read` takes: its expression is inside,
//! reads without a fault, and gives under Boolean what `passes` says, for every feature, zoom and state, and
//! for all tests of images and scripts (`expressions_mean_their_filters`). It is well typed as a filter, and
//! lists the fault NotOrdered exactly where the filter has an order with a number or a text, else no fault
//! (`migrated_filters_are_typed`). It mentions the feature where the filter asks for it, and nothing else
//! (`migrated_filters_mention_the_feature`), and has no node of the global state
//! (`migrated_filters_use_no_globals`). For each tree: migrating a filter that was migrated changes nothing
//! (`migrated_filters_stay`).
//!
//! What is promised of functions, for each row of the table of properties and each tree that
//! `legacy_functions::read` takes as a function that is not outside: its expression is inside, reads without
//! a fault, and gives under the row's want the function's value, or its fault, again in every world
//! (`expressions_mean_their_functions`). Where the row allows what the function goes by, it is well typed as
//! a value of the row, and the zoom is where it may be (`migrated_functions_are_typed`). It mentions of the
//! world what the function mentions (`migrated_functions_mention_the_same`), and has no node of the global
//! state (`migrated_functions_use_no_globals`).
//!
//! What is promised of each text, with tokens or without: its expression is inside, reads without a fault,
//! and gives under every want the text of its tokens, fitted to the want
//! (`token_expressions_mean_their_texts`). It is well typed on the rows that take token texts
//! (`migrated_token_texts_are_typed`), and mentions the feature where the text has tokens, and nothing else
//! (`migrated_token_texts_mention_the_feature`). It has no node of the global state
//! (`migrated_token_texts_use_no_globals`).
//!
//! Each law is a definition, and a function without arguments ensures it: a caller that calls the function
//! has the law.
//!
//! The text to believe is in `specs/`: `LegacyFilterLaw`, `LegacyFunctionLaw`.
#![tactic(auto)]

mod laws;

pub use laws::{
    expressions_mean_their_filters, expressions_mean_their_functions, migrated_filters_are_typed,
    migrated_filters_mention_the_feature, migrated_filters_stay, migrated_filters_use_no_globals,
    migrated_functions_are_typed, migrated_functions_mention_the_same,
    migrated_functions_use_no_globals, migrated_token_texts_are_typed,
    migrated_token_texts_mention_the_feature, migrated_token_texts_use_no_globals,
    token_expressions_mean_their_texts,
};
