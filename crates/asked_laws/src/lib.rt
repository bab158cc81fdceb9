//! A listing asks no cell twice.
//!
//! ```text
//! {"paint":{"circle-radius":["get","r"]},"filter":["has","r"],..}
//!     // two features, of which the second has no "r": the cells are the filter of 0, the radius of 0, the filter of 1
//! ["list"]  ["stats"]      // 3
//! ```
//!
//! What is promised, in each scene, over all tiles and by all values of the global state: no two of the cells that a
//! listing asks of a layer are the same (`layers_ask_no_cell_twice`), nor two of those that it asks of all layers of a
//! document (`listings_ask_no_cell_twice`), whatever trees these are. So the evaluations that are counted of a layer
//! are the asked cells that are not kept (`evaluations_count_new_cells`), and a listing of which nothing is kept, as
//! that of `eval`, makes as many evaluations as it asks cells (`first_listings_evaluate_all_cells`).
//!
//! Each law is a definition, and a function without arguments ensures it: a caller that calls the function has the law.
//!
//! The text to believe is in `specs/`: `AskedLaw`.
#![tactic(auto)]

mod laws;

pub use laws::{
    evaluations_count_new_cells, first_listings_evaluate_all_cells, layers_ask_no_cell_twice,
    listings_ask_no_cell_twice,
};
