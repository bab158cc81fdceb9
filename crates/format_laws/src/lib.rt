//! Laws of `format`: what is read from its text.
//!
//! ```text
//! ["format","a",{},["get","b"],{"font-scale":2}]     // where b is "c": [["a",{}],["c",{"font-scale":2}]]
//! ["concat","a",["get","b"]]                         // "ac": the contents of the sections in that text
//! ```
//!
//! What is promised, in every world: where a `format` is shown, its text is that of sections, and the
//! sections that `read_sections` reads from the text join to what the `concat` of its contents means
//! (`formats_are_read_as_their_contents`).
//!
//! Each law is a definition, and a function without arguments ensures it: a caller that calls the function
//! has the law.
//!
//! The text to believe is in `specs/`: `FormatLaw`.
#![tactic(auto)]

mod laws;

pub use laws::formats_are_read_as_their_contents;
