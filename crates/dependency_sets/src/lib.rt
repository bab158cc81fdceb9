//! What expressions read of the world: the zoom, the feature, its state and the images.
//!
//! ```text
//! mentions(&expression).feature    // true of ["<",["number",["get","r"]],10]
//! ```
//!
//! What is promised: `mentions` gives exactly what `specs/Mentioned.antt` of `expr_syntax` defines: what one of the
//! expression's nodes reads, whether it is ever evaluated or not. It takes no memory, and its recursion is as deep as
//! the expression. The definition is there, since `eval_face`, which does not depend on this crate, states its law of
//! agreeing worlds by it.
#![tactic(auto)]

mod mentioned;

pub use expr_syntax::Mentions;
pub use mentioned::{mentions, of_operator};
