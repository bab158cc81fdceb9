//! What the definitions mean, each law on a function that does nothing.
ghost use Rattle.expr_syntax.specs.ReadTerms.{ReadTermsAreSound};

/// An expression that was read has at each node as many elements as its row allows, parts of their form, and
/// no `var` without its `let`.
#[tactic(auto, using(crate::proofs::ReadTermLaws::read_terms_are_sound))]
pub fn read_terms_are_sound()
    ensures { ReadTermsAreSound }
{}
