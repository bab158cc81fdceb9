//! What the definitions mean, each law on a function that does nothing.
ghost use Rattle.view_laws.specs.ViewLaw.{EachViewIsAReplay};

/// What is answered in a view is what `replay` answers to the lines of the style and its own.
#[tactic(auto, using(crate::proofs::Projections::each_view))]
pub fn each_view_is_a_replay()
    ensures { EachViewIsAReplay }
{}
