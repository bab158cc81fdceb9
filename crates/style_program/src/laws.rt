//! The law of runs, on a function that does nothing.

ghost use Rattle.style_program.specs.OneOutcome.{EachHasOneOutcome};

/// No words have two outcomes, so that what `run_style` promises of an outcome it promises of the one.
#[tactic(auto, using(crate::proofs::OneOutcome::one_outcome))]
pub fn words_have_one_outcome()
    ensures { EachHasOneOutcome }
{}
