ghost use Rattle.program_runs.specs.Laws.{EachRunHasOneOutcome};

/// No run has two outcomes, nor reads other files, where the contents of the files that it comes to read are known.
#[tactic(auto, using(crate::proofs::RunLaws::one_outcome))]
pub fn each_run_has_one_outcome()
    ensures { EachRunHasOneOutcome }
{}
