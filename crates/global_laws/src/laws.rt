//! What the definitions mean, each law on a function that does nothing.
ghost use Rattle.global_laws.specs.GlobalLaw.{GlobalValuesChangeNoForm, OtherTreesReadTheSame};

/// With any values of the global state an expression reads alike: it is outside, has the same fault, or has
/// the same mentions, kinds, listed faults, codes and paths.
#[tactic(auto, using(crate::proofs::GlobalForms::values_change_no_form))]
pub fn global_values_change_no_form()
    ensures { GlobalValuesChangeNoForm }
{}

/// With any values of the global state a tree in which no text is `global-state` reads the same.
#[tactic(auto, using(crate::proofs::SteadyReading::other_trees_read_the_same))]
pub fn other_trees_read_the_same()
    ensures { OtherTreesReadTheSame }
{}
