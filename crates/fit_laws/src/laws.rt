ghost use Rattle.fit_laws.specs.MarkedNodes.{MarkedNodesFit, CheckedNodesFit};

/// The test of a node that is marked as always fitting can be left out, in all names whose outcomes are of their kinds.
#[tactic(auto, using(crate::proofs::MarkedTermLaws::marked_nodes_fit))]
pub fn marked_nodes_fit()
    ensures { MarkedNodesFit }
{}

/// The same of an expression by itself, with the places that its `Typed` gives up, or none where it is refused.
#[tactic(auto, using(crate::proofs::CheckedLaws::checked_nodes_fit))]
pub fn checked_nodes_fit()
    ensures { CheckedNodesFit }
{}
