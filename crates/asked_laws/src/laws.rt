//! What the definitions mean, each law on a function that does nothing.
ghost use Rattle.asked_laws.specs.AskedLaw.{EvaluationsCountNewCells, FirstListingsEvaluateAllCells};
ghost use Rattle.asked_laws.specs.AskedLaw.{LayersAskNoCellTwice, ListingsAskNoCellTwice};

/// No two of the cells that a listing asks of a layer are the same.
pub fn layers_ask_no_cell_twice()
    ensures { LayersAskNoCellTwice }
{}

/// No two of the cells that a listing of a document asks are the same.
#[tactic(auto, using(crate::proofs::ListingCells::listings_ask_once))]
pub fn listings_ask_no_cell_twice()
    ensures { ListingsAskNoCellTwice }
{}

/// The evaluations that are counted of a layer are the asked cells that are not kept.
pub fn evaluations_count_new_cells()
    ensures { EvaluationsCountNewCells }
{}

/// A listing of a document of which nothing is kept makes as many evaluations as it asks cells.
#[tactic(auto, using(crate::proofs::ListingCells::all_evaluated))]
pub fn first_listings_evaluate_all_cells()
    ensures { FirstListingsEvaluateAllCells }
{}
