//! What the definitions mean, each law on a function that does nothing.
ghost use Rattle.property_tables.specs.Stays.{FittedValuesStay};
ghost use Rattle.property_tables.specs.TableLaws.{TableKeepsRules};

/// A value that was fitted to a want is left as it is by the same want.
#[tactic(auto, using(crate::proofs::Stays::fit_again))]
pub fn fitted_values_stay()
    ensures { FittedValuesStay }
{}

/// In the table of each layer type names differ, layout is before paint, and a default is a literal of its
/// own row.
pub fn tables_keep_their_rules()
    ensures { TableKeepsRules }
{}
