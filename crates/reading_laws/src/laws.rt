//! What the definitions mean, each law on a function that does nothing.
ghost use Rattle.reading_laws.specs.GlobalUse.{FixedExpressionsUseNoGlobals};
ghost use Rattle.reading_laws.specs.ReadingLaw.{ArgumentsAreReadAtTheirPaths};

/// Each argument of a node that was read is what reading gives of the tree at the argument's path.
#[tactic(auto, using(crate::proofs::ReadArguments::arguments_are_read))]
pub fn arguments_are_read_at_their_paths()
    ensures { ArgumentsAreReadAtTheirPaths }
{}

/// An expression that is read as one expression with all values of the global state has no `global-state` node.
pub fn fixed_expressions_use_no_globals()
    ensures { FixedExpressionsUseNoGlobals }
{}
