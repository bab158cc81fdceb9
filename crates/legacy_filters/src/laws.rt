ghost use Rattle.legacy_filters.specs.Laws.{NoExpressionIsLegacy};

/// The expression of a filter that was read is no legacy filter: rewriting it again changes nothing.
#[tactic(auto, using(crate::proofs::Expressions::no_expression_is_legacy))]
pub fn expressions_are_not_legacy()
    ensures { NoExpressionIsLegacy }
{}
