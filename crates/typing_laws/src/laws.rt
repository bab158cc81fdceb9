ghost use Rattle.typing_laws.specs.TypingLaws.{EveryFaultIsListed, EveryValueIsOfItsKind};
ghost use Rattle.typing_laws.specs.TypingLaws.{NoFaultIsGivenWhereNoneIsListed};
ghost use Rattle.typing_laws.specs.TypingLaws.{CheckedExpressionsKeepTheLaws, EachNodeHasAPlace};
ghost use Rattle.typing_laws.specs.TypingLaws.{FreeExpressionsKeepTheLaws};

/// In every world the fault that an expression gives is one of those that are listed for it.
#[tactic(auto, using(crate::proofs::TermLaws::every_fault_is_listed))]
pub fn faults_are_listed()
    ensures { EveryFaultIsListed }
{}

/// In every world the value that an expression gives is of its kind, and fits the want as it is.
pub fn values_are_of_their_kinds()
    ensures { EveryValueIsOfItsKind }
{}

/// An expression for which no fault is listed gives a value in every world.
pub fn nothing_fails_where_no_fault_is_listed()
    ensures { NoFaultIsGivenWhereNoneIsListed }
{}

/// What is known of an expression is known of each of its nodes.
#[tactic(auto, using(crate::proofs::PlaceLaws::each_node_has_a_place))]
pub fn each_node_has_a_place()
    ensures { EachNodeHasAPlace }
{}

/// What `check` accepts keeps these laws, with the kind, the faults and the places of its `Typed`.
pub fn checked_expressions_keep_the_laws()
    ensures { CheckedExpressionsKeepTheLaws }
{}

/// What `check_free` accepts keeps these laws, with the kind, the faults and the places of its `Typed`.
pub fn free_expressions_keep_the_laws()
    ensures { FreeExpressionsKeepTheLaws }
{}
