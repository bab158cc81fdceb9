//! What the definitions mean, each law on a function that does nothing.
ghost use Rattle.legacy_laws.specs.LegacyFilterLaw.{ExpressionsMeanTheirFilters, MigratedFiltersAreTyped};
ghost use Rattle.legacy_laws.specs.LegacyFilterLaw.{MigratedFiltersStay};
ghost use Rattle.legacy_laws.specs.LegacyFilterLaw.{MigratedFiltersMentionTheFeature, MigratedFiltersUseNoGlobals};
ghost use Rattle.legacy_laws.specs.LegacyFunctionLaw.{ExpressionsMeanTheirFunctions, TokenExpressionsMeanTheirTexts};
ghost use Rattle.legacy_laws.specs.LegacyFunctionLaw.{MigratedFunctionsAreTyped, MigratedTokenTextsAreTyped};
ghost use Rattle.legacy_laws.specs.LegacyFunctionLaw.{MigratedFunctionsMentionTheSame};
ghost use Rattle.legacy_laws.specs.LegacyFunctionLaw.{MigratedTokenTextsMentionTheFeature};
ghost use Rattle.legacy_laws.specs.LegacyFunctionLaw.{MigratedFunctionsUseNoGlobals, MigratedTokenTextsUseNoGlobals};

use legacy_filters::expressions_are_not_legacy;

/// The expression of a filter that was read reads without a fault, and gives of every feature under Boolean
/// whether it passes the filter.
#[tactic(auto, using(crate::proofs::LegacyFilterLaws::expressions_mean))]
pub fn expressions_mean_their_filters()
    ensures { ExpressionsMeanTheirFilters }
{}

/// The expression of a filter that was read is well typed as a filter, and lists the fault of an order where
/// the filter has one, else no fault.
#[tactic(auto, using(crate::proofs::LegacyFilterLaws::migrated_filters))]
pub fn migrated_filters_are_typed()
    ensures { MigratedFiltersAreTyped }
{}

/// The expression of a filter that was read mentions the feature where the filter asks for it, and nothing
/// else.
#[tactic(auto, using(crate::proofs::LegacyFilterLaws::filters_mention))]
pub fn migrated_filters_mention_the_feature()
    ensures { MigratedFiltersMentionTheFeature }
{}

/// The expression of a filter that was read has no node of the global state.
#[tactic(auto, using(crate::proofs::LegacyFilterLaws::filters_use_no_globals))]
pub fn migrated_filters_use_no_globals()
    ensures { MigratedFiltersUseNoGlobals }
{}

/// Migrating a filter that was migrated changes nothing, since no expression of a filter is a legacy filter.
pub fn migrated_filters_stay()
    ensures { MigratedFiltersStay }
{
    expressions_are_not_legacy();
}

/// The expression of a token text reads without a fault, and gives of every feature under every want the
/// text, fitted to the want.
#[tactic(auto, using(crate::proofs::TokenLaws::token_texts))]
pub fn token_expressions_mean_their_texts()
    ensures { TokenExpressionsMeanTheirTexts }
{}

/// The expression of a legacy function of a row reads without a fault, and gives of every feature, at every
/// zoom, the value of the function or its fault.
#[tactic(auto, using(crate::proofs::LegacyFunctionLaws::expressions_mean))]
pub fn expressions_mean_their_functions()
    ensures { ExpressionsMeanTheirFunctions }
{}

/// The expression of a legacy function that its row allows is well typed as a value of the row.
pub fn migrated_functions_are_typed()
    ensures { MigratedFunctionsAreTyped }
{}

/// The expression of a token text is well typed as a value of each row that takes token texts.
pub fn migrated_token_texts_are_typed()
    ensures { MigratedTokenTextsAreTyped }
{}

/// The expression of a legacy function mentions of the world what the function mentions: the zoom where its
/// stops ask for it, the feature where it has a property or an output with tokens, and nothing else.
#[tactic(auto, using(crate::proofs::LegacyFunctionLaws::functions_mention))]
pub fn migrated_functions_mention_the_same()
    ensures { MigratedFunctionsMentionTheSame }
{}

/// The expression of a token text mentions the feature where the text has tokens, and nothing else.
#[tactic(auto, using(crate::proofs::LegacyFunctionLaws::token_texts_mention))]
pub fn migrated_token_texts_mention_the_feature()
    ensures { MigratedTokenTextsMentionTheFeature }
{}

/// The expression of a legacy function of a row has no node of the global state.
#[tactic(auto, using(crate::proofs::LegacyFunctionLaws::functions_use_no_globals))]
pub fn migrated_functions_use_no_globals()
    ensures { MigratedFunctionsUseNoGlobals }
{}

/// The expression of a token text has no node of the global state.
#[tactic(auto, using(crate::proofs::LegacyFunctionLaws::token_texts_use_no_globals))]
pub fn migrated_token_texts_use_no_globals()
    ensures { MigratedTokenTextsUseNoGlobals }
{}
