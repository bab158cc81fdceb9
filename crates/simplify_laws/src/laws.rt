//! What the definitions mean, each law on a function that does nothing.
ghost use Rattle.simplify_laws.specs.DocumentLaw.{SimplifiedDocumentsGiveTheSameGlobals};
ghost use Rattle.simplify_laws.specs.DocumentLaw.{SimplifiedDocumentsHaveNoMoreCells};
ghost use Rattle.simplify_laws.specs.DocumentLaw.{SimplifiedDocumentsHaveTheSameLayers};
ghost use Rattle.simplify_laws.specs.DocumentLaw.{SimplifiedDocumentsHaveTheSameLayout};
ghost use Rattle.simplify_laws.specs.DocumentLaw.{SimplifiedDocumentsKeepTheirLayout};
ghost use Rattle.simplify_laws.specs.MeaningLaw.{SimplifiedFiltersAreOutsideAlike, SimplifiedFiltersHaveNoMoreNodes};
ghost use Rattle.simplify_laws.specs.MeaningLaw.{SimplifiedFiltersPassTheSame, SimplifiedFiltersReadNoMore};
ghost use Rattle.simplify_laws.specs.MeaningLaw.{SimplifiedValuesHaveNoMoreNodes, SimplifiedValuesMeanTheSame};
ghost use Rattle.simplify_laws.specs.MeaningLaw.{SimplifiedValuesReadNoMore};
ghost use Rattle.simplify_laws.specs.NeverLaw.{ListedFiltersPassNothing};
ghost use Rattle.simplify_laws.specs.TwiceLaw.{SimplifyingTwiceMayDoMore};

use property_tables::tables_keep_their_rules;

/// Each filter that is listed as never passed lets no feature pass, in any world.
pub fn listed_filters_pass_nothing()
    ensures { ListedFiltersPassNothing }
{}

/// A simplified document may be simplified further.
pub fn simplifying_twice_may_do_more()
    ensures { SimplifyingTwiceMayDoMore }
{}

/// Each simplified value of a row is listed as the value is, in any world.
pub fn simplified_values_mean_the_same()
    ensures { SimplifiedValuesMeanTheSame }
{}

/// Each simplified filter lets the same features pass, in any world.
pub fn simplified_filters_pass_the_same()
    ensures { SimplifiedFiltersPassTheSame }
{}

/// Each simplified filter is outside where the filter is.
pub fn simplified_filters_are_outside_alike()
    ensures { SimplifiedFiltersAreOutsideAlike }
{}

/// No simplified value has more nodes than the value.
pub fn simplified_values_have_no_more_nodes()
    ensures { SimplifiedValuesHaveNoMoreNodes }
{}

/// No simplified filter has more nodes than the filter.
pub fn simplified_filters_have_no_more_nodes()
    ensures { SimplifiedFiltersHaveNoMoreNodes }
{}

/// No simplified value reads anything of the world that the value did not read.
pub fn simplified_values_read_no_more()
    ensures { SimplifiedValuesReadNoMore }
{}

/// No simplified filter reads anything of the world that the filter did not read.
pub fn simplified_filters_read_no_more()
    ensures { SimplifiedFiltersReadNoMore }
{}

/// Each sound document has after it was simplified the layers that it had, with the same properties and filters.
pub fn simplified_documents_have_the_same_layers()
    ensures { SimplifiedDocumentsHaveTheSameLayers }
{
    simplified_values_mean_the_same();
    simplified_values_read_no_more();
    simplified_filters_pass_the_same();
    simplified_filters_are_outside_alike();
    tables_keep_their_rules();
}

/// Each simplified document has the layout that the document has, beside whether a value is listed with its layer or
/// with each feature.
pub fn simplified_documents_have_the_same_layout()
    ensures { SimplifiedDocumentsHaveTheSameLayout }
{
    simplified_documents_have_the_same_layers();
}

/// Each simplified document whose values are listed where they were has the layout that the document has.
pub fn simplified_documents_keep_their_layout()
    ensures { SimplifiedDocumentsKeepTheirLayout }
{
    simplified_documents_have_the_same_layers();
}

/// No simplified document has more cells than the document, over any tiles.
pub fn simplified_documents_have_no_more_cells()
    ensures { SimplifiedDocumentsHaveNoMoreCells }
{
    simplified_documents_have_the_same_layers();
}

/// Each simplified document gives the values of the global state that the document gives.
pub fn simplified_documents_give_the_same_globals()
    ensures { SimplifiedDocumentsGiveTheSameGlobals }
{}
