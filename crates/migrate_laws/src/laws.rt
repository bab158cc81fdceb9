//! What the definitions mean, each law on a function that does nothing.
ghost use Rattle.migrate_laws.specs.GlobalUses.{MigratedFiltersUseTheSameGlobals, MigratedValuesUseTheSameGlobals};
ghost use Rattle.migrate_laws.specs.MigratedLaw.{MigratingTwiceChangesNothing, MigratedFiltersAreTheSame};
ghost use Rattle.migrate_laws.specs.MigratedLaw.{MigratedValuesAreTheSame};
ghost use Rattle.migrate_laws.specs.MigratedLaw.{MigratedDocumentsGiveTheSameGlobals};
ghost use Rattle.migrate_laws.specs.MigratedLaw.{MigratedDocumentsHaveTheSameLayout};

use legacy_filters::expressions_are_not_legacy;
use legacy_laws::{
    expressions_mean_their_filters, expressions_mean_their_functions, migrated_filters_stay,
    token_expressions_mean_their_texts,
};
use property_tables::tables_keep_their_rules;
use reading_laws::fixed_expressions_use_no_globals;

/// Migrating a document that was migrated changes nothing.
pub fn migrating_twice_changes_nothing()
    ensures { MigratingTwiceChangesNothing }
{
    migrated_filters_stay();
}

/// Each migrated value of a row of the table is listed as the value is, and reads the same of the world.
pub fn migrated_values_are_the_same()
    ensures { MigratedValuesAreTheSame }
{
    expressions_mean_their_functions();
    token_expressions_mean_their_texts();
}

/// Each migrated filter lets the same features pass as the filter, reads the same of the world, and is
/// outside exactly where the filter is.
pub fn migrated_filters_are_the_same()
    ensures { MigratedFiltersAreTheSame }
{
    expressions_mean_their_filters();
    expressions_are_not_legacy();
}

/// Each migrated document has the layout that the document has, over all tiles and in each world.
pub fn migrated_documents_have_the_same_layout()
    ensures { MigratedDocumentsHaveTheSameLayout }
{
    migrated_values_are_the_same();
    migrated_filters_are_the_same();
    tables_keep_their_rules();
}

/// Each migrated document gives the values of the global state that the document gives.
pub fn migrated_documents_give_the_same_globals()
    ensures { MigratedDocumentsGiveTheSameGlobals }
{}

/// Each migrated value of a row of the table has a `global-state` node exactly where the value has one.
pub fn migrated_values_use_the_same_globals()
    ensures { MigratedValuesUseTheSameGlobals }
{
    fixed_expressions_use_no_globals();
    expressions_mean_their_functions();
    token_expressions_mean_their_texts();
}

/// Each migrated filter reads the global state exactly where the filter does.
pub fn migrated_filters_use_the_same_globals()
    ensures { MigratedFiltersUseTheSameGlobals }
{
    fixed_expressions_use_no_globals();
    expressions_mean_their_filters();
    expressions_are_not_legacy();
}
