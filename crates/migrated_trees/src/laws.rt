//! What the definitions mean, each law on a function that does nothing.
ghost use Rattle.migrated_trees.specs.SoundTreesLaw.{MigratedValuesAreSound, MigratedFiltersAreSound};
ghost use Rattle.migrated_trees.specs.SoundTreesLaw.{MigratedDocumentsAreSound, MigratedTextsAreSpelled};

use decimal_json::written_trees_are_spelled;

/// A migrated value of a row of the table is sound JSON where the value is.
pub fn migrated_values_are_sound()
    ensures { MigratedValuesAreSound }
{}

/// A migrated filter is sound JSON where the filter is.
pub fn migrated_filters_are_sound()
    ensures { MigratedFiltersAreSound }
{}

/// A migrated document is sound JSON where the document is.
pub fn migrated_documents_are_sound()
    ensures { MigratedDocumentsAreSound }
{
    migrated_values_are_sound();
}

/// What is written of the migrated document is a text of JSON under every rule, and spells that document.
pub fn migrated_texts_are_spelled()
    ensures { MigratedTextsAreSpelled }
{
    migrated_documents_are_sound();
    written_trees_are_spelled();
}
