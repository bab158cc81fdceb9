//! What the definitions mean, each law on a function that does nothing.
ghost use Rattle.migrated_sessions.specs.OpeningLaw.{MigratedDocumentsHaveAsManyCells, MigratedSessionsBeginAlike};
ghost use Rattle.migrated_sessions.specs.OpeningLaw.{MigratedStylesAreListedAlike, MigratedStylesOpenAlike};

use migrate_laws::{
    migrated_documents_give_the_same_globals, migrated_documents_have_the_same_layout,
    migrated_filters_are_the_same, migrated_values_are_the_same,
};
use migrate_soundness::sound_documents_stay_sound;
use property_tables::tables_keep_their_rules;

/// A migrated document has as many cells as the document.
pub fn migrated_documents_have_as_many_cells()
    ensures { MigratedDocumentsHaveAsManyCells }
{
    migrated_values_are_the_same();
    migrated_filters_are_the_same();
    tables_keep_their_rules();
}

/// A document without findings opens after it was migrated where it opened before, and else has the same
/// fault.
pub fn migrated_styles_open_alike()
    ensures { MigratedStylesOpenAlike }
{
    migrated_documents_have_as_many_cells();
    migrated_documents_give_the_same_globals();
    sound_documents_stay_sound();
}

/// A session that is opened over a migrated document begins as over the document, but for the document.
pub fn migrated_sessions_begin_alike()
    ensures { MigratedSessionsBeginAlike }
{
    migrated_documents_give_the_same_globals();
}

/// A session over a migrated document has the listing that it has over the document.
pub fn migrated_styles_are_listed_alike()
    ensures { MigratedStylesAreListedAlike }
{
    migrated_documents_have_the_same_layout();
}
