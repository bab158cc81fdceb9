//! What the definitions mean, each law on a function that does nothing.
ghost use Rattle.migrate_soundness.specs.SoundnessLaw.{SoundDocumentsStaySound, SoundDocumentsKeepTheirNotes};

use legacy_filters::expressions_are_not_legacy;
use legacy_laws::{
    expressions_mean_their_filters, expressions_mean_their_functions, migrated_filters_are_typed,
    migrated_functions_are_typed, migrated_token_texts_are_typed,
    token_expressions_mean_their_texts,
};
use style_rules::findings_go_by_levels;

/// A document without findings has none after it was migrated.
pub fn sound_documents_stay_sound()
    ensures { SoundDocumentsStaySound }
{
    expressions_mean_their_functions();
    migrated_functions_are_typed();
    token_expressions_mean_their_texts();
    migrated_token_texts_are_typed();
    expressions_mean_their_filters();
    migrated_filters_are_typed();
    expressions_are_not_legacy();
    findings_go_by_levels();
}

/// In a document without findings the same values and filters are outside after it was migrated.
pub fn sound_documents_keep_their_notes()
    ensures { SoundDocumentsKeepTheirNotes }
{
    expressions_mean_their_functions();
    migrated_functions_are_typed();
    token_expressions_mean_their_texts();
    migrated_token_texts_are_typed();
    expressions_mean_their_filters();
    migrated_filters_are_typed();
    expressions_are_not_legacy();
    findings_go_by_levels();
}
