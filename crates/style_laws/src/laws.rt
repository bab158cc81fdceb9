//! What the definitions mean, each law on a function that does nothing.
ghost use Rattle.style_laws.specs.MentionLaw.{FiltersGoByTheirMentions, ValuesGoByTheirMentions};
ghost use Rattle.style_laws.specs.NoteLaw.{NotedValuesAreOutside};
ghost use Rattle.style_laws.specs.StyleLaw.{MarkedFaultsAreListed, OutsideValuesHaveNotes};

use eval_face::agreeing_worlds_give_one_meaning;
use expr_syntax::read_terms_are_sound;
use global_laws::global_values_change_no_form;
use legacy_laws::{
    expressions_mean_their_filters, expressions_mean_their_functions, migrated_functions_are_typed,
    token_expressions_mean_their_texts,
};
use style_rules::findings_go_by_levels;
use typing_laws::faults_are_listed;

/// Each fault that marks a value in a layout is in the `may` line of the path of the value.
pub fn marked_faults_are_listed()
    ensures { MarkedFaultsAreListed }
{
    read_terms_are_sound();
    faults_are_listed();
    expressions_mean_their_functions();
    migrated_functions_are_typed();
    global_values_change_no_form();
}

/// Each value and filter that a layout shows as `?` has a note.
pub fn outside_values_have_notes()
    ensures { OutsideValuesHaveNotes }
{
    read_terms_are_sound();
    faults_are_listed();
    expressions_mean_their_functions();
    migrated_functions_are_typed();
    global_values_change_no_form();
}

/// Each note is of a value or a filter that every layout shows as `?`, where it lists the values of the
/// layer.
pub fn noted_values_are_outside()
    ensures { NotedValuesAreOutside }
{
    global_values_change_no_form();
    findings_go_by_levels();
}

/// A value of each form is listed alike in two worlds that agree on what it mentions.
pub fn values_go_by_their_mentions()
    ensures { ValuesGoByTheirMentions }
{
    agreeing_worlds_give_one_meaning();
    expressions_mean_their_functions();
    token_expressions_mean_their_texts();
    expressions_mean_their_filters();
}

/// A filter, a legacy one too, lets the same pass in two worlds that agree on what it mentions.
pub fn filters_go_by_their_mentions()
    ensures { FiltersGoByTheirMentions }
{
    agreeing_worlds_give_one_meaning();
    expressions_mean_their_functions();
    token_expressions_mean_their_texts();
    expressions_mean_their_filters();
}
