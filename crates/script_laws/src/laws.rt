//! What the definitions mean, each law on a function that does nothing.
ghost use Rattle.script_laws.specs.EvalLaw.{EvalIsReplayOfList};
ghost use Rattle.script_laws.specs.ScriptLaw.{GlobalsAreAlwaysSet, PossibleEditsAreAccepted};
ghost use Rattle.script_laws.specs.ScriptLaw.{PossibleRearrangingIsAccepted, RearrangingBreaksNoRule};
ghost use Rattle.script_laws.specs.ScriptLaw.{RearrangingBringsNoCell};
ghost use Rattle.script_laws.specs.ScriptLaw.{RefusedLinesCountForNothing, ScriptsGoByTheirLines};
ghost use Rattle.script_laws.specs.ScriptLaw.{ScriptsKeepStatesSound};
ghost use Rattle.script_laws.specs.ScriptLaw.{WhatIsKeptChangesNoAnswer, WhatIsKeptChangesNoScript};

/// An outcome of a script is that of its lines, one after another, with the steps that they count, and no file is read.
#[tactic(auto, using(crate::proofs::LineLaws::scripts_go_by_their_lines))]
pub fn scripts_go_by_their_lines()
    ensures { ScriptsGoByTheirLines }
{}

/// After every line of a script the style has no findings, and at most the cells allowed.
pub fn scripts_keep_states_sound()
    ensures { ScriptsKeepStatesSound }
{}

/// A script without its refused lines leaves the same, is answered the same but for the numbers of lines, and counts
/// as many steps.
pub fn refused_lines_count_for_nothing()
    ensures { RefusedLinesCountForNothing }
{}

/// Which cells are kept changes no answer but that of `stats`.
#[tactic(auto, using(crate::proofs::KeptLaws::what_is_kept_changes_no_answer))]
pub fn what_is_kept_changes_no_answer()
    ensures { WhatIsKeptChangesNoAnswer }
{}

/// Nor does it change what a line of a script is answered, but for `stats`.
pub fn what_is_kept_changes_no_script()
    ensures { WhatIsKeptChangesNoScript }
{}

/// An edit that names what is there, with zooms in range, is accepted where the edited style has no findings and at
/// most the cells allowed.
#[tactic(auto, using(crate::proofs::EditLaws::possible_edits_are_accepted))]
pub fn possible_edits_are_accepted()
    ensures { PossibleEditsAreAccepted }
{}

/// Removing or moving a layer, or setting its range, is never refused for the cells of the style.
pub fn rearranging_brings_no_cell()
    ensures { RearrangingBringsNoCell }
{}

/// Removing or moving a layer, or setting its range, is never refused for a rule.
pub fn rearranging_breaks_no_rule()
    ensures { RearrangingBreaksNoRule }
{}

/// It is accepted where it names what is there, with zooms in range.
pub fn possible_rearranging_is_accepted()
    ensures { PossibleRearrangingIsAccepted }
{}

/// `set-global` is never refused.
#[tactic(auto, using(crate::proofs::EditLaws::globals_are_always_set))]
pub fn globals_are_always_set()
    ensures { GlobalsAreAlwaysSet }
{}

/// `eval` is `replay` of a script that is `["list"]`, with as many steps.
#[tactic(auto, using(crate::proofs::ListLaws::eval_is_replay_of_list))]
pub fn eval_is_replay_of_list()
    ensures { EvalIsReplayOfList }
{}
