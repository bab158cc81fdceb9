//! Laws of scripts: what holds of the lines of every script over a style under edit.
//!
//! ```text
//! ["remove-layer","roads"]          // ok 1
//! ["remove-layer","roads"]          // refused 2 UnknownLayer
//! ["list"]                          // the listing; without line 2 the same
//! ["stats"]                         // stats 7, where the listing evaluated 7 cells
//! ```
//!
//! What is promised:
//!
//! - An outcome of a script is that of its lines, one after another: their texts, and the steps that their
//!   evaluations count (`scripts_go_by_their_lines`).
//! - After every line the style has no findings, and at most the cells allowed (`scripts_keep_states_sound`).
//! - A script without its refused lines leaves the same, with the same cells kept, is answered the same but for the
//!   numbers of lines, and counts as many steps (`refused_lines_count_for_nothing`).
//! - Which cells are kept changes no answer but that of `stats` (`what_is_kept_changes_no_answer`), in no line of a
//!   script (`what_is_kept_changes_no_script`). Not promised: how many cells a later listing evaluates. A value that
//!   is set and set back leaves the style as it was, and its cells may be evaluated again.
//! - An edit that names what is there, with zooms in range, is accepted where the edited style has no findings and at
//!   most the cells allowed (`possible_edits_are_accepted`). `set-global` is never refused (`globals_are_always_set`),
//!   and removing or moving a layer or setting its range neither for the cells of the style
//!   (`rearranging_brings_no_cell`) nor for a rule (`rearranging_breaks_no_rule`): so it is accepted where it names
//!   what is there, with zooms in range (`possible_rearranging_is_accepted`).
//! - `eval` writes what `replay` writes of the script `["list"]`, in at least and at most as many steps
//!   (`eval_is_replay_of_list`).
//!
//! Each law is a definition, and a function without arguments ensures it: a caller that calls the function
//! has the law.
//!
//! The text to believe is in `specs/`: `ScriptLaw`, `EvalLaw`.
#![tactic(auto)]

mod laws;

pub use laws::{
    eval_is_replay_of_list, globals_are_always_set, possible_edits_are_accepted,
    possible_rearranging_is_accepted, rearranging_breaks_no_rule, rearranging_brings_no_cell,
    refused_lines_count_for_nothing, scripts_go_by_their_lines, scripts_keep_states_sound,
    what_is_kept_changes_no_answer, what_is_kept_changes_no_script,
};
