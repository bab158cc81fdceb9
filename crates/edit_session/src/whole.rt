//! What is known of a document that breaks no rule, and of the one that an edit makes.

ghost use Rattle.std.specs.Prelude.{◌≡◌, [], false, None, IfOk, IsOk};
ghost use Rattle.decimal_json.specs.View.{tree_of};
ghost use Rattle.edit_script.specs.View.{command_seen};
ghost use Rattle.edit_findings.specs.FoundAfter.{AreKeyed};
ghost use Rattle.edit_session.specs.Applied.{first_finding};
ghost use Rattle.kept_layers.specs.View.{AreTyped};
ghost use Rattle.style_edits.specs.Edited.{edited};
ghost use Rattle.style_edits.specs.Faults.{edit_fault};
ghost use Rattle.style_edits.specs.Layers.{layer_list};
ghost use Rattle.style_edits.specs.Needs.{takes_memory};
ghost use Rattle.style_edits.specs.Places.{places_of};
ghost use Rattle.style_edits.specs.Taking.{HasLayers};
ghost use Rattle.style_rules.specs.Findings.{findings};
ghost use Rattle.style_rules.specs.Levels.{HasDistinctMembers};

use crate::answer::Refusal;
use decimal_json::Json;
use edit_findings::findings_at;
use edit_script::Command;
use std::alloc::{AllocError, Global};
use style_edits::EditPlaces;
use style_rules::documents_have_distinct_members;

/// The refusal of an edit of a document without findings, where the edited document breaks a rule.
#[tactic(auto, using(crate::proofs::AppliedLaws::first_refused, edit_findings::proofs::AfterLaws::keys_for))]
pub(crate) fn finding_refusal(
    alloc: Global,
    document: &Json,
    places: EditPlaces,
    command: &Command,
) -> Result<Option<Refusal>, AllocError>
    requires sound { findings (tree_of document.now) ≡ [] }
    requires possible { edit_fault (tree_of document.now) (command_seen command.now) ≡ None }
    requires places { places ≡ places_of (tree_of document.now) (command_seen command.now) }
    requires keyed { AreKeyed (layer_list (tree_of document.now)) }
    ensures finding { IfOk result
        (λ refusal. refusal ≡ first_finding (findings (edited (tree_of document.now) (command_seen command.now)))) }
    ensures memory { takes_memory (command_seen command.now) ≡ false → IsOk result }
{
    match findings_at(alloc, document, places, command)?.into_first() {
        Some(first) => Ok(Some(Refusal::Finding(first))),
        None => Ok(None),
    }
}

/// That each layer of a document without findings has a type and is one of an array, and no two members of it have one
/// name.
pub(crate) fn note_types(document: &Json)
    requires { findings (tree_of document.now) ≡ [] }
    ensures typed { AreTyped (layer_list (tree_of document.now)) }
    ensures there { HasLayers (tree_of document.now) (layer_list (tree_of document.now)) }
    ensures distinct { HasDistinctMembers (tree_of document.now) }
{
    documents_have_distinct_members(document);
}
