ghost use Rattle.decimal_json.specs.View.{tree_of};
ghost use Rattle.style_rules.specs.Levels.{HasDistinctMembers, WalksByLevels};

use decimal_json::Json;

/// The walk over a document goes by its levels.
#[tactic(auto, using(crate::proofs::LevelLaws::walks_by_levels))]
pub fn findings_go_by_levels()
    ensures { WalksByLevels }
{}

/// No two members of a JSON value have the same name, at its root.
#[tactic(auto, using(crate::proofs::LevelLaws::distinct_members))]
pub fn documents_have_distinct_members(document: &Json)
    ensures { HasDistinctMembers (tree_of document.now) }
{
    if let Json::Object(members) = document {
        members.as_slice();
    }
}
