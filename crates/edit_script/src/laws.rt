ghost use Rattle.edit_script.specs.Laws.{EachTreeIsRead};

/// `read_command` never answers that a line is no JSON.
#[tactic(auto, using(crate::proofs::TreesRead::each_tree_is_read))]
pub fn each_tree_is_read()
    ensures { EachTreeIsRead }
{}
