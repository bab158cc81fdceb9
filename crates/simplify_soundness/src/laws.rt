//! What the definitions mean, each law on a function that does nothing.
ghost use Rattle.simplify_soundness.specs.NoFindingsLaw.{SimplifiedDocumentsHaveNoFinding};
ghost use Rattle.simplify_soundness.specs.NoFindingsLaw.{SimplifiedDocumentsKeepTheirNotes};

use style_rules::findings_go_by_levels;

/// Each document without findings has none after it was simplified.
pub fn simplified_documents_have_no_finding()
    ensures { SimplifiedDocumentsHaveNoFinding }
{
    findings_go_by_levels();
}

/// In each document without findings the same values and filters are outside after it was simplified.
pub fn simplified_documents_keep_their_notes()
    ensures { SimplifiedDocumentsKeepTheirNotes }
{
    findings_go_by_levels();
}
