ghost use Rattle.lint_texts.specs.OneLint.{EachFileHasOneLint};
ghost use Rattle.lint_texts.specs.PlaceLaw.{LinesSpellTheirValues};

use decimal_json::{spells_one_tree, texts_have_one_fault};
use text_places::places_spell_their_values;

/// The text from the place of a line on begins with the text of the value that the line is about, and with its name
/// before it where it is a member.
pub fn lines_spell_their_values()
    ensures { LinesSpellTheirValues }
{
    places_spell_their_values();
}

/// What is written of a file depends on its name and its bytes alone.
pub fn files_have_one_lint()
    ensures { EachFileHasOneLint }
{
    spells_one_tree();
    texts_have_one_fault();
}
