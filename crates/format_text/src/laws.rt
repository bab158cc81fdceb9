ghost use Rattle.format_text.specs.ReadText.{EachTextIsOfOneList};

use decimal_json::{spells_one_tree, written_trees_are_spelled};
use fixed_num::{json_numbers_are_read, written_numbers_are_read};

/// No text is that of two lists of sections whose fonts are lists of texts.
pub fn texts_are_of_one_list()
    ensures { EachTextIsOfOneList }
{
    written_trees_are_spelled();
    spells_one_tree();
    json_numbers_are_read();
    written_numbers_are_read();
}
