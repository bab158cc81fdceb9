//! What the definitions mean, each law on a function that does nothing.
ghost use Rattle.format_laws.specs.FormatLaw.{FormatsAreReadAsTheirContents};

use eval_face::formats_join_their_contents;
use format_text::texts_are_of_one_list;

/// The sections that are read from the text of a `format` join to what the `concat` of its contents means.
pub fn formats_are_read_as_their_contents()
    ensures { FormatsAreReadAsTheirContents }
{
    formats_join_their_contents();
    texts_are_of_one_list();
}
