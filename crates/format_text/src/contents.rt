ghost use Rattle.std.specs.Prelude.{◌≡◌, IfOk};
ghost use Rattle.format_text.specs.SectionLists.{plain_text};

use crate::formatted::Sections;
use decimal_json::Text;
use std::alloc::{AllocError, Global};

/// The contents of sections, joined.
pub fn plain(alloc: Global, sections: &Sections) -> Result<Text, AllocError>
    ensures { IfOk result (λ text. text ≡ plain_text sections.now) }
{
    let mut joined = String::new(alloc);
    for section in sections.as_slice() {
        joined.push_str(section.content.as_str())?;
    }
    Text::of(joined)
}
