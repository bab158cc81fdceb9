//! The place of a name among entries, by halving.

ghost use Rattle.std.specs.Prelude.{◌≡◌, true, MatchOption};
ghost use Rattle.property_tables.specs.NameIndex.{is_index, IsPlaceOf, IsNowhere};
ghost use Rattle.property_tables.specs.RowView.{names_of};

use crate::entry::TableEntry;
use std::cmp::Ordering;

/// The place of the entry of a name. `order` has the places of all entries in the order of their names.
pub(crate) fn place_named(entries: &[TableEntry], order: &[u8], name: &str) -> Option<usize>
    requires { is_index (names_of entries.now) order.now ≡ true }
    ensures { MatchOption result (IsNowhere (names_of entries.now) name.now)
        (IsPlaceOf (names_of entries.now) name.now) }
{
    let mut low = 0;
    let mut high = order.len();
    while low < high {
        let middle = low + (high - low) / 2;
        let place = order[middle] as usize;
        match entries[place].name.cmp(name) {
            Ordering::Less => low = middle + 1,
            Ordering::Equal => return Some(place),
            Ordering::Greater => high = middle,
        }
    }
    None
}
