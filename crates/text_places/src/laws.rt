ghost use Rattle.text_places.specs.PlaceLaw.{PlacesSpellTheirValues};

/// Where bytes spell a tree, the bytes from the place of a path on begin with the text of the value at the path, and
/// with its name before it where it is a member.
#[tactic(auto, using(crate::proofs::SpelledPlaces::places_spell))]
pub fn places_spell_their_values()
    ensures { PlacesSpellTheirValues }
{}
