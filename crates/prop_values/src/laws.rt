//! What equality of values means, each law on a function that does nothing.
ghost use Rattle.prop_values.specs.EqualityLaws.{MapsAreEqualByKeys, EqualityIsReflexive, EqualityIsSymmetric};

/// Two maps are equal exactly where at each key both have nothing, or equal values.
#[tactic(auto, using(crate::proofs::EqualityLaws::maps_by_keys))]
pub fn maps_are_equal_by_keys()
    ensures { MapsAreEqualByKeys }
{}

/// A value is equal to itself.
#[tactic(auto, using(crate::proofs::EqualityLaws::reflexive))]
pub fn equality_is_reflexive()
    ensures { EqualityIsReflexive }
{}

/// Whichever of two values is named first, they are equal or not.
#[tactic(auto, using(crate::proofs::EqualityLaws::symmetric))]
pub fn equality_is_symmetric()
    ensures { EqualityIsSymmetric }
{}
