//! Laws of the definitions that the contracts cite. Each is a function with an empty body, which is proved
//! and never needs a call.

ghost use Rattle.std.specs.Prelude.{◌≡◌, ℕ, ◌+◌, ◌<◌, ◌≤◌, ℤ, pos, ◌≤ℤ◌, ◌<ℤ◌, List, length, unsigned_abs, Ok};
ghost use Rattle.fixed_num.specs.Number.{bound};
ghost use Rattle.power_fixed.specs.Power.{one};
ghost use Rattle.prop_values.specs.declared.outcome.Curve.{Curve};
ghost use Rattle.prop_values.specs.declared.outcome.Curve.TheVariants.{Exponential};
ghost use Rattle.interpolate_fixed.specs.Places.{input_at, place_of};
ghost use Rattle.interpolate_fixed.specs.PlaceFacts.{IsAscending, IsBetween, IsGreatestNotAbove};
ghost use Rattle.interpolate_fixed.specs.Linear.{linear_of, component_of};
ghost use Rattle.interpolate_fixed.specs.Warp.{warp_of};
ghost use Rattle.interpolate_fixed.specs.declared.place.StopPlace.TheVariants.{Between};

/// A place between two inputs is that of the greatest input that is not above the value.
pub fn places_are_greatest()
    ensures neighbours { (inputs : List ℤ) (x : ℤ) (i : ℕ) →
        IsAscending inputs → 0 < length inputs → place_of inputs x ≡ Between i →
        IsBetween inputs x i }
    ensures greatest { (inputs : List ℤ) (x : ℤ) (i : ℕ) →
        IsAscending inputs → IsBetween inputs x i → IsGreatestNotAbove inputs x i }
{}

/// What a line gives lies between its ends, and at its start it gives the first of them.
pub fn lines_lie_between_their_ends()
    ensures up { (x x0 a x1 b r : ℤ) → x0 ≤ℤ x → x ≤ℤ x1 → x0 <ℤ x1 → a ≤ℤ b →
        linear_of x x0 a x1 b ≡ Ok r → (a ≤ℤ r) × (r ≤ℤ b) }
    ensures down { (x x0 a x1 b r : ℤ) → x0 ≤ℤ x → x ≤ℤ x1 → x0 <ℤ x1 → b ≤ℤ a →
        linear_of x x0 a x1 b ≡ Ok r → (b ≤ℤ r) × (r ≤ℤ a) }
    ensures start { (x0 a x1 b : ℤ) → x0 <ℤ x1 → linear_of x0 x0 a x1 b ≡ Ok a }
{}

/// Components of colors, which are from 0 to 255, never overflow.
pub fn colors_never_overflow()
    ensures { (x x0 a x1 b : ℤ) → unsigned_abs x ≤ bound → unsigned_abs x0 ≤ bound →
        pos 0 ≤ℤ a → a ≤ℤ pos 255000000 → pos 0 ≤ℤ b → b ≤ℤ pos 255000000 →
        linear_of x x0 a x1 b ≡ Ok (component_of x x0 a x1 b) }
{}

/// A moved input lies between its neighbours, each input stays where it is, and with base 1 every number
/// does.
pub fn moved_inputs_stay_between()
    ensures between { (curve : Curve) (inputs : List ℤ) (x : ℤ) (i : ℕ) (r : ℤ) →
        IsAscending inputs → IsBetween inputs x i → warp_of curve inputs x ≡ Ok r →
        (input_at inputs i ≤ℤ r) × (r ≤ℤ input_at inputs (i + 1)) }
    ensures inputs { (curve : Curve) (inputs : List ℤ) (k : ℕ) →
        IsAscending inputs → k < length inputs →
        warp_of curve inputs (input_at inputs k) ≡ Ok (input_at inputs k) }
    ensures one { (inputs : List ℤ) (x r : ℤ) →
        warp_of (Exponential one) inputs x ≡ Ok r → r ≡ x }
{}
