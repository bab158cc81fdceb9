//! Laws of the definitions that the contracts cite. Each is a function with an empty body, which is proved
//! and never needs a call.

ghost use Rattle.std.specs.Prelude.{◌≡◌, ℕ, ◌+◌, ◌*◌, ◌<◌, ◌≤◌, ℤ, pos, ◌≤ℤ◌, Ok, unsigned_abs};
ghost use Rattle.fixed_num.specs.Number.{bound};
ghost use Rattle.power_fixed.specs.Root.{root_of, IsRoot};
ghost use Rattle.power_fixed.specs.Power.{one, times, whole_of, power_of};

/// The root of a number is the greatest whose square is at most that number, and no other is.
pub fn roots_are_greatest()
    ensures is { (v : ℤ) → pos 0 ≤ℤ v → unsigned_abs v ≤ bound →
        IsRoot v (root_of v) }
    ensures only { (v r : ℤ) → pos 0 ≤ℤ v → unsigned_abs v ≤ bound →
        IsRoot v r → r ≡ root_of v }
{}

/// Whole powers are taken by squaring.
pub fn whole_powers_square()
    ensures zero { (b : ℤ) → whole_of b 0 ≡ Ok one }
    ensures even { (b : ℤ) (n : ℕ) → 0 < n →
        whole_of b (2 * n) ≡ times (whole_of b n) (whole_of b n) }
    ensures odd { (b : ℤ) (n : ℕ) →
        whole_of b (2 * n + 1) ≡ times (Ok b) (whole_of b (2 * n)) }
{}

/// To the power 0 each base gives 1, and to each power 1 gives 1.
pub fn powers_of_one_and_zero()
    ensures zero { (b : ℤ) → power_of b (pos 0) ≡ Ok one }
    ensures one { (y : ℤ) → power_of one y ≡ Ok one }
{}
