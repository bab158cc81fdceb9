ghost use Rattle.std.specs.Prelude.{◌≡◌, ℤ, ◌≤ℤ◌, ◌<ℤ◌};
ghost use Rattle.fixed_num.specs.ColorRange.{IsInRange};
ghost use Rattle.interpolate_fixed.specs.Linear.{component_of, color_of};

use crate::line::linear;
use fixed_num::{Color, Fixed};

/// The color at `x` on the line from `a` at `x0` to `b` at `x1`, component by component. The components of
/// two colors are too near to each other for an Overflow; in the arm for it the component of `a` is taken.
/// Between two colors in range it is in range.
pub fn linear_color(x: Fixed, x0: Fixed, a: Color, x1: Fixed, b: Color) -> Color
    requires from { x0 ≤ℤ x }
    requires to { x ≤ℤ x1 }
    requires apart { x0 <ℤ x1 }
    ensures value { result ≡ color_of x x0 a x1 b }
    ensures range { IsInRange a → IsInRange b → IsInRange result }
{
    Color {
        r: component(x, x0, a.r, x1, b.r),
        g: component(x, x0, a.g, x1, b.g),
        b: component(x, x0, a.b, x1, b.b),
        a: component(x, x0, a.a, x1, b.a),
    }
}

// A component of that color.
fn component(x: Fixed, x0: Fixed, a: Fixed, x1: Fixed, b: Fixed) -> Fixed
    requires from { x0 ≤ℤ x }
    requires to { x ≤ℤ x1 }
    requires apart { x0 <ℤ x1 }
    ensures value { result ≡ component_of x x0 a x1 b }
    ensures between { (low high : ℤ) → low ≤ℤ a → a ≤ℤ high → low ≤ℤ b → b ≤ℤ high →
        (low ≤ℤ result) × (result ≤ℤ high) }
{
    match linear(x, x0, a, x1, b) {
        Ok(found) => found,
        Err(_) => a,
    }
}
