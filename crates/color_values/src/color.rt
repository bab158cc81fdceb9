ghost use Rattle.std.specs.Prelude.{◌≡◌, ◌≤◌, pos};
ghost use Rattle.color_values.specs.HexColor.{color_of_bytes};
ghost use Rattle.fixed_num.specs.ColorRange.{IsInRange};

use fixed_num::{Color, Fixed};

/// The color of these millionths: red, green and blue are at most 255, the opacity is at most 1.
pub(crate) fn color_of_millionths(r: u128, g: u128, b: u128, a: u128) -> Color
    requires r_is_small { r ≤ 255000000 }
    requires g_is_small { g ≤ 255000000 }
    requires b_is_small { b ≤ 255000000 }
    requires a_is_small { a ≤ 1000000 }
    ensures value { result ≡ record { r = pos r; g = pos g; b = pos b; a = pos a } }
    ensures range { IsInRange result }
{
    Color {
        r: number_of_millionths(r),
        g: number_of_millionths(g),
        b: number_of_millionths(b),
        a: number_of_millionths(a),
    }
}

/// The color of red, green and blue, and of an opacity as a byte over 255, rounded to the nearest
/// millionth.
pub(crate) fn color_of_bytes(r: u8, g: u8, b: u8, a: u8) -> Color
    ensures value { result ≡ color_of_bytes r g b a }
    ensures range { IsInRange result }
{
    let opacity = (2 * u128::from(a) * 1_000_000 + 255) / 510;
    color_of_millionths(
        u128::from(r) * 1_000_000,
        u128::from(g) * 1_000_000,
        u128::from(b) * 1_000_000,
        opacity,
    )
}

fn number_of_millionths(millionths: u128) -> Fixed
    requires { millionths ≤ 255000000 }
    ensures { result ≡ pos millionths }
{
    Fixed::from_millionths(millionths as i128).unwrap()
}
