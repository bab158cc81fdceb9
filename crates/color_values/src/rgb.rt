ghost use Rattle.std.specs.Prelude.{◌≡◌, IfSome};
ghost use Rattle.color_values.specs.ColorNumber.{number_at, percent_at, opacity_of};
ghost use Rattle.color_values.specs.RgbColor.{rgb_color, rgb_color_of};
ghost use Rattle.color_values.specs.Views.{bytes_of, parts_view};
ghost use Rattle.fixed_num.specs.ColorRange.{IsInRange};

use crate::amount::{amount, opacity_of};
use crate::color::color_of_millionths;
use crate::number::{is_percent, number_at, percent_at};
use crate::parts::ColorArguments;
use fixed_num::Color;

/// The color of three numbers, clamped to 0 to 255, or of three percentages, clamped to 0 to 100 and
/// multiplied by 2.55. Each is rounded once to the nearest millionth.
#[tactic(auto, unfolding(crate::specs::RgbColor::rgb_color))]
pub(crate) fn rgb_color(parts: &ColorArguments) -> Option<Color>
    ensures value { result ≡ rgb_color (parts_view parts.now) }
    ensures range { IfSome result (λ c. IsInRange c) }
{
    if is_percent(parts.first) {
        return color_of_percentages(parts);
    }
    color_of_numbers(parts)
}

fn color_of_numbers(parts: &ColorArguments) -> Option<Color>
    ensures value { let p = parts_view parts.now in
        result ≡ rgb_color_of 255 1000000 (number_at p.first) (number_at p.second) (number_at p.third)
        (opacity_of p.opacity) }
    ensures range { IfSome result (λ c. IsInRange c) }
{
    let red = number_at(parts.first)?;
    let green = number_at(parts.second)?;
    let blue = number_at(parts.third)?;
    let opacity = opacity_of(parts.opacity)?;
    Some(color_of_millionths(
        amount(&red, 255, 1_000_000),
        amount(&green, 255, 1_000_000),
        amount(&blue, 255, 1_000_000),
        opacity,
    ))
}

fn color_of_percentages(parts: &ColorArguments) -> Option<Color>
    ensures value { let p = parts_view parts.now in
        result ≡ rgb_color_of 100 2550000 (percent_at p.first) (percent_at p.second) (percent_at p.third)
        (opacity_of p.opacity) }
    ensures range { IfSome result (λ c. IsInRange c) }
{
    let red = percent_at(parts.first)?;
    let green = percent_at(parts.second)?;
    let blue = percent_at(parts.third)?;
    let opacity = opacity_of(parts.opacity)?;
    Some(color_of_millionths(
        amount(&red, 100, 2_550_000),
        amount(&green, 100, 2_550_000),
        amount(&blue, 100, 2_550_000),
        opacity,
    ))
}
