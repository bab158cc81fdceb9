ghost use Rattle.std.specs.Prelude.{◌≡◌, pos};
ghost use Rattle.fixed_num.specs.ColorRange.{IsInRange};

use fixed_num::{Color, Fixed};
use std::marker::Model;

/// A color in range, which clauses see as that color. It keeps the millionths of its parts in 32 bits each,
/// so that a value takes 32 bytes.
#[derive(Drop)]
pub struct PackedColor {
    red: u32,
    green: u32,
    blue: u32,
    opacity: u32,
}

impl Model for PackedColor {
    ghost use Rattle.std.specs.Prelude.{pos};
    ghost use Rattle.fixed_num.specs.declared.color.Color.{Color};
    ghost use Rattle.prop_values.specs.DataCode.{color_code};

    ghost Value = { Color };

    ghost coded = { color_code };

    ghost view = { λ a. record { r = pos a.red; g = pos a.green; b = pos a.blue; a = pos a.opacity } };

    ghost use Rattle.fixed_num.specs.ColorRange.{IsInRange};

    ghost invariant = { λ a. IsInRange (record { r = pos a.red; g = pos a.green; b = pos a.blue; a = pos a.opacity }) };
}

impl PackedColor {
    /// The same color, which has to be in range.
    pub fn of(color: &Color) -> PackedColor
        requires { IsInRange color.now }
        ensures { result ≡ color.now }
    {
        PackedColor {
            red: color.r.millionths() as u32,
            green: color.g.millionths() as u32,
            blue: color.b.millionths() as u32,
            opacity: color.a.millionths() as u32,
        }
    }

    /// The same color again, in constant time.
    pub fn copy(&self) -> PackedColor
        ensures { result ≡ self.now }
    {
        PackedColor {
            red: self.red,
            green: self.green,
            blue: self.blue,
            opacity: self.opacity,
        }
    }

    /// The color, its parts in millionths as numbers.
    pub fn color(&self) -> Color
        ensures value { result ≡ self.now }
        ensures range { IsInRange result }
    {
        Color {
            r: millionths(self.red),
            g: millionths(self.green),
            b: millionths(self.blue),
            a: millionths(self.opacity),
        }
    }
}

// A number of so many millionths, which are far within the bound.
fn millionths(count: u32) -> Fixed
    ensures { result ≡ pos count }
{
    Fixed::from_millionths(i128::from(count)).unwrap()
}
