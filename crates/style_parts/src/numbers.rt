//! The numbers that trees say.

ghost use Rattle.std.specs.Prelude.{◌≡◌, Some};
ghost use Rattle.decimal_json.specs.View.{tree_of};
ghost use Rattle.style_parts.specs.Numbers.{is_between, is_zoom, number_in};

use decimal_json::Json;
use fixed_num::{Fixed, read_decimal};

/// The greatest zoom, in millionths.
const MOST_ZOOM: i128 = 24_000_000;

/// The number that a tree says, or `None` exactly where it is no number or one past the bound.
pub fn number_in(json: &Json) -> Option<Fixed>
    ensures { result ≡ number_in (tree_of json.now) }
{
    match json {
        Json::Num(number) => match read_decimal(number.as_str().as_bytes()) {
            Ok(number) => Some(number),
            Err(_) => None,
        },
        _ => None,
    }
}

/// Whether a tree is a number from one to another, in millionths.
pub fn is_between(json: &Json, least: i128, most: i128) -> bool
    ensures { result ≡ is_between least most (number_in (tree_of json.now)) }
{
    match number_in(json) {
        Some(number) => least <= number.millionths() && number.millionths() <= most,
        None => false,
    }
}

/// Whether a zoom is from 0 to 24.
pub fn is_zoom(zoom: Fixed) -> bool
    ensures { result ≡ is_zoom (Some zoom) }
{
    0 <= zoom.millionths() && zoom.millionths() <= MOST_ZOOM
}
