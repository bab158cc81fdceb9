//! What is at the key of a test.

ghost use Rattle.std.specs.Prelude.{◌≡◌, option_map};
ghost use Rattle.prop_values.specs.Data.{number};
ghost use Rattle.legacy_filters.specs.Found.{found_data};
ghost use Rattle.legacy_filters.specs.Meaning.{id_number, value_at};

use crate::filter::Key;
use fixed_num::Fixed;
use prop_values::Value;
use tile_reader::Feature;

// The name of a shape, an id as a number, or a property.
#[derive(Drop)]
pub(crate) enum TestedValue<'a> {
    Shape(&'a str),
    Id(Fixed),
    Property(&'a Value),
}

pub(crate) fn found_at<'a>(key: &Key, feature: &'a Feature) -> Option<TestedValue<'a>>
    ensures { option_map found_data result ≡ value_at key.now feature.now }
{
    match key {
        Key::Shape => Some(TestedValue::Shape(feature.shape.name())),
        Key::Id => match feature.id.get() {
            Some(id) => Some(TestedValue::Id(id_number(id))),
            None => None,
        },
        Key::Property(name) => match feature.properties.get(name.as_str()) {
            Some(value) => Some(TestedValue::Property(value)),
            None => None,
        },
    }
}

fn id_number(id: u64) -> Fixed
    ensures { number result ≡ id_number id }
{
    match Fixed::from_millionths(i128::from(id) * 1_000_000) {
        Some(number) => number,
        None => unreachable!(),
    }
}
