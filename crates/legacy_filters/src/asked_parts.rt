//! Whether a filter asks for the feature.

ghost use Rattle.std.specs.Prelude.{◌≡◌};
ghost use Rattle.legacy_filters.specs.AskedParts.{asks_feature, is_order_of, may_be_missing, some_asks_feature};
ghost use Rattle.legacy_filters.specs.AskedParts.{test_asks_feature};
ghost use Rattle.legacy_filters.specs.View.{filter_of, part_filter, part_filters};

use crate::filter::{Key, LegacyFilter, Part, Test};
use crate::scalars::Scalar;

impl LegacyFilter {
    /// Whether a test asks for the feature. Without one, all features pass or none. Takes no memory.
    pub fn asks_feature(&self) -> bool
        ensures { result ≡ asks_feature (filter_of self.now) }
    {
        part_asks_feature(&self.whole)
    }
}

#[cycle(asking)]
fn part_asks_feature(part: &Part) -> bool
    ensures { result ≡ asks_feature (part_filter part.now) }
{
    match part {
        Part::Flag(_) => false,
        Part::Test(key, test) => test_asks_feature(key, test),
        Part::Group(_, parts) => some_asks_feature(parts.as_slice()),
    }
}

#[cycle(asking)]
fn some_asks_feature(parts: &[Part]) -> bool
    ensures { result ≡ some_asks_feature (part_filters parts.now) }
{
    for part in parts {
        if part_asks_feature(part) {
            return true;
        }
    }
    false
}

fn test_asks_feature(key: &Key, test: &Test) -> bool
    ensures { result ≡ test_asks_feature key.now test.now }
{
    match test {
        Test::Has => may_be_missing(key),
        Test::HasNot => may_be_missing(key),
        Test::Ordered(_, scalar) => is_order_of(scalar),
        _ => true,
    }
}

fn may_be_missing(key: &Key) -> bool
    ensures { result ≡ may_be_missing key.now }
{
    match key {
        Key::Shape => false,
        _ => true,
    }
}

fn is_order_of(scalar: &Scalar) -> bool
    ensures { result ≡ is_order_of scalar.now }
{
    match scalar {
        Scalar::Flag(_) => false,
        _ => true,
    }
}
