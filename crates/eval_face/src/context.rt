use fixed_num::Fixed;
use prop_values::Entries;
use tile_reader::Feature;

/// Where an expression is evaluated, beside the tests on images and scripts. Without a feature that is a
/// feature of shape `Unknown` with no id and no properties, and without a state it is an empty one.
#[derive(Drop)]
pub struct Context<'a> {
    pub zoom: Fixed,
    pub feature: Option<&'a Feature>,
    pub state: Option<&'a Entries>,
}
