use crate::fixed::Fixed;

/// A color: red, green and blue from 0 to 255, and the opacity from 0 to 1. Who makes one keeps to
/// these ranges, which contracts name `IsInRange`.
#[derive(Clone, Copy, Debug, PartialEq, Eq)]
pub struct Color {
    pub r: Fixed,
    pub g: Fixed,
    pub b: Fixed,
    pub a: Fixed,
}
