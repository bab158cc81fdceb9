ghost use Rattle.tile_listing.specs.ExtentLaw.{EachLayerHasItsExtent};

/// As many extents are read from the bytes of a tile as it has layers, so that the default is taken for no layer that
/// names its extent.
#[tactic(auto, using(crate::proofs::ExtentCounts::each_has_its_extent))]
pub fn each_layer_has_its_extent()
    ensures { EachLayerHasItsExtent }
{}
