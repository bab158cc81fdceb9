//! What expressions read of the world.

ghost use Rattle.std.specs.Prelude.{◌≡◌};
ghost use Rattle.tile_reader.specs.declared.tile.Feature.{Feature};
ghost use Rattle.eval_face.specs.World.{World, world_of, state_of, feature_of};

use eval_face::Context;
use fixed_num::Fixed;
use host_ops::TextTest;
use prop_values::Entries;
use tile_reader::{Feature, FeatureProperties, Shape};

/// What an expression reads of the world, each part by a call of its own.
pub trait WorldView {
    /// The world that is read.
    ghost world: { Self → World };

    fn zoom(&self) -> Fixed
        ensures { result ≡ (world self.now).zoom };

    /// The feature: none where there is none.
    fn feature(&self) -> Option<&Feature>
        ensures id { (feature_of result).id ≡ (world self.now).id }
        ensures shape { (feature_of result).shape ≡ (world self.now).shape }
        ensures properties { (feature_of result).properties ≡ (world self.now).properties };

    /// The properties of the feature: none where there is no feature.
    fn properties(&self) -> Option<&FeatureProperties>
        ensures { state_of result ≡ (world self.now).properties };

    fn id(&self) -> Option<u64>
        ensures { result ≡ (world self.now).id };

    fn shape(&self) -> Shape
        ensures { result ≡ (world self.now).shape };

    /// The members of the feature's state: none where there is no state.
    fn state(&self) -> Option<&Entries>
        ensures { state_of result ≡ (world self.now).state };

    fn has_image(&self, name: &str) -> bool
        ensures { result ≡ (world self.now).has_image name.now };

    fn is_supported(&self, text: &str) -> bool
        ensures { result ≡ (world self.now).is_supported text.now };
}

/// A context and the two tests.
#[derive(Drop)]
pub struct TestedContext<'a, 'c, I, S> {
    pub context: &'a Context<'c>,
    pub images: &'a I,
    pub scripts: &'a S,
}

impl<I: TextTest, S: TextTest> WorldView for TestedContext<'_, '_, I, S> {
    ghost use Rattle.eval_face.specs.World.{world_of};

    ghost world = { λ s. world_of s.context.now (I.holds s.images.now) (S.holds s.scripts.now) };

    fn zoom(&self) -> Fixed {
        self.context.zoom
    }

    fn feature(&self) -> Option<&Feature> {
        self.context.feature
    }

    fn properties(&self) -> Option<&FeatureProperties> {
        match self.context.feature {
            Some(feature) => Some(&feature.properties),
            None => None,
        }
    }

    fn id(&self) -> Option<u64> {
        match self.context.feature {
            Some(feature) => feature.id.get(),
            None => None,
        }
    }

    fn shape(&self) -> Shape {
        match self.context.feature {
            Some(feature) => feature.shape,
            None => Shape::Unknown,
        }
    }

    fn state(&self) -> Option<&Entries> {
        self.context.state
    }

    fn has_image(&self, name: &str) -> bool {
        self.images.is_held(name)
    }

    fn is_supported(&self, text: &str) -> bool {
        self.scripts.is_held(text)
    }
}
