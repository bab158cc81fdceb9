//! What a layout is made of beside the style.

ghost use Rattle.std.specs.Prelude.{◌≡◌};
ghost use Rattle.style_layout.specs.Tests.{Tests};

use crate::zoom::Zoom;
use feature_states::States;
use host_ops::HostOp;
use tile_reader::Tile;

/// A tile, and the source that it is handed in for.
#[derive(Drop)]
pub struct SourceTile<'a> {
    pub source: &'a str,
    pub tile: Tile,
}

/// What all layers see: a zoom, the states of features, and the tests on texts by which expressions are evaluated.
#[derive(Clone, Copy)]
pub struct Scene<'a, T> {
    pub zoom: Zoom,
    pub states: &'a States,
    pub tests: T,
}

/// A test on the names of images, and one on texts whose scripts can be shown.
pub trait TextTests {
    /// Both tests.
    ghost tests: { Self → Tests };

    fn has_image(&self, name: &str) -> bool
        ensures { result ≡ (tests self.now).has_image name.now };

    fn is_supported(&self, text: &str) -> bool
        ensures { result ≡ (tests self.now).is_supported text.now };
}

/// Both tests as the host answers them, each of type `&dyn HostOp`.
#[derive(Clone, Copy)]
pub struct HostTests<T> {
    pub images: T,
    pub scripts: T,
}

impl TextTests for HostTests<&dyn HostOp> {
    ghost tests = { λ w. record {
      has_image = (HostOp-dyn w.images.now).test w.images.now.1;
      is_supported = (HostOp-dyn w.scripts.now).test w.scripts.now.1;
    } };

    fn has_image(&self, name: &str) -> bool {
        self.images.answer(name)
    }

    fn is_supported(&self, text: &str) -> bool {
        self.scripts.answer(text)
    }
}
