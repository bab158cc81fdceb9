//! What the value of a cell reads.

use fixed_num::Fixed;
use operator_rules::WorldView;
use prop_values::Entries;
use style_layout::{LayerFeature, Scene, TextTests};
use tile_reader::{Feature, FeatureProperties, Shape};

/// A scene as the value of a cell reads it: at a zoom, with a feature or with none.
#[derive(Clone, Copy)]
pub struct CellWorld<'a, V> {
    pub scene: &'a Scene<'a, V>,
    pub zoom: Fixed,
    pub feature: Option<&'a LayerFeature<'a>>,
}

impl<V: TextTests> WorldView for CellWorld<'_, V> {
    ghost use Rattle.asked_cells.specs.Asked.{cell_world};
    ghost use Rattle.asked_cells.specs.SeenCells.{cell_feature};
    ghost use Rattle.style_layout.specs.CodeView.{scene_seen};

    ghost world = { λ w. cell_world (scene_seen V.tests w.scene.now) w.zoom (cell_feature w.feature) };

    fn zoom(&self) -> Fixed {
        self.zoom
    }

    fn feature(&self) -> Option<&Feature> {
        match self.feature {
            Some(feature) => Some(feature.feature),
            None => None,
        }
    }

    fn properties(&self) -> Option<&FeatureProperties> {
        match self.feature {
            Some(feature) => Some(&feature.feature.properties),
            None => None,
        }
    }

    fn id(&self) -> Option<u64> {
        match self.feature {
            Some(feature) => feature.feature.id.get(),
            None => None,
        }
    }

    fn shape(&self) -> Shape {
        match self.feature {
            Some(feature) => feature.feature.shape,
            None => Shape::Unknown,
        }
    }

    fn state(&self) -> Option<&Entries> {
        match self.feature {
            Some(feature) => feature.state,
            None => None,
        }
    }

    #[tactic(auto, unfolding(style_layout::specs::CodeView::scene_seen))]
    fn has_image(&self, name: &str) -> bool {
        self.scene.tests.has_image(name)
    }

    #[tactic(auto, unfolding(style_layout::specs::CodeView::scene_seen))]
    fn is_supported(&self, text: &str) -> bool {
        self.scene.tests.is_supported(text)
    }
}
