ghost use Rattle.std.specs.Prelude.{◌≡◌, [], ◌∷◌, ◌++◌, IfOk, OnOk, OnErr, option_map};
ghost use Rattle.key_index.specs.Keys.{LacksKey};
ghost use Rattle.tile_reader.specs.ShapeName.{shape_name};

use crate::feature_id::FeatureId;
use crate::feature_properties::FeatureProperties;
use decimal_json::Text;
use key_index::{KeyIndex, Keyed};
use std::alloc::{AllocError, Global};
use std::marker::Model;

/// The form of a feature's geometry. Source: Vector Tile 2.1 §4.3.4.1.
#[derive(Clone, Copy, Debug, PartialEq, Eq)]
pub enum Shape {
    Unknown,
    Point,
    LineString,
    Polygon,
}

impl Shape {
    /// Its name. Geometries of several parts have that of one.
    pub fn name(self) -> &'static str
        ensures { result.now ≡ shape_name self }
    {
        match self {
            Shape::Unknown => "Unknown",
            Shape::Point => "Point",
            Shape::LineString => "LineString",
            Shape::Polygon => "Polygon",
        }
    }
}

/// A feature of a layer, of 40 bytes. Its geometry is not read.
#[derive(Drop)]
pub struct Feature {
    pub id: FeatureId,
    pub shape: Shape,
    /// Whole numbers, texts and booleans, each under its key.
    pub properties: FeatureProperties,
}

/// The features of a layer in order, which clauses see as a list.
#[derive(Drop)]
pub struct Features {
    features: Vec<Feature>,
}

#[derive(Drop)]
pub struct TileLayer {
    pub name: Text,
    pub features: Features,
}

/// The layers of a tile in order, which clauses see as a list. No name occurs twice.
#[derive(Drop)]
pub struct Tile {
    layers: Vec<TileLayer>,
    index: KeyIndex,
}

impl Keyed for TileLayer {
    ghost key = { λ layer. layer.name };

    fn key(&self) -> &str {
        self.name.as_str()
    }
}

impl Model for Features {
    ghost use Rattle.std.specs.Prelude.{List};
    ghost use Rattle.tile_reader.specs.declared.tile.Feature.{Feature};

    ghost Value = { List Feature };

    ghost use Rattle.tile_reader.specs.contracts.tile.Feature as feature;
    ghost use Rattle.std.specs.Coded.{coded_list};

    ghost coded = { coded_list feature.the_row.coded };

    ghost view = { λ a. a.features.items };
}

impl Model for Tile {
    ghost use Rattle.std.specs.Prelude.{List};
    ghost use Rattle.tile_reader.specs.declared.tile.TileLayer.{TileLayer};

    ghost Value = { List TileLayer };

    ghost use Rattle.tile_reader.specs.contracts.tile.TileLayer as layer;
    ghost use Rattle.std.specs.Coded.{coded_list};

    ghost coded = { coded_list layer.the_row.coded };

    ghost use Rattle.key_index.specs.Keys.{HasDistinctKeys};
    ghost use Rattle.key_index.specs.Index.{IsIndexed};
    ghost use Rattle.tile_reader.specs.Names.{names};

    ghost view = { λ a. a.layers.items };

    ghost invariant = { λ a. HasDistinctKeys (names a.layers.items) × IsIndexed a.index (names a.layers.items) };
}

impl Features {
    pub fn new(alloc: Global) -> Features
        ensures { result ≡ [] }
    {
        Features {
            features: Vec::new(alloc),
        }
    }

    /// No features, with room for `count` of them.
    pub fn with_capacity(alloc: Global, count: usize) -> Result<Features, AllocError>
        ensures { IfOk result (λ made. made ≡ []) }
    {
        Ok(Features {
            features: Vec::with_capacity(alloc, count)?,
        })
    }

    /// Adds a feature at the end.
    #[inline(always)]
    pub fn push(&mut self, feature: Feature) -> Result<(), AllocError>
        ensures ok { OnOk result (self.new ≡ self.old ++ feature ∷ []) }
        ensures err { OnErr result (self.new ≡ self.old) }
    {
        self.features.push(feature)?;
        Ok(())
    }

    pub fn as_slice(&self) -> &[Feature]
        ensures { result.now ≡ self.now }
    {
        self.features.as_slice()
    }
}

impl Tile {
    ghost use Rattle.tile_reader.specs.Names.{names, layer_named};

    pub fn new(alloc: Global) -> Tile
        ensures { result ≡ [] }
    {
        Tile {
            layers: Vec::new(alloc),
            index: KeyIndex::new(),
        }
    }

    /// Adds a layer at the end, whose name no layer may have.
    pub fn push(&mut self, layer: TileLayer) -> Result<(), AllocError>
        requires { LacksKey layer.name (names self.old) }
        ensures ok { OnOk result (self.new ≡ self.old ++ layer ∷ []) }
        ensures err { OnErr result (self.new ≡ self.old) }
    {
        // With room for the layer nothing can fail once its name is noted.
        self.layers.reserve(1)?;
        let alloc = *self.layers.allocator();
        self.index
            .note_next(alloc, self.layers.as_slice(), layer.name.as_str())?;
        self.layers.push(layer)?;
        Ok(())
    }

    pub fn as_slice(&self) -> &[TileLayer]
        ensures { result.now ≡ self.now }
    {
        self.layers.as_slice()
    }

    /// The layer of a name, or `None` exactly where no layer has it. Takes constant time, or time logarithmic
    /// in the layers where their names were chosen for it.
    pub fn named(&self, name: &str) -> Option<&TileLayer>
        ensures { option_map (λ layer. layer.now) result ≡ layer_named name.now self.now }
    {
        match self.index.find(self.layers.as_slice(), name) {
            None => None,
            Some(place) => Some(&self.layers[place]),
        }
    }
}
