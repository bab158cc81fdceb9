ghost use Rattle.std.specs.Prelude.{◌≡◌};
ghost use Rattle.property_tables.specs.LayerTypes.{type_name, type_named};

/// The type of a layer. Source: MapLibre style specification, version 8, layers.
#[derive(Clone, Copy, Debug, PartialEq, Eq)]
pub enum LayerType {
    Background,
    Fill,
    Line,
    Symbol,
    Circle,
    Heatmap,
    FillExtrusion,
    Raster,
    Hillshade,
    ColorRelief,
}

impl LayerType {
    /// The name of the type in a style.
    pub fn name(self) -> &'static str
        ensures { result.now ≡ type_name self }
    {
        match self {
            LayerType::Background => "background",
            LayerType::Fill => "fill",
            LayerType::Line => "line",
            LayerType::Symbol => "symbol",
            LayerType::Circle => "circle",
            LayerType::Heatmap => "heatmap",
            LayerType::FillExtrusion => "fill-extrusion",
            LayerType::Raster => "raster",
            LayerType::Hillshade => "hillshade",
            LayerType::ColorRelief => "color-relief",
        }
    }

    /// The type of this name, or `None` exactly where no type has it.
    pub fn named(name: &str) -> Option<LayerType>
        ensures { result ≡ type_named name.now }
    {
        match name {
            "background" => Some(LayerType::Background),
            "fill" => Some(LayerType::Fill),
            "line" => Some(LayerType::Line),
            "symbol" => Some(LayerType::Symbol),
            "circle" => Some(LayerType::Circle),
            "heatmap" => Some(LayerType::Heatmap),
            "fill-extrusion" => Some(LayerType::FillExtrusion),
            "raster" => Some(LayerType::Raster),
            "hillshade" => Some(LayerType::Hillshade),
            "color-relief" => Some(LayerType::ColorRelief),
            _ => None,
        }
    }
}
