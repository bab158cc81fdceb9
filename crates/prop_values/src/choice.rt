ghost use Rattle.std.specs.Prelude.{◌≡◌};
ghost use Rattle.prop_values.specs.Choices.{choice_holds};

/// A set of texts that a style property may be one of. Source: MapLibre style specification, version 8.
#[derive(Clone, Copy, Debug, PartialEq, Eq)]
pub enum Choice {
    /// `visible`, `none`.
    Visibility,
    /// `center`, `left`, `right`, `top`, `bottom`, `top-left`, `top-right`, `bottom-left`,
    /// `bottom-right`.
    Anchor,
    /// `map`, `viewport`.
    MapViewport,
    /// `map`, `viewport`, `auto`.
    MapViewportAuto,
    /// `never`, `always`, `cooperative`.
    Overlap,
    /// `butt`, `round`, `square`.
    LineCap,
    /// `bevel`, `round`, `miter`.
    LineJoin,
    /// `point`, `line`, `line-center`.
    SymbolPlacement,
    /// `auto`, `viewport-y`, `source`.
    SymbolZOrder,
    /// `none`, `width`, `height`, `both`.
    IconTextFit,
    /// `map`, `viewport`, `viewport-glyph`, `auto`.
    TextRotationAlignment,
    /// `auto`, `left`, `center`, `right`.
    TextJustify,
    /// `horizontal`, `vertical`.
    TextWritingMode,
    /// `none`, `uppercase`, `lowercase`.
    TextTransform,
    /// `linear`, `nearest`.
    RasterResampling,
}

impl Choice {
    pub fn holds(self, text: &str) -> bool
        ensures { result ≡ choice_holds self text.now }
    {
        match self {
            Choice::Visibility => matches!(text, "visible" | "none"),
            Choice::Anchor => is_anchor(text),
            Choice::MapViewport => matches!(text, "map" | "viewport"),
            Choice::MapViewportAuto => matches!(text, "map" | "viewport" | "auto"),
            Choice::Overlap => matches!(text, "never" | "always" | "cooperative"),
            Choice::LineCap => matches!(text, "butt" | "round" | "square"),
            Choice::LineJoin => matches!(text, "bevel" | "round" | "miter"),
            Choice::SymbolPlacement => matches!(text, "point" | "line" | "line-center"),
            Choice::SymbolZOrder => matches!(text, "auto" | "viewport-y" | "source"),
            Choice::IconTextFit => matches!(text, "none" | "width" | "height" | "both"),
            Choice::TextRotationAlignment => {
                matches!(text, "map" | "viewport" | "viewport-glyph" | "auto")
            }
            Choice::TextJustify => matches!(text, "auto" | "left" | "center" | "right"),
            Choice::TextWritingMode => matches!(text, "horizontal" | "vertical"),
            Choice::TextTransform => matches!(text, "none" | "uppercase" | "lowercase"),
            Choice::RasterResampling => matches!(text, "linear" | "nearest"),
        }
    }
}

fn is_anchor(text: &str) -> bool
    ensures { result ≡ choice_holds Choice.Anchor text.now }
{
    matches!(
        text,
        "center"
            | "left"
            | "right"
            | "top"
            | "bottom"
            | "top-left"
            | "top-right"
            | "bottom-left"
            | "bottom-right"
    )
}
