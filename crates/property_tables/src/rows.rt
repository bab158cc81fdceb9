//! The table of style properties, in its order. Source: own, each cell of it.

use crate::entry::{AllowedReads, Given, Limits, TableEntry};
use crate::property_row::Place;
use prop_values::{Choice, Item, Want};

const NUMBER: Want = Want::Number;

const BOOLEAN: Want = Want::Boolean;

const COLOR: Want = Want::Color;

const SHOWN: Want = Want::Shown;

const IMAGE: Want = Want::Image;

const NUMBERS: Want = Want::List(Item::Number, None);

const NUMBERS_2: Want = Want::List(Item::Number, Some(2));

const NUMBERS_4: Want = Want::List(Item::Number, Some(4));

const TEXTS: Want = Want::List(Item::Text, None);

const ABSENT: Given = Given::Absent;

const FREE: Limits = Limits {
    least: None,
    most: None,
};

const FROM_0: Limits = Limits {
    least: Some(0),
    most: None,
};

const FROM_1: Limits = Limits {
    least: Some(1_000_000),
    most: None,
};

const FROM_0_TO_1: Limits = Limits {
    least: Some(0),
    most: Some(1_000_000),
};

const WITHIN_1: Limits = Limits {
    least: Some(-1_000_000),
    most: Some(1_000_000),
};

// Z: the zoom, F: feature data, S: feature state, I: it ramps.
const FIXED: AllowedReads = AllowedReads {
    zoom: false,
    feature: false,
    state: false,
    ramps: false,
};

const Z: AllowedReads = AllowedReads {
    zoom: true,
    feature: false,
    state: false,
    ramps: false,
};

const Z_I: AllowedReads = AllowedReads {
    zoom: true,
    feature: false,
    state: false,
    ramps: true,
};

const ZF: AllowedReads = AllowedReads {
    zoom: true,
    feature: true,
    state: false,
    ramps: false,
};

const ZF_I: AllowedReads = AllowedReads {
    zoom: true,
    feature: true,
    state: false,
    ramps: true,
};

const ZFS_I: AllowedReads = AllowedReads {
    zoom: true,
    feature: true,
    state: true,
    ramps: true,
};

// A row that ends with `tokens` takes token texts.
macro_rules! rows {
    ($($place:ident $name:literal: $want:expr, $given:expr, $limits:expr, $reads:expr $(, $tokens:ident)?;)*) => {
        [$(TableEntry {
            name: $name,
            place: Place::$place,
            want: $want,
            given: $given,
            limits: $limits,
            reads: $reads,
            takes_tokens: takes!($($tokens)?),
        }),*]
    };
}

macro_rules! takes {
    () => {
        false
    };
    (tokens) => {
        true
    };
}

pub(crate) static BACKGROUND: [TableEntry; 4] = rows! {
    Layout "visibility": Want::Enum(Choice::Visibility), Given::Word("visible"), FREE, FIXED;
    Paint "background-color": COLOR, Given::Word("#000000"), FREE, Z_I;
    Paint "background-pattern": IMAGE, ABSENT, FREE, Z;
    Paint "background-opacity": NUMBER, Given::Amount(1_000_000), FROM_0_TO_1, Z_I;
};

pub(crate) static BACKGROUND_BY_NAME: [u8; 4] = [1, 3, 2, 0];

pub(crate) static FILL: [TableEntry; 9] = rows! {
    Layout "visibility": Want::Enum(Choice::Visibility), Given::Word("visible"), FREE, FIXED;
    Layout "fill-sort-key": NUMBER, ABSENT, FREE, ZF;
    Paint "fill-antialias": BOOLEAN, Given::Flag(true), FREE, Z;
    Paint "fill-opacity": NUMBER, Given::Amount(1_000_000), FROM_0_TO_1, ZFS_I;
    Paint "fill-color": COLOR, Given::Word("#000000"), FREE, ZFS_I;
    Paint "fill-outline-color": COLOR, ABSENT, FREE, ZFS_I;
    Paint "fill-translate": NUMBERS_2, Given::Zeros(2), FREE, Z_I;
    Paint "fill-translate-anchor": Want::Enum(Choice::MapViewport), Given::Word("map"), FREE, Z;
    Paint "fill-pattern": IMAGE, ABSENT, FREE, ZF;
};

pub(crate) static FILL_BY_NAME: [u8; 9] = [2, 4, 3, 5, 8, 1, 6, 7, 0];

pub(crate) static LINE: [TableEntry; 16] = rows! {
    Layout "visibility": Want::Enum(Choice::Visibility), Given::Word("visible"), FREE, FIXED;
    Layout "line-cap": Want::Enum(Choice::LineCap), Given::Word("butt"), FREE, Z;
    Layout "line-join": Want::Enum(Choice::LineJoin), Given::Word("miter"), FREE, ZF;
    Layout "line-miter-limit": NUMBER, Given::Amount(2_000_000), FREE, Z_I;
    Layout "line-round-limit": NUMBER, Given::Amount(1_050_000), FREE, Z_I;
    Layout "line-sort-key": NUMBER, ABSENT, FREE, ZF;
    Paint "line-opacity": NUMBER, Given::Amount(1_000_000), FROM_0_TO_1, ZFS_I;
    Paint "line-color": COLOR, Given::Word("#000000"), FREE, ZFS_I;
    Paint "line-translate": NUMBERS_2, Given::Zeros(2), FREE, Z_I;
    Paint "line-translate-anchor": Want::Enum(Choice::MapViewport), Given::Word("map"), FREE, Z;
    Paint "line-width": NUMBER, Given::Amount(1_000_000), FROM_0, ZFS_I;
    Paint "line-gap-width": NUMBER, Given::Amount(0), FROM_0, ZFS_I;
    Paint "line-offset": NUMBER, Given::Amount(0), FREE, ZFS_I;
    Paint "line-blur": NUMBER, Given::Amount(0), FROM_0, ZFS_I;
    Paint "line-dasharray": NUMBERS, ABSENT, FROM_0, Z;
    Paint "line-pattern": IMAGE, ABSENT, FREE, ZF;
};

pub(crate) static LINE_BY_NAME: [u8; 16] = [13, 1, 7, 14, 11, 2, 3, 12, 6, 15, 4, 5, 8, 9, 10, 0];

pub(crate) static SYMBOL: [TableEntry; 57] = rows! {
    Layout "visibility": Want::Enum(Choice::Visibility), Given::Word("visible"), FREE, FIXED;
    Layout "symbol-placement": Want::Enum(Choice::SymbolPlacement), Given::Word("point"), FREE, Z;
    Layout "symbol-spacing": NUMBER, Given::Amount(250_000_000), FROM_1, Z_I;
    Layout "symbol-avoid-edges": BOOLEAN, Given::Flag(false), FREE, Z;
    Layout "symbol-sort-key": NUMBER, ABSENT, FREE, ZF;
    Layout "symbol-z-order": Want::Enum(Choice::SymbolZOrder), Given::Word("auto"), FREE, Z;
    Layout "icon-allow-overlap": BOOLEAN, Given::Flag(false), FREE, Z;
    Layout "icon-overlap": Want::Enum(Choice::Overlap), ABSENT, FREE, Z;
    Layout "icon-ignore-placement": BOOLEAN, Given::Flag(false), FREE, Z;
    Layout "icon-optional": BOOLEAN, Given::Flag(false), FREE, Z;
    Layout "icon-rotation-alignment": Want::Enum(Choice::MapViewportAuto), Given::Word("auto"), FREE, Z;
    Layout "icon-size": NUMBER, Given::Amount(1_000_000), FROM_0, ZF_I;
    Layout "icon-text-fit": Want::Enum(Choice::IconTextFit), Given::Word("none"), FREE, Z;
    Layout "icon-text-fit-padding": NUMBERS_4, Given::Zeros(4), FREE, Z_I;
    Layout "icon-image": IMAGE, ABSENT, FREE, ZF, tokens;
    Layout "icon-rotate": NUMBER, Given::Amount(0), FREE, ZF_I;
    Layout "icon-keep-upright": BOOLEAN, Given::Flag(false), FREE, Z;
    Layout "icon-offset": NUMBERS_2, Given::Zeros(2), FREE, ZF_I;
    Layout "icon-anchor": Want::Enum(Choice::Anchor), Given::Word("center"), FREE, ZF;
    Layout "icon-pitch-alignment": Want::Enum(Choice::MapViewportAuto), Given::Word("auto"), FREE, Z;
    Layout "text-pitch-alignment": Want::Enum(Choice::MapViewportAuto), Given::Word("auto"), FREE, Z;
    Layout "text-rotation-alignment": Want::Enum(Choice::TextRotationAlignment), Given::Word("auto"), FREE, Z;
    Layout "text-field": SHOWN, Given::Word(""), FREE, ZF, tokens;
    Layout "text-font": TEXTS, Given::Fonts, FREE, ZF;
    Layout "text-size": NUMBER, Given::Amount(16_000_000), FROM_0, ZF_I;
    Layout "text-max-width": NUMBER, Given::Amount(10_000_000), FROM_0, ZF_I;
    Layout "text-line-height": NUMBER, Given::Amount(1_200_000), FREE, Z_I;
    Layout "text-letter-spacing": NUMBER, Given::Amount(0), FREE, ZF_I;
    Layout "text-justify": Want::Enum(Choice::TextJustify), Given::Word("center"), FREE, ZF;
    Layout "text-radial-offset": NUMBER, Given::Amount(0), FREE, ZF_I;
    Layout "text-variable-anchor": Want::EnumList(Choice::Anchor), ABSENT, FREE, Z;
    Layout "text-anchor": Want::Enum(Choice::Anchor), Given::Word("center"), FREE, ZF;
    Layout "text-max-angle": NUMBER, Given::Amount(45_000_000), FREE, Z_I;
    Layout "text-writing-mode": Want::EnumList(Choice::TextWritingMode), ABSENT, FREE, Z;
    Layout "text-rotate": NUMBER, Given::Amount(0), FREE, ZF_I;
    Layout "text-padding": NUMBER, Given::Amount(2_000_000), FROM_0, Z_I;
    Layout "text-keep-upright": BOOLEAN, Given::Flag(true), FREE, Z;
    Layout "text-transform": Want::Enum(Choice::TextTransform), Given::Word("none"), FREE, ZF;
    Layout "text-offset": NUMBERS_2, Given::Zeros(2), FREE, ZF_I;
    Layout "text-allow-overlap": BOOLEAN, Given::Flag(false), FREE, Z;
    Layout "text-overlap": Want::Enum(Choice::Overlap), ABSENT, FREE, Z;
    Layout "text-ignore-placement": BOOLEAN, Given::Flag(false), FREE, Z;
    Layout "text-optional": BOOLEAN, Given::Flag(false), FREE, Z;
    Paint "icon-opacity": NUMBER, Given::Amount(1_000_000), FROM_0_TO_1, ZFS_I;
    Paint "icon-color": COLOR, Given::Word("#000000"), FREE, ZFS_I;
    Paint "icon-halo-color": COLOR, Given::Word("rgba(0,0,0,0)"), FREE, ZFS_I;
    Paint "icon-halo-width": NUMBER, Given::Amount(0), FROM_0, ZFS_I;
    Paint "icon-halo-blur": NUMBER, Given::Amount(0), FROM_0, ZFS_I;
    Paint "icon-translate": NUMBERS_2, Given::Zeros(2), FREE, Z_I;
    Paint "icon-translate-anchor": Want::Enum(Choice::MapViewport), Given::Word("map"), FREE, Z;
    Paint "text-opacity": NUMBER, Given::Amount(1_000_000), FROM_0_TO_1, ZFS_I;
    Paint "text-color": COLOR, Given::Word("#000000"), FREE, ZFS_I;
    Paint "text-halo-color": COLOR, Given::Word("rgba(0,0,0,0)"), FREE, ZFS_I;
    Paint "text-halo-width": NUMBER, Given::Amount(0), FROM_0, ZFS_I;
    Paint "text-halo-blur": NUMBER, Given::Amount(0), FROM_0, ZFS_I;
    Paint "text-translate": NUMBERS_2, Given::Zeros(2), FREE, Z_I;
    Paint "text-translate-anchor": Want::Enum(Choice::MapViewport), Given::Word("map"), FREE, Z;
};

pub(crate) static SYMBOL_BY_NAME: [u8; 57] = [
    6, 18, 44, 47, 45, 46, 8, 14, 16, 17, 43, 9, 7, 19, 15, 10, 11, 12, 13, 48, 49, 3, 1, 4, 2, 5,
    39, 31, 51, 22, 23, 54, 52, 53, 41, 28, 36, 27, 26, 32, 25, 38, 50, 42, 40, 35, 20, 29, 34, 21,
    24, 37, 55, 56, 30, 33, 0,
];

pub(crate) static CIRCLE: [TableEntry; 13] = rows! {
    Layout "visibility": Want::Enum(Choice::Visibility), Given::Word("visible"), FREE, FIXED;
    Layout "circle-sort-key": NUMBER, ABSENT, FREE, ZF;
    Paint "circle-radius": NUMBER, Given::Amount(5_000_000), FROM_0, ZFS_I;
    Paint "circle-color": COLOR, Given::Word("#000000"), FREE, ZFS_I;
    Paint "circle-blur": NUMBER, Given::Amount(0), FREE, ZFS_I;
    Paint "circle-opacity": NUMBER, Given::Amount(1_000_000), FROM_0_TO_1, ZFS_I;
    Paint "circle-translate": NUMBERS_2, Given::Zeros(2), FREE, Z_I;
    Paint "circle-translate-anchor": Want::Enum(Choice::MapViewport), Given::Word("map"), FREE, Z;
    Paint "circle-pitch-scale": Want::Enum(Choice::MapViewport), Given::Word("map"), FREE, Z;
    Paint "circle-pitch-alignment": Want::Enum(Choice::MapViewport), Given::Word("viewport"), FREE, Z;
    Paint "circle-stroke-width": NUMBER, Given::Amount(0), FROM_0, ZFS_I;
    Paint "circle-stroke-color": COLOR, Given::Word("#000000"), FREE, ZFS_I;
    Paint "circle-stroke-opacity": NUMBER, Given::Amount(1_000_000), FROM_0_TO_1, ZFS_I;
};

pub(crate) static CIRCLE_BY_NAME: [u8; 13] = [4, 3, 5, 9, 8, 2, 1, 11, 12, 10, 6, 7, 0];

pub(crate) static HEATMAP: [TableEntry; 5] = rows! {
    Layout "visibility": Want::Enum(Choice::Visibility), Given::Word("visible"), FREE, FIXED;
    Paint "heatmap-radius": NUMBER, Given::Amount(30_000_000), FROM_1, ZFS_I;
    Paint "heatmap-weight": NUMBER, Given::Amount(1_000_000), FROM_0, ZFS_I;
    Paint "heatmap-intensity": NUMBER, Given::Amount(1_000_000), FROM_0, Z_I;
    Paint "heatmap-opacity": NUMBER, Given::Amount(1_000_000), FROM_0_TO_1, Z_I;
};

pub(crate) static HEATMAP_BY_NAME: [u8; 5] = [3, 4, 1, 2, 0];

pub(crate) static FILL_EXTRUSION: [TableEntry; 9] = rows! {
    Layout "visibility": Want::Enum(Choice::Visibility), Given::Word("visible"), FREE, FIXED;
    Paint "fill-extrusion-opacity": NUMBER, Given::Amount(1_000_000), FROM_0_TO_1, Z_I;
    Paint "fill-extrusion-color": COLOR, Given::Word("#000000"), FREE, ZFS_I;
    Paint "fill-extrusion-translate": NUMBERS_2, Given::Zeros(2), FREE, Z_I;
    Paint "fill-extrusion-translate-anchor": Want::Enum(Choice::MapViewport), Given::Word("map"), FREE, Z;
    Paint "fill-extrusion-pattern": IMAGE, ABSENT, FREE, ZF;
    Paint "fill-extrusion-height": NUMBER, Given::Amount(0), FROM_0, ZFS_I;
    Paint "fill-extrusion-base": NUMBER, Given::Amount(0), FROM_0, ZFS_I;
    Paint "fill-extrusion-vertical-gradient": BOOLEAN, Given::Flag(true), FREE, Z;
};

pub(crate) static FILL_EXTRUSION_BY_NAME: [u8; 9] = [7, 2, 6, 1, 5, 3, 4, 8, 0];

pub(crate) static RASTER: [TableEntry; 9] = rows! {
    Layout "visibility": Want::Enum(Choice::Visibility), Given::Word("visible"), FREE, FIXED;
    Paint "raster-opacity": NUMBER, Given::Amount(1_000_000), FROM_0_TO_1, Z_I;
    Paint "raster-hue-rotate": NUMBER, Given::Amount(0), FREE, Z_I;
    Paint "raster-brightness-min": NUMBER, Given::Amount(0), FROM_0_TO_1, Z_I;
    Paint "raster-brightness-max": NUMBER, Given::Amount(1_000_000), FROM_0_TO_1, Z_I;
    Paint "raster-saturation": NUMBER, Given::Amount(0), WITHIN_1, Z_I;
    Paint "raster-contrast": NUMBER, Given::Amount(0), WITHIN_1, Z_I;
    Paint "raster-resampling": Want::Enum(Choice::RasterResampling), Given::Word("linear"), FREE, Z;
    Paint "raster-fade-duration": NUMBER, Given::Amount(300_000_000), FROM_0, Z_I;
};

pub(crate) static RASTER_BY_NAME: [u8; 9] = [4, 3, 6, 8, 2, 1, 7, 5, 0];

pub(crate) static HILLSHADE: [TableEntry; 1] = rows! {
    Layout "visibility": Want::Enum(Choice::Visibility), Given::Word("visible"), FREE, FIXED;
};

pub(crate) static HILLSHADE_BY_NAME: [u8; 1] = [0];

pub(crate) static COLOR_RELIEF: [TableEntry; 1] = rows! {
    Layout "visibility": Want::Enum(Choice::Visibility), Given::Word("visible"), FREE, FIXED;
};

pub(crate) static COLOR_RELIEF_BY_NAME: [u8; 1] = [0];
