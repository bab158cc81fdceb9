//! What the rules on a layer depend on.

ghost use Rattle.std.specs.Prelude.{◌≡◌, Some};
ghost use Rattle.std.specs.Option.{option_and_then};
ghost use Rattle.decimal_json.specs.Tree.{object};
ghost use Rattle.decimal_json.specs.Sound.{HasDistinctKeys};
ghost use Rattle.decimal_json.specs.View.{tree_of, fields, members_view, tree_at};
ghost use Rattle.decimal_json.specs.Accessors.{text_in};
ghost use Rattle.style_parts.specs.Parts.{is_among};
ghost use Rattle.value_forms.specs.LayerTypes.{type_in};
ghost use Rattle.style_rules.specs.CodeView.{fields_at, text_at, context_seen, parts_seen};
ghost use Rattle.style_rules.specs.LayerContext.{sources_for, named_type, source_type, source_types, is_source};
ghost use Rattle.style_rules.specs.LayerParts.{parts_of, with_member, type_by_parts, context_by_parts};
ghost use Rattle.style_rules.specs.Rules.{has_such_source, is_on_vector, is_source_name, suits};

use decimal_json::{Json, Member, Members};
use property_tables::LayerType;
use value_forms::type_in;

/// The members of a layer that rules on other members read, found in one walk.
#[derive(Clone, Copy)]
pub(crate) struct LayerMembers<'a> {
    pub(crate) id: Option<&'a Json>,
    pub(crate) layer_type: Option<&'a Json>,
    pub(crate) source: Option<&'a Json>,
    pub(crate) source_layer: Option<&'a Json>,
    pub(crate) has_ref: bool,
}

#[tactic(auto, using(crate::proofs::PartLaws::found_parts))]
pub(crate) fn parts_of(members: &[Member]) -> LayerMembers<'_>
    requires { HasDistinctKeys (members_view members.now) }
    ensures { parts_seen result ≡ parts_of (object (fields members.now)) }
{
    let mut parts = LayerMembers {
        id: None,
        layer_type: None,
        source: None,
        source_layer: None,
        has_ref: false,
    };
    for member in members {
        parts = with_member(parts, member);
    }
    parts
}

fn with_member<'a>(parts: LayerMembers<'a>, member: &'a Member) -> LayerMembers<'a>
    ensures { parts_seen result ≡ with_member (parts_seen parts.entry) member.now.key (tree_of member.now.value) }
{
    let mut parts = parts;
    match member.key.as_str() {
        "id" => parts.id = Some(&member.value),
        "type" => parts.layer_type = Some(&member.value),
        "source" => parts.source = Some(&member.value),
        "source-layer" => parts.source_layer = Some(&member.value),
        "ref" => parts.has_ref = true,
        _ => {}
    }
    parts
}

/// What the members of one layer depend on.
#[derive(Clone, Copy)]
pub(crate) struct LayerContext<'a> {
    /// The type of the layer, where that is well formed and it has no `ref`.
    pub(crate) layer_type: Option<LayerType>,
    /// The sources among which it has to name one.
    pub(crate) sources: Option<&'a Members>,
    /// The type of the source that it names, where that is well formed.
    pub(crate) source_type: Option<&'a str>,
}

pub(crate) fn context_of<'a>(
    sources: Option<&'a Members>,
    parts: &LayerMembers<'a>,
) -> LayerContext<'a>
    ensures { context_seen result ≡ context_by_parts (fields_at sources.entry) (parts_seen parts.now) }
{
    let layer_type = type_by_parts(parts);
    let sources = sources_for(sources, layer_type);
    LayerContext {
        layer_type,
        sources,
        source_type: named_type(sources, parts.source),
    }
}

fn type_by_parts(parts: &LayerMembers<'_>) -> Option<LayerType>
    ensures { result ≡ type_by_parts (parts_seen parts.now) }
{
    if parts.has_ref {
        return None;
    }
    type_in(parts.layer_type?)
}

fn sources_for(sources: Option<&Members>, layer_type: Option<LayerType>) -> Option<&Members>
    ensures { fields_at result ≡ sources_for (fields_at sources.entry) layer_type }
{
    match layer_type {
        Some(LayerType::Background) => None,
        Some(_) => sources,
        None => None,
    }
}

fn named_type<'a>(sources: Option<&'a Members>, source: Option<&'a Json>) -> Option<&'a str>
    ensures { text_at result ≡ named_type (fields_at sources.entry) (option_and_then text_in (tree_at source.entry)) }
{
    let name = source?.as_text()?;
    source_type(sources?.get(name)?)
}

/// The type of a source that is well formed.
pub(crate) fn source_type(source: &Json) -> Option<&str>
    ensures { text_at result ≡ source_type (tree_of source.now) }
{
    let name = source.as_members()?.get("type")?.as_text()?;
    if !is_source_type(name) {
        return None;
    }
    Some(name)
}

fn is_source_type(name: &str) -> bool
    ensures { result ≡ is_among source_types (Some name.now) }
{
    match name {
        "vector" | "raster" | "raster-dem" | "geojson" | "image" | "video" => true,
        _ => false,
    }
}

impl LayerContext<'_> {
    /// Whether a layer of this type may be on the source that it names.
    pub(crate) fn has_such_source(&self) -> bool
        ensures { result ≡ has_such_source (context_seen self.now) }
    {
        match (self.layer_type, self.source_type) {
            (Some(layer_type), Some(source)) => suits(layer_type, source),
            _ => true,
        }
    }

    pub(crate) fn is_on_vector(&self) -> bool
        ensures { result ≡ is_on_vector (context_seen self.now) }
    {
        match self.source_type {
            Some(name) => name == "vector",
            None => false,
        }
    }

    pub(crate) fn is_source_name(&self, json: &Json) -> bool
        ensures { result ≡ is_source_name (context_seen self.now) (tree_of json.now) }
    {
        let Some(sources) = self.sources else {
            return true;
        };
        match json.as_text() {
            Some(name) => sources.get(name).is_some(),
            None => false,
        }
    }
}

fn suits(layer_type: LayerType, source: &str) -> bool
    ensures { result ≡ suits (Some layer_type) (Some source.now) }
{
    match layer_type {
        LayerType::Raster => source == "raster" || source == "image" || source == "video",
        LayerType::Hillshade => source == "raster-dem",
        LayerType::ColorRelief => source == "raster-dem",
        _ => source == "vector" || source == "geojson",
    }
}

pub(crate) fn is_source(json: &Json) -> bool
    ensures { result ≡ is_source (tree_of json.now) }
{
    json.is_object() && source_type(json).is_some()
}
