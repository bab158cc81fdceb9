//! What the keys of members name.

ghost use Rattle.std.specs.Prelude.{◌≡◌};
ghost use Rattle.style_rules.specs.Keys.{root_key, member_key};

/// What a key of the document names.
#[derive(Clone, Copy)]
pub(crate) enum RootKey {
    Version,
    Sources,
    Layers,
    State,
    Other,
}

pub(crate) fn root_key(key: &str) -> RootKey
    ensures { result ≡ root_key key.now }
{
    match key {
        "version" => RootKey::Version,
        "sources" => RootKey::Sources,
        "layers" => RootKey::Layers,
        "state" => RootKey::State,
        _ => RootKey::Other,
    }
}

/// What a key of a layer names.
#[derive(Clone, Copy)]
pub(crate) enum MemberKey {
    Id,
    Type,
    Source,
    SourceLayer,
    ZoomLimit,
    Layout,
    Paint,
    Filter,
    Other,
}

pub(crate) fn member_key(key: &str) -> MemberKey
    ensures { result ≡ member_key key.now }
{
    match key {
        "id" => MemberKey::Id,
        "type" => MemberKey::Type,
        "source" => MemberKey::Source,
        "source-layer" => MemberKey::SourceLayer,
        "minzoom" => MemberKey::ZoomLimit,
        "maxzoom" => MemberKey::ZoomLimit,
        "layout" => MemberKey::Layout,
        "paint" => MemberKey::Paint,
        "filter" => MemberKey::Filter,
        _ => MemberKey::Other,
    }
}
