//! The rules on a layer.

ghost use Rattle.std.specs.Prelude.{◌≡◌, [], ◌∷◌, ◌++◌, OnOk};
ghost use Rattle.decimal_json.specs.View.{path_of, tree_of, fields, members_view};
ghost use Rattle.decimal_json.specs.Tree.{object};
ghost use Rattle.decimal_json.specs.Sound.{HasDistinctKeys};
ghost use Rattle.style_rules.specs.CodeView.{fields_at, context_seen, has_name, parts_seen};
ghost use Rattle.style_rules.specs.Findings.{reports_or};
ghost use Rattle.style_rules.specs.Keys.{keyed_reports, placed_reports};
ghost use Rattle.style_rules.specs.LayerParts.{layer_rule};
ghost use Rattle.style_rules.specs.Levels.{fields_reports, layer_reports, member_reports};
ghost use Rattle.style_rules.specs.Places.{least_broken};
ghost use Rattle.style_rules.specs.Rules.{is_id, is_type, is_new_id, is_source_name, has_such_source, is_source_layer};
ghost use Rattle.style_rules.specs.Rules.{is_zoom_limit};
ghost use Rattle.style_rules.specs.Values.{filter_mark};

use crate::diagnostics::Diagnostics;
use crate::document::is_new_id;
use crate::filters::filter_mark;
use crate::keys::{MemberKey, member_key};
use crate::layer_context::{LayerContext, LayerMembers, context_of, parts_of};
use crate::properties::report_properties;
use decimal_json::{Here, Json, Member, Members};
use prop_values::Entries;
use property_tables::Place;
use std::alloc::{AllocError, Global};
use style_parts::{is_zoom, number_in};
use value_forms::{tested_type, type_in};

/// What the members of one layer are looked at by.
#[derive(Clone, Copy)]
struct MemberContext<'a> {
    layer: LayerContext<'a>,
    /// The ids of the layers before.
    used: &'a Entries,
}

/// Reports of a layer, by the ids of the layers before.
pub(crate) fn report_layer<'x>(
    alloc: Global,
    reports: &mut Diagnostics,
    sources: Option<&'x Members>,
    used: &Entries,
    layer: &'x Json,
    here: &'x Here<'x>,
) -> Result<(), AllocError>
    ensures { OnOk result (reports.new ≡ reports.old
        ++ layer_reports (fields_at sources.entry) (has_name used.now) (path_of here.now) (tree_of layer.now)) }
{
    match layer {
        Json::Object(members) => report_members(
            alloc,
            reports,
            sources,
            used,
            members.as_slice(),
            here,
        ),
        _ => reports.report_broken(alloc, here, 6),
    }
}

fn report_members<'x>(
    alloc: Global,
    reports: &mut Diagnostics,
    sources: Option<&'x Members>,
    used: &Entries,
    members: &'x [Member],
    here: &'x Here<'x>,
) -> Result<(), AllocError>
    requires { HasDistinctKeys (members_view members.now) }
    ensures { OnOk result (reports.new ≡ reports.old
        ++ layer_reports (fields_at sources.entry) (has_name used.now) (path_of here.now)
        (object (fields members.now))) }
{
    let parts = parts_of(members);
    let context = context_of(sources, &parts);
    match layer_rule(&context, &parts) {
        Some(rule) => reports.report_broken(alloc, here, rule),
        None => report_each_member(
            alloc,
            reports,
            &MemberContext {
                layer: context,
                used,
            },
            members,
            here,
        ),
    }
}

fn report_each_member<'x>(
    alloc: Global,
    reports: &mut Diagnostics,
    within: &MemberContext<'_>,
    members: &'x [Member],
    here: &'x Here<'x>,
) -> Result<(), AllocError>
    ensures { OnOk result (reports.new ≡ reports.old
        ++ fields_reports
        (member_reports (context_seen within.now.layer) (has_name within.now.used.now) (path_of here.now))
        (fields members.now)) }
{
    for member in members {
        report_member(alloc, reports, within, member, here)?;
    }
    Ok(())
}

/// The least rule that breaks at the layer itself.
fn layer_rule(context: &LayerContext<'_>, parts: &LayerMembers<'_>) -> Option<u8>
    ensures { result ≡ layer_rule (context_seen context.now) (parts_seen parts.now) }
{
    if parts.id.is_none() {
        return Some(7);
    }
    if parts.layer_type.is_none() || parts.has_ref {
        return Some(9);
    }
    if context.sources.is_some() && parts.source.is_none() {
        return Some(10);
    }
    if context.is_on_vector() && parts.source_layer.is_none() {
        return Some(12);
    }
    None
}

#[tactic(auto, using(crate::proofs::KeyLaws::member_by_key))]
fn report_member<'x>(
    alloc: Global,
    reports: &mut Diagnostics,
    within: &MemberContext<'_>,
    member: &'x Member,
    layer: &'x Here<'x>,
) -> Result<(), AllocError>
    ensures { OnOk result (reports.new ≡ reports.old
        ++ member_reports (context_seen within.now.layer) (has_name within.now.used.now) (path_of layer.now)
        member.now.key (tree_of member.now.value)) }
{
    let name = member.key.as_str();
    let here = Here::Key(name, layer);
    report_keyed(
        alloc,
        reports,
        within,
        member_key(name),
        &member.value,
        &here,
    )
}

fn report_keyed<'x>(
    alloc: Global,
    reports: &mut Diagnostics,
    within: &MemberContext<'_>,
    key: MemberKey,
    value: &'x Json,
    here: &'x Here<'x>,
) -> Result<(), AllocError>
    ensures { OnOk result (reports.new ≡ reports.old
        ++ keyed_reports (context_seen within.now.layer) (has_name within.now.used.now) key (path_of here.now)
        (tree_of value.now)) }
{
    let context = &within.layer;
    match key {
        MemberKey::Id => report_id(alloc, reports, within.used, value, here),
        MemberKey::Type => reports.report_unless(alloc, here, 9, is_type(value)),
        MemberKey::Source => report_source(alloc, reports, context, value, here),
        MemberKey::SourceLayer => {
            reports.report_unless(alloc, here, 12, is_source_layer(context, value))
        }
        MemberKey::ZoomLimit => reports.report_unless(alloc, here, 13, is_zoom_limit(value)),
        MemberKey::Layout => report_placed(alloc, reports, context, Place::Layout, value, here),
        MemberKey::Paint => report_placed(alloc, reports, context, Place::Paint, value, here),
        MemberKey::Filter => report_filter(alloc, reports, value, here),
        MemberKey::Other => Ok(()),
    }
}

fn is_type(json: &Json) -> bool
    ensures { result ≡ is_type (tree_of json.now) }
{
    type_in(json).is_some()
}

fn report_placed<'x>(
    alloc: Global,
    reports: &mut Diagnostics,
    context: &LayerContext<'_>,
    place: Place,
    properties: &'x Json,
    here: &'x Here<'x>,
) -> Result<(), AllocError>
    ensures { OnOk result (reports.new ≡ reports.old
        ++ placed_reports (context_seen context.now) place (path_of here.now) (tree_of properties.now)) }
{
    let tested = tested_type(context.layer_type);
    report_properties(alloc, reports, tested, place, properties, here)
}

fn report_filter(
    alloc: Global,
    reports: &mut Diagnostics,
    filter: &Json,
    here: &Here<'_>,
) -> Result<(), AllocError>
    ensures { OnOk result (reports.new
        ≡ reports.old ++ reports_or (filter_mark (tree_of filter.now)) (path_of here.now) []) }
{
    let mark = filter_mark(alloc, filter)?;
    reports.report(alloc, here, mark)
}

fn report_id(
    alloc: Global,
    reports: &mut Diagnostics,
    used: &Entries,
    id: &Json,
    here: &Here<'_>,
) -> Result<(), AllocError>
    ensures { OnOk result (reports.new ≡ reports.old ++ reports_or (least_broken
        ((7, is_id (tree_of id.now)) ∷ (8, is_new_id (has_name used.now) (tree_of id.now)) ∷ []))
        (path_of here.now) []) }
{
    if !id.is_text() {
        return reports.report_broken(alloc, here, 7);
    }
    reports.report_unless(alloc, here, 8, is_new_id(used, id))
}

fn report_source(
    alloc: Global,
    reports: &mut Diagnostics,
    context: &LayerContext<'_>,
    source: &Json,
    here: &Here<'_>,
) -> Result<(), AllocError>
    ensures { OnOk result (reports.new ≡ reports.old ++ reports_or (least_broken
        ((10, is_source_name (context_seen context.now) (tree_of source.now)) ∷
        (11, has_such_source (context_seen context.now)) ∷ []))
        (path_of here.now) []) }
{
    if !context.is_source_name(source) {
        return reports.report_broken(alloc, here, 10);
    }
    reports.report_unless(alloc, here, 11, context.has_such_source())
}

fn is_source_layer(context: &LayerContext<'_>, json: &Json) -> bool
    ensures { result ≡ is_source_layer (context_seen context.now) (tree_of json.now) }
{
    !context.is_on_vector() || json.is_text()
}

fn is_zoom_limit(json: &Json) -> bool
    ensures { result ≡ is_zoom_limit (tree_of json.now) }
{
    match number_in(json) {
        Some(zoom) => is_zoom(zoom),
        None => false,
    }
}
