//! The walk over a document.

ghost use Rattle.std.specs.Prelude.{◌≡◌, ℕ, List, ◌++◌, ◌||◌, codes, Some, OnOk, IfOk};
ghost use Rattle.decimal_json.specs.View.{path_of, tree_of, fields, members_view, trees};
ghost use Rattle.decimal_json.specs.Tree.{list, object, fields_of, field_at};
ghost use Rattle.decimal_json.specs.Accessors.{member};
ghost use Rattle.style_parts.specs.Parts.{sources_of, is_id_of};
ghost use Rattle.style_rules.specs.CodeView.{fields_at, has_name};
ghost use Rattle.style_rules.specs.Findings.{reports, reports_or};
ghost use Rattle.style_rules.specs.Keys.{root_keyed_reports};
ghost use Rattle.style_rules.specs.Levels.{AreMembers, root_member_reports, fields_reports, named_reports};
ghost use Rattle.style_rules.specs.Levels.{layers_reports, fields_or_none, items_or_none};
ghost use Rattle.style_rules.specs.Places.{unless_broken, used_in};
ghost use Rattle.style_rules.specs.Rules.{has_root_members, is_version_8, are_sources, are_globals, is_global};
ghost use Rattle.style_rules.specs.Rules.{are_layers, is_new_id, is_transition};

use crate::diagnostics::Diagnostics;
use crate::keys::{RootKey, root_key};
use crate::layer::report_layer;
use crate::layer_context::is_source;
use crate::names::{has_text, note_text};
use decimal_json::{Here, Json, Member, Members};
use prop_values::{Entries, from_json};
use std::alloc::{AllocError, Global};
use style_parts::{is_between, sources_of};

const MOST_LAYERS: usize = 65_536;

/// What is reported of a document, whose faults are listed or not.
pub(crate) fn examine(
    alloc: Global,
    document: &Json,
    lists_faults: bool,
) -> Result<Diagnostics, AllocError>
    ensures { IfOk result (λ list. list ≡ reports (tree_of document.now)) }
{
    match document {
        Json::Object(root) => examine_root(alloc, root, sources_of(document), lists_faults),
        _ => {
            let mut reports = Diagnostics::new(alloc, lists_faults);
            reports.report_broken(alloc, &Here::Root, 1)?;
            Ok(reports)
        }
    }
}

fn examine_root(
    alloc: Global,
    root: &Members,
    sources: Option<&Members>,
    lists_faults: bool,
) -> Result<Diagnostics, AllocError>
    requires { fields_at sources ≡ sources_of (object (fields_of root.now)) }
    ensures { IfOk result (λ list. list ≡ reports (object (fields_of root.now))) }
{
    let mut reports = Diagnostics::new(alloc, lists_faults);
    let members = root.as_slice();
    if !has_root_members(root) {
        reports.report_broken(alloc, &Here::Root, 2)?;
        return Ok(reports);
    }
    report_root_members(alloc, &mut reports, root, sources, members)?;
    Ok(reports)
}

fn report_root_members<'x>(
    alloc: Global,
    reports: &mut Diagnostics,
    root: &Members,
    sources: Option<&'x Members>,
    members: &'x [Member],
) -> Result<(), AllocError>
    requires sources { fields_at sources ≡ sources_of (object (fields_of root.now)) }
    requires members { AreMembers (object (fields_of root.now)) (members_view members.now) }
    ensures { OnOk result (reports.new
        ≡ reports.old ++ fields_reports (root_member_reports (object (fields_of root.now))) (fields members.now)) }
{
    for member in members {
        report_root_member(alloc, reports, root, sources, member)?;
    }
    Ok(())
}

fn has_root_members(root: &Members) -> bool
    ensures { result ≡ has_root_members (object (fields_of root.now)) }
{
    root.get("version").is_some() && root.get("sources").is_some() && root.get("layers").is_some()
}

#[tactic(auto, using(crate::proofs::KeyLaws::root_by_key))]
fn report_root_member<'x>(
    alloc: Global,
    reports: &mut Diagnostics,
    root: &Members,
    sources: Option<&'x Members>,
    member: &'x Member,
) -> Result<(), AllocError>
    requires sources { fields_at sources ≡ sources_of (object (fields_of root.now)) }
    requires member { field_at member.now.key (fields_of root.now) ≡ Some (tree_of member.now.value) }
    ensures { OnOk result (reports.new ≡ reports.old
        ++ root_member_reports (object (fields_of root.now)) member.now.key (tree_of member.now.value)) }
{
    let name = member.key.as_str();
    let here = Here::Key(name, &Here::Root);
    report_root_keyed(
        alloc,
        reports,
        sources,
        root_key(name),
        &member.value,
        &here,
    )
}

fn report_root_keyed<'x>(
    alloc: Global,
    reports: &mut Diagnostics,
    sources: Option<&'x Members>,
    key: RootKey,
    value: &'x Json,
    here: &'x Here<'x>,
) -> Result<(), AllocError>
    ensures { OnOk result (reports.new ≡ reports.old
        ++ root_keyed_reports (fields_at sources.entry) key (path_of here.now) (tree_of value.now)) }
{
    match key {
        RootKey::Version => reports.report_unless(alloc, here, 3, is_version_8(value)),
        RootKey::Sources => report_sources(alloc, reports, value, here),
        RootKey::Layers => report_layers(alloc, reports, sources, value, here),
        RootKey::State => report_globals(alloc, reports, value, here),
        RootKey::Other => Ok(()),
    }
}

fn is_version_8(version: &Json) -> bool
    ensures { result ≡ is_version_8 (tree_of version.now) }
{
    is_between(version, 8_000_000, 8_000_000)
}

fn report_sources<'x>(
    alloc: Global,
    reports: &mut Diagnostics,
    sources: &'x Json,
    here: &'x Here<'x>,
) -> Result<(), AllocError>
    ensures { OnOk result (reports.new
        ≡ reports.old ++ reports_or (unless_broken 4 (are_sources (tree_of sources.now))) (path_of here.now)
        (fields_reports (named_reports (codes "sources") (path_of here.now)) (fields_or_none (tree_of sources.now)))) }
{
    match sources {
        Json::Object(members) => report_each_source(alloc, reports, members.as_slice(), here),
        _ => reports.report_broken(alloc, here, 4),
    }
}

fn report_each_source<'x>(
    alloc: Global,
    reports: &mut Diagnostics,
    sources: &'x [Member],
    here: &'x Here<'x>,
) -> Result<(), AllocError>
    ensures { OnOk result (reports.new
        ≡ reports.old ++ fields_reports (named_reports (codes "sources") (path_of here.now)) (fields sources.now)) }
{
    for source in sources {
        let there = Here::Key(source.key.as_str(), here);
        reports.report_unless(alloc, &there, 4, is_source(&source.value))?;
    }
    Ok(())
}

fn report_globals<'x>(
    alloc: Global,
    reports: &mut Diagnostics,
    globals: &'x Json,
    here: &'x Here<'x>,
) -> Result<(), AllocError>
    ensures { OnOk result (reports.new
        ≡ reports.old ++ reports_or (unless_broken 22 (are_globals (tree_of globals.now))) (path_of here.now)
        (fields_reports (named_reports (codes "state") (path_of here.now)) (fields_or_none (tree_of globals.now)))) }
{
    match globals {
        Json::Object(members) => report_each_global(alloc, reports, members.as_slice(), here),
        _ => reports.report_broken(alloc, here, 22),
    }
}

fn report_each_global<'x>(
    alloc: Global,
    reports: &mut Diagnostics,
    globals: &'x [Member],
    here: &'x Here<'x>,
) -> Result<(), AllocError>
    ensures { OnOk result (reports.new
        ≡ reports.old ++ fields_reports (named_reports (codes "state") (path_of here.now)) (fields globals.now)) }
{
    for global in globals {
        let there = Here::Key(global.key.as_str(), here);
        let holds = is_global(alloc, &global.value)?;
        reports.report_unless(alloc, &there, 22, holds)?;
    }
    Ok(())
}

fn is_global(alloc: Global, global: &Json) -> Result<bool, AllocError>
    ensures { IfOk result (λ holds. holds ≡ is_global (tree_of global.now)) }
{
    match global.get("default") {
        Some(value) => Ok(from_json(alloc, value)?.is_ok()),
        None => Ok(false),
    }
}

fn report_layers<'x>(
    alloc: Global,
    reports: &mut Diagnostics,
    sources: Option<&'x Members>,
    layers: &'x Json,
    here: &'x Here<'x>,
) -> Result<(), AllocError>
    ensures { OnOk result (reports.new
        ≡ reports.old ++ reports_or (unless_broken 5 (are_layers (tree_of layers.now))) (path_of here.now)
        (layers_reports (fields_at sources.entry) (used_in (items_or_none (tree_of layers.now))) (path_of here.now) 0
        (items_or_none (tree_of layers.now)))) }
{
    match layers {
        Json::List(items) => report_list(alloc, reports, sources, items.as_slice(), here),
        _ => reports.report_broken(alloc, here, 5),
    }
}

fn report_list<'x>(
    alloc: Global,
    reports: &mut Diagnostics,
    sources: Option<&'x Members>,
    layers: &'x [Json],
    here: &'x Here<'x>,
) -> Result<(), AllocError>
    ensures { OnOk result (reports.new
        ≡ reports.old ++ reports_or (unless_broken 5 (are_layers (list (trees layers.now)))) (path_of here.now)
        (layers_reports (fields_at sources.entry) (used_in (trees layers.now)) (path_of here.now) 0
        (trees layers.now))) }
{
    if !are_layers(layers) {
        return reports.report_broken(alloc, here, 5);
    }
    report_each_layer(alloc, reports, sources, layers, here)
}

#[tactic(auto, using(crate::proofs::DocumentLaws::count_is_length))]
fn are_layers(layers: &[Json]) -> bool
    ensures { result ≡ are_layers (list (trees layers.now)) }
{
    layers.len() <= MOST_LAYERS
}

fn report_each_layer<'x>(
    alloc: Global,
    reports: &mut Diagnostics,
    sources: Option<&'x Members>,
    layers: &'x [Json],
    here: &'x Here<'x>,
) -> Result<(), AllocError>
    ensures { OnOk result (reports.new ≡ reports.old
        ++ layers_reports (fields_at sources.entry) (used_in (trees layers.now)) (path_of here.now) 0
        (trees layers.now)) }
{
    let mut used = Entries::new(alloc);
    for (i, layer) in layers.iter().enumerate() {
        let there = Here::Index(i, &*here);
        report_layer(alloc, reports, sources, &used, layer, &there)?;
        note_id(&mut used, layer)?;
    }
    Ok(())
}

/// Notes the text id of a layer.
fn note_id(used: &mut Entries, layer: &Json) -> Result<(), AllocError>
    ensures { OnOk result ((s : List ℕ) → has_name used.new s
        ≡ (is_id_of s (tree_of layer.now) || has_name used.old s)) }
{
    match layer.get("id") {
        Some(Json::Text(id)) => note_text(used, id),
        _ => Ok(()),
    }
}

/// Whether an id is a text that no earlier layer has.
pub(crate) fn is_new_id(used: &Entries, id: &Json) -> bool
    ensures { result ≡ is_new_id (has_name used.now) (tree_of id.now) }
{
    match id.as_text() {
        Some(id) => !has_text(used, id),
        None => true,
    }
}

pub(crate) fn is_transition(json: &Json) -> bool
    ensures { result ≡ is_transition (tree_of json.now) }
{
    json.is_object()
}
