//! The rules on the members of `layout` and `paint`.

ghost use Rattle.std.specs.Prelude.{◌≡◌, ◌++◌, Some, IfOk, OnOk};
ghost use Rattle.decimal_json.specs.View.{path_of, tree_of, fields};
ghost use Rattle.style_rules.specs.Findings.{reports_or};
ghost use Rattle.style_rules.specs.Levels.{fields_reports, fields_or_none, property_reports};
ghost use Rattle.style_rules.specs.Places.{properties_mark, property_mark, unnamed_mark};

use crate::diagnostics::{Diagnostics, Mark};
use crate::document::is_transition;
use crate::names::is_transition_name;
use crate::values::{broken, value_mark};
use decimal_json::{Here, Json, Member};
use property_tables::{LayerType, Place, row, unread};
use std::alloc::{AllocError, Global};

/// Reports of a `layout` or `paint`, where the layer's type is one whose properties are tested.
pub(crate) fn report_properties<'x>(
    alloc: Global,
    reports: &mut Diagnostics,
    layer_type: Option<LayerType>,
    place: Place,
    properties: &'x Json,
    here: &'x Here<'x>,
) -> Result<(), AllocError>
    ensures { OnOk result (reports.new
        ≡ reports.old ++ reports_or (properties_mark layer_type (tree_of properties.now)) (path_of here.now)
        (fields_reports (property_reports layer_type (Some place) (path_of here.now))
        (fields_or_none (tree_of properties.now)))) }
{
    match layer_type {
        Some(layer_type) => report_tested(alloc, reports, layer_type, place, properties, here),
        None => Ok(()),
    }
}

fn report_tested<'x>(
    alloc: Global,
    reports: &mut Diagnostics,
    layer_type: LayerType,
    place: Place,
    properties: &'x Json,
    here: &'x Here<'x>,
) -> Result<(), AllocError>
    ensures { OnOk result (reports.new
        ≡ reports.old ++ reports_or (properties_mark (Some layer_type) (tree_of properties.now)) (path_of here.now)
        (fields_reports (property_reports (Some layer_type) (Some place) (path_of here.now))
        (fields_or_none (tree_of properties.now)))) }
{
    match properties {
        Json::Object(members) => {
            report_each_property(alloc, reports, layer_type, place, members.as_slice(), here)
        }
        _ => reports.report_broken(alloc, here, 14),
    }
}

fn report_each_property<'x>(
    alloc: Global,
    reports: &mut Diagnostics,
    layer_type: LayerType,
    place: Place,
    properties: &'x [Member],
    here: &'x Here<'x>,
) -> Result<(), AllocError>
    ensures { OnOk result (reports.new ≡ reports.old
        ++ fields_reports (property_reports (Some layer_type) (Some place) (path_of here.now))
        (fields properties.now)) }
{
    for property in properties {
        report_property(alloc, reports, layer_type, place, property, here)?;
    }
    Ok(())
}

fn report_property<'x>(
    alloc: Global,
    reports: &mut Diagnostics,
    layer_type: LayerType,
    place: Place,
    property: &'x Member,
    properties: &'x Here<'x>,
) -> Result<(), AllocError>
    ensures { OnOk result (reports.new ≡ reports.old
        ++ property_reports (Some layer_type) (Some place) (path_of properties.now) property.now.key
        (tree_of property.now.value)) }
{
    let name = property.key.as_str();
    let mark = property_mark(
        alloc,
        layer_type,
        place,
        name,
        &property.value,
        reports.lists_faults,
    )?;
    reports.report_member(alloc, &property.key, properties, mark)
}

/// What is reported of the value of a name.
pub(crate) fn property_mark(
    alloc: Global,
    layer_type: LayerType,
    place: Place,
    name: &str,
    value: &Json,
    lists_faults: bool,
) -> Result<Mark, AllocError>
    ensures { IfOk result (λ mark. mark ≡ property_mark (Some layer_type) (Some place) name.now (tree_of value.now)) }
{
    match row(layer_type, place, name) {
        Some(row) => value_mark(alloc, &row, value, lists_faults),
        None => Ok(unnamed_mark(alloc, layer_type, place, name, value)),
    }
}

/// A name that no row has is an unread one, or that of a transition.
fn unnamed_mark(
    alloc: Global,
    layer_type: LayerType,
    place: Place,
    name: &str,
    value: &Json,
) -> Mark
    ensures { result ≡ unnamed_mark layer_type place name.now (tree_of value.now) }
{
    if unread(layer_type, place, name) {
        return Mark::Nothing;
    }
    if !is_transition_name(layer_type, place, name) {
        return broken(alloc, 14);
    }
    if is_transition(value) {
        return Mark::Nothing;
    }
    broken(alloc, 21)
}
