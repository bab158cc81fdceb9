//! The findings of one part of a document, by what it needs of the others.

ghost use Rattle.std.specs.Prelude.{◌≡◌, [], map, Some, IfOk};
ghost use Rattle.decimal_json.specs.View.{path_of, tree_of};
ghost use Rattle.style_parts.specs.Parts.{sources_of};
ghost use Rattle.value_forms.specs.LayerTypes.{tested_type};
ghost use Rattle.style_rules.specs.CodeView.{finding_seen, has_name};
ghost use Rattle.style_rules.specs.Findings.{findings_in, reports_or};
ghost use Rattle.style_rules.specs.Levels.{layer_reports, property_reports};
ghost use Rattle.style_rules.specs.Values.{filter_mark};

use crate::calls::findings_of;
use crate::diagnostics::{Diagnostics, Mark};
use crate::filters::filter_mark;
use crate::layer::report_layer;
use crate::lists::Findings;
use crate::properties::property_mark;
use decimal_json::{Here, Json};
use prop_values::Entries;
use property_tables::{LayerType, Place};
use std::alloc::{AllocError, Global};
use style_parts::sources_of;
use value_forms::tested_type;

/// The findings of a property, by the type of its layer and the place of the `layout` or `paint` that holds it.
pub fn property_findings<'x>(
    alloc: Global,
    layer_type: Option<LayerType>,
    place: Place,
    name: &'x str,
    value: &Json,
    properties: &'x Here<'x>,
) -> Result<Findings, AllocError>
    ensures { IfOk result (λ found. map finding_seen found ≡ findings_in
        (property_reports (tested_type layer_type) (Some place) (path_of properties.now) name.now
        (tree_of value.now))) }
{
    match tested_type(layer_type) {
        Some(layer_type) => {
            let here = Here::Key(name, properties);
            let mark = property_mark(alloc, layer_type, place, name, value, false)?;
            mark_findings(alloc, mark, &here)
        }
        None => Ok(Findings::new(alloc)),
    }
}

/// The findings of the filter of a layer, whose place is given.
pub fn filter_findings(
    alloc: Global,
    filter: &Json,
    here: &Here<'_>,
) -> Result<Findings, AllocError>
    ensures { IfOk result (λ found. map finding_seen found
        ≡ findings_in (reports_or (filter_mark (tree_of filter.now)) (path_of here.now) [])) }
{
    let mark = filter_mark(alloc, filter)?;
    mark_findings(alloc, mark, here)
}

/// The findings of a layer, by the sources of a document, the ids of the layers before and its place.
pub fn layer_findings<'x>(
    alloc: Global,
    document: &'x Json,
    used: &Entries,
    layer: &'x Json,
    here: &'x Here<'x>,
) -> Result<Findings, AllocError>
    ensures { IfOk result (λ found. map finding_seen found ≡ findings_in
        (layer_reports (sources_of (tree_of document.now)) (has_name used.now) (path_of here.now)
        (tree_of layer.now))) }
{
    let mut reports = Diagnostics::new(alloc, false);
    report_layer(alloc, &mut reports, sources_of(document), used, layer, here)?;
    findings_of(alloc, reports)
}

fn mark_findings(alloc: Global, mark: Mark, here: &Here<'_>) -> Result<Findings, AllocError>
    ensures { IfOk result (λ found. map finding_seen found ≡ findings_in (reports_or mark (path_of here.now) [])) }
{
    let mut reports = Diagnostics::new(alloc, false);
    reports.report(alloc, here, mark)?;
    findings_of(alloc, reports)
}
