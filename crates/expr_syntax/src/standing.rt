//! Whether a tree contains a node of some sort.

ghost use Rattle.expr_syntax.specs.Rows.{allows};
ghost use Rattle.std.specs.Prelude.{◌≡◌, length, false, Some, ◌-◌};
ghost use Rattle.decimal_json.specs.Tree.{list};
ghost use Rattle.decimal_json.specs.View.{tree_of, trees, fields};
ghost use Rattle.expr_syntax.specs.Elements.{second, head_text};
ghost use Rattle.expr_syntax.specs.Standing.{stands, elements, members, some_element, some_section, some_option};
ghost use Rattle.expr_syntax.specs.Standing.{is_sought, layout_outside, outside_curve, is_outside_curve};
ghost use Rattle.expr_syntax.specs.Standing.{outside_sections, outside_part, other_options, is_image_node};
ghost use Rattle.expr_syntax.specs.Standing.{is_format_layout, outside_ramp};

use crate::elements::{head_name, head_text, second};
use crate::rows::{Arity, ElementLayout, ElementPlace};
use crate::values::{curve_of, option_named};
use decimal_json::{Json, Member};
use prop_values::Curve;

/// What a walk over the nodes of a tree looks for.
#[derive(Clone, Copy, Debug, PartialEq, Eq)]
pub(crate) enum Sought {
    /// A node that is outside of what is evaluated.
    Outside,
    /// A `global-state` node.
    Global,
}

/// Whether a tree contains a node that is sought. `format` says whether a `format` node may be at its root.
#[cycle(standing)]
pub(crate) fn stands(sought: Sought, json: &Json, format: bool) -> bool
    ensures { result ≡ stands (tree_of json.now) sought format }
{
    match json {
        Json::List(items) => stands_in_array(sought, items.as_slice(), format),
        _ => false,
    }
}

#[cycle(standing)]
fn stands_in_array(sought: Sought, items: &[Json], format: bool) -> bool
    ensures { result ≡ stands (list (trees items.now)) sought format }
{
    let Some(name) = head_name(items) else {
        return false;
    };
    let shape = name.shape();
    if shape.is_outside || layout_outside(shape.layout, items, format) {
        return matches!(sought, Sought::Outside);
    }
    if is_sought(sought, shape.layout) {
        return true;
    }
    if !has_arity(shape.arity, items) {
        return false;
    }
    if is_format(shape.layout) {
        stands_in_sections(sought, items)
    } else {
        stands_in_elements(sought, shape.layout, items, format)
    }
}

#[cycle(standing)]
fn stands_in_elements(sought: Sought, layout: ElementLayout, items: &[Json], format: bool) -> bool
    ensures { result ≡ some_element layout (length items.now) 0 (elements (trees items.now)) sought format }
{
    for (i, item) in items.iter().enumerate() {
        let found = match layout.place(items.len(), i) {
            ElementPlace::Part => false,
            ElementPlace::Argument => stands(sought, item, false),
            ElementPlace::Output => stands(sought, item, format),
        };
        if found {
            return true;
        }
    }
    false
}

// The contents of a `format` and the options after them. The name, which is a text, counts as no content.
#[cycle(standing)]
fn stands_in_sections(sought: Sought, items: &[Json]) -> bool
    ensures { result ≡ some_section 0 false (elements (trees items.now)) sought }
{
    let mut follows = false;
    for (i, item) in items.iter().enumerate() {
        let found = match item {
            Json::Object(members) => follows && stands_in_options(sought, members.as_slice()),
            _ => i > 0 && stands(sought, item, false),
        };
        if found {
            return true;
        }
        follows = i > 0 && !matches!(item, Json::Object(_));
    }
    false
}

#[cycle(standing)]
fn stands_in_options(sought: Sought, options: &[Member]) -> bool
    ensures { result ≡ some_option (members (fields options.now)) sought }
{
    for option in options {
        if stands(sought, &option.value, false) {
            return true;
        }
    }
    false
}

fn is_sought(sought: Sought, layout: ElementLayout) -> bool
    ensures { result ≡ is_sought sought layout }
{
    matches!(sought, Sought::Global) && matches!(layout, ElementLayout::Global)
}

/// Whether a node may have so many elements, the name counted.
pub(crate) fn has_arity(arity: Arity, items: &[Json]) -> bool
    ensures { result ≡ allows arity (length items.now - 1) }
{
    match items {
        [] => arity.allows(0),
        [_, elements @ ..] => arity.allows(elements.len()),
    }
}

/// Whether the elements of a node are contents and options.
pub(crate) fn is_format(layout: ElementLayout) -> bool
    ensures { result ≡ is_format_layout layout }
{
    matches!(layout, ElementLayout::Sections)
}

// Whether a node of a layout is outside of what is evaluated by its elements.
fn layout_outside(layout: ElementLayout, items: &[Json], format: bool) -> bool
    ensures { result ≡ layout_outside layout (trees items.now) format }
{
    match layout {
        ElementLayout::Ramp => outside_ramp(items),
        ElementLayout::Sections => !format || outside_sections(items),
        _ => false,
    }
}

fn outside_ramp(items: &[Json]) -> bool
    ensures { result ≡ outside_ramp (second (trees items.now)) }
{
    match second(items) {
        Some(part) => outside_curve(part),
        None => false,
    }
}

// `cubic-bezier`, and `exponential` without a base of its form.
fn outside_curve(part: &Json) -> bool
    ensures { result ≡ outside_curve (tree_of part.now) }
{
    match part {
        Json::List(items) => match head_text(items.as_slice()) {
            Some(name) => is_outside_curve(name.as_str(), curve_of(part)),
            None => false,
        },
        _ => false,
    }
}

fn is_outside_curve(name: &str, curve: Option<Curve>) -> bool
    ensures { result ≡ is_outside_curve (Some name.now) curve }
{
    match name {
        "cubic-bezier" => true,
        "exponential" => curve.is_none(),
        _ => false,
    }
}

fn outside_sections(items: &[Json]) -> bool
    ensures { result ≡ outside_sections 0 false (trees items.now) }
{
    let mut follows = false;
    for (i, item) in items.iter().enumerate() {
        if outside_part(i, follows, item) {
            return true;
        }
        follows = i > 0 && !matches!(item, Json::Object(_));
    }
    false
}

// A content that is an image, and options of other names.
fn outside_part(at: usize, follows: bool, item: &Json) -> bool
    ensures { result ≡ outside_part at follows (tree_of item.now) }
{
    match item {
        Json::Object(options) => follows && other_options(options.as_slice()),
        Json::List(items) => at > 0 && is_image_node(items.as_slice()),
        _ => false,
    }
}

fn other_options(options: &[Member]) -> bool
    ensures { result ≡ other_options (fields options.now) }
{
    for option in options {
        if option_named(option.key.as_str()).is_none() {
            return true;
        }
    }
    false
}

fn is_image_node(items: &[Json]) -> bool
    ensures { result ≡ is_image_node (head_text (trees items.now)) }
{
    match head_text(items) {
        Some(name) => name.as_str() == "image",
        None => false,
    }
}
