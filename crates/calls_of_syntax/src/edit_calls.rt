//! Calls of `style_edits` on a whole style, which need not be sound. `replay` edits at the place of a layer, and
//! adds no layer that is no object.

use decimal_json::{Json, parse, write};
use edit_script::{Command, read_line};
use std::alloc::{AllocError, Global};
use style_edits::{EditFault, edit_style, undo_edit};

const FRONT: &'static str = r#"{"version":8,"sources":{"t":{}},"layers":"#;

const BACK: &'static str = r#","name":"s"}"#;

const LAYERS: &'static str =
    r#"[{"id":"a","paint":{"x":1,"y":2},"filter":true},{"id":"b","minzoom":1,"paint":5,"maxzoom":2.50},{"id":"c"}]"#;

// The text of a style with these layers.
fn style_text(alloc: Global, layers: &str) -> Result<String, AllocError> {
    format!(in alloc; "{FRONT}{layers}{BACK}")
}

fn is_style(alloc: Global, style: &Json, layers: &str) -> Result<bool, AllocError> {
    let mut out = Vec::new(alloc);
    write(style, &mut out)?;
    Ok(out.as_slice() == style_text(alloc, layers)?.as_bytes())
}

// Whether the line edits the style so that it has the layers of the row, and is taken back.
fn edits_to(alloc: Global, line: &str, layers: &str) -> Result<bool, AllocError> {
    let Ok(mut style) = parse(alloc, style_text(alloc, LAYERS)?.as_bytes())? else {
        return Ok(false);
    };
    let Ok(command) = read_line(alloc, line.as_bytes())? else {
        return Ok(false);
    };
    let Ok(undo) = edit_style(alloc, &mut style, &command)? else {
        return Ok(false);
    };
    let edited = is_style(alloc, &style, layers)?;
    undo_edit(&mut style, undo)?;
    Ok(edited && is_style(alloc, &style, LAYERS)?)
}

const EDITS: [(&'static str, &'static str); 3] = [
    (
        r#"["set-paint","a","x",7.0]"#,
        r#"[{"id":"a","paint":{"x":7.0,"y":2},"filter":true},{"id":"b","minzoom":1,"paint":5,"maxzoom":2.50},{"id":"c"}]"#,
    ),
    (
        r#"["add-layer",5,"a"]"#,
        r#"[5,{"id":"a","paint":{"x":1,"y":2},"filter":true},{"id":"b","minzoom":1,"paint":5,"maxzoom":2.50},{"id":"c"}]"#,
    ),
    (r#"["set-zoom",24]"#, LAYERS),
];

#[test]
fn edits_of_a_style(rt: HostRuntime) -> Result<(), AllocError> {
    for (line, layers) in EDITS {
        assert!(rt; edits_to(rt.alloc(), line, layers)?, "at {line}");
    }
    Ok(())
}

fn fault_of(
    alloc: Global,
    style: &mut Json,
    command: &Command,
) -> Result<Option<EditFault>, AllocError> {
    match edit_style(alloc, style, command)? {
        Ok(_) => Ok(None),
        Err(fault) => Ok(Some(fault)),
    }
}

// Whether the style stays for this fault.
fn has_fault(alloc: Global, command: &Command, wanted: EditFault) -> Result<bool, AllocError> {
    let Ok(mut style) = parse(alloc, style_text(alloc, LAYERS)?.as_bytes())? else {
        return Ok(false);
    };
    let fault = fault_of(alloc, &mut style, command)?;
    Ok(fault == Some(wanted) && is_style(alloc, &style, LAYERS)?)
}

fn is_refused(alloc: Global, line: &str, wanted: EditFault) -> Result<bool, AllocError> {
    match read_line(alloc, line.as_bytes())? {
        Ok(command) => has_fault(alloc, &command, wanted),
        Err(_) => Ok(false),
    }
}

const FAULTS: [(&'static str, EditFault); 2] = [
    (r#"["move-layer","a","e"]"#, EditFault::UnknownBefore),
    (r#"["set-paint","b","x",null]"#, EditFault::UnknownProperty),
];

#[test]
fn edits_that_are_refused(rt: HostRuntime) -> Result<(), AllocError> {
    for (line, fault) in FAULTS {
        assert!(rt; is_refused(rt.alloc(), line, fault)?, "at {line}");
    }
    Ok(())
}
