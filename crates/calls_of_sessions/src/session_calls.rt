//! Calls of `edit_session`.

use decimal_json::parse;
use edit_session::{OpenFault, Session};
use fixed_num::Fixed;
use std::alloc::{AllocError, Global};

const SOUND: &'static str =
    r#"{"version":8,"sources":{},"layers":[{"id":"a","type":"background"}]}"#;

const BROKEN: &'static str = r#"{"version":7,"sources":{},"layers":[]}"#;

fn zero() -> Fixed {
    match Fixed::from_millionths(0) {
        Some(zero) => zero,
        None => unreachable!(),
    }
}

// Whether a style is not opened for its findings.
fn has_findings(alloc: Global, style: &str) -> Result<bool, AllocError> {
    let Ok(document) = parse(alloc, style.as_bytes())? else {
        return Ok(false);
    };
    match Session::open(alloc, document, Vec::new(alloc), zero())? {
        Err(OpenFault::Findings) => Ok(true),
        _ => Ok(false),
    }
}

// Whether a style is opened.
fn is_opened(alloc: Global, style: &str) -> Result<bool, AllocError> {
    let Ok(document) = parse(alloc, style.as_bytes())? else {
        return Ok(false);
    };
    match Session::open(alloc, document, Vec::new(alloc), zero())? {
        Ok(_) => Ok(true),
        Err(_) => Ok(false),
    }
}

#[test]
fn styles_are_opened(rt: HostRuntime) -> Result<(), AllocError> {
    assert!(rt; is_opened(rt.alloc(), SOUND)?);
    assert!(rt; has_findings(rt.alloc(), BROKEN)?);
    Ok(())
}
