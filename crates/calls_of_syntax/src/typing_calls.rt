//! Calls of `expr_types`: what is known of the nodes of an expression that was checked.

use decimal_json::parse;
use expr_syntax::{Expr, Reading, read_expr};
use expr_types::{Placed, check};
use prop_values::Want;
use std::alloc::{AllocError, Global};

// An expression, a want, and whether the expression always fits it.
const ROOTS: [(&'static str, Want, bool); 5] = [
    ("1", Want::Number, true),
    (r#"["get","a"]"#, Want::Number, false),
    (r#"["get","a"]"#, Want::Any, true),
    (r#"["+",["get","a"],1]"#, Want::Number, true),
    (r#"["case",true,["get","a"],1]"#, Want::Number, true),
];

// The want of the root of an expression under a want, and whether it always fits, or none where the expression is
// refused.
#[tactic(auto, using(crate::proofs::Roots::has_root))]
fn root_under(alloc: Global, text: &str, want: Want) -> Result<Option<(Want, bool)>, AllocError> {
    let Ok(json) = parse(alloc, text.as_bytes())? else {
        return Ok(None);
    };
    let Ok(Reading::Inside(expression)) = read_expr(alloc, &json)? else {
        return Ok(None);
    };
    match check(alloc, &expression, &want, None)? {
        Ok(typed) => Ok(Some((typed.want_at(0), typed.always_at(0)))),
        Err(_) => Ok(None),
    }
}

#[test]
fn roots(rt: HostRuntime) -> Result<(), AllocError> {
    for (text, want, always) in ROOTS {
        assert!(rt;
            root_under(rt.alloc(), text, want)? == Some((want, always)),
            "{text} under {want:?}"
        );
    }
    Ok(())
}

const SUM: &'static str = r#"["+",["get","a"],1]"#;

const LENGTH: &'static str = r#"["+",["length",["get","a"]],1]"#;

const LET: &'static str = r#"["let","a",1,["var","a"]]"#;

// An expression that is wanted as a number, the place of a node in preorder, the node's want, and whether it always
// fits it.
const NODES: [(&'static str, u16, Want, bool); 11] = [
    (SUM, 0, Want::Number, true),
    (SUM, 1, Want::Number, false),
    (SUM, 2, Want::Text, true),
    (SUM, 3, Want::Number, true),
    (LENGTH, 1, Want::Number, true),
    (LENGTH, 2, Want::Any, true),
    (LENGTH, 3, Want::Text, true),
    (LENGTH, 4, Want::Number, true),
    (LET, 0, Want::Number, true),
    (LET, 1, Want::Any, true),
    (LET, 2, Want::Number, true),
];

// An expression, and how many nodes it has.
const COUNTS: [(&'static str, usize); 3] = [(SUM, 4), (LENGTH, 5), (LET, 3)];

// What is known of the nodes of an expression that is wanted as a number, with the expression, which is borrowed no
// longer.
fn with_places(alloc: Global, expression: Expr) -> Result<Option<(Expr, Vec<Placed>)>, AllocError> {
    let places = match check(alloc, &expression, &Want::Number, None)? {
        Ok(typed) => typed.into_places(),
        Err(_) => return Ok(None),
    };
    Ok(Some((expression, places)))
}

// The same of a text, without the expression.
fn places_of(alloc: Global, text: &str) -> Result<Option<Vec<Placed>>, AllocError> {
    let Ok(json) = parse(alloc, text.as_bytes())? else {
        return Ok(None);
    };
    let Ok(Reading::Inside(expression)) = read_expr(alloc, &json)? else {
        return Ok(None);
    };
    match with_places(alloc, expression)? {
        Some((_, places)) => Ok(Some(places)),
        None => Ok(None),
    }
}

fn place_at(alloc: Global, text: &str, at: u16) -> Result<Option<Placed>, AllocError> {
    match places_of(alloc, text)? {
        Some(places) => Ok(places.as_slice().get(usize::from(at)).copied()),
        None => Ok(None),
    }
}

fn place_count(alloc: Global, text: &str) -> Result<Option<usize>, AllocError> {
    match places_of(alloc, text)? {
        Some(places) => Ok(Some(places.len())),
        None => Ok(None),
    }
}

#[test]
fn places(rt: HostRuntime) -> Result<(), AllocError> {
    for (text, at, want, always) in NODES {
        assert!(rt;
            place_at(rt.alloc(), text, at)? == Some(Placed { want, always }),
            "{text} at {at}"
        );
    }
    for (text, count) in COUNTS {
        assert!(rt; place_count(rt.alloc(), text)? == Some(count), "{text}");
    }
    assert!(rt; place_count(rt.alloc(), r#"["+","a",1]"#)? == None);
    Ok(())
}
