//! Calls of `expr_types` with what no expression leads to: the kind of a `let` by those of its elements, of a
//! name that is not bound, and of a color by that of a number.

use decimal_json::parse;
use expr_syntax::{Expr, Reading, read_expr};
use expr_types::{KindScope, branch_kind, name_kind, node_kind};
use prop_values::{Kind, Want};
use std::alloc::{AllocError, Global};

const LET: &'static str = r#"["let","a",1,"b","x",["var","a"]]"#;

fn expression_of(alloc: Global, text: &str) -> Result<Option<Expr>, AllocError> {
    let Ok(json) = parse(alloc, text.as_bytes())? else {
        return Ok(None);
    };
    match read_expr(alloc, &json)? {
        Ok(Reading::Inside(expression)) => Ok(Some(expression)),
        _ => Ok(None),
    }
}

// The kind of a node of two numbers.
fn kind_of_numbers(alloc: Global, text: &str) -> Result<Option<Kind>, AllocError> {
    match expression_of(alloc, text)? {
        Some(Expr::Node(op, _)) => {
            node_kind(alloc, &op, &Want::Any, &[Kind::Number, Kind::Number])
        }
        _ => Ok(None),
    }
}

#[test]
fn kinds(rt: HostRuntime) -> Result<(), AllocError> {
    let alloc = rt.alloc();
    assert!(rt; kind_of_numbers(alloc, r#"["+",1,2]"#)? == Some(Kind::Number));
    assert!(rt; kind_of_numbers(alloc, LET)? == None);
    assert!(rt; name_kind(alloc, &KindScope::Empty, "c", &Want::Any)? == None);
    assert!(rt; branch_kind(&Want::Color, Kind::Number) == Kind::Color);
    Ok(())
}
