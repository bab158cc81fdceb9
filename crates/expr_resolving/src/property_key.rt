//! `get` of a literal key alone.

ghost use Rattle.std.specs.Prelude.{◌≡◌, IfOk};
ghost use Rattle.std.specs.Option.{option_map};
ghost use Rattle.prop_values.specs.View.{data_of};
ghost use Rattle.expr_syntax.specs.TermView.{terms};
ghost use Rattle.expr_nodes.specs.Boxed.{boxed_node};
ghost use Rattle.expr_nodes.specs.Node.{property};
ghost use Rattle.expr_nodes.specs.Resolving.{key_of, literal_key};
ghost use Rattle.expr_resolving.specs.ResolvedParts.{text_in};

use decimal_json::Text;
use expr_nodes::BoxedNode;
use expr_syntax::{Expr, Operator};
use prop_values::{Value, Want};
use std::alloc::AllocError;

/// The property of a literal key, where a node is one.
pub(crate) fn property_node(
    op: &Operator,
    arguments: &[Expr],
    want: Want,
) -> Result<Option<BoxedNode>, AllocError>
    ensures { IfOk result (λ found. option_map boxed_node found
        ≡ option_map (λ key. property key want) (key_of op.now (terms arguments.now))) }
{
    match literal_key(op, arguments) {
        Some(key) => Ok(Some(BoxedNode::Property(key.share()?, want))),
        None => Ok(None),
    }
}

// The key of a `get` of a literal key alone.
fn literal_key<'a>(op: &Operator, arguments: &'a [Expr]) -> Option<&'a Text>
    ensures { option_map (λ key. key.now) result ≡ key_of op.now (terms arguments.now) }
{
    match op {
        Operator::Get => sole_text(arguments),
        _ => None,
    }
}

// The text that is the only argument.
#[tactic(auto, using(crate::proofs::ResolvingLaws::sole_literal, crate::proofs::ResolvingLaws::not_sole))]
fn sole_text(arguments: &[Expr]) -> Option<&Text>
    ensures { option_map (λ key. key.now) result ≡ literal_key (terms arguments.now) }
{
    let [argument] = arguments else {
        return None;
    };
    match argument {
        Expr::Literal(value) => text_in(value),
        Expr::Node(_, _) => None,
    }
}

fn text_in(value: &Value) -> Option<&Text>
    ensures { option_map (λ key. key.now) result ≡ text_in (data_of value.now) }
{
    match value {
        Value::Text(key) => Some(key),
        _ => None,
    }
}
