//! Expressions that are well typed.

ghost use Rattle.std.specs.Prelude.{◌≡◌, ◌<◌, [], length, IfOk, option_map};
ghost use Rattle.prop_values.specs.declared.kinds.Want.TheVariants as wants;
ghost use Rattle.property_tables.specs.RowView.{row_seen};
ghost use Rattle.expr_syntax.specs.TermView.{term_of};
ghost use Rattle.expr_types.specs.Checked.{checked, checked_free};
ghost use Rattle.expr_types.specs.JudgedFacts.{kind_of, may_of, places_in, want_in, always_in, judged, stray_or};
ghost use Rattle.expr_types.specs.Typing.{typed};

use crate::checking::Checking;
use crate::fault::{TypeCode, TypeFault};
use crate::misplaced_reads::MisplacedReads;
use crate::placed::{Kinded, Placed};
use crate::scope::KindScope;
use crate::standing::Standing;
use crate::visiting::ExpressionWalk;
use decimal_json::Here;
use expr_syntax::Expr;
use prop_values::{FaultSet, Kind, Want};
use property_tables::Row;
use std::alloc::{AllocError, Global};
use std::marker::Model;

/// An expression that was checked under a want, which clauses see as the two.
#[derive(Drop)]
pub struct Typed<'a> {
    expression: &'a Expr,
    want: Want,
    node: Kinded,
    places: Vec<Placed>,
}

impl<'a> Model for Typed<'a> {
    ghost use Rattle.expr_types.specs.Judged.{Judged};
    ghost use Rattle.expr_types.specs.JudgedCode.{judged_code};

    ghost Value = { Judged };

    ghost coded = { judged_code };

    ghost use Rattle.expr_syntax.specs.TermView.{term_of};

    ghost view = { λ a. (term_of a.expression.now, a.want) };

    ghost use Rattle.std.specs.Prelude.{◌≡◌};
    ghost use Rattle.expr_types.specs.JudgedFacts.{kind_of, may_of, places_in};

    ghost invariant = { λ a. (a.node.kind ≡ kind_of (term_of a.expression.now, a.want))
        × ((a.node.may ≡ may_of (term_of a.expression.now, a.want))
        × (a.places.items ≡ places_in (term_of a.expression.now, a.want))) };
}

impl<'a> Typed<'a> {
    /// The expression that was checked.
    pub fn expr(&self) -> &'a Expr
        ensures { term_of result.now ≡ self.now.0 }
    {
        self.expression
    }

    /// The kind of what it gives.
    pub fn kind(&self) -> Kind
        ensures { result ≡ kind_of self.now }
    {
        self.node.kind
    }

    /// The faults that it may give.
    pub fn may(&self) -> FaultSet
        ensures { result ≡ may_of self.now }
    {
        self.node.may
    }

    /// The want under which a node was checked. Nodes are counted in preorder from 0, literals among them.
    pub fn want_at(&self, place: usize) -> Want
        requires { place < length (places_in self.now) }
        ensures { result ≡ want_in (places_in self.now) place }
    {
        self.places[place].want
    }

    /// Whether what a node gives always fits its want, or it hands its want to its branches.
    pub fn always_at(&self, place: usize) -> bool
        requires { place < length (places_in self.now) }
        ensures { result ≡ always_in (places_in self.now) place }
    {
        self.places[place].always
    }

    /// What is known of its nodes, in preorder from 0, literals among them. The expression is borrowed no longer.
    pub fn into_places(self) -> Vec<Placed>
        ensures { result.items ≡ places_in self.entry }
    {
        self.places
    }
}

/// Checks an expression as the value of a property of a row, or as a filter where there is none: the first
/// type fault, else the first node that reads what may not be read there, else the first `zoom` that is not
/// the input of the root.
pub fn check<'a>(
    alloc: Global,
    expression: &'a Expr,
    want: &Want,
    row: Option<&Row>,
) -> Result<Result<Typed<'a>, TypeFault>, AllocError>
    ensures { IfOk result
        (λ r. r ≡ judged (term_of expression.now, want.now)
        (checked (term_of expression.now) want.now (option_map (λ r. row_seen r.now) row.entry))) }
{
    let typed = match check_under(alloc, expression, want)? {
        Ok(typed) => typed,
        Err(fault) => return Ok(Err(fault)),
    };
    let walk = ExpressionWalk { alloc, row };
    let found = walk.visit(
        expression,
        Standing::Reached,
        &Here::Root,
        MisplacedReads::none(),
    )?;
    Ok(unless_misplaced(typed, found, row.is_some()))
}

// Where nothing is where it may not be.
fn unless_misplaced<'a>(
    typed: Typed<'a>,
    found: MisplacedReads,
    has_row: bool,
) -> Result<Typed<'a>, TypeFault>
    ensures { result ≡ stray_or found.unread found.zoom has_row typed.entry }
{
    let MisplacedReads { unread, zoom, .. } = found;
    match (unread, zoom) {
        (Some(path), _) => Err(TypeFault {
            path,
            code: TypeCode::Input,
        }),
        (None, Some(path)) if has_row => Err(TypeFault {
            path,
            code: TypeCode::ZoomPlace,
        }),
        (None, _) => Ok(typed),
    }
}

/// Checks an expression by itself: it may read everything and give anything.
pub fn check_free<'a>(
    alloc: Global,
    expression: &'a Expr,
) -> Result<Result<Typed<'a>, TypeFault>, AllocError>
    ensures { IfOk result
        (λ r. r ≡ judged (term_of expression.now, wants.Any) (checked_free (term_of expression.now))) }
{
    check_under(alloc, expression, &Want::Any)
}

/// Most expressions of a style have no more nodes.
const USUAL_NODES: usize = 8;

fn check_under<'a>(
    alloc: Global,
    expression: &'a Expr,
    want: &Want,
) -> Result<Result<Typed<'a>, TypeFault>, AllocError>
    ensures { IfOk result
        (λ r. r ≡ judged (term_of expression.now, want.now) (typed (term_of expression.now) want.now [] [])) }
{
    let mut checking = Checking {
        alloc,
        places: Vec::with_capacity(alloc, USUAL_NODES)?,
    };
    match checking.check_expression(expression, false, want, &KindScope::Empty, &Here::Root)? {
        Ok(node) => Ok(Ok(Typed {
            expression,
            want: *want,
            node,
            places: checking.places,
        })),
        Err(fault) => Ok(Err(fault)),
    }
}
