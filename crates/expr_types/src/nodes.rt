//! A node or literal under its want.

ghost use Rattle.std.specs.Prelude.{◌≡◌, ◌<◌, length, true, IfOk, slice_set};
ghost use Rattle.decimal_json.specs.View.{path_of};
ghost use Rattle.prop_values.specs.Faults.{no_faults, union};
ghost use Rattle.prop_values.specs.View.{data_of};
ghost use Rattle.expr_types.specs.Fits.{branch_kind, fits};
ghost use Rattle.expr_types.specs.Own.{owns};
ghost use Rattle.expr_types.specs.Typing.{fault, kinded, fitted, branched, literal_node, own_where, as_sequence};
ghost use Rattle.expr_types.specs.Typing.{is_branching};
ghost use Rattle.expr_types.specs.declared.placed.Kinded.{Kinded as FoundNode};

use crate::fault::{TypeCode, TypeFault};
use crate::fits::{Fit, branch_kind, fit_faults, fits, kind_under};
use crate::literals::{literal_kind, surely_fits};
use crate::own::Own;
use crate::placed::{Kinded, Placed};
use crate::sequences::sequence_fit;
use decimal_json::{Here, path_to};
use expr_syntax::Operator;
use prop_values::{EvalFault, FaultSet, Kind, Value, Want};
use std::alloc::{AllocError, Global};

fn kinded(want: &Want, kind: Kind, may: FaultSet, always: bool) -> Kinded
    ensures { result ≡ kinded want.now kind may always }
{
    Kinded {
        kind,
        may,
        root: Placed {
            want: *want,
            always,
        },
    }
}

/// The fault of a node.
pub(crate) fn refused(
    alloc: Global,
    here: &Here<'_>,
    code: TypeCode,
) -> Result<Result<Kinded, TypeFault>, AllocError>
    ensures { IfOk result (λ node. node ≡ fault FoundNode (path_of here.now) code) }
{
    Ok(Err(TypeFault {
        path: path_to(alloc, here)?,
        code,
    }))
}

/// A node of a kind of its own under a want, where its arguments may give some faults.
pub(crate) fn fitted(
    alloc: Global,
    want: &Want,
    own: Own,
    may: FaultSet,
    here: &Here<'_>,
) -> Result<Result<Kinded, TypeFault>, AllocError>
    ensures { IfOk result (λ node. node ≡ fitted want.now own may (path_of here.now)) }
{
    let fit = fits(own.kind, want);
    match (fit, own.code) {
        (Fit::Never, _) => refused(alloc, here, TypeCode::Kind),
        (_, Some(code)) => refused(alloc, here, code),
        (_, None) => {
            let faults = own.faults.union(fit_faults(fit, want, own.kind));
            Ok(Ok(kinded(
                want,
                kind_under(want, own.kind),
                may.union(faults),
                fit.is_always(),
            )))
        }
    }
}

/// A node that hands its want to its branches.
pub(crate) fn branched(
    alloc: Global,
    want: &Want,
    own: Own,
    may: FaultSet,
    here: &Here<'_>,
) -> Result<Result<Kinded, TypeFault>, AllocError>
    ensures { IfOk result (λ node. node ≡ branched want.now own may (path_of here.now)) }
{
    match own.code {
        Some(code) => refused(alloc, here, code),
        None => Ok(Ok(kinded(
            want,
            branch_kind(want, own.kind),
            may.union(own.faults),
            true,
        ))),
    }
}

/// A literal under a want.
pub(crate) fn literal_node(
    alloc: Global,
    value: &Value,
    want: &Want,
    here: &Here<'_>,
) -> Result<Result<Kinded, TypeFault>, AllocError>
    ensures { IfOk result (λ node. node ≡ literal_node (data_of value.now) want.now (path_of here.now)) }
{
    let kind = literal_kind(alloc, value)?;
    let fit = fits(kind, want);
    if surely_fits(alloc, want, value)? {
        return Ok(Ok(kinded(
            want,
            kind_under(want, kind),
            FaultSet::empty(),
            fit.is_always(),
        )));
    }
    literal_fitted(alloc, want, kind, fit, here)
}

/// A literal has no arguments, and no faults but those of its fit.
fn literal_fitted(
    alloc: Global,
    want: &Want,
    kind: Kind,
    fit: Fit,
    here: &Here<'_>,
) -> Result<Result<Kinded, TypeFault>, AllocError>
    requires { fit ≡ fits kind want.now }
    ensures { IfOk result (λ node. node ≡ fitted want.now (owns kind no_faults) no_faults (path_of here.now)) }
{
    match fit {
        Fit::Never => refused(alloc, here, TypeCode::Kind),
        fit => Ok(Ok(kinded(
            want,
            kind_under(want, kind),
            fit_faults(fit, want, kind),
            fit.is_always(),
        ))),
    }
}

/// What a node has of its own, where a text or a list has to come or not: of another kind it has the code `Kind`,
/// before any other.
pub(crate) fn own_where(is_sequence: bool, own: Own) -> Own
    ensures { result ≡ own_where is_sequence own }
{
    match sequence_fit(own.kind) {
        Fit::Never if is_sequence => Own {
            code: Some(TypeCode::Kind),
            ..own
        },
        _ => own,
    }
}

/// An argument that has to be a text or a list.
pub(crate) fn as_sequence(
    alloc: Global,
    node: Kinded,
    there: &Here<'_>,
) -> Result<Result<Kinded, TypeFault>, AllocError>
    ensures { IfOk result (λ found. found ≡ as_sequence node (path_of there.now)) }
{
    match sequence_fit(node.kind) {
        Fit::Always => Ok(Ok(node)),
        Fit::Maybe => {
            let may = node.may.union(FaultSet::one(EvalFault::WrongType));
            Ok(Ok(Kinded { may, ..node }))
        }
        Fit::Never => refused(alloc, there, TypeCode::Kind),
    }
}

/// Whether an operator hands its want to its branches, beside `let`.
pub(crate) fn is_branching(op: &Operator) -> bool
    ensures { result ≡ is_branching op.now }
{
    matches!(
        op,
        Operator::Case | Operator::Match(_) | Operator::Step(_) | Operator::Interpolate(_)
    )
}

/// How many places are known.
pub(crate) fn count(places: &Vec<Placed>) -> usize
    ensures { result ≡ length places.now.items }
{
    places.as_slice().len()
}

/// Notes what is known of a node at its place.
pub(crate) fn settle(places: &mut Vec<Placed>, at: usize, root: Placed)
    requires { at < length places.old.items }
    ensures { places.new.items ≡ slice_set places.old.items at root }
{
    places[at] = root;
}

/// The node of a `let`, by its body.
pub(crate) fn with_bindings(want: &Want, may: FaultSet, body: Kinded) -> Kinded
    ensures { result ≡ kinded want.now (branch_kind want.now body.kind) (union may body.may) true }
{
    kinded(
        want,
        branch_kind(want, body.kind),
        may.union(body.may),
        true,
    )
}
