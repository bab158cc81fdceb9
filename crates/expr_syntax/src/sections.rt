//! The arguments of a `format` while they are read.

ghost use Rattle.std.specs.Prelude.{◌≡◌, IfOk};
ghost use Rattle.expr_syntax.specs.Reading.{no_sections, with_piece, then_format};
ghost use Rattle.expr_syntax.specs.ReadView.{read_of};
ghost use Rattle.expr_syntax.specs.TermView.{term_of};

use crate::expression::{Arguments, Expr, Operator};
use crate::fault::SynFault;
use crate::parts::{FormatPiece, PieceList, Pieces, Role};
use std::alloc::{AllocError, Global};

/// The arguments of a `format`, and what each is.
#[derive(Drop)]
pub(crate) struct FormatArguments {
    pieces: PieceList,
    arguments: Arguments,
}

/// An element of a `format`: its place, and whether the element before it is a content.
#[derive(Clone, Copy)]
pub(crate) struct SectionElement {
    pub(crate) at: usize,
    pub(crate) follows: bool,
}

impl FormatArguments {
    pub(crate) fn new(alloc: Global) -> FormatArguments
        ensures { result ≡ no_sections }
    {
        FormatArguments {
            pieces: PieceList::new(alloc),
            arguments: Arguments::new(alloc),
        }
    }

    /// One argument more, which the element of a place is or has in it.
    pub(crate) fn with(
        self,
        at: usize,
        role: Role,
        argument: Expr,
    ) -> Result<FormatArguments, AllocError>
        ensures { IfOk result (λ more. more ≡ with_piece at role self (term_of argument)) }
    {
        let FormatArguments {
            mut pieces,
            mut arguments,
        } = self;
        pieces.push(FormatPiece { at, role })?;
        arguments.push(argument)?;
        Ok(FormatArguments { pieces, arguments })
    }
}

/// The `format` of arguments that were read.
pub(crate) fn finish_format(
    alloc: Global,
    read: Result<FormatArguments, SynFault>,
) -> Result<Result<Expr, SynFault>, AllocError>
    ensures { IfOk result (λ r. read_of r ≡ then_format read) }
{
    match read {
        Ok(found) => {
            let FormatArguments { pieces, arguments } = found;
            let pieces = Pieces::of(alloc, pieces)?;
            Ok(Ok(Expr::Node(Operator::Format(pieces), arguments)))
        }
        Err(fault) => Ok(Err(fault)),
    }
}
