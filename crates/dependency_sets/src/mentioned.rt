ghost use Rattle.std.specs.Prelude.{◌≡◌};
ghost use Rattle.expr_syntax.specs.Mentioned.{nothing, either, reads_of, of_operator, count, mentions, all_mentions};
ghost use Rattle.expr_syntax.specs.TermView.{term_of, terms};

use expr_syntax::{Expr, Mentions, Operator, Reads};

/// What an expression reads of the world.
#[tactic(auto, using(expr_syntax::proofs::Falls::argument_weight))]
#[cycle(mentions)]
pub fn mentions(expression: &Expr) -> Mentions
    ensures { result ≡ mentions (term_of expression.now) }
{
    match expression {
        Expr::Literal(_) => NOTHING,
        Expr::Node(op, arguments) => {
            let arguments = arguments.as_slice();
            either(of_operator(op, arguments), all_mentions(arguments))
        }
    }
}

#[tactic(auto, using(expr_syntax::proofs::Falls::argument_weight))]
#[cycle(mentions)]
fn all_mentions(arguments: &[Expr]) -> Mentions
    ensures { result ≡ all_mentions (terms arguments.now) }
{
    let mut mentioned = NOTHING;
    for argument in arguments {
        mentioned = either(mentioned, mentions(argument));
    }
    mentioned
}

const NOTHING: Mentions = Mentions {
    zoom: false,
    feature: false,
    state: false,
    image: false,
};

fn either(a: Mentions, b: Mentions) -> Mentions
    ensures { result ≡ either a b }
{
    Mentions {
        zoom: a.zoom || b.zoom,
        feature: a.feature || b.feature,
        state: a.state || b.state,
        image: a.image || b.image,
    }
}

/// What an operator itself reads, with these arguments.
#[tactic(auto, using(expr_syntax::proofs::Falls::count_terms))]
pub fn of_operator(op: &Operator, arguments: &[Expr]) -> Mentions
    ensures { result ≡ of_operator op.now (count (terms arguments.now)) }
{
    reads_of(op.row().reads, arguments.len())
}

fn reads_of(reads: Reads, arguments: usize) -> Mentions
    ensures { result ≡ reads_of reads arguments }
{
    match reads {
        Reads::Nothing => NOTHING,
        Reads::Zoom => Mentions {
            zoom: true,
            ..NOTHING
        },
        Reads::Feature => Mentions {
            feature: true,
            ..NOTHING
        },
        Reads::FeatureAlone if arguments <= 1 => Mentions {
            feature: true,
            ..NOTHING
        },
        Reads::FeatureAlone => NOTHING,
        Reads::State => Mentions {
            state: true,
            ..NOTHING
        },
        Reads::Images => Mentions {
            image: true,
            ..NOTHING
        },
    }
}
