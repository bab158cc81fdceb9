//! What an expression gives by its tree, by nodes of its own and by nodes of a pool.

ghost use Rattle.std.specs.Prelude.{◌≡◌, ◌+◌, ◌<◌, length, IfOk, IfSome, OnOk};
ghost use Rattle.expr_syntax.specs.TermView.{term_of};
ghost use Rattle.expr_types.specs.JudgedFacts.{places_in};

use anyhow::{Result, bail};
use decimal_json::parse;
use eval_face::Context;
use expr_nodes::{Boxed, BoxedExpression, CountedEvaluator, Workspace};
use expr_plain::eval_plain;
use expr_resolving::{boxed, boxed_checked};
use expr_syntax::{Expr, Reading, read_expr, read_terms_are_sound};
use expr_types::{Placed, check};
use fixed_num::Fixed;
use host_ops::{HostOp, ImageSet, ScriptTest};
use node_pool::Pool;
use operator_rules::{TestedContext, WorldView};
use operator_values::Halt;
use outside_io::Steps;
use prop_values::{EvalFault, Value, Want, equals};
use std::alloc::{AllocError, Global};
use std::marker::Brand;
use std::sync::ledger::{Blank, Ledger};

/// Each expression is wanted in so many ways.
const WANTS: u8 = 6;

/// The expression beside which others are in a pool.
const OTHER: &str = "[\"let\",\"a\",[\"+\",1,1],[\"*\",[\"var\",\"a\"],[\"var\",\"a\"]]]";

fn want_of(place: u8) -> Want {
    match place {
        1 => Want::Number,
        2 => Want::Boolean,
        3 => Want::Text,
        4 => Want::Color,
        5 => Want::Shown,
        _ => Want::Any,
    }
}

/// How many nodes the expression of a line has, where its tree, its nodes, those in a pool and those without the tests
/// that always succeed give one answer under each want.
pub fn agreed_nodes(alloc: Global, line: &str) -> Result<Option<u64>> {
    let mut workspace = Workspace::new(alloc);
    let mut nodes = None;
    for place in 0..WANTS {
        nodes = node_count(alloc, line, want_of(place), &mut workspace)?;
        if nodes.is_none() {
            break;
        }
    }
    Ok(nodes)
}

fn read_line(alloc: Global, line: &str) -> Result<Expr> {
    let Ok(json) = parse(alloc, line.as_bytes())? else {
        bail!("no JSON text: {line}");
    };
    match read_expr(alloc, &json)? {
        Ok(Reading::Inside(expression)) => Ok(expression),
        _ => bail!("no expression: {line}"),
    }
}

// How many nodes there are, where all answers are one. The workspace is that of earlier lines.
fn node_count(
    alloc: Global,
    line: &str,
    want: Want,
    workspace: &mut Workspace,
) -> Result<Option<u64>> {
    let context = Context {
        zoom: half(),
        feature: None,
        state: None,
    };
    let images = ImageSet::new(alloc);
    let scripts = ScriptTest::new();
    let images: &dyn HostOp = &images;
    let scripts: &dyn HostOp = &scripts;
    let tree = read_line(alloc, line)?;
    let given = eval_plain(alloc, &tree, &want, &context, images, scripts)?;
    let world = TestedContext {
        context: &context,
        images: &images,
        scripts: &scripts,
    };
    let mut boxes = Boxed::new(alloc);
    boxes.put(boxed(alloc, tree, want)?)?;
    let by_boxes = answer::<Brand, _, _>(&boxes, 0, workspace, &world, Blank::new(1))?;
    let pool = filled_pool(alloc, line, want)?;
    let by_pool = answer::<Brand, _, _>(&pool, 1, workspace, &world, Blank::new(1))?;
    let mut untested = Boxed::new(alloc);
    untested.put(without_tests(alloc, line, want)?)?;
    let by_untested = answer::<Brand, _, _>(&untested, 0, workspace, &world, Blank::new(1))?;
    let nodes = boxes.nodes(0);
    let agree = are_same(&given, &by_boxes)
        && are_same(&given, &by_pool)
        && are_same(&given, &by_untested);
    if agree && pool.nodes(1) == nodes && untested.nodes(0) == nodes {
        Ok(Some(nodes))
    } else {
        Ok(None)
    }
}

// The expression of a line without the tests that always succeed, or with all tests where a check refuses it.
#[tactic(auto, using(crate::proofs::CheckLaws::is_read))]
fn without_tests(alloc: Global, line: &str, want: Want) -> Result<BoxedExpression> {
    read_terms_are_sound();
    let Ok(json) = parse(alloc, line.as_bytes())? else {
        bail!("no JSON text: {line}");
    };
    let Ok(Reading::Inside(expression)) = read_expr(alloc, &json)? else {
        bail!("no expression: {line}");
    };
    match checked_places(alloc, &expression, &want)? {
        Some(places) => Ok(boxed_checked(alloc, expression, want, places.as_slice())?),
        None => Ok(boxed(alloc, expression, want)?),
    }
}

// What a check finds of the nodes of an expression, or none where it refuses it.
#[tactic(auto, using(crate::proofs::CheckLaws::own_places))]
fn checked_places(
    alloc: Global,
    expression: &Expr,
    want: &Want,
) -> Result<Option<Vec<Placed>>, AllocError>
    ensures { IfOk result (λ found. IfSome found
        (λ places. places.items ≡ places_in (term_of expression.now, want.now))) }
{
    match check(alloc, expression, want, None)? {
        Ok(typed) => Ok(Some(typed.into_places())),
        Err(_) => Ok(None),
    }
}

fn half() -> Fixed {
    match Fixed::from_millionths(500_000) {
        Some(half) => half,
        None => unreachable!(),
    }
}

// A pool that has the expression of a line at 1, whose nodes were moved since others were replaced.
fn filled_pool(alloc: Global, line: &str, want: Want) -> Result<Pool>
    ensures { IfOk result (λ pool. 1 < length (⟦<Pool as CountedEvaluator>⟧.slots pool)) }
{
    let mut pool = Pool::new(alloc);
    add(alloc, &mut pool, line, Want::Text)?;
    add(alloc, &mut pool, OTHER, want)?;
    replace(alloc, &mut pool, 1, line, want)?;
    replace(alloc, &mut pool, 0, OTHER, Want::Any)?;
    replace(alloc, &mut pool, 0, OTHER, Want::Text)?;
    Ok(pool)
}

fn add(alloc: Global, pool: &mut Pool, line: &str, want: Want) -> Result<()>
    ensures { OnOk result (length (⟦<Pool as CountedEvaluator>⟧.slots pool.new)
        ≡ length (⟦<Pool as CountedEvaluator>⟧.slots pool.old) + 1) }
{
    pool.put(boxed(alloc, read_line(alloc, line)?, want)?)?;
    Ok(())
}

fn replace(alloc: Global, pool: &mut Pool, slot: u32, line: &str, want: Want) -> Result<()>
    requires { slot < length (⟦<Pool as CountedEvaluator>⟧.slots pool.old) }
    ensures { OnOk result (length (⟦<Pool as CountedEvaluator>⟧.slots pool.new)
        ≡ length (⟦<Pool as CountedEvaluator>⟧.slots pool.old)) }
{
    pool.put_at(slot, boxed(alloc, read_line(alloc, line)?, want)?)?;
    Ok(())
}

// The answer of the expression of a number. A ledger rises by 1 at least, and by the expression's nodes at most.
fn answer<L: Ledger, E: CountedEvaluator, W: WorldView>(
    evaluator: &E,
    slot: u32,
    workspace: &mut Workspace,
    world: &W,
    blank: Blank,
) -> Result<Result<Value, EvalFault>, AllocError>
    requires slot { slot < length (E.slots evaluator.now) }
    requires name { blank.name ≡ L.name }
    requires parts { blank.parts ≡ L.parts }
    requires some { 0 < blank.parts }
{
    let mut steps: Steps<L> = Steps::new(blank);
    match evaluator.evaluated(workspace, slot, world, &mut steps) {
        Ok(value) => Ok(Ok(value)),
        Err(Halt::Fault(fault)) => Ok(Err(fault)),
        Err(Halt::NoMemory) => Err(AllocError),
    }
}

fn are_same(a: &Result<Value, EvalFault>, b: &Result<Value, EvalFault>) -> bool {
    match (a, b) {
        (Ok(a), Ok(b)) => equals(a, b),
        (Err(a), Err(b)) => a == b,
        _ => false,
    }
}
