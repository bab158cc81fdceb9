//! Blocks are moved together, so that no node between them is unused.

ghost use Rattle.std.specs.Prelude.{◌≡◌, ◌+◌, ◌<◌, ◌≤◌, ◌^◌, ◌⊎◌, ◌++◌};
ghost use Rattle.std.specs.Prelude.{ℕ, length, take, drop, vec_len, vec_capacity, IfOk, OnErr};
ghost use Rattle.node_pool.specs.Blocks.{AreApart, AreHeld, blocks_of, one_after_another, total_length};

use crate::pooled_expression::PooledExpression;
use crate::pooled_node::PooledNode;
use prop_values::EvalFault;
use std::alloc::{AllocError, Global};
use std::mem;

/// The blocks of the expressions, moved out of the nodes in order. So many nodes are in them.
pub(crate) fn moved_blocks(
    alloc: Global,
    nodes: &mut Vec<PooledNode>,
    expressions: &[PooledExpression],
    count: usize,
) -> Result<Vec<PooledNode>, AllocError>
    requires held { AreHeld nodes.old.items expressions.now }
    requires apart { AreApart expressions.now }
    requires counted { total_length expressions.now ≡ count }
    ensures blocks { IfOk result (λ moved. moved.items ≡ blocks_of nodes.old.items expressions.now) }
    ensures err { OnErr result (nodes.new ≡ nodes.old) }
{
    let mut moved = Vec::with_capacity(alloc, count)?;
    for expression in expressions {
        move_nodes(nodes, expression.start, expression.length(), &mut moved);
    }
    Ok(moved)
}

// Moves so many nodes from a number on to the end of others, which have room for them.
fn move_nodes(nodes: &mut Vec<PooledNode>, start: usize, count: usize, moved: &mut Vec<PooledNode>)
    requires within { start + count ≤ length nodes.old.items }
    requires room { vec_len moved.old + count ≤ vec_capacity moved.old }
    ensures moved { moved.new.items ≡ moved.old.items ++ take count (drop start nodes.old.items) }
    ensures capacity { vec_capacity moved.new ≡ vec_capacity moved.old }
    ensures length { length nodes.new.items ≡ length nodes.old.items }
    ensures others { (s n : ℕ) → (s + n ≤ start) ⊎ (start + count ≤ s) →
        take n (drop s nodes.new.items) ≡ take n (drop s nodes.old.items) }
{
    for place in 0..count {
        let node = mem::replace(
            &mut nodes[start + place],
            PooledNode::Faulty(EvalFault::WrongType),
        );
        moved.push_reserved(node);
    }
}

/// Lets each block begin where the one before it ends.
pub(crate) fn put_one_after_another(expressions: &mut Vec<PooledExpression>)
    requires { total_length expressions.old.items < 2 ^ 63 }
    ensures { expressions.new.items ≡ one_after_another 0 expressions.old.items }
{
    let count = expressions.len();
    let mut start = 0;
    for place in 0..count {
        let expression = expressions[place];
        expressions[place] = expression.begins_at(start);
        start += expression.length();
    }
}
