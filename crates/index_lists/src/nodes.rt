ghost use Rattle.std.specs.Prelude.{◌≡◌, ℕ, ◌+◌, ◌-◌, ◌<◌, ◌≤◌, length, slice_index, vec_len, vec_capacity};

use std::alloc::{AllocError, Global};

/// Rounds of nodes: for each node the next and the previous one.
///
/// A slot is the node of its own number, and list `l` has the node `u32::MAX - l`. So slots and lists can
/// both become more and no node changes its number. There are at most 2^32 of both together.
#[derive(Drop)]
pub struct Nodes {
    next: Vec<u32>,
    prev: Vec<u32>,
    first: Vec<u32>,
    last: Vec<u32>,
    ghost slots: { length prev.items ≡ length next.items },
    ghost lists: { length last.items ≡ length first.items },
    ghost fits: { length next.items + length first.items ≤ 4294967296 },
}

impl Nodes {
    ghost use Rattle.std.specs.Prelude.{◌≡◌, ℕ, ◌+◌, ◌-◌, ◌<◌, ◌≤◌, ◌↔◌, IsTrue, OnOk, OnErr};
    ghost use Rattle.index_lists.specs.Nodes.{put, slot_count, list_count, after as after_of, before as before_of};
    ghost use Rattle.index_lists.specs.Nodes.{next_into, prev_into, next_out, prev_out, IsNode, KeepsLinks, AddsRounds};

    /// No slots and no lists.
    pub fn new(alloc: Global) -> Nodes
        ensures slots { slot_count result ≡ 0 }
        ensures lists { list_count result ≡ 0 }
    {
        Nodes {
            next: Vec::new(alloc),
            prev: Vec::new(alloc),
            first: Vec::new(alloc),
            last: Vec::new(alloc),
        }
    }

    pub fn is_slot(&self, node: u32) -> bool
        ensures { IsTrue result ↔ (node < slot_count self.now) }
    {
        (node as usize) < self.next.len()
    }

    pub fn after(&self, node: u32) -> u32
        requires { IsNode (slot_count self.now) (list_count self.now) node }
        ensures { result ≡ after_of self.now node }
    {
        if (node as usize) < self.next.len() {
            self.next[node as usize]
        } else {
            self.first[(u32::MAX - node) as usize]
        }
    }

    pub fn before(&self, node: u32) -> u32
        requires { IsNode (slot_count self.now) (list_count self.now) node }
        ensures { result ≡ before_of self.now node }
    {
        if (node as usize) < self.prev.len() {
            self.prev[node as usize]
        } else {
            self.last[(u32::MAX - node) as usize]
        }
    }

    /// Puts a node before another.
    pub fn link(&mut self, node: u32, to: u32)
        requires node { IsNode (slot_count self.old) (list_count self.old) node }
        requires to { IsNode (slot_count self.old) (list_count self.old) to }
        requires before { IsNode (slot_count self.old) (list_count self.old) (before_of self.old to) }

        ensures slots { slot_count self.new ≡ slot_count self.old }
        ensures lists { list_count self.new ≡ list_count self.old }
        ensures after { (k : ℕ) →
            after_of self.new k ≡ next_into (after_of self.old) (before_of self.old) to node k }
        ensures before { (k : ℕ) →
            before_of self.new k ≡ prev_into (after_of self.old) (before_of self.old) to node k }
    {
        let before = self.before(to);
        self.set_after(before, node);
        self.set_after(node, to);
        self.set_before(to, node);
        self.set_before(node, before);
    }

    /// Takes a node out of its round, and makes it a round of its own.
    pub fn unlink(&mut self, node: u32)
        requires node { IsNode (slot_count self.old) (list_count self.old) node }
        requires after { IsNode (slot_count self.old) (list_count self.old) (after_of self.old node) }
        requires before { IsNode (slot_count self.old) (list_count self.old) (before_of self.old node) }

        ensures slots { slot_count self.new ≡ slot_count self.old }
        ensures lists { list_count self.new ≡ list_count self.old }
        ensures after { (k : ℕ) →
            after_of self.new k ≡ next_out (after_of self.old) (before_of self.old) node k }
        ensures before { (k : ℕ) →
            before_of self.new k ≡ prev_out (after_of self.old) (before_of self.old) node k }
    {
        let after = self.after(node);
        let before = self.before(node);
        self.set_after(before, after);
        self.set_after(node, node);
        self.set_before(after, before);
        self.set_before(node, node);
    }

    /// More slots and more lists, each a round of its own. There can be at most 2^32 of both together;
    /// more are answered as a failed allocation.
    pub fn grow(&mut self, slots: u32, lists: u32) -> Result<(), AllocError>
        requires slots { slot_count self.old ≤ slots }
        requires lists { list_count self.old ≤ lists }

        ensures links { KeepsLinks self.old self.new }
        ensures ok { OnOk result ((slot_count self.new ≡ slots) × (list_count self.new ≡ lists)) }
        ensures added { OnOk result (AddsRounds self.old self.new) }
        ensures err { OnErr result
            ((slot_count self.new ≡ slot_count self.old) × (list_count self.new ≡ list_count self.old)) }
    {
        if u64::from(slots) + u64::from(lists) > 1 << 32 {
            return Err(AllocError);
        }
        let more_slots = slots as usize - self.next.len();
        let more_lists = lists as usize - self.first.len();
        self.next.reserve(more_slots)?;
        self.prev.reserve(more_slots)?;
        self.first.reserve(more_lists)?;
        self.last.reserve(more_lists)?;
        push_slots(&mut self.next, slots);
        push_slots(&mut self.prev, slots);
        push_lists(&mut self.first, lists);
        push_lists(&mut self.last, lists);
        Ok(())
    }

    /// Lets a node come after another.
    fn set_after(&mut self, node: u32, to: u32)
        requires { IsNode (slot_count self.old) (list_count self.old) node }
        ensures slots { slot_count self.new ≡ slot_count self.old }
        ensures lists { list_count self.new ≡ list_count self.old }
        ensures after { (k : ℕ) → after_of self.new k ≡ put (after_of self.old) node to k }
        ensures before { (k : ℕ) → before_of self.new k ≡ before_of self.old k }
    {
        if (node as usize) < self.next.len() {
            self.next[node as usize] = to;
        } else {
            self.first[(u32::MAX - node) as usize] = to;
        }
    }

    /// Lets a node come before another.
    fn set_before(&mut self, node: u32, to: u32)
        requires { IsNode (slot_count self.old) (list_count self.old) node }
        ensures slots { slot_count self.new ≡ slot_count self.old }
        ensures lists { list_count self.new ≡ list_count self.old }
        ensures after { (k : ℕ) → after_of self.new k ≡ after_of self.old k }
        ensures before { (k : ℕ) → before_of self.new k ≡ put (before_of self.old) node to k }
    {
        if (node as usize) < self.prev.len() {
            self.prev[node as usize] = to;
        } else {
            self.last[(u32::MAX - node) as usize] = to;
        }
    }
}

/// Lets a vector that has room for so many slots keep for each new slot its own node.
fn push_slots(nodes: &mut Vec<u32>, slots: u32)
    requires more { vec_len nodes.old ≤ slots }
    requires room { slots ≤ vec_capacity nodes.old }
    ensures len { length nodes.new.items ≡ slots }
    ensures old { (k : ℕ) → k < length nodes.old.items →
        slice_index nodes.new.items k ≡ slice_index nodes.old.items k }
    ensures new { (k : ℕ) → length nodes.old.items ≤ k → k < slots → slice_index nodes.new.items k ≡ k }
{
    for slot in nodes.len() as u32..slots {
        nodes.push_reserved(slot);
    }
}

/// Lets a vector that has room for so many lists keep for each new list its own node.
fn push_lists(nodes: &mut Vec<u32>, lists: u32)
    requires more { vec_len nodes.old ≤ lists }
    requires room { lists ≤ vec_capacity nodes.old }
    ensures len { length nodes.new.items ≡ lists }
    ensures old { (k : ℕ) → k < length nodes.old.items →
        slice_index nodes.new.items k ≡ slice_index nodes.old.items k }
    ensures new { (k : ℕ) → length nodes.old.items ≤ k → k < lists →
        slice_index nodes.new.items k ≡ 4294967295 - k }
{
    for list in nodes.len() as u32..lists {
        nodes.push_reserved(u32::MAX - list);
    }
}
