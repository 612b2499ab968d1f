// The operations of the ancestry tree on its nodes.
// They take the nodes, and the head beside them, and not the forest, which has each again with head and count: so the proof of the tree is apart from the count of free nodes.
// What they keep is said of before and after.
ghost use Rattle.std.specs.Prelude.{◌≡◌, ℕ, ◌+◌, ◌-◌, ◌^◌, ◌<◌, ◌≤◌, length, Some, None, sum_by, Option as Maybe, slice_set};
ghost use Rattle.cloud.specs.Links.{links, link_at, linked, raised, states, Keeps};
ghost use Rattle.cloud.specs.Trees.{Tree, is_node, is_named, is_used, how_many, with_serial, SomeTreeFrom};

use crate::node::{Node, count_of, parent_of, relink, set_state};

// Every node is made free; the first of them.
pub(crate) fn make_free<S>(nodes: &mut [Node<S>]) -> Option<u16>
    requires { length nodes.old ≤ 65536 }
    ensures kept { states nodes.new ≡ states nodes.old }
    ensures tree { (serial : ℕ → ℕ) → Tree (links nodes.new) result (length nodes.old) (λ _. 0) serial 0 }
{
    let mut head = None;
    for (i, node) in nodes.iter_mut().enumerate() {
        node.relink(0, head);
        head = Some(i as u16);
    }
    head
}

// One particle or hold more names the node.
pub(crate) fn retain<S>(nodes: &mut [Node<S>], node: u16)
    requires within { node < length nodes.old }
    requires used { 0 < (link_at (links nodes.old) node).count }
    requires room { (link_at (links nodes.old) node).count + 1 < 2 ^ 32 }
    ensures kept { Keeps nodes.old nodes.new }
    ensures links { links nodes.new ≡ slice_set (links nodes.old) node (raised (link_at (links nodes.old) node)) }
    ensures tree { (head : Maybe ℕ) (free : ℕ) (w serial : ℕ → ℕ) (issued : ℕ) → Tree (links nodes.old) head free w serial issued → Tree (links nodes.new) head free (λ n. w n + is_node n node) serial issued }
{
    let count = count_of(nodes, node);
    let parent = parent_of(nodes, node);
    relink(nodes, node, count + 1, parent);
}

// The first free node is taken for the state, and what named the parent names the new node; the next free node.
pub(crate) fn issue<S: Copy>(
    nodes: &mut [Node<S>],
    node: u16,
    state: S,
    parent: Option<u16>,
) -> Option<u16>
    requires { node < length nodes.old }
    ensures states { states nodes.new ≡ slice_set (states nodes.old) node state }
    ensures links { links nodes.new ≡ slice_set (links nodes.old) node (linked 1 parent) }
    ensures next { result ≡ (link_at (links nodes.old) node).parent }
    ensures tree { (free : ℕ) (w serial : ℕ → ℕ) (issued : ℕ) → Tree (links nodes.old) (Some node) free (λ n. w n + is_named parent n) serial issued → Tree (links nodes.new) result (free - 1) (λ n. w n + is_node n node) (with_serial serial node issued) (issued + 1) }
{
    let next = parent_of(nodes, node);
    set_state(nodes, node, state);
    relink(nodes, node, 1, parent);
    next
}

// What releasing one node leaves: the node that is to be released next, if any, the first free node, and how many were freed.
#[derive(Clone, Copy)]
struct Released {
    next: Option<u16>,
    head: Option<u16>,
    freed: u32,
}

// One thing less hangs on the node; where it was the last, the node is freed, and its parent is to be released next.
fn release_one<S>(nodes: &mut [Node<S>], head: Option<u16>, node: u16) -> Released
    requires within { node < length nodes.old }
    requires used { 0 < (link_at (links nodes.old) node).count }
    ensures kept { Keeps nodes.old nodes.new }
    ensures fewer { sum_by is_used (links nodes.new) + result.freed ≡ sum_by is_used (links nodes.old) }
    ensures ends { how_many result.next ≤ result.freed }
    ensures tree { (free : ℕ) (w serial : ℕ → ℕ) (issued : ℕ) → Tree (links nodes.old) head free (λ n. w n + is_node n node) serial issued → Tree (links nodes.new) result.head (free + result.freed) (λ n. w n + is_named result.next n) serial issued }
{
    let count = count_of(nodes, node);
    let parent = parent_of(nodes, node);
    if count > 1 {
        relink(nodes, node, count - 1, parent);
        return Released {
            next: None,
            head,
            freed: 0,
        };
    }
    relink(nodes, node, 0, head);
    Released {
        next: parent,
        head: Some(node),
        freed: 1,
    }
}

// One particle or hold less names the node: it and its ancestors are freed as long as nothing else hangs on them.
// The first free node, and how many were freed.
pub(crate) fn release<S>(nodes: &mut [Node<S>], head: Option<u16>, node: u16) -> (Option<u16>, u32)
    requires { SomeTreeFrom (links nodes.old) head (Some node) }
    ensures kept { Keeps nodes.old nodes.new }
    ensures tree { (free : ℕ) (w serial : ℕ → ℕ) (issued : ℕ) → Tree (links nodes.old) head free (λ n. w n + is_node n node) serial issued → Tree (links nodes.new) result.0 (free + result.1) w serial issued }
{
    let mut first = head;
    let mut pending = Some(node);
    let mut freed = 0;
    while let Some(at) = pending {
        let step = release_one(nodes, first, at);
        first = step.head;
        pending = step.next;
        freed += step.freed;
    }
    (first, freed)
}
