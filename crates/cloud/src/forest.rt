// The ancestry tree over lent memory.
ghost use Rattle.std.specs.Prelude.{◌≡◌, ℕ, ◌+◌, ◌-◌, ◌^◌, ◌<◌, ◌≤◌, true, map, length, min, Some, None, sum_by, slice_index, slice_index_or, slice_set};
ghost use Rattle.cloud.specs.Links.{link_at, linked, raised, Keeps};
ghost use Rattle.cloud.specs.Trees.{Tree, is_node, is_named, with_serial};
ghost use Rattle.sources.specs.Supplies.{after};
ghost use Rattle.resampling.specs.Marks.{total};
ghost use Rattle.cloud.specs.Guards.{guarded_move, guarded_score};
ghost use Rattle.cloud.specs.Tracks.{Inverse};
ghost use Rattle.cloud.specs.Forests.{links_of, states_of, IsTree, HasTree, HasTreeAt, HasTreeAll, HasMap, HasMapAll, HasTreeFew, Births, Longer};

use crate::draw::{move_of, next_number, score_of};
use crate::node::{MOST_NODES, Node};
use crate::tree;
use arrayvec::ArrayVec;
use models::model::Model;
use models::state::State;
use sources::Source;

// Nodes that the caller lends, with the first free one and how many are free.
// A node is named by its number, since a cloud works in lent memory and has no heap.
#[derive(Drop)]
pub(crate) struct Forest<'a, S> {
    pub(crate) nodes: &'a mut [Node<S>],
    pub(crate) head: Option<u16>,
    pub(crate) free: usize,
}

// A tree with no node in use, over the first 65,536 nodes at most.
// It cuts again what its caller has cut, so that it asks nothing.
pub(crate) fn make<S>(nodes: &mut [Node<S>]) -> Forest<S>
    ensures size { length result.nodes.now ≡ min (length nodes.old) 65536 }
    ensures tree { (serial : ℕ → ℕ) → IsTree result (λ _. 0) serial 0 }
{
    let n = nodes.len().min(MOST_NODES);
    let part = &mut nodes[..n];
    let head = tree::make_free(part);
    Forest {
        nodes: part,
        head,
        free: n,
    }
}

// What a method keeps, and what it makes free, is said of before and after, which no field and no invariant could carry.
// That there are 256 parents at most is asked where they come in a slice, which has no such bound.
impl<S: Copy> Forest<'_, S> {
    // One particle or hold more names the node.
    pub(crate) fn retain(&mut self, node: u16)
        requires within { node < length self.old.nodes.now }
        requires used { 0 < (link_at (links_of self.old) node).count }
        requires room { (link_at (links_of self.old) node).count + 1 < 2 ^ 32 }
        ensures kept { Keeps self.old.nodes.now self.new.nodes.now }
        ensures links { links_of self.new ≡ slice_set (links_of self.old) node (raised (link_at (links_of self.old) node)) }
        ensures head { self.new.head ≡ self.old.head }
        ensures free { self.new.free ≡ self.old.free }
        ensures tree { (w serial : ℕ → ℕ) (issued : ℕ) → IsTree self.old w serial issued → IsTree self.new (λ n. w n + is_node n node) serial issued }
    {
        tree::retain(self.nodes, node);
    }

    // One particle or hold less names the node, and what nothing hangs on any more is freed; how many nodes were.
    pub(crate) fn release(&mut self, node: u16) -> u32
        requires { HasTreeAt self.old node }
        ensures kept { Keeps self.old.nodes.now self.new.nodes.now }
        ensures freed { self.new.free ≡ self.old.free + result }
        ensures tree { (w serial : ℕ → ℕ) (issued : ℕ) → IsTree self.old (λ n. w n + is_node n node) serial issued → IsTree self.new w serial issued }
    {
        let first = self.head;
        let (head, freed) = tree::release(self.nodes, first, node);
        self.head = head;
        self.free += freed as usize;
        freed
    }

    // Each node of a list is released; how many nodes were freed.
    pub(crate) fn release_all(&mut self, named: &[u16]) -> u32
        requires { HasTreeAll self.old named.now }
        ensures kept { Keeps self.old.nodes.now self.new.nodes.now }
        ensures freed { self.new.free ≡ self.old.free + result }
        ensures tree { (w serial : ℕ → ℕ) (issued : ℕ) → IsTree self.old (λ k. w k + sum_by (is_node k) named.now) serial issued → IsTree self.new w serial issued }
    {
        let mut freed = 0;
        for node in named {
            freed += self.release(*node);
        }
        freed
    }

    // A free node is taken for the state, and what named the parent names the new node; the new node.
    pub(crate) fn issue(&mut self, state: S, parent: Option<u16>) -> u16
        requires room { 0 < self.old.free }
        requires tree { HasTree self.old }
        ensures states { states_of self.new ≡ slice_set (states_of self.old) result state }
        ensures links { links_of self.new ≡ slice_set (links_of self.old) result (linked 1 parent) }
        ensures first { self.old.head ≡ Some result }
        ensures next { self.new.head ≡ (link_at (links_of self.old) result).parent }
        ensures free { self.new.free + 1 ≡ self.old.free }
        ensures fresh { (link_at (links_of self.old) result).count ≡ 0 }
        ensures tree { (w serial : ℕ → ℕ) (issued : ℕ) → IsTree self.old (λ n. w n + is_named parent n) serial issued → IsTree self.new (λ n. w n + is_node n result) (with_serial serial result issued) (issued + 1) }
    {
        let node = self.head.unwrap();
        let next = tree::issue(self.nodes, node, state, parent);
        self.head = next;
        self.free -= 1;
        node
    }

    // The state at the node.
    fn state_of(&self, node: u16) -> S
        requires { node < length self.now.nodes.now }
        ensures { (d : S) → result ≡ slice_index_or (states_of self.now) node d }
    {
        self.nodes[usize::from(node)].state
    }

    // So many nodes with no parent, each with the birth of a number of its own.
    pub(crate) fn issue_births<M: Model<State = S>, R: Source>(
        &mut self,
        model: &M,
        source: &mut R,
        n: usize,
    ) -> ArrayVec<u16, 256>
        requires few { n ≤ 256 }
        requires room { n ≤ self.old.free }
        requires map { HasMap self.old }
        requires supplied { (R.supply source.old).can n ≡ true }
        ensures number { length result.items ≡ n }
        ensures rest { R.supply source.new ≡ after n (R.supply source.old) }
        ensures same { R.recorded source.new ≡ R.recorded source.old }
        ensures free { self.new.free + n ≡ self.old.free }
        ensures born { Births self.old self.new result.items (λ k. (M.meaning model.now).birth ((R.supply source.old).to_come k)) }
    {
        let mut tips = ArrayVec::new();
        for _ in 0..n {
            let state = model.birth(next_number(source));
            tips.push(self.issue(state, None));
        }
        tips
    }

    // A node more on each path, with the move of its newest state by a number of its own.
    pub(crate) fn issue_moves<M: Model<State = S>, R: Source>(
        &mut self,
        model: &M,
        source: &mut R,
        command: u8,
        tips: &mut [u16],
    )
        requires room { length tips.old ≤ self.old.free }
        requires map { HasMapAll self.old tips.old }
        requires supplied { (R.supply source.old).can (length tips.old) ≡ true }
        ensures rest { R.supply source.new ≡ after (length tips.old) (R.supply source.old) }
        ensures same { R.recorded source.new ≡ R.recorded source.old }
        ensures free { self.new.free + length tips.old ≡ self.old.free }
        ensures moved { Longer self.old self.new tips.old tips.new (λ k s. guarded_move S.State.kind (M.meaning model.now) s command ((R.supply source.old).to_come k)) (length tips.old) }
    {
        for tip in tips.iter_mut() {
            let parent = *tip;
            let old = self.state_of(parent);
            let state = move_of(model, old, command, next_number(source));
            *tip = self.issue(state, Some(parent));
        }
    }

    // The score of the newest state of each path; their total.
    pub(crate) fn score_tips<M: Model<State = S>>(
        &self,
        model: &M,
        reading: u8,
        tips: &ArrayVec<u16, 256>,
        weights: &mut ArrayVec<u16, 256>,
    ) -> u32
        requires { (i : ℕ) → i < length tips.now.items → slice_index tips.now.items i < length self.now.nodes.now }
        ensures number { length weights.new.items ≡ length tips.now.items }
        ensures scores { (i : ℕ) (d : S) → i < length tips.now.items → slice_index weights.new.items i ≡ guarded_score S.State.kind (M.meaning model.now) (slice_index_or (states_of self.now) (slice_index tips.now.items i) d) reading }
        ensures sum { result ≡ total weights.new.items }
    {
        let mut sum = 0;
        weights.clear();
        for tip in tips.iter() {
            let state = self.state_of(*tip);
            let weight = score_of(model, state, reading);
            weights.push(weight);
            sum += u32::from(weight);
        }
        sum
    }

    // The node of each parent is named once more; these nodes.
    fn retain_parents(&mut self, old: &ArrayVec<u16, 256>, parents: &[u32]) -> ArrayVec<u16, 256>
        requires fits { length parents.now ≤ 256 }
        requires below { (k : ℕ) → k < length parents.now → slice_index parents.now k < length old.now.items }
        requires tree { HasTreeFew self.old old.now.items }
        ensures kept { Keeps self.old.nodes.now self.new.nodes.now }
        ensures free { self.new.free ≡ self.old.free }
        ensures children { result.items ≡ map (slice_index old.now.items) parents.now }
        ensures tree { (w serial : ℕ → ℕ) (issued : ℕ) → IsTree self.old w serial issued → IsTree self.new (λ k. w k + sum_by (is_node k) result.items) serial issued }
    {
        let mut children = ArrayVec::new();
        for parent in parents {
            let node = old[*parent as usize];
            self.retain(node);
            children.push(node);
        }
        children
    }

    // The nodes of the parents take the place of the tips; how many nodes were freed.
    pub(crate) fn resettle(&mut self, tips: &mut ArrayVec<u16, 256>, parents: &[u32]) -> u32
        requires fits { length parents.now ≤ 256 }
        requires below { (k : ℕ) → k < length parents.now → slice_index parents.now k < length tips.old.items }
        requires tree { HasTreeFew self.old tips.old.items }
        ensures kept { Keeps self.old.nodes.now self.new.nodes.now }
        ensures freed { self.new.free ≡ self.old.free + result }
        ensures children { tips.new.items ≡ map (slice_index tips.old.items) parents.now }
        ensures tree { (w serial : ℕ → ℕ) (issued : ℕ) → IsTree self.old (λ k. w k + sum_by (is_node k) tips.old.items) serial issued → IsTree self.new (λ k. w k + sum_by (is_node k) tips.new.items) serial issued }
    {
        let children = self.retain_parents(tips, parents);
        let freed = self.release_all(tips);
        *tips = children;
        freed
    }
}
