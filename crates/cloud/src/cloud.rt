// The cloud.
ghost use Rattle.cloud.specs.Representations.{SomeFilterOf};

use crate::forest::Forest;
use crate::node::Node;
use arrayvec::ArrayVec;
use filter::phase::Phase;

// A particle filter: up to 256 particles, by the newest nodes of their paths, with 16 places for paths that are held.
#[derive(Drop)]
pub struct Cloud<'a, S> {
    pub(crate) forest: Forest<'a, S>,
    // the lent nodes past those that the tree uses, which no call touches
    pub(crate) rest: &'a mut [Node<S>],
    // the newest node of each particle
    pub(crate) tips: ArrayVec<u16, 256>,
    // the weight of each particle; apart from the tips, since resampling takes a slice of weights, and a call has no heap for a copy
    pub(crate) weights: ArrayVec<u16, 256>,
    // the node of each open place; an array, since a place stays where it is while others open and close
    pub(crate) holds: [Option<u16>; 16],
    pub(crate) phase: Phase,
    pub(crate) round: u32,
    pub(crate) stamp: u16,
    ghost represented: { SomeFilterOf forest.nodes.now forest.head forest.free tips.items weights.items holds phase round stamp },
}
