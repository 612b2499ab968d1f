// The maker of a cloud.
ghost use Rattle.std.specs.Prelude.{◌≡◌, length, drop};
ghost use Rattle.cloud.specs.Promises.{Begins};
ghost use Rattle.cloud.specs.Views.{view};

use crate::cloud::Cloud;
use crate::forest::make;
use crate::node::{MOST_NODES, Node};
use arrayvec::ArrayVec;
use filter::phase::Phase;

impl<S: Copy> Cloud<'_, S> {
    // A cloud with no particle, over the first 65,536 of the nodes at most. The stamp tells its holds from those of other clouds.
    pub fn new(nodes: &mut [Node<S>], stamp: u16) -> Cloud<'_, S>
        ensures begins { Begins (length nodes.old) stamp (view result) }
        ensures rest { result.rest.now ≡ drop 65536 nodes.old }
    {
        let used = nodes.len().min(MOST_NODES);
        let (front, rest) = nodes.split_at_mut(used);
        let forest = make(front);
        Cloud {
            forest,
            rest,
            tips: ArrayVec::new(),
            weights: ArrayVec::new(),
            holds: [None; 16],
            phase: Phase::Empty,
            round: 0,
            stamp,
        }
    }
}
