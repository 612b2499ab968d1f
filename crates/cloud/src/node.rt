// The nodes of the ancestry tree. What the tree does with a node's parent and count goes through `parent_of`, `count_of` and `relink`.
ghost use Rattle.std.specs.Prelude.{◌≡◌, ◌<◌, length, slice_set};
ghost use Rattle.cloud.specs.Links.{link, links, link_at, linked, no_link, states};

// A tree has no more nodes than a `u16` can name.
pub(crate) const MOST_NODES: usize = 65536;

// One state, with the node of the state before it if there is one, and how many nodes, particles and holds hang on it.
// A free node has count 0, and the next free node in the place of its parent. It is no enum of its own: memory is lent with a state in each node, and a node in use and a free one have the same three fields.
#[derive(Clone, Copy)]
pub struct Node<S> {
    pub(crate) state: S,
    count: u32,
    parent: Option<u16>,
}

impl<S> Node<S> {
    // A node with no parent, on which nothing hangs: memory for a tree.
    pub fn new(state: S) -> Self
        ensures state { result.state ≡ state }
        ensures link { link result ≡ no_link }
    {
        Node {
            state,
            count: 0,
            parent: None,
        }
    }

    // The node has this count and this parent, and its state as before.
    pub(crate) fn relink(&mut self, count: u32, parent: Option<u16>)
        ensures state { self.new.state ≡ self.old.state }
        ensures link { link self.new ≡ linked count parent }
    {
        self.count = count;
        self.parent = parent;
    }
}

// That the node is one of the list stands in each contract below and in the tree: it ties a number to what is lent, and no type of the number could carry it.

// How many nodes, particles and holds hang on the node.
pub(crate) fn count_of<S>(nodes: &[Node<S>], node: u16) -> u32
    requires { node < length nodes.now }
    ensures { result ≡ (link_at (links nodes.now) node).count }
{
    nodes[usize::from(node)].count
}

// The node's parent, or the free node after it.
pub(crate) fn parent_of<S>(nodes: &[Node<S>], node: u16) -> Option<u16>
    requires { node < length nodes.now }
    ensures { result ≡ (link_at (links nodes.now) node).parent }
{
    nodes[usize::from(node)].parent
}

// A node of the list is relinked.
pub(crate) fn relink<S>(nodes: &mut [Node<S>], node: u16, count: u32, parent: Option<u16>)
    requires { node < length nodes.old }
    ensures kept { states nodes.new ≡ states nodes.old }
    ensures links { links nodes.new ≡ slice_set (links nodes.old) node (linked count parent) }
{
    nodes[usize::from(node)].relink(count, parent);
}

// The node has this state, and its parent and its count as before.
pub(crate) fn set_state<S: Copy>(nodes: &mut [Node<S>], node: u16, state: S)
    requires { node < length nodes.old }
    ensures states { states nodes.new ≡ slice_set (states nodes.old) node state }
    ensures kept { links nodes.new ≡ links nodes.old }
{
    nodes[usize::from(node)].state = state;
}
