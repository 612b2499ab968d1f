// What the calls of a cloud tell.

// How many nodes a call issued, and how many it freed.
#[derive(Clone, Copy, PartialEq, Eq, Debug)]
pub struct Change {
    pub issued: u32,
    pub freed: u32,
}

// What weighing tells: the total of the weights.
#[derive(Clone, Copy, PartialEq, Eq, Debug)]
pub struct Weighing {
    pub total: u32,
    pub change: Change,
}

// The right to a place in which a cloud keeps a path. It cannot be let fall: it is given back.
pub struct Hold {
    pub(crate) stamp: u16,
    pub(crate) place: u8,
}

// What holding tells: the hold.
pub struct Held {
    pub hold: Hold,
    pub change: Change,
}
