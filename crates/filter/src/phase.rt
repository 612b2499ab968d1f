// Where a filter stands between its calls.
#[derive(Clone, Copy, PartialEq, Eq, Debug)]
pub enum Phase {
    // there are no particles
    Empty,
    // all particles weigh the same
    Level,
    // each particle has the weight of a reading
    Weighed,
}
