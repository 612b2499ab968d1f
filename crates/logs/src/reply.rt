// What a machine replies to a line that it granted.
ghost use Rattle.std.specs.Prelude.{◌≡◌};
ghost use Rattle.logs.specs.Reports.{MapsPath};

// The codes of a path are a count of a row's numbers, or those numbers.
#[derive(Clone, Copy)]
pub enum Reply<T> {
    // S: nodes issued
    Started(u32),
    // A: nodes issued
    Advanced(u32),
    // W: the total of the weights
    Weighed(u32),
    // R: nodes freed
    Resampled(u32),
    // E: the sum and the total
    Shared((u32, u32)),
    // P: the codes
    Path(T),
    // F: nodes freed
    Finished(u32),
}

impl<T> Reply<T> {
    // The reply with what `f` makes of its path.
    pub(crate) fn map<U, F: FnOnce(T) -> U>(self, f: F) -> Reply<U>
        requires { (path : T) → self ≡ Reply.Path path → F.pre f path }
        ensures { MapsPath (F.post f) self result }
    {
        match self {
            Reply::Started(issued) => Reply::Started(issued),
            Reply::Advanced(issued) => Reply::Advanced(issued),
            Reply::Weighed(total) => Reply::Weighed(total),
            Reply::Resampled(freed) => Reply::Resampled(freed),
            Reply::Shared(share) => Reply::Shared(share),
            Reply::Path(path) => Reply::Path(f(path)),
            Reply::Finished(freed) => Reply::Finished(freed),
        }
    }
}
