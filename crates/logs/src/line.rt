// The lines of a log, by their letter and numbers.

// The program that a log is written for.
#[derive(Clone, Copy, PartialEq, Eq, Debug)]
pub enum Program {
    Locate,
    Lift,
}

#[derive(Clone, Copy)]
pub enum Letter {
    Map,
    Seed,
    Record,
    Start,
    Advance,
    Weigh,
    Resample,
    Share,
    Path,
    Finish,
}

#[derive(Clone, Copy)]
pub enum Line {
    // M: a row of the map
    Map { row: u8, bits: u32 },
    // G: the value of the generator
    Seed { value: u32 },
    // D: a number for the recorded source
    Record { value: u32 },
    // S: so many particles
    Start { count: u16 },
    // A
    Advance { command: u8 },
    // W
    Weigh { reading: u8 },
    // R
    Resample,
    // E: with the lag that was written, if any
    Share { lag: Option<u16>, code: u16 },
    // P
    Path { particle: u16 },
    // F
    Finish,
}

// The fields after a line's letter, as many as a line can have.
// A `Vec` of them would ask for memory, the third place of an `ArrayVec` would have to stand for all that follow, and an Option for each would have no name for too many.
#[derive(Clone, Copy)]
pub enum Arguments<T> {
    Zero,
    One(T),
    Two(T, T),
    More,
}
