// The recorded source.
ghost use Rattle.std.specs.Prelude.{◌≤◌};
ghost use Rattle.sources.specs.Rows.{Words};

pub mod recording;

// Up to 512 recorded numbers, of which those before the place were drawn.
// An array with two numbers beside it: a Vec or an ArrayVec is not Copy, as this is, and a source takes no heap.
#[derive(Clone, Copy)]
pub struct Recorded {
    numbers: [u32; 512],
    count: usize,
    place: usize,
    ghost few: { count ≤ 512 },
    ghost within: { place ≤ count },
    ghost words: { Words numbers },
}
