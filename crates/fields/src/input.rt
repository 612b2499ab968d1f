// What a program reads.
ghost use Rattle.std.specs.Prelude.{◌≡◌, ◌+◌, IfOk, IfSome, take};

use std::alloc::Global;
use std::io::{self, Read};

// Longer inputs are refused.
pub const LONGEST_INPUT: usize = 32768;

// The input, to one byte more than the longest, which tells that it is too long.
pub fn read_input<R: Read + Drop>(heap: Global, reader: R) -> io::Result<Vec<u8>>
    ensures { IfOk result (λ v. IfSome (R.remaining reader) (λ bs. v.items ≡ take (LONGEST_INPUT + 1) bs)) }
{
    let mut input = Vec::new(heap);
    reader
        .take(LONGEST_INPUT as u64 + 1)
        .read_to_end(&mut input)?;
    Ok(input)
}
