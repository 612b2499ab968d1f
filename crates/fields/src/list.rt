// The numbers in all fields of a line.
ghost use Rattle.std.specs.Prelude.{◌≡◌, alloc_error};
ghost use Rattle.fields.specs.declared.list.ListFault.TheVariants.{Memory, Field};
ghost use Rattle.fields.specs.Lists.{Reads, numbers_of};
ghost use Rattle.fields.specs.Cuts.{fields};

use crate::fault::FieldFault;
use crate::number::read_field;
use std::alloc::{AllocError, AllocFailed, Global};

#[derive(Clone, Copy, PartialEq, Eq, Debug)]
pub enum ListFault {
    Memory(AllocError),
    Field(FieldFault),
}

// Written out: a derived `From` has no contract, and clauses name the fault.
impl From<FieldFault> for ListFault {
    ghost from_gives = { λ f r. r ≡ Field f };

    fn from(fault: FieldFault) -> ListFault {
        ListFault::Field(fault)
    }
}

impl<T: Drop> From<AllocFailed<T>> for ListFault {
    ghost from_gives = { λ _ r. r ≡ Memory alloc_error };

    fn from(full: AllocFailed<T>) -> ListFault {
        ListFault::Memory(full.into())
    }
}

// The numbers of a line's fields, each at most the limit; the leftmost fault is the one that is told.
pub fn read_numbers(heap: Global, line: &[u8], limit: u16) -> Result<Vec<u16>, ListFault>
    ensures { Reads result (numbers_of 1 limit (fields line.now)) }
{
    let mut numbers = Vec::new(heap);
    for field in line.split(|byte| *byte == b',') {
        // one more than the numbers read so far; a `zip` with `1..` would count the same again
        let number = read_field(field, numbers.len() + 1, u32::from(limit))?;
        numbers.push(number as u16)?;
    }
    Ok(numbers)
}
