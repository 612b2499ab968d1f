// Why a field is refused. Fields count from 1.
ghost use Rattle.std.specs.Prelude.{◌≡◌};
ghost use Rattle.fields.specs.Faults.{fault_number, place_of};

// Each variant keeps its field: a struct of a field and a kind would have these variants again, and say no more.
#[derive(Clone, Copy, PartialEq, Eq, Debug)]
pub enum FieldFault {
    // 5: it is empty
    Empty { field: usize },
    // 6: it has a byte that is no digit
    NotDigit { field: usize },
    // 7: its number is above its limit
    AboveLimit { field: usize },
}

impl FieldFault {
    // The number that a report prints.
    pub fn number(self) -> u8
        ensures { result ≡ fault_number self }
    {
        match self {
            FieldFault::Empty { .. } => 5,
            FieldFault::NotDigit { .. } => 6,
            FieldFault::AboveLimit { .. } => 7,
        }
    }

    // The field that has the fault.
    pub fn field(self) -> usize
        ensures { result ≡ place_of self }
    {
        match self {
            FieldFault::Empty { field }
            | FieldFault::NotDigit { field }
            | FieldFault::AboveLimit { field } => field,
        }
    }
}
