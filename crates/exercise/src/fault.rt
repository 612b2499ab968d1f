// Why an exercise has no answer.
ghost use Rattle.std.specs.Prelude.{◌≡◌, Some};
ghost use Rattle.exercise.specs.declared.fault.Fault.TheVariants.{Call};
ghost use Rattle.exercise.specs.declared.fault.Failure.TheVariants.{Memory, Told};
ghost use Rattle.exercise.specs.Faults.{fault_number, place_of, fault_text, failure_in};

use fields::fault::FieldFault;
use fields::list::ListFault;
use refusals::Refusal;
use std::alloc::AllocError;
use std::fmt;

#[derive(Clone, Copy)]
pub enum Fault {
    // 1: the input is longer than 32,768 bytes
    TooLong,
    // 4: there are not two lines, or the second has not one field
    Shape,
    // 5 to 7: a field, with the line that has it
    Field { line: u8, fault: FieldFault },
    // 9 or 15: the resampling is refused
    Call(Refusal),
}

impl Fault {
    // The number that the report prints.
    pub fn number(self) -> u8
        ensures { result ≡ fault_number self }
    {
        match self {
            Fault::TooLong => 1,
            Fault::Shape => 4,
            Fault::Field { fault, .. } => fault.number(),
            Fault::Call(refusal) => refusal.number(),
        }
    }

    // The line and the field that the report names.
    pub fn place(self) -> Option<(u8, usize)>
        ensures { result ≡ place_of self }
    {
        match self {
            Fault::Field { line, fault } => Some((line, fault.field())),
            _ => None,
        }
    }
}

impl fmt::Display for Fault {
    ghost output = { λ x. Some (fault_text x) };

    fn fmt<W: fmt::Write>(&self, f: &mut fmt::Formatter<W>) -> fmt::Result {
        let number = self.number();
        match self.place() {
            Some((line, field)) => writeln!(f, "!,{number},{line},{field}"),
            None => writeln!(f, "!,{number}"),
        }
    }
}

// A fault that the report tells, or want of memory, of which there is no report.
#[derive(Clone, Copy)]
pub enum Failure {
    Memory(AllocError),
    Told(Fault),
}

impl Failure {
    // What stopped the reading of a line's numbers.
    pub(crate) fn in_line(line: u8, fault: ListFault) -> Failure
        ensures { result ≡ failure_in line fault }
    {
        match fault {
            ListFault::Memory(error) => Failure::Memory(error),
            ListFault::Field(fault) => Failure::Told(Fault::Field { line, fault }),
        }
    }
}

// Written out: a derived `From` has no contract, and clauses name the fault.
impl From<AllocError> for Failure {
    ghost from_gives = { λ e r. r ≡ Memory e };

    fn from(error: AllocError) -> Failure {
        Failure::Memory(error)
    }
}

impl From<Fault> for Failure {
    ghost from_gives = { λ f r. r ≡ Told f };

    fn from(fault: Fault) -> Failure {
        Failure::Told(fault)
    }
}

impl From<Refusal> for Failure {
    ghost from_gives = { λ e r. r ≡ Told (Call e) };

    fn from(refusal: Refusal) -> Failure {
        Failure::Told(Fault::Call(refusal))
    }
}
