// Why a line or a run was refused; each layer carries the one below whole.
ghost use Rattle.std.specs.Prelude.{◌≡◌};
ghost use Rattle.logs.specs.declared.fault.LineFault.TheVariants.{Field};
ghost use Rattle.logs.specs.declared.fault.RunFault.TheVariants.{Line, Call};
ghost use Rattle.logs.specs.Faults.{line_number, line_place, run_number, run_place};

use fields::fault::FieldFault;
use refusals::Refusal;

#[derive(Clone, Copy)]
pub enum LineFault {
    // 2: the line is longer than 100 bytes
    TooLong,
    // 3: the first field is not one letter of this program
    UnknownLetter,
    // 4: the letter has another number of fields
    FieldCount,
    // 5 to 7
    Field(FieldFault),
}

#[derive(Clone, Copy)]
pub enum RunFault {
    // 1: the input is longer than 32,768 bytes
    InputTooLong,
    // 2 to 7
    Line(LineFault),
    // 8 to 16
    Call(Refusal),
}

// Written out: a derived `From` has no contract, and clauses name the fault.
impl From<FieldFault> for LineFault {
    ghost from_gives = { λ f r. r ≡ Field f };

    fn from(fault: FieldFault) -> LineFault {
        LineFault::Field(fault)
    }
}

impl From<LineFault> for RunFault {
    ghost from_gives = { λ f r. r ≡ Line f };

    fn from(fault: LineFault) -> RunFault {
        RunFault::Line(fault)
    }
}

impl From<Refusal> for RunFault {
    ghost from_gives = { λ e r. r ≡ Call e };

    fn from(refusal: Refusal) -> RunFault {
        RunFault::Call(refusal)
    }
}

impl LineFault {
    // The number that a report prints.
    pub fn number(self) -> u8
        ensures { result ≡ line_number self }
    {
        match self {
            LineFault::TooLong => 2,
            LineFault::UnknownLetter => 3,
            LineFault::FieldCount => 4,
            LineFault::Field(fault) => fault.number(),
        }
    }

    // The field that a report names.
    pub fn place(self) -> Option<usize>
        ensures { result ≡ line_place self }
    {
        match self {
            LineFault::Field(fault) => Some(fault.field()),
            _ => None,
        }
    }
}

impl RunFault {
    // The number that a report prints.
    pub fn number(self) -> u8
        ensures { result ≡ run_number self }
    {
        match self {
            RunFault::InputTooLong => 1,
            RunFault::Line(fault) => fault.number(),
            RunFault::Call(refusal) => refusal.number(),
        }
    }

    // The field that a report names.
    pub fn place(self) -> Option<usize>
        ensures { result ≡ run_place self }
    {
        match self {
            RunFault::Line(fault) => fault.place(),
            _ => None,
        }
    }
}
