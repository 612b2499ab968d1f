// Why a call is refused. A refused call changes nothing.
#![tactic(auto)]

ghost use Rattle.std.specs.Prelude.{◌≡◌};
ghost use Rattle.refusals.specs.Numbers.{number_of};

#[derive(Clone, Copy, PartialEq, Eq, Debug)]
pub enum Refusal {
    // the call does not belong to this phase
    WrongPhase = 8,
    // the number of particles is not 1 to 256, a particle is not below it, or a lag is above the round
    OutOfRange = 9,
    // the model does not know the command or the reading, or the code is no state's
    Unknown = 10,
    // the hold has another stamp, or its place is closed
    NotHeld = 11,
    // every hold place is open
    NoPlaceLeft = 12,
    // fewer nodes are free than are needed
    NoNodesLeft = 13,
    // the source cannot give the numbers that are needed
    SourceDry = 14,
    // all scores are 0
    AllZero = 15,
    // the row for the answer is too short, or the record of numbers is full
    NoRoom = 16,
}

impl Refusal {
    // The number that a report prints.
    pub fn number(self) -> u8
        ensures { result ≡ number_of self }
    {
        self as u8
    }
}
