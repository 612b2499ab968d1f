// A layer whose moves sometimes fail.
ghost use Rattle.std.specs.Prelude.{◌≡◌};
ghost use Rattle.models.specs.Layers.{slipping};
ghost use Rattle.models.specs.Laws.{slipping_lawful};

use crate::model::Model as FilterModel;
use crate::state::{State, ensure_state};
use refusals::Refusal;

// With a chance of so many in 256, a move leaves the state as it is.
#[derive(Drop)]
pub struct Slip<M> {
    pub chance: u8,
    pub below: M,
}

impl<M: FilterModel> FilterModel for Slip<M> {
    type State = M::State;

    ghost meaning = { λ l. slipping l.chance (M.Model.meaning l.below) };

    ghost lawful = { λ l. slipping_lawful M.State.State.kind (M.Model.meaning l.below) l.chance (M.Model.lawful l.below) };

    // These three ask the model below, as in the floor: a trait for that would be longer than they are.
    fn knows_command(&self, command: u8) -> bool {
        self.below.knows_command(command)
    }

    fn knows_reading(&self, reading: u8) -> bool {
        self.below.knows_reading(reading)
    }

    fn birth(&self, number: u32) -> M::State {
        self.below.birth(number)
    }

    fn advance(&self, state: M::State, command: u8, number: u32) -> Result<M::State, Refusal> {
        let state = ensure_state(state)?;
        if !self.knows_command(command) {
            return Err(Refusal::Unknown);
        }
        if number >> 24 < u32::from(self.chance) {
            return Ok(state);
        }
        self.below.advance(state, command, number.wrapping_mul(256))
    }

    fn score(&self, state: M::State, reading: u8) -> Result<u16, Refusal> {
        self.below.score(state, reading)
    }
}
