// A layer whose scores have a least value.
ghost use Rattle.std.specs.Prelude.{◌≡◌, ◌≤◌};
ghost use Rattle.models.specs.Layers.{floored};
ghost use Rattle.models.specs.Laws.{floored_lawful};

use crate::model::Model as FilterModel;
use crate::state::State;
use refusals::Refusal;

// No score is below the least one.
#[derive(Drop)]
pub struct Floor<M> {
    pub least: u16,
    pub below: M,
    ghost small: { least ≤ 65535 },
}

impl<M: FilterModel> FilterModel for Floor<M> {
    type State = M::State;

    ghost meaning = { λ l. floored l.least (M.Model.meaning l.below) };

    ghost lawful = { λ l. floored_lawful M.State.State.kind (M.Model.meaning l.below) l.least l.small (M.Model.lawful l.below) };

    // These three ask the model below, as in the slip: a trait for that would be longer than they are.
    fn knows_command(&self, command: u8) -> bool {
        self.below.knows_command(command)
    }

    fn knows_reading(&self, reading: u8) -> bool {
        self.below.knows_reading(reading)
    }

    fn birth(&self, number: u32) -> M::State {
        self.below.birth(number)
    }

    fn advance(&self, state: M::State, command: u8, number: u32) -> Result<M::State, Refusal> {
        self.below.advance(state, command, number)
    }

    fn score(&self, state: M::State, reading: u8) -> Result<u16, Refusal> {
        let score = self.below.score(state, reading)?;
        Ok(self.least.max(score))
    }
}
