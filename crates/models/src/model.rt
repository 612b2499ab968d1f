// Models of what moves and what is measured.
ghost use Rattle.std.specs.Prelude.{◌≡◌};
ghost use Rattle.models.specs.Meanings.{Meaning, Lawful, move_reply, score_reply};

use crate::state::State;
use refusals::Refusal;

// A model over one kind of state. Each answer is that of its meaning, and no question changes it.
// Commands and readings are numbers here, since a log may ask any model for any. Inside a model they are enums, but for the grid's readings, which are distances.
pub trait Model {
    type State: State;

    ghost meaning: { Self → Meaning Self.State };

    // The command is one that moves can be asked for.
    fn knows_command(&self, command: u8) -> bool
        ensures { result ≡ (meaning self.now).commands command };

    // The reading is one that can be scored.
    fn knows_reading(&self, reading: u8) -> bool
        ensures { result ≡ (meaning self.now).readings reading };

    // A first state, drawn from the prior by the number.
    fn birth(&self, number: u32) -> Self::State
        ensures { result ≡ (meaning self.now).birth number };

    // The next state, drawn from the transition by the number.
    fn advance(&self, state: Self::State, command: u8, number: u32) -> Result<Self::State, Refusal>
        ensures { result ≡ move_reply Self.State.State.kind (meaning self.now) state command number };

    // The likelihood of the reading in the state.
    fn score(&self, state: Self::State, reading: u8) -> Result<u16, Refusal>
        ensures { result ≡ score_reply Self.State.State.kind (meaning self.now) state reading };

    ghost lawful: { (m : Self) → Lawful Self.State.State.kind (meaning m) };
}
