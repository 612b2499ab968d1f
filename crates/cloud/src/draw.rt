// The next number of a source, and the moves and scores of a model.
ghost use Rattle.std.specs.Prelude.{◌≡◌, ◌≤◌, true};
ghost use Rattle.sources.specs.Supplies.{after};
ghost use Rattle.cloud.specs.Guards.{guarded_move, guarded_score};

use models::model::Model;
use models::state::State;
use sources::Source;

// The next number.
pub(crate) fn next_number<R: Source>(source: &mut R) -> u32
    requires { (R.supply source.old).can 1 ≡ true }
    ensures value { result ≡ (R.supply source.old).to_come 0 }
    ensures rest { R.supply source.new ≡ after 1 (R.supply source.old) }
    ensures same { R.recorded source.new ≡ R.recorded source.old }
{
    source.draw().unwrap()
}

// The state moved under the command by the number; what is no state stays as it is.
pub(crate) fn move_of<M: Model>(model: &M, state: M::State, command: u8, number: u32) -> M::State
    ensures { result ≡ guarded_move M.State.State.kind (M.meaning model.now) state command number }
{
    model.advance(state, command, number).unwrap_or(state)
}

// The score of a state at the reading; what is no state has score 0.
pub(crate) fn score_of<M: Model>(model: &M, state: M::State, reading: u8) -> u16
    ensures { result ≡ guarded_score M.State.State.kind (M.meaning model.now) state reading }
{
    model.score(state, reading).unwrap_or(0)
}
