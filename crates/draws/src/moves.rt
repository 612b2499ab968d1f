// Rows of moves.
ghost use Rattle.std.specs.Prelude.{◌≡◌, true, false, length, is_ok, OnOk};
ghost use Rattle.draws.specs.Rows.{moves, all_states};
ghost use Rattle.draws.specs.Replies.{moves_reply, row_after, supply_after};

use crate::range::{ensure_supplied, in_range};
use crate::steps::step_all;
use models::model::Model;
use models::state::State;
use refusals::Refusal;
use sources::Source;

fn are_states<S: State>(row: &[S]) -> bool
    ensures { result ≡ all_states S.State.kind row.now }
{
    row.iter().all(|state| state.is_state())
}

// Moves each state of the row under the command, by a number of its own in the row's order, and answers how many.
pub fn draw_moves<M: Model, R: Source>(
    model: &M,
    source: &mut R,
    command: u8,
    row: &mut [M::State],
) -> Result<usize, Refusal>
    ensures reply { result ≡ moves_reply M.State.State.kind (M.meaning model.now) command (R.supply source.old) row.old }
    ensures row { row.new ≡ row_after result (moves (M.meaning model.now) command (R.supply source.old) row.old) row.old }
    ensures rest { R.supply source.new ≡ supply_after result (R.supply source.old) }
    ensures refused { is_ok result ≡ false → source.new ≡ source.old }
    ensures states { OnOk result (all_states M.State.State.kind row.new ≡ true) }
{
    if !in_range(row.len()) {
        return Err(Refusal::OutOfRange);
    }
    if !model.knows_command(command) || !are_states(row) {
        return Err(Refusal::Unknown);
    }
    ensure_supplied(source, row.len())?;
    step_all(
        source,
        row,
        |state, number| model.advance(state, command, number),
    );
    Ok(row.len())
}
