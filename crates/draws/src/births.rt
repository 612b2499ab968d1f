// Rows of births.
ghost use Rattle.std.specs.Prelude.{◌≡◌, true, false, length, is_ok, OnOk};
ghost use Rattle.draws.specs.Rows.{births, all_states};
ghost use Rattle.draws.specs.Replies.{births_reply, row_after, supply_after};

use crate::range::{ensure_supplied, in_range};
use crate::steps::step_all;
use models::model::Model;
use refusals::Refusal;
use sources::Source;

// Draws a birth into each place of the row, in its order, and answers how many. The row is lent, since no call takes heap.
// What a refusal leaves alone is said of before and after, which no type of the row or the source could carry.
pub fn draw_births<M: Model, R: Source>(
    model: &M,
    source: &mut R,
    row: &mut [M::State],
) -> Result<usize, Refusal>
    ensures reply { result ≡ births_reply (R.supply source.old) (length row.old) }
    ensures row { row.new ≡ row_after result (births (M.meaning model.now) (R.supply source.old) (length row.old)) row.old }
    ensures rest { R.supply source.new ≡ supply_after result (R.supply source.old) }
    ensures refused { is_ok result ≡ false → source.new ≡ source.old }
    ensures states { OnOk result (all_states M.State.State.kind row.new ≡ true) }
{
    if !in_range(row.len()) {
        return Err(Refusal::OutOfRange);
    }
    ensure_supplied(source, row.len())?;
    step_all(source, row, |_, number| Ok(model.birth(number)));
    Ok(row.len())
}
