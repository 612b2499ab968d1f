// Rows of a cart's poses: a floor layer over a slip layer over the grid, with the generator.
// They are `draw_births` and `draw_moves` at one model and one source: their contracts speak of this cart's own numbers, and no generic contract does.
ghost use Rattle.std.specs.Prelude.{◌≡◌, true, false, length, is_ok, OnOk};
ghost use Rattle.sources.specs.Generators.{generator_supply};
ghost use Rattle.models.specs.Poses.{pose_kind};
ghost use Rattle.draws.specs.Carts.{cart_meaning};
ghost use Rattle.draws.specs.Rows.{births, moves, all_states};
ghost use Rattle.draws.specs.Replies.{births_reply, moves_reply, row_after, supply_after};

use crate::births::draw_births;
use crate::moves::draw_moves;
use models::floor::Floor;
use models::grid::Grid;
use models::pose::Pose;
use models::slip::Slip;
use refusals::Refusal;
use sources::Generator;

// Draws a birth of the cart into each place of the row.
pub fn cart_births(
    cart: &Floor<Slip<Grid>>,
    source: &mut Generator,
    row: &mut [Pose],
) -> Result<usize, Refusal>
    ensures reply { result ≡ births_reply (generator_supply source.old.value) (length row.old) }
    ensures row { row.new ≡ row_after result (births (cart_meaning cart.now.least cart.now.below.chance cart.now.below.below.rows) (generator_supply source.old.value) (length row.old)) row.old }
    ensures rest { generator_supply source.new.value ≡ supply_after result (generator_supply source.old.value) }
    ensures refused { is_ok result ≡ false → source.new ≡ source.old }
    ensures states { OnOk result (all_states pose_kind row.new ≡ true) }
{
    draw_births(cart, source, row)
}

// Moves each pose of the row under the command.
pub fn cart_moves(
    cart: &Floor<Slip<Grid>>,
    source: &mut Generator,
    command: u8,
    row: &mut [Pose],
) -> Result<usize, Refusal>
    ensures reply { result ≡ moves_reply pose_kind (cart_meaning cart.now.least cart.now.below.chance cart.now.below.below.rows) command (generator_supply source.old.value) row.old }
    ensures row { row.new ≡ row_after result (moves (cart_meaning cart.now.least cart.now.below.chance cart.now.below.below.rows) command (generator_supply source.old.value) row.old) row.old }
    ensures rest { generator_supply source.new.value ≡ supply_after result (generator_supply source.old.value) }
    ensures refused { is_ok result ≡ false → source.new ≡ source.old }
    ensures states { OnOk result (all_states pose_kind row.new ≡ true) }
{
    draw_moves(cart, source, command, row)
}
