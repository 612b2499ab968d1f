// Rows whose places are made one after another.
ghost use Rattle.std.specs.Prelude.{◌≡◌, true, length};
ghost use Rattle.sources.specs.Supplies.{after};
ghost use Rattle.draws.specs.Steps.{Stepped, Granted};

use refusals::Refusal;
use sources::Source;

// Each place of the row, in its order, becomes what the step makes of it and of the next number.
pub(crate) fn step_all<S: Copy, R: Source, F: Fn(S, u32) -> Result<S, Refusal>>(
    source: &mut R,
    row: &mut [S],
    step: F,
)
    requires callable { F.IsAlwaysCallable step }
    requires supplied { (R.supply source.old).can (length row.old) ≡ true }
    requires granted { Granted (F.post step) (R.supply source.old) row.old }
    ensures stepped { Stepped (F.post step) (R.supply source.old) row.old row.new }
    ensures rest { R.supply source.new ≡ after (length row.old) (R.supply source.old) }
{
    for place in row.iter_mut() {
        *place = step(*place, source.draw().unwrap()).unwrap();
    }
}
