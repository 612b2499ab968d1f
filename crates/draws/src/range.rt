// How many places a row may have.
ghost use Rattle.std.specs.Prelude.{◌≡◌, true};
ghost use Rattle.draws.specs.Replies.{in_range, supplied};

use refusals::Refusal;
use sources::Source;

const MOST_PLACES: usize = 256;

// The row has 1 to 256 places.
pub(crate) fn in_range(places: usize) -> bool
    ensures { result ≡ in_range places }
{
    (1..=MOST_PLACES).contains(&places)
}

// The source can give as many numbers as there are places.
pub(crate) fn ensure_supplied<R: Source>(source: &R, places: usize) -> Result<(), Refusal>
    requires { in_range places ≡ true }
    ensures { result ≡ supplied (R.supply source.now) places }
{
    if !source.can_draw(places as u32) {
        return Err(Refusal::SourceDry);
    }
    Ok(())
}
