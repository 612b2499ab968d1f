// The total of the weights, and the offset of the first mark.
ghost use Rattle.std.specs.Prelude.{◌≡◌, ◌*◌, ◌<◌, ◌≤◌, length, IfOk};
ghost use Rattle.resampling.specs.Marks.{total, offset};
ghost use Rattle.resampling.specs.Calls.{total_of};

use refusals::Refusal;

pub const MOST_PARTICLES: usize = 256;

fn sum_of(weights: &[u16]) -> u32
    requires { length weights.now ≤ 256 }
    ensures value { result ≡ total weights.now }
    ensures bound { result ≤ 16776960 }
{
    weights.iter().map(|weight| u32::from(*weight)).sum()
}

// The total of the weights of 1 to 256 particles, which are not all 0.
pub fn total_weight(weights: &[u16]) -> Result<u32, Refusal>
    ensures value { result ≡ total_of weights.now }
    ensures bound { IfOk result (λ w. (0 < w) × (w ≤ 16776960)) }
{
    if !(1..=MOST_PARTICLES).contains(&weights.len()) {
        return Err(Refusal::OutOfRange);
    }
    let sum = sum_of(weights);
    if sum == 0 {
        return Err(Refusal::AllZero);
    }
    Ok(sum)
}

// Where mark 0 stands: the drawn number, out of 2^32, of the total.
pub fn offset_of(drawn: u32, total: u32) -> u32
    ensures value { result ≡ offset drawn total }
    ensures below { 0 < total → result < total }
{
    ((u64::from(drawn) * u64::from(total)) / 4294967296) as u32
}
