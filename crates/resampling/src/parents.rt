// The parents of a resampling.
ghost use Rattle.std.specs.Prelude.{◌≡◌, ◌+◌, ◌*◌, ◌<◌, ◌≤◌, length, take, IfOk};
ghost use Rattle.resampling.specs.Marks.{total, before, owner, offset, parents};
ghost use Rattle.resampling.specs.Calls.{parents_reply, row_after};
ghost use Rattle.resampling.specs.Systematic.{Systematic};

use crate::total::{offset_of, total_weight};
use refusals::Refusal;

// A pass over the particles: the one where it stands, and the sum of the weights up to and with it.
#[derive(Clone, Copy)]
struct Pass<'a> {
    weights: &'a [u16],
    particle: usize,
    sum: u64,
    ghost few: { length weights.now ≤ 256 },
    ghost low: { total weights.now ≤ 16776960 },
    ghost inside: { particle < length weights.now },
    ghost summed: { sum ≡ before weights.now (particle + 1) },
}

impl<'a> Pass<'a> {
    // At the first particle.
    fn over(weights: &'a [u16]) -> Self
        requires some { 0 < length weights.now }
        requires few { length weights.now ≤ 256 }
        requires low { total weights.now ≤ 16776960 }
        ensures weights { result.weights.now ≡ weights.now }
        ensures first { result.particle ≡ 0 }
    {
        Pass {
            weights,
            particle: 0,
            sum: u64::from(weights[0]),
        }
    }

    // Goes on to the particle that has the mark, and answers it; the marks come in rising order.
    // The index is counted by hand: a particle may have many marks or none, and its number is the answer.
    fn owner_of(&mut self, mark: u64) -> u32
        requires from { length self.old.weights.now * before self.old.weights.now self.old.particle ≤ mark }
        requires upto { mark < length self.old.weights.now * total self.old.weights.now }
        ensures owner { result ≡ owner self.old.weights.now mark }
        ensures weights { self.new.weights.now ≡ self.old.weights.now }
        ensures there { self.new.particle ≡ result }
    {
        while self.weights.len() as u64 * self.sum <= mark {
            let next = self.particle + 1;
            self.sum += u64::from(self.weights[next]);
            self.particle = next;
        }
        self.particle as u32
    }
}

// Particles go up with the marks, so that one pass over them finds all parents.
// The bounds on the weights are asked for: `total_weight` tests them once, and a type of its own would serve this one call.
fn write_by_marks(weights: &[u16], whole: u32, first: u32, row: &mut [u32])
    requires few { length weights.now ≤ 256 }
    requires room { length row.old ≡ length weights.now }
    requires sum { whole ≡ total weights.now }
    requires low { whole ≤ 16776960 }
    requires inside { first < whole }
    ensures { row.new ≡ parents weights.now first }
{
    let mut pass = Pass::over(weights);
    for (k, parent) in row.iter_mut().enumerate() {
        *parent = pass.owner_of(u64::from(first) + k as u64 * u64::from(whole));
    }
}

// Writes the parent of each new particle into the front of the row, and answers how many there are.
// The row is lent, since a resampling takes no heap; so the answer is a count.
pub fn write_parents(weights: &[u16], drawn: u32, row: &mut [u32]) -> Result<usize, Refusal>
    ensures reply { result ≡ parents_reply weights.now (length row.old) }
    ensures row { row.new ≡ row_after result (parents weights.now (offset drawn (total weights.now))) row.old }
    ensures systematic { IfOk result (λ n. Systematic weights.now (offset drawn (total weights.now)) (take n row.new)) }
{
    let whole = total_weight(weights)?;
    if row.len() < weights.len() {
        return Err(Refusal::NoRoom);
    }
    let front = &mut row[..weights.len()];
    write_by_marks(weights, whole, offset_of(drawn, whole), front);
    Ok(weights.len())
}
