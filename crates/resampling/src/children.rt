// The children of each particle.
ghost use Rattle.std.specs.Prelude.{◌≡◌, ◌<◌, ◌≤◌, true, ◌++◌, length, take, drop, replicate};
ghost use Rattle.resampling.specs.Calls.{all_below, children_reply, row_after};
ghost use Rattle.resampling.specs.Children.{children_of_each};

use crate::total::MOST_PARTICLES;
use refusals::Refusal;

fn are_below(parents: &[u32], limit: usize) -> bool
    ensures { result ≡ all_below limit parents.now }
{
    parents.iter().all(|parent| (*parent as usize) < limit)
}

#[tactic(auto, using(crate::proofs::Tallies::tallies))]
fn tally(parents: &[u32], counts: &mut [u32])
    requires few { length parents.now ≤ 256 }
    requires room { length parents.now ≤ length counts.old }
    requires known { all_below (length parents.now) parents.now ≡ true }
    requires cleared { take (length parents.now) counts.old ≡ replicate (length parents.now) 0 }
    ensures { counts.new ≡ children_of_each parents.now ++ drop (length parents.now) counts.old }
{
    for parent in parents {
        let i = *parent as usize;
        counts[i] += 1;
    }
}

// Writes how many of the parents each particle is into the front of the row, and answers how many particles there are.
// The row is lent, since a resampling takes no heap; so the answer is a count.
pub fn write_children(parents: &[u32], row: &mut [u32]) -> Result<usize, Refusal>
    ensures reply { result ≡ children_reply parents.now (length row.old) }
    ensures row { row.new ≡ row_after result (children_of_each parents.now) row.old }
{
    let n = parents.len();
    if !(1..=MOST_PARTICLES).contains(&n) || !are_below(parents, n) {
        return Err(Refusal::OutOfRange);
    }
    if row.len() < n {
        return Err(Refusal::NoRoom);
    }
    row[..n].fill(0);
    tally(parents, row);
    Ok(n)
}
