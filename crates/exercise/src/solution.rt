// The worked answer of an exercise.
ghost use Rattle.std.specs.Prelude.{◌≡◌, IfOk, Some, vec_items};
ghost use Rattle.resampling.specs.Systematic.{Systematic};
ghost use Rattle.exercise.specs.Outcomes.{Yields, solution_view};
ghost use Rattle.exercise.specs.Answers.{parents_of, children_of, answer_of, answer_text};

use crate::fault::Failure;
use fields::written::AfterCommas;
use resampling::children::write_children;
use resampling::parents::write_parents;
use resampling::total::{offset_of, total_weight};
use std::alloc::Global;
use std::fmt;

#[derive(Drop)]
pub struct Solution {
    pub total: u32,
    pub offset: u32,
    pub parents: Vec<u32>,
    pub children: Vec<u32>,
}

impl fmt::Display for Solution {
    ghost output = { λ x. Some (answer_text (solution_view x)) };

    fn fmt<W: fmt::Write>(&self, f: &mut fmt::Formatter<W>) -> fmt::Result {
        let total = self.total;
        let offset = self.offset;
        let parents = AfterCommas(&self.parents);
        let children = AfterCommas(&self.children);
        write!(
            f,
            "total,{total}\noffset,{offset}\nparents{parents}\nchildren{children}\n"
        )
    }
}

// This and `children_of` stay two: a function over the call that writes would need that call's contract as a parameter.
fn parents_of(heap: Global, weights: &[u16], drawn: u32) -> Result<Vec<u32>, Failure>
    ensures { Yields vec_items result (parents_of weights.now drawn) }
{
    let mut parents = vec![in heap; 0u32; weights.len()]?;
    write_parents(weights, drawn, &mut parents)?;
    Ok(parents)
}

fn children_of(heap: Global, parents: &[u32]) -> Result<Vec<u32>, Failure>
    ensures { Yields vec_items result (children_of parents.now) }
{
    let mut children = vec![in heap; 0u32; parents.len()]?;
    write_children(parents, &mut children)?;
    Ok(children)
}

// Works the exercise out, or tells why it cannot be.
#[tactic(auto, using(crate::proofs::Working::the_children))]
pub fn solve(heap: Global, weights: &[u16], drawn: u32) -> Result<Solution, Failure>
    ensures answer { Yields solution_view result (answer_of weights.now drawn) }
    ensures systematic { IfOk result (λ s. Systematic weights.now s.offset s.parents.items) }
{
    let total = total_weight(weights)?;
    let offset = offset_of(drawn, total);
    let parents = parents_of(heap, weights, drawn)?;
    let children = children_of(heap, &parents)?;
    Ok(Solution {
        total,
        offset,
        parents,
        children,
    })
}
