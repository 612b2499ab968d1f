// The report of an exercise.
ghost use Rattle.std.specs.Prelude.{◌≡◌, ℕ, List, IfOk, string_bytes};
ghost use Rattle.exercise.specs.Answers.{answer_of, result_of, result_text, report_of};
ghost use Rattle.exercise.specs.Outcomes.{Yields, solution_view};
ghost use Rattle.exercise.specs.Written.{Written};

use crate::fault::Failure;
use crate::input::read_exercise;
use crate::solution::{Solution, solve};
use std::alloc::{AllocError, Global};

fn answer(heap: Global, input: &[u8]) -> Result<Solution, Failure>
    ensures { Yields solution_view result (result_of input.now) }
{
    let exercise = read_exercise(heap, input)?;
    solve(heap, &exercise.weights, exercise.drawn)
}

// What is printed for an input; want of memory is the only other outcome.
pub fn report(heap: Global, input: &[u8]) -> Result<String, AllocError>
    ensures bytes { IfOk result (λ text. string_bytes text ≡ report_of input.now) }
    ensures worked { IfOk result (λ text. (ws : List ℕ) (n : ℕ) → Written ws n input.now → string_bytes text ≡ result_text (answer_of ws n)) }
{
    match answer(heap, input) {
        Ok(solution) => format!(in heap; "{solution}"),
        Err(Failure::Told(fault)) => format!(in heap; "{fault}"),
        Err(Failure::Memory(error)) => Err(error),
    }
}
