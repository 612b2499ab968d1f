// The input of an exercise: a line of weights, and a line with the drawn number.
ghost use Rattle.std.specs.Prelude.{◌≡◌, ℕ, List, IfOk, Ok, vec_items};
ghost use Rattle.std.specs.Option.{option_map};
ghost use Rattle.fields.specs.Cuts.{fields, lines};
ghost use Rattle.exercise.specs.Inputs.{pair_of, two_lines, only_field, shape_of, weights_of, drawn_of, exercise_of};
ghost use Rattle.exercise.specs.Outcomes.{in_result, Yields, exercise_view};
ghost use Rattle.exercise.specs.Written.{Written};

use crate::fault::{Failure, Fault};
use fields::cut::{cut, next_line};
pub use fields::input::LONGEST_INPUT;
use fields::list::read_numbers;
use fields::number::read_field;
use std::alloc::Global;

#[derive(Drop)]
pub struct Exercise {
    pub weights: Vec<u16>,
    pub drawn: u32,
}

// The two lines of a text that has two.
fn split_lines(text: &[u8]) -> Option<(&[u8], &[u8])>
    ensures { option_map pair_of result ≡ two_lines (lines text.now) }
{
    let (first, rest) = next_line(text)?;
    let (second, end) = next_line(rest)?;
    next_line(end).is_none().then_some((first, second))
}

// The field of a line that has one.
#[tactic(auto, using(fields::proofs::Cutting::fields_cut))]
fn sole_field(line: &[u8]) -> Option<&[u8]>
    ensures { option_map (λ x. x.now) result ≡ only_field (fields line.now) }
{
    let (field, more) = cut(line, b',');
    more.is_none().then_some(field)
}

// The line of the weights, and the field of the drawn number.
fn read_shape(input: &[u8]) -> Result<(&[u8], &[u8]), Fault>
    ensures { in_result pair_of result ≡ shape_of input.now }
{
    if input.len() > LONGEST_INPUT {
        return Err(Fault::TooLong);
    }
    let (first, second) = split_lines(input).ok_or(Fault::Shape)?;
    let field = sole_field(second).ok_or(Fault::Shape)?;
    Ok((first, field))
}

fn read_weights(heap: Global, line: &[u8]) -> Result<Vec<u16>, Failure>
    ensures { Yields vec_items result (weights_of line.now) }
{
    read_numbers(heap, line, u16::MAX).map_err(|fault| Failure::in_line(1, fault))
}

fn read_drawn(field: &[u8]) -> Result<u32, Fault>
    ensures { result ≡ drawn_of field.now }
{
    read_field(field, 1, u32::MAX).map_err(|fault| Fault::Field { line: 2, fault })
}

// The weights and the drawn number, or the first fault. An exercise is read exactly when the input is written in its form.
pub fn read_exercise(heap: Global, input: &[u8]) -> Result<Exercise, Failure>
    ensures read { Yields exercise_view result (exercise_of input.now) }
    ensures written { IfOk result (λ e. Written e.weights.items e.drawn input.now) }
    ensures all { (ws : List ℕ) (n : ℕ) → Written ws n input.now → exercise_of input.now ≡ Ok (ws, n) }
{
    let (line, field) = read_shape(input)?;
    let weights = read_weights(heap, line)?;
    let drawn = read_drawn(field)?;
    Ok(Exercise { weights, drawn })
}
