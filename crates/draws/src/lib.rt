// Rows of states, drawn from any model with any source.
#![tactic(auto)]

pub mod births;
pub mod cart;
pub mod moves;
mod range;
mod steps;

pub use births::draw_births;
pub use moves::draw_moves;

#[cfg(test)]
mod tests;
