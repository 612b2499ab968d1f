// Sources of numbers.
#![tactic(auto)]

pub mod generator;
pub mod recorded;
pub mod restore;
pub mod source;
pub mod theorem;

pub use generator::Generator;
pub use recorded::Recorded;
pub use restore::{Restore, peek};
pub use source::Source;

#[cfg(test)]
mod tests;
