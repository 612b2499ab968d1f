// Lines, fields and numbers in typed text: reading and writing.
#![tactic(auto)]

pub mod cut;
pub mod fault;
pub mod input;
pub mod law;
pub mod list;
pub mod number;
#[cfg(test)]
mod tests;
pub mod written;
