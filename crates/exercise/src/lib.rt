// A resampling exercise: weights and a drawn number are read, and the worked answer is written.
#![tactic(auto)]

pub mod fault;
pub mod input;
pub mod report;
pub mod solution;
