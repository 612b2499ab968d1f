// Log lines, their faults, report lines, and the loop over a whole log.
#![tactic(auto)]

pub mod entry;
pub mod fault;
pub mod law;
pub mod line;
mod lines;
pub mod machine;
pub mod read;
pub mod reply;
pub mod run;
