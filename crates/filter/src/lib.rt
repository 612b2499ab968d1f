// The reference filter: a bootstrap particle filter (Gordon, Salmond and Smith 1993) that copies every path. All of it is in the definitions.
#![tactic(auto)]

pub mod phase;
pub mod theorem;
