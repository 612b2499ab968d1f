// Kinds of state, and the models of a particle filter over them.
#![tactic(auto)]

pub mod floor;
pub mod grid;
pub mod lift;
pub mod lift_state;
pub mod model;
mod placed;
pub mod pose;
mod range;
pub mod slip;
pub mod state;
pub mod theorem;
