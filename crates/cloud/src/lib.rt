// A particle filter over an ancestry tree in lent memory.
#![tactic(auto)]

pub mod cloud;
mod draw;
mod forest;
pub mod growing;
pub mod holding;
pub mod maker;
pub mod node;
pub mod reply;
pub mod theorem;
mod tree;
pub mod weighing;

pub use cloud::Cloud;
pub use node::Node;
pub use reply::{Change, Held, Hold, Weighing};
