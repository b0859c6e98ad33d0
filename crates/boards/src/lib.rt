//! Board stores: the flat board over three tables, and the layer that blanks nets of any board.
#![tactic(auto)]

mod blanking;
mod flat;

pub use blanking::Blanking;
pub use flat::{FlatBoard, check};
