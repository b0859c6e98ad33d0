//! Matching a start of a board's nets with a pattern's first nets.
#![tactic(auto)]

mod agree;
mod answer;
mod cell;
mod looks;
mod mapping;
mod seen;
mod start;
mod taken;

pub use answer::MapAnswer;
pub use looks::differ;
pub use mapping::map;
pub use start::CellTest;
