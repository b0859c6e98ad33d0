//! Circuits: refusals, the board interface, and what is proved of hits and cells.
#![tactic(auto)]

mod board;
pub mod laws;
mod refusal;

pub use board::{Board, class_of, part_of};
pub use refusal::{Reason, Refusal};
