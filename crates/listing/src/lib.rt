//! From the five sheets to the lines of the list.
#![tactic(auto)]

mod lister;
mod output;
mod step;

pub use lister::{list, list_hits};
pub use output::{Halt, Sink};
pub use step::Outcome;
