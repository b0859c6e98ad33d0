//! The circuit that is sought.
#![tactic(auto)]

mod checks;
pub mod laws;
mod pattern;

pub use checks::check;
pub use pattern::Pattern;
