//! Sheets: lines of fields, read into rows or one fault.
#![tactic(auto)]

mod entry;
mod fault;
pub mod laws;
mod load;
mod nets;
mod numbers;
mod reader;
mod rows;

pub use entry::Rail;
pub use fault::{Fault, File, Layer, Trouble};
pub use load::{load_nets, load_rails, load_rows};
pub use nets::NetTables;
pub use reader::{Field, Number, Piece, Reader, Word};
