//! A tally over a lent table of entries, for every key kind with a total order.
#![tactic(auto)]

mod entry;
mod ops;
mod table;

pub use entry::Entry;
pub use ops::agree;
pub use table::Tally;
