//! Three tables: a class for each part, an end for each net, and the joins.
#![tactic(auto)]

mod faults;
mod lists;

pub use faults::Misfit;
pub use faults::checks::first_misfit;
pub use lists::{NetList, Tables, holds, net_list};
