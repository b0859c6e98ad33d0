//! Labels of parts: two kinds, and one labelling for every kind.
#![tactic(auto)]

mod kinds;
mod labelling;

pub use kinds::{Catalogue, Label, Measured};
pub use labelling::label_parts;
