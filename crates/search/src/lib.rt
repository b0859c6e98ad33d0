//! A search: every hit of a pattern on a board, one after another, in as many calls as the caller likes.
#![tactic(auto)]

mod bookmark;
mod calls;
mod span;
mod tries;

pub use bookmark::Search;
pub use calls::Answer;
