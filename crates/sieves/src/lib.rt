//! Sieves: they drop starts with which no hit begins.
#![tactic(auto)]

ghost use Rattle.std.specs.Prelude.{◌≡◌, ℕ, Bool, true, List};
ghost use Rattle.circuit.specs.Circuit.{Circuit};
ghost use Rattle.promise.specs.Hits.{Fit};
ghost use Rattle.pattern.specs.Drawn.{drawn};

use circuit::Board;
use pattern::Pattern;

mod counts;
mod table;

pub use counts::{CountsSieve, same_counts};
pub use table::TableSieve;

// A sieve keeps neither pattern nor board: both are lent to each call, and may be others than it was readied for.
pub trait Sieve<B: Board> {
    // Which starts it keeps, for a pattern and a board.
    ghost keeps: { Self → Circuit → Circuit → List ℕ → Bool };

    // Leaves the sieve fit for the pattern and the board: it keeps every start with which a hit begins.
    fn ready(&mut self, pattern: &Pattern, board: &B)
        ensures { Fit (keeps self.new (drawn pattern.now) (B.Board.means board.now)) (drawn pattern.now) (B.Board.means board.now) };

    fn keep(&self, pattern: &Pattern, board: &B, start: &[u16]) -> bool
        ensures { result ≡ keeps self.now (drawn pattern.now) (B.Board.means board.now) start.now };
}

// Keeps every start.
#[derive(Clone, Copy, PartialEq, Eq, Debug)]
pub struct OpenSieve;

impl<B: Board> Sieve<B> for OpenSieve {
    ghost keeps = { λ _ _ _ _. true };

    fn ready(&mut self, _pattern: &Pattern, _board: &B) {}

    fn keep(&self, _pattern: &Pattern, _board: &B, _start: &[u16]) -> bool {
        true
    }
}
