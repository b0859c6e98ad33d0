ghost use Rattle.std.specs.Prelude.{◌≡◌, ℕ, ◌<◌, ◌≤◌, false, List, [], length, Decides, slice_index_or};
ghost use Rattle.pattern.specs.Drawn.{drawn};
ghost use Rattle.sieves.specs.Counts.{have_same_counts, SameCounts, looked_up, place, last};

use super::super::Sieve;
use super::super::counts::same_counts;
use super::TableSieve;
use circuit::Board;
use pattern::Pattern;

impl TableSieve {
    // Notes for each place and each net whether the net fits there.
    pub fn fill<B: Board>(&mut self, pattern: &Pattern, board: &B)
        ensures entries { (i f : ℕ) → i < 16 → f < 4096 → slice_index_or (slice_index_or self.new.fits i []) f false ≡ have_same_counts (drawn pattern.now) i (B.Board.means board.now) f }
        ensures means { (s : List ℕ) → 1 ≤ length s → length s ≤ 16 → last s < 4096 → Decides (looked_up self.new.fits s) (SameCounts (drawn pattern.now) (place s) (B.Board.means board.now) (last s)) }
    {
        for (place, row) in self.fits.iter_mut().enumerate() {
            for (net, fit) in row.iter_mut().enumerate() {
                *fit = same_counts(pattern, place as u16, board, net as u16);
            }
        }
    }
}

impl<B: Board> Sieve<B> for TableSieve {
    ghost keeps = { λ s _ _ start. looked_up s.fits start };

    fn ready(&mut self, pattern: &Pattern, board: &B) {
        self.fill(pattern, board);
    }

    fn keep(&self, _pattern: &Pattern, _board: &B, start: &[u16]) -> bool {
        let Some((last, before)) = start.split_last() else {
            return true;
        };
        let Some(row) = self.fits.get(before.len()) else {
            return true;
        };
        row.get(*last as usize).copied().unwrap_or(true)
    }
}
