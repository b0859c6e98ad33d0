// A try at one start.
ghost use Rattle.std.specs.Prelude.{◌≡◌, ◌≤◌, length};
ghost use Rattle.promise.specs.Hits.{passing};
ghost use Rattle.pattern.specs.Drawn.{drawn};

use circuit::Board;
use matching::{CellTest, differ};
use pattern::Pattern;
use sieves::Sieve;

// What the tries of a call go by, and their room for the cell test.
#[derive(Drop)]
pub(super) struct Tries<'a, B, S> {
    pub(super) pattern: &'a Pattern,
    pub(super) board: &'a B,
    pub(super) sieve: &'a S,
    pub(super) cells: CellTest,
}

impl<'a, B: Board, S: Sieve<B>> Tries<'a, B, S> {
    // Whether a start passes: its nets differ, the sieve keeps it and the cell rule holds. The sieve is asked first, since it drops most starts.
    pub(super) fn passes(&mut self, start: &[u16]) -> bool
        requires { length start.now ≤ length (drawn self.old.pattern.now).nets }
        ensures value { result ≡ passing (drawn self.old.pattern.now) (B.Board.means self.old.board.now) (S.Sieve.keeps self.old.sieve.now (drawn self.old.pattern.now) (B.Board.means self.old.board.now)) start.now }
        ensures pattern { self.new.pattern ≡ self.old.pattern }
        ensures board { self.new.board ≡ self.old.board }
        ensures sieve { self.new.sieve ≡ self.old.sieve }
    {
        self.sieve.keep(self.pattern, self.board, start)
            && differ(start)
            && self.cells.holds(self.pattern, self.board, start)
    }
}
