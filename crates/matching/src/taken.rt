// The board parts that are taken; all are untaken again when the guard goes.
ghost use Rattle.std.specs.Prelude.{◌≡◌, ℕ, ◌<◌, ◌≤◌, ◌&&◌, length, replicate, ◌==◌, slice_index, slice_set};
ghost use Rattle.circuit.specs.Circuit.{in_cell, first};

use super::cell::Cell;
use super::seen::Seen;
use circuit::Board;

pub(super) struct Taken<'a> {
    bytes: &'a mut [u8],
}

impl Drop for Taken<'_> {
    fn drop(self)
        ensures { self.exit.0.now ≡ replicate (length self.entry.bytes.now) 0 }
    {
        self.bytes.fill(0);
        let Taken { bytes: _ } = self;
    }
}

impl<'a> Taken<'a> {
    // Every part begins untaken.
    pub(super) fn over(bytes: &'a mut [u8]) -> Taken<'a>
        ensures after { result.bytes.now ≡ replicate (length bytes.old) 0 }
        ensures lender { result.bytes.ghost_name ≡ bytes.entry.ghost_name }
    {
        bytes.fill(0);
        Taken { bytes }
    }

    pub(super) fn len(&self) -> usize
        ensures { result ≡ length self.now.bytes.now }
    {
        self.bytes.len()
    }

    pub(super) fn mark(&mut self, part: usize)
        requires { part < length self.old.bytes.now }
        ensures after { self.new.bytes.now ≡ slice_set self.old.bytes.now part 1 }
        ensures lender { self.new.bytes.ghost_name ≡ self.old.bytes.ghost_name }
    {
        self.bytes[part] = 1;
    }

    // The smallest untaken part of the cell.
    pub(super) fn first_free<B: Board>(&self, board: &Seen<'_, B>, cell: Cell) -> Option<u16>
        requires { length (B.Board.means board.now.circuit.now).classes ≤ length self.now.bytes.now }
        ensures { result ≡ first (λ v. (slice_index self.now.bytes.now v == 0) && in_cell (B.Board.means board.now.circuit.now) board.now.start.now cell.class cell.mask v) (length (B.Board.means board.now.circuit.now).classes) }
    {
        (0..board.parts()).find(|v| self.bytes[*v as usize] == 0 && board.in_cell(*v, cell))
    }
}
