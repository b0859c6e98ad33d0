// The cell rule of a start.
ghost use Rattle.std.specs.Prelude.{◌≡◌, ℕ, ◌<◌, ◌≤◌, length};
ghost use Rattle.circuit.specs.Circuit.{meets_cell_rule};

use super::cell::Cell;
use super::seen::Seen;
use circuit::Board;
use tally::{Entry, agree};

// Whether as many pattern parts as board parts have each cell, over the pattern's first nets and the board's start.
pub(super) fn cells_agree<P: Board, B: Board>(
    p: &P,
    board: &Seen<'_, B>,
    pattern_room: &mut [Entry<Cell>],
    board_room: &mut [Entry<Cell>],
) -> bool
    requires few { length (P.Board.means p.now).classes ≤ 64 }
    requires pattern_room { 1024 ≤ length pattern_room.old }
    requires board_room { 1024 ≤ length board_room.old }
    ensures { result ≡ meets_cell_rule (P.Board.means p.now) (length board.now.start.now) (B.Board.means board.now.circuit.now) board.now.start.now }
{
    if !board.same_sizes(p) {
        return false;
    }
    let pattern = board.first_nets_of(p);
    agree(pattern.tally(pattern_room), board.tally(board_room))
}
