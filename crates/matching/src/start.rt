// The cell test of a start.
ghost use Rattle.std.specs.Prelude.{◌≡◌, ◌≤◌, ◌&&◌, length, Decides, nat_le};
ghost use Rattle.circuit.specs.Circuit.{meets_cell_rule, AllBelow, Distinct, HitBy, same_class};
ghost use Rattle.pattern.specs.Drawn.{drawn};

use super::agree::cells_agree;
use super::cell::Cell;
use super::seen::Seen;
use circuit::Board;
use pattern::Pattern;
use tally::Entry;

// Room for the cells of both sides: at most 16 nets of at most 64 parts each.
#[derive(Drop)]
pub struct CellTest {
    pattern_room: [Entry<Cell>; 1024],
    board_room: [Entry<Cell>; 1024],
}

impl CellTest {
    pub fn new() -> CellTest {
        let none = Entry {
            key: Cell { class: 0, mask: 0 },
            count: 0,
        };
        CellTest {
            pattern_room: [none; 1024],
            board_room: [none; 1024],
        }
    }

    // Whether the start meets the cell rule; one longer than the pattern does not.
    // On a start of differing nets of the board, that is whether it is a hit of the cut pattern.
    pub fn holds<B: Board>(&mut self, p: &Pattern, b: &B, start: &[u16]) -> bool
        ensures rule { result ≡ (nat_le (length start.now) (length (drawn p.now).nets) && meets_cell_rule (drawn p.now) (length start.now) (B.Board.means b.now) start.now) }
        ensures hit { length start.now ≤ length (drawn p.now).nets → AllBelow (length (B.Board.means b.now).nets) start.now → Distinct start.now → Decides result (HitBy (same_class (drawn p.now) (B.Board.means b.now)) (drawn p.now) (length start.now) (B.Board.means b.now) start.now) }
    {
        if start.len() > p.net_count() as usize {
            return false;
        }
        let board = Seen::under(b, start);
        cells_agree(p, &board, &mut self.pattern_room, &mut self.board_room)
    }
}
