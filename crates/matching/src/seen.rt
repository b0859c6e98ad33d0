// A circuit under a start of its nets, and the cells of the parts on them.
ghost use Rattle.std.specs.Prelude.{◌≡◌, ℕ, suc, ◌+◌, ◌<◌, ◌≤◌, ◌∷◌, length, Decides, slice_index};
ghost use Rattle.circuit.specs.Circuit.{in_cell, mask, upto};
ghost use Rattle.tally.specs.InUse.{in_use};
ghost use Rattle.tally.specs.Tallies.{tallied};
ghost use Rattle.matching.specs.Orders.{by_cell};
ghost use Rattle.matching.specs.Keys.{SameSizes, cell_of, keys, sizes};

use super::cell::Cell;
use circuit::{Board, class_of, part_of};
use tally::{Entry, Tally};

// A pattern's nets in their own order.
static ORDER: [u16; 16] = [0, 1, 2, 3, 4, 5, 6, 7, 8, 9, 10, 11, 12, 13, 14, 15];

// A circuit, and a start of at most sixteen of its nets.
#[derive(Drop)]
pub(super) struct Seen<'a, C> {
    circuit: &'a C,
    start: &'a [u16],
    ghost short: { length start.now ≤ 16 },
}

impl<'a, C: Board> Seen<'a, C> {
    pub(super) fn under(circuit: &'a C, start: &'a [u16]) -> Seen<'a, C>
        requires { length start.now ≤ 16 }
        ensures circuit { result.circuit.now ≡ circuit.now }
        ensures start { result.start.now ≡ start.now }
    {
        Seen { circuit, start }
    }

    // A pattern under its first nets, as many as the start has.
    pub(super) fn first_nets_of<'p, P: Board>(&self, pattern: &'p P) -> Seen<'p, P>
        ensures circuit { result.circuit.now ≡ pattern.now }
        ensures start { result.start.now ≡ upto (length self.now.start.now) }
    {
        Seen::under(pattern, &ORDER[..self.start.len()])
    }

    pub(super) fn parts(&self) -> u16
        ensures { result ≡ length (C.Board.means self.now.circuit.now).classes }
    {
        self.circuit.parts()
    }

    // The nets of the start that have the part: bit i stands for the i-th, and is set by a shift.
    fn mask(&self, v: u16) -> u16
        ensures { result ≡ mask (C.Board.means self.now.circuit.now) self.now.start.now v }
    {
        let mut mask: u16 = 0;
        for (i, f) in self.start.iter().enumerate() {
            if self.circuit.on(v, *f) {
                mask |= 1 << i;
            }
        }
        mask
    }

    pub(super) fn cell(&self, v: u16) -> Cell
        ensures { result ≡ cell_of (C.Board.means self.now.circuit.now) self.now.start.now v }
    {
        Cell {
            class: class_of(self.circuit, v),
            mask: self.mask(v),
        }
    }

    // Whether the part is of the cell; the class is asked first, since to make a mask of every part was sixty times slower.
    pub(super) fn in_cell(&self, v: u16, cell: Cell) -> bool
        ensures { result ≡ in_cell (C.Board.means self.now.circuit.now) self.now.start.now cell.class cell.mask v }
    {
        class_of(self.circuit, v) == cell.class && self.mask(v) == cell.mask
    }

    // Whether each net of the start is as long as the pattern's net at its place.
    pub(super) fn same_sizes<P: Board>(&self, pattern: &P) -> bool
        ensures { Decides result (SameSizes (P.Board.means pattern.now) (C.Board.means self.now.circuit.now) self.now.start.now (length self.now.start.now)) }
    {
        self.start
            .iter()
            .enumerate()
            .all(|(i, f)| pattern.size(i as u16) == self.circuit.size(*f))
    }

    // Adds the cells of the parts on net f, the start's i-th, that no earlier net of the start has.
    fn add_net(&self, i: usize, f: u16, tally: &mut Tally<'_, Cell>)
        requires there { i < length self.now.start.now }
        requires net { f ≡ slice_index self.now.start.now i }
        requires before { in_use tally.old ≡ tallied by_cell (keys (C.Board.means self.now.circuit.now) self.now.start.now i) }
        requires room { sizes (C.Board.means self.now.circuit.now) self.now.start.now (suc i) ≤ length tally.old.entries.now }
        requires low { sizes (C.Board.means self.now.circuit.now) self.now.start.now (suc i) < 65535 }
        ensures after { in_use tally.new ≡ tallied by_cell (keys (C.Board.means self.now.circuit.now) self.now.start.now (suc i)) }
        ensures lender { tally.new.entries.ghost_name ≡ tally.old.entries.ghost_name }
        ensures room { length tally.new.entries.now ≡ length tally.old.entries.now }
    {
        let earlier: u16 = (1 << i) - 1;
        // A board answers part by part, so there is no slice of parts to go through.
        for k in 0..self.circuit.size(f) {
            let v = part_of(self.circuit, f, k);
            let mask = self.mask(v);
            // Only a part that no earlier net has is asked for its class.
            if mask & earlier == 0 {
                let class = class_of(self.circuit, v);
                tally.put(Cell { class, mask });
            }
        }
    }

    // Tallies the cells of the parts on the start's nets in the room that is lent for it.
    pub(super) fn tally<'r>(&self, room: &'r mut [Entry<Cell>]) -> &'r [Entry<Cell>]
        requires room { sizes (C.Board.means self.now.circuit.now) self.now.start.now (length self.now.start.now) ≤ length room.old }
        requires low { sizes (C.Board.means self.now.circuit.now) self.now.start.now (length self.now.start.now) < 65535 }
        ensures { result.now ≡ tallied by_cell (keys (C.Board.means self.now.circuit.now) self.now.start.now (length self.now.start.now)) }
    {
        let mut tally = Tally::over(room);
        for (i, f) in self.start.iter().enumerate() {
            self.add_net(i, *f, &mut tally);
        }
        let len = tally.len();
        &room[..len]
    }
}
