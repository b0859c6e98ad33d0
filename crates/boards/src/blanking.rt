// A layer over any board that can blank a net, and show it again.
ghost use Rattle.std.specs.Prelude.{◌≡◌, true, false, ltb, length, replicate, is_ok, if◌then◌else◌, Ok, Err, slice_index_or, slice_set};
ghost use Rattle.circuit.specs.declared.refusal.Reason.TheVariants.{NetOffBoard};
ghost use Rattle.boards.specs.Blank.{blank, blank_sound, blank_small};

use circuit::{Board, Reason, Refusal};

#[derive(Drop)]
pub struct Blanking<B> {
    board: B,
    // the nets that are blanked
    marks: [bool; 4096],
    ghost wide: { length marks ≡ 4096 },
}

impl<B: Board> Blanking<B> {
    // A fresh layer blanks no net.
    pub fn over(board: B) -> Blanking<B>
        ensures board { result.board ≡ board }
        ensures marks { result.marks ≡ replicate 4096 false }
        ensures fresh { blank result.marks (B.Board.means result.board) ≡ B.Board.means board }
    {
        Blanking {
            board,
            marks: [false; 4096],
        }
    }

    fn is_blank(&self, f: u16) -> bool
        ensures { result ≡ slice_index_or self.now.marks f false }
    {
        self.marks.get(f as usize).copied().unwrap_or(false)
    }

    // Sets or clears the net's mark, if the net is on the board. The same clauses stand at `blank` and `show`, since each is read by itself.
    fn mark(&mut self, f: u16, blanked: bool) -> Result<(), Refusal>
        ensures answer { result ≡ (if ltb f (length (B.Board.means self.old.board).nets) then Ok tt else Err (record { reason = NetOffBoard; place = f })) }
        ensures board { self.new.board ≡ self.old.board }
        ensures marks { self.new.marks ≡ (if is_ok result then slice_set self.old.marks f blanked else self.old.marks) }
    {
        if f >= self.board.nets() {
            return Err(Refusal {
                reason: Reason::NetOffBoard,
                place: f as usize,
            });
        }
        self.marks[f as usize] = blanked;
        Ok(())
    }

    // Empties the net until it is shown again.
    pub fn blank(&mut self, f: u16) -> Result<(), Refusal>
        ensures answer { result ≡ (if ltb f (length (B.Board.means self.old.board).nets) then Ok tt else Err (record { reason = NetOffBoard; place = f })) }
        ensures board { self.new.board ≡ self.old.board }
        ensures marks { self.new.marks ≡ (if is_ok result then slice_set self.old.marks f true else self.old.marks) }
    {
        self.mark(f, true)
    }

    // Shows the net as the board below has it.
    pub fn show(&mut self, f: u16) -> Result<(), Refusal>
        ensures answer { result ≡ (if ltb f (length (B.Board.means self.old.board).nets) then Ok tt else Err (record { reason = NetOffBoard; place = f })) }
        ensures board { self.new.board ≡ self.old.board }
        ensures marks { self.new.marks ≡ (if is_ok result then slice_set self.old.marks f false else self.old.marks) }
    {
        self.mark(f, false)
    }
}

impl<B: Board> Board for Blanking<B> {
    ghost means = { λ s. blank s.marks (B.Board.means s.board) };

    ghost sound = { λ s. blank_sound s.marks (B.Board.means s.board) (B.Board.sound s.board) };

    ghost small = { λ s. blank_small s.marks (B.Board.means s.board) (B.Board.small s.board) };

    fn parts(&self) -> u16 {
        self.board.parts()
    }

    #[tactic(auto, using(crate::specs::Blank::blanked_length))]
    fn nets(&self) -> u16 {
        self.board.nets()
    }

    fn class(&self, v: u16) -> Option<u16> {
        self.board.class(v)
    }

    #[tactic(auto, using(crate::proofs::Marks::hidden, crate::proofs::Marks::shown))]
    fn size(&self, f: u16) -> u16 {
        if self.is_blank(f) {
            0
        } else {
            self.board.size(f)
        }
    }

    #[tactic(auto, using(crate::proofs::Marks::hidden, crate::proofs::Marks::shown))]
    fn part(&self, f: u16, k: u16) -> Option<u16> {
        if self.is_blank(f) {
            None
        } else {
            self.board.part(f, k)
        }
    }

    #[tactic(auto, using(crate::proofs::Marks::hidden, crate::proofs::Marks::shown))]
    fn on(&self, v: u16, f: u16) -> bool {
        !self.is_blank(f) && self.board.on(v, f)
    }
}
