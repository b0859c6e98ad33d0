// Opening a search, and its calls.
ghost use Rattle.std.specs.Prelude.{◌≡◌, ℕ, ◌+◌, ◌<◌, ◌≤◌, Bool, true, false, length, take};
ghost use Rattle.circuit.specs.Circuit.{AllBelow};
ghost use Rattle.promise.specs.Search.{raise, opening};
ghost use Rattle.promise.specs.Hits.{rules_of, Promised, Called};
ghost use Rattle.pattern.specs.Drawn.{drawn};
ghost use Rattle.search.specs.Held.{held, is_start, bookmark, standing, Sits, moved, said};

use crate::bookmark::{Level, Search};
use crate::span::Span;
use crate::tries::Tries;
use arrayvec::ArrayVec;
use circuit::{Board, Reason, Refusal};
use matching::CellTest;
use pattern::Pattern;
use sieves::Sieve;

// What a call answers, with the tries that it made.
#[derive(Clone, Copy, PartialEq, Eq, Debug)]
pub enum Answer {
    Hit(u32),
    Finished(u32),
    Paused(u32),
}

impl Search {
    // Opens a search: readies the sieve, and stands at (0), or at the end where the board has no nets. It keeps none of the three that it is lent.
    pub fn open<B: Board, S: Sieve<B>>(pattern: &Pattern, board: &B, sieve: &mut S) -> Search
        ensures stands { bookmark (length (drawn pattern.now).nets) (length (B.Board.means board.now).nets) result ≡ opening (rules_of (drawn pattern.now) (B.Board.means board.now) (S.Sieve.keeps sieve.new (drawn pattern.now) (B.Board.means board.now))) }
        ensures promise { Promised (drawn pattern.now) (B.Board.means board.now) (S.Sieve.keeps sieve.new (drawn pattern.now) (B.Board.means board.now)) }
    {
        sieve.ready(pattern, board);
        let mut levels = ArrayVec::new();
        if board.nets() > 0 {
            levels.push(Level { net: 0 });
        }
        Search { levels }
    }

    // Whether the levels in use are a start.
    fn is_start(&self, span: Span) -> bool
        ensures { result ≡ is_start span.m span.nets self.now }
    {
        !self.levels.is_empty()
            && self.levels.len() <= span.m as usize
            && self.levels.iter().all(|level| level.net < span.nets)
    }

    // The numbers of the levels, from which the tries of a call lend a start. In front of a plain array: to push them into
    // an `ArrayVec` took more time.
    fn numbers(&self) -> [u16; 16]
        ensures { take (length self.now.levels.items) result ≡ held self.now }
    {
        let mut numbers = [0; 16];
        for (place, level) in self.levels.iter().enumerate() {
            numbers[place] = level.net;
        }
        numbers
    }

    // Raises the last number by one; one that reaches the number of board nets is removed and the one before it raised.
    fn climb(&mut self, span: Span)
        requires { AllBelow span.nets (held self.old) }
        ensures stands { standing (held self.new) ≡ raise span.nets (held self.old) }
        ensures few { length self.new.levels.items ≤ length self.old.levels.items }
    {
        while let Some(level) = self.levels.last_mut() {
            level.lift();
            if level.net < span.nets {
                return;
            }
            self.levels.pop();
        }
    }

    // Moves on from the start that a try looked at.
    fn advance(&mut self, pass: bool, span: Span)
        requires { (Sits span.m span.nets self.old) × (0 < length self.old.levels.items) }
        ensures stands { standing (held self.new) ≡ moved span.m span.nets pass (held self.old) }
        ensures sits { Sits span.m span.nets self.new }
    {
        if pass && self.levels.len() < span.m as usize {
            self.levels.push(Level { net: 0 });
        } else {
            self.climb(span);
        }
    }

    // Looks for the next hit, in at most `budget` tries. A search holds neither pattern, board nor sieve: each call is lent them anew.
    pub fn next<B: Board, S: Sieve<B>>(
        &mut self,
        pattern: &Pattern,
        board: &B,
        sieve: &S,
        budget: u32,
        row: &mut [u16],
    ) -> Result<Answer, Refusal>
        ensures { Called (drawn pattern.now) (B.Board.means board.now) (S.Sieve.keeps sieve.now (drawn pattern.now) (B.Board.means board.now)) (bookmark (length (drawn pattern.now).nets) (length (B.Board.means board.now).nets) self.old) budget row.old (said result) (bookmark (length (drawn pattern.now).nets) (length (B.Board.means board.now).nets) self.new) row.new }
    {
        if !(1..=1_000_000).contains(&budget) {
            return Err(Refusal {
                reason: Reason::Budget,
                place: 0,
            });
        }
        let span = Span::of(pattern, board);
        if row.len() < span.m as usize {
            return Err(Refusal {
                reason: Reason::ShortRow,
                place: 0,
            });
        }
        if !self.is_start(span) {
            return Ok(Answer::Finished(0));
        }
        let mut tries = Tries {
            pattern,
            board,
            sieve,
            cells: CellTest::new(),
        };
        // A move alters the last number alone, so the others are not read again for each try.
        let mut numbers = self.numbers();
        for made in 1..=budget {
            let start = &numbers[..self.levels.len()];
            let pass = tries.passes(start);
            if pass && start.len() == span.m as usize {
                row[..start.len()].copy_from_slice(start);
                self.advance(pass, span);
                return Ok(Answer::Hit(made));
            }
            self.advance(pass, span);
            let Some(level) = self.levels.last() else {
                return Ok(Answer::Finished(made));
            };
            numbers[self.levels.len() - 1] = level.net;
        }
        Ok(Answer::Paused(budget))
    }
}
