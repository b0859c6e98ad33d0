// The list of findings, line by line.
ghost use Rattle.std.specs.Prelude.{◌≡◌, ◌≤◌, length, take, IfOk, Ok, OnOk};
ghost use Rattle.pattern.specs.Drawn.{drawn};
ghost use Rattle.search.specs.Held.{said};
ghost use Rattle.lines.specs.Written.{hit_line, ending_line};
ghost use Rattle.listing.specs.Going.{searched, mark_of, OnlySearched};
ghost use Rattle.listing.specs.Listed.{Asked, Stepped, HitsListed, outcome_of};

use super::output::{Halt, Sink, put};
use super::step::{Outcome, Step};
use boards::Blanking;
use circuit::Board;
use lines::{Ending, ending_line, fault_line, hit_line, names_line};
use loading::{Sheets, prepare};
use pattern::Pattern;
use search::{Answer, Search};
use sheets::Trouble;
use sieves::{Sieve, TableSieve};
use std::alloc::Global;

// The tries of one call of next.
const FULL_BUDGET: u32 = 1_000_000;

// After so many pauses the list is broken off.
const MOST_PAUSES: u16 = 1_000;

// A search whose hits are listed: for what, on which board, by which sieve, and how far it came.
#[derive(Drop)]
struct Lister<'a, B, S> {
    heap: Global,
    pattern: &'a Pattern,
    board: &'a B,
    sieve: &'a S,
    search: Search,
}

impl<'a, B: Board, S: Sieve<B>> Lister<'a, B, S> {
    // One call of next with the full budget; with that and a row of sixteen it never refuses. A match, since that is what is proved of the refusal.
    fn ask(&mut self, row: &mut [u16]) -> Answer
        requires { 16 ≤ length row.old }
        ensures asked { Asked (searched B.Board.means S.Sieve.keeps self.old) (mark_of B.Board.means self.old self.old.search) (said (Ok result)) (mark_of B.Board.means self.old self.new.search) row.new }
        ensures only { OnlySearched self.old self.new }
    {
        match self
            .search
            .next(self.pattern, self.board, self.sieve, FULL_BUDGET, row)
        {
            Ok(answer) => answer,
            Err(_) => unreachable(),
        }
    }

    // Writes the hit that a row holds.
    fn put_hit<W: Sink>(&self, row: &[u16], out: &mut W) -> Result<(), Halt<W::Error>>
        requires { 16 ≤ length row.now }
        ensures { OnOk result (W.Sink.writes out.old (hit_line (take (length (drawn self.now.pattern.now).nets) row.now)) out.new) }
    {
        let m = self.pattern.net_count() as usize;
        let line = hit_line(self.heap, &row[..m])?;
        put(out, line.as_str())
    }

    // Makes one call of next, and writes the hit that it found.
    fn step<W: Sink>(&mut self, out: &mut W) -> Result<Step, Halt<W::Error>>
        ensures stepped { IfOk result (λ step. Stepped W.Sink.writes (searched B.Board.means S.Sieve.keeps self.old) (mark_of B.Board.means self.old self.old.search) out.old step (mark_of B.Board.means self.old self.new.search) out.new) }
        ensures only { OnlySearched self.old self.new }
    {
        let mut row = [0u16; 16];
        match self.ask(&mut row) {
            Answer::Hit(_) => {
                self.put_hit(&row, out)?;
                Ok(Step::Found)
            }
            Answer::Finished(_) => Ok(Step::Done),
            Answer::Paused(_) => Ok(Step::Rested),
        }
    }
}

// Writes how the search ended, the last line of a list. The allocator and the sink stay parameters, as in std: both are lent for a call.
fn put_ending<W: Sink>(heap: Global, ending: Ending, out: &mut W) -> Result<Outcome, Halt<W::Error>>
    ensures { IfOk result (λ o. (o ≡ outcome_of ending) × W.Sink.writes out.old (ending_line ending) out.new) }
{
    let line = ending_line(heap, ending)?;
    put(out, line.as_str())?;
    Ok(Outcome::from(ending))
}

// Writes a line for each hit, and how the search ended.
pub fn list_hits<B: Board, W: Sink>(
    heap: Global,
    pattern: &Pattern,
    board: &B,
    out: &mut W,
) -> Result<Outcome, Halt<W::Error>>
    ensures { IfOk result (λ o. HitsListed W.Sink.writes (drawn pattern.now) (B.Board.means board.now) out.old o out.new) }
{
    let mut sieve = TableSieve::fresh();
    let search = Search::open(pattern, board, &mut sieve);
    let mut lister = Lister {
        heap,
        pattern,
        board,
        sieve: &sieve,
        search,
    };
    // Hits come between the pauses, so no range counts these.
    let mut pauses: u16 = 0;
    loop {
        match lister.step(out)? {
            Step::Found => {}
            Step::Done => return put_ending(heap, Ending::End, out),
            Step::Rested => {
                pauses += 1;
                if pauses == MOST_PAUSES {
                    return put_ending(heap, Ending::Paused, out);
                }
            }
        }
    }
}

// A fault is the list's only line.
fn list_fault<W: Sink>(
    heap: Global,
    trouble: Trouble,
    out: &mut W,
) -> Result<Outcome, Halt<W::Error>> {
    match trouble {
        Trouble::Faulty(fault) => {
            let line = fault_line(heap, fault)?;
            put(out, line.as_str())?;
            Ok(Outcome::Faulty)
        }
        Trouble::Memory => Err(Halt::Memory),
    }
}

// Writes the list of the five sheets: each line as soon as it is known.
pub fn list<W: Sink>(
    heap: Global,
    sheets: &Sheets<'_>,
    out: &mut W,
) -> Result<Outcome, Halt<W::Error>> {
    // A fault is no error to pass on, but the list itself, so each of the two calls is matched.
    let circuits = match prepare(heap, sheets) {
        Ok(circuits) => circuits,
        Err(trouble) => return list_fault(heap, trouble, out),
    };
    let mut board = Blanking::over(circuits.board());
    if let Err(trouble) = circuits.blank_rails(&mut board) {
        return list_fault(heap, trouble, out);
    }
    let pattern = circuits.pattern();
    let names = names_line(heap, pattern.net_count())?;
    put(out, names.as_str())?;
    list_hits(heap, pattern, &board, out)
}
