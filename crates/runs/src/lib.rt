//! A whole succession of calls, from the opening on.
#![tactic(auto)]

ghost use Rattle.std.specs.Prelude.{◌≡◌, List, length};
ghost use Rattle.pattern.specs.Drawn.{drawn};
ghost use Rattle.search.specs.Held.{bookmark};
ghost use Rattle.runs.specs.Whole.{Whole};

use circuit::Board;
use labels::Label;
use pattern::Pattern;
use search::Search;
use sieves::Sieve;

mod call;

pub use call::Call;

// Opens a search and makes the calls one after another, whatever their budgets; each answer and row is left in its call.
pub fn run<L: Label, B: Board, S: Sieve<B>>(
    _pattern_labels: &[L],
    _board_labels: &[L],
    pattern: &Pattern,
    board: &B,
    sieve: &mut S,
    calls: &mut [Call],
) -> Search
    ensures { Whole L.Label.proper L.Label.same _pattern_labels.now _board_labels.now (drawn pattern.now) (B.Board.means board.now) (S.Sieve.keeps sieve.new (drawn pattern.now) (B.Board.means board.now)) calls.old calls.new (bookmark (length (drawn pattern.now).nets) (length (B.Board.means board.now).nets) result) }
{
    let mut search = Search::open(pattern, board, sieve);
    for call in calls.iter_mut() {
        call.answer = search.next(pattern, board, sieve, call.budget, &mut call.row);
    }
    search
}
