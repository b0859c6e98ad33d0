// How many nets the pattern and the board of a call have.
ghost use Rattle.std.specs.Prelude.{◌≡◌, ◌≤◌, length};
ghost use Rattle.pattern.specs.Drawn.{drawn};

use circuit::Board;
use pattern::Pattern;

#[derive(Clone, Copy)]
pub(super) struct Span {
    pub(super) m: u16,
    pub(super) nets: u16,
    ghost some: { 1 ≤ m },
    ghost few: { m ≤ 16 },
    ghost low: { nets ≤ 4096 },
}

impl Span {
    pub(super) fn of<B: Board>(pattern: &Pattern, board: &B) -> Span
        ensures m { result.m ≡ length (drawn pattern.now).nets }
        ensures nets { result.nets ≡ length (B.Board.means board.now).nets }
    {
        Span {
            m: pattern.net_count(),
            nets: board.nets(),
        }
    }
}
