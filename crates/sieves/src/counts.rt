// The counts sieve: it keeps a start when its last net has, for each class, as many parts as the pattern net at that place.
ghost use Rattle.std.specs.Prelude.{◌≡◌, ◌≤◌, length, take};
ghost use Rattle.circuit.specs.Circuit.{net};
ghost use Rattle.tally.specs.Tallies.{tallied};
ghost use Rattle.pattern.specs.Drawn.{drawn};
ghost use Rattle.sieves.specs.Counts.{classes_on, have_same_counts, counts_keep};
ghost use Rattle.std.specs.Ordering.{nat_cmp};

use super::Sieve;
use circuit::{Board, class_of, part_of};
use pattern::Pattern;
use tally::{Entry, Tally, agree};

// Tallies the classes of a net's parts in the room that is lent for it.
fn tally_net<'r, C: Board>(c: &C, f: u16, room: &'r mut [Entry<u16>]) -> &'r [Entry<u16>]
    requires room { length (net (C.Board.means c.now) f) ≤ length room.old }
    ensures { result.now ≡ tallied nat_cmp (classes_on (C.Board.means c.now) f) }
{
    let mut tally = Tally::over(room);
    // A board answers part by part, so there is no slice of parts to go through.
    for k in 0..c.size(f) {
        tally.put(class_of(c, part_of(c, f, k)));
    }
    let len = tally.len();
    &room[..len]
}

// Whether net f of the board has, for each class, as many parts as net i of the pattern.
pub fn same_counts<B: Board>(p: &Pattern, i: u16, b: &B, f: u16) -> bool
    ensures { result ≡ have_same_counts (drawn p.now) i (B.Board.means b.now) f }
{
    if p.size(i) != b.size(f) {
        return false;
    }
    let none = Entry { key: 0, count: 0 };
    agree(
        tally_net(p, i, &mut [none; 64]),
        tally_net(b, f, &mut [none; 64]),
    )
}

#[derive(Clone, Copy, PartialEq, Eq, Debug)]
pub struct CountsSieve;

impl<B: Board> Sieve<B> for CountsSieve {
    ghost keeps = { λ _ p b s. counts_keep p b s };

    fn ready(&mut self, _pattern: &Pattern, _board: &B) {}

    fn keep(&self, pattern: &Pattern, board: &B, start: &[u16]) -> bool {
        let Some((last, before)) = start.split_last() else {
            return true;
        };
        if before.len() >= pattern.net_count() as usize {
            return true;
        }
        same_counts(pattern, before.len() as u16, board, *last)
    }
}
