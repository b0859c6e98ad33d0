// A board held as three tables that someone else keeps.
ghost use Rattle.std.specs.Prelude.{◌≡◌, ◌<◌, ◌≤◌, [], length, if◌then◌else◌, MatchResult, nat_lt};
ghost use Rattle.circuit.specs.Circuit.{net};
ghost use Rattle.tables.specs.Tables.{start, Rises, Closes, Climbs, Below};
ghost use Rattle.tables.specs.Drawn.{drawn_in};
ghost use Rattle.tables.specs.Cuts.{sound};
ghost use Rattle.boards.specs.Flat.{GoodIn, flat_small};
ghost use Rattle.boards.specs.Faults.{RefusedIn};

use circuit::{Board, Reason, Refusal};
use tables::{NetList, Tables};

#[derive(Clone, Copy, PartialEq, Eq, Debug)]
pub struct FlatBoard<'a> {
    tables: Tables<'a>,
    ghost few_parts: { length tables.classes.now ≤ 4096 },
    ghost few_nets: { length tables.ends.now ≤ 4096 },
    ghost few_joins: { length tables.joins.now ≤ 16384 },
    ghost rises: { Rises tables.ends.now },
    ghost closes: { Closes tables.ends.now tables.joins.now },
    ghost climbs: { Climbs tables.ends.now tables.joins.now },
    ghost under: { Below tables.joins.now (length tables.classes.now) },
}

// Says what is wrong with tables that make no board.
pub fn check(tables: Tables<'_>) -> Result<(), Refusal>
    ensures { MatchResult result (λ _. GoodIn tables.entry) (λ e. RefusedIn tables.entry e) }
{
    if tables.classes.len() > 4096 || tables.ends.len() > 4096 || tables.joins.len() > 16384 {
        return Err(Refusal {
            reason: Reason::BoardLimit,
            place: 0,
        });
    }
    // A match: what is found is the error, and no method of Option turns Some into Err.
    match tables.first_misfit(0) {
        Some(misfit) => Err(misfit.refusal(Reason::BoardEnd, Reason::BoardPartOrder)),
        None => Ok(()),
    }
}

impl<'a> FlatBoard<'a> {
    // From tables that `check` refuses, the board without parts or nets: to make a board never fails, and who wants the refusal asks `check`.
    pub fn make(tables: Tables<'a>) -> FlatBoard<'a>
        ensures good { GoodIn tables.entry → (result.tables.classes.now ≡ tables.entry.classes.now) × (result.tables.ends.now ≡ tables.entry.ends.now) × (result.tables.joins.now ≡ tables.entry.joins.now) }
        ensures bad { (GoodIn tables.entry → ⊥) → (result.tables.classes.now ≡ []) × (result.tables.ends.now ≡ []) × (result.tables.joins.now ≡ []) }
    {
        match check(tables) {
            Ok(()) => FlatBoard { tables },
            Err(_) => FlatBoard {
                tables: Tables {
                    classes: &[],
                    ends: &[],
                    joins: &[],
                },
            },
        }
    }

    // The net's list; off the board the empty one, at 0.
    pub fn net(&self, f: u16) -> NetList<'a>
        ensures list { result.parts.now ≡ net (drawn_in self.now.tables) f }
        ensures few { length result.parts.now < 65536 }
        ensures place { result.place ≡ (if nat_lt f (length self.now.tables.ends.now) then start self.now.tables.ends.now f else 0) }
    {
        self.tables.net(f)
    }
}

impl<'a> Board for FlatBoard<'a> {
    ghost means = { λ s. drawn_in s.tables };

    ghost sound = { λ s. sound s.tables.classes.now s.tables.ends.now s.tables.joins.now s.rises s.closes s.climbs s.under };

    ghost small = { λ s. flat_small s.tables.classes.now s.tables.ends.now s.tables.joins.now s.few_parts s.few_nets };

    fn parts(&self) -> u16 {
        self.tables.classes.len() as u16
    }

    #[tactic(auto, using(tables::specs::Cuts::cuts_length))]
    fn nets(&self) -> u16 {
        self.tables.ends.len() as u16
    }

    fn class(&self, v: u16) -> Option<u16> {
        self.tables.class(v)
    }

    fn size(&self, f: u16) -> u16 {
        self.net(f).size() as u16
    }

    fn part(&self, f: u16, k: u16) -> Option<u16> {
        self.net(f).part(k)
    }

    fn on(&self, v: u16, f: u16) -> bool {
        self.net(f).holds(v)
    }
}
