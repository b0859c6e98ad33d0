ghost use Rattle.std.specs.Prelude.{◌≡◌, ◌≤◌, [], ◌∷◌, length, MatchResult};
ghost use Rattle.tables.specs.Drawn.{drawn_in};
ghost use Rattle.pattern.specs.Whole.{GoodIn};
ghost use Rattle.pattern.specs.Faults.{RefusedIn};
ghost use Rattle.pattern.specs.Drawn.{drawn};

use super::Pattern;
use crate::checks::check;
use arrayvec::ArrayVec;
use circuit::Refusal;
use tables::Tables;

// The numbers, which there is room for.
fn filled<const N: usize>(xs: &[u16]) -> ArrayVec<u16, N>
    requires { length xs.now ≤ N }
    ensures { result.items ≡ xs.now }
{
    ArrayVec::try_from(xs).unwrap()
}

impl Pattern {
    // One part of class 0 on one net.
    pub fn smallest() -> Pattern
        ensures { drawn result ≡ record { classes = 0 ∷ []; nets = (0 ∷ []) ∷ [] } }
    {
        Pattern {
            classes: filled(&[0]),
            ends: filled(&[1]),
            joins: filled(&[0]),
        }
    }

    // Fills the pattern from three tables, or says what is wrong with them and leaves it.
    pub fn make(&mut self, tables: Tables<'_>) -> Result<(), Refusal>
        ensures { MatchResult result
            (λ _. GoodIn tables.entry × (drawn self.new ≡ drawn_in tables.entry))
            (λ e. RefusedIn tables.entry e × (self.new ≡ self.old)) }
    {
        check(tables)?;
        *self = Pattern {
            classes: filled(tables.classes),
            ends: filled(tables.ends),
            joins: filled(tables.joins),
        };
        Ok(())
    }
}
