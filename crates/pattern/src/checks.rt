// Whether three tables make a pattern.
ghost use Rattle.std.specs.Prelude.{◌≡◌, ℕ, ◌<◌, true, false, MatchOption, MatchResult};
ghost use Rattle.circuit.specs.Circuit.{member};
ghost use Rattle.pattern.specs.Whole.{Covers, GoodIn};
ghost use Rattle.pattern.specs.Faults.{Loose, RefusedIn};

use circuit::{Reason, Refusal};
use tables::{Tables, holds};

// The first of n parts that no join names.
fn first_loose(n: u16, joins: &[u16]) -> Option<u16>
    ensures { MatchOption result (Covers joins.now n) (λ v. Loose n joins.now v) }
{
    (0..n).find(|v| !holds(joins, *v))
}

// Says what is wrong with tables that make no pattern.
pub fn check(tables: Tables<'_>) -> Result<(), Refusal>
    ensures { MatchResult result (λ _. GoodIn tables.entry) (λ e. RefusedIn tables.entry e) }
{
    if tables.ends.is_empty() || tables.ends.len() > 16 {
        return Err(Refusal {
            reason: Reason::NetCount,
            place: 0,
        });
    }
    if tables.classes.is_empty() || tables.classes.len() > 64 {
        return Err(Refusal {
            reason: Reason::PartCount,
            place: 0,
        });
    }
    if let Some(misfit) = tables.first_misfit(1) {
        return Err(misfit.refusal(Reason::NetEnd, Reason::PartOrder));
    }
    // A match: what is found is the error, and no method of Option turns Some into Err.
    match first_loose(tables.classes.len() as u16, tables.joins) {
        Some(v) => Err(Refusal {
            reason: Reason::LoosePart,
            place: v as usize,
        }),
        None => Ok(()),
    }
}
