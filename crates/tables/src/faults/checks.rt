// Looks for the first wrong end, then for the first wrong join.
ghost use Rattle.std.specs.Prelude.{◌≡◌, ℕ, ◌<◌, length, MatchOption};
ghost use Rattle.tables.specs.Tables.{Spans, Rises, Closes};
ghost use Rattle.tables.specs.Faults.{Fine, StrayIn, Stray, AllFine, WrongEnd, Wrong, Fitting};

use super::Misfit;
use crate::lists::Tables;

// Where the first part stands in a net's list that is none of n parts, or not above the part before it.
fn stray_in(n: usize, list: &[u16]) -> Option<usize>
    ensures { MatchOption result ((k : ℕ) → k < length list.now → Fine n list.now 0 k) (λ k. StrayIn n list.now k) }
{
    // A loop, and no `position`: it carries on the least number that may follow.
    let mut least = 0;
    for (k, part) in list.iter().enumerate() {
        let v = *part as usize;
        if v < least || v >= n {
            return Some(k);
        }
        least = v + 1;
    }
    None
}

// The first wrong end: that of a net with fewer than `least` parts; or the last, where it is not the number of joins.
fn first_wrong_end(least: u16, ends: &[u16], joins: &[u16]) -> Option<usize>
    ensures { MatchOption result (Spans least ends.now × Closes ends.now joins.now) (λ f. WrongEnd least ends.now joins.now f) }
{
    // A loop, and no `position`: a net begins where the one before it ended, which the loop carries on.
    let mut from = 0;
    for (f, end) in ends.iter().enumerate() {
        let to = *end as usize;
        if to < from + least as usize {
            return Some(f);
        }
        from = to;
    }
    if from != joins.len() {
        return Some(ends.len());
    }
    None
}

// The first join that is not fine.
fn first_stray(n: usize, ends: &[u16], joins: &[u16]) -> Option<usize>
    requires rises { Rises ends.now }
    requires closes { Closes ends.now joins.now }
    ensures { MatchOption result (AllFine n ends.now joins.now (length ends.now)) (λ k. Stray n ends.now joins.now k) }
{
    // A loop, and no `find_map`, for the same reason.
    let mut from = 0;
    for end in ends {
        let to = *end as usize;
        if let Some(k) = stray_in(n, &joins[from..to]) {
            return Some(from + k);
        }
        from = to;
    }
    None
}

// What is wrong first with tables of n parts whose nets are to have at least `least` parts each.
pub fn first_misfit(n: usize, least: u16, ends: &[u16], joins: &[u16]) -> Option<Misfit>
    ensures { MatchOption result (Fitting n least ends.now joins.now) (λ m. Wrong n least ends.now joins.now m) }
{
    // A match, and no or_else: to look for a stray join is safe only where no end is wrong.
    match first_wrong_end(least, ends, joins) {
        Some(net) => Some(Misfit::End(net)),
        None => Some(Misfit::Join(first_stray(n, ends, joins)?)),
    }
}

impl<'a> Tables<'a> {
    // What is wrong first with the tables, where each net is to have at least `least` parts.
    pub fn first_misfit(self, least: u16) -> Option<Misfit>
        ensures { MatchOption result
            (Fitting (length self.entry.classes.now) least self.entry.ends.now self.entry.joins.now)
            (λ m. Wrong (length self.entry.classes.now) least self.entry.ends.now self.entry.joins.now m) }
    {
        first_misfit(self.classes.len(), least, self.ends, self.joins)
    }
}
