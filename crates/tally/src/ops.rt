// What is done to a table of entries.
ghost use Rattle.std.specs.Prelude.{◌≡◌, ℕ, ◌+◌, ◌<◌, ◌≤◌, ◌∷◌, ◌++◌, length, take, drop, Decides, slice_range};
ghost use Rattle.tally.specs.Levels.{LevelOn};
ghost use Rattle.tally.specs.declared.entry.Entry.{Entry};
ghost use Rattle.tally.specs.Tallies.{found, within, counted};

use super::entry::Entry;
use std::cmp::Ordering;

// The place of the key, or the place where it would go: that of the first key that is not less.
// No binary search, since `agree` asks it of any entries, ascending or not; a loop, since the comparison that stops it
// also tells which of the two the place is.
pub(super) fn find<K: Ord>(entries: &[Entry<K>], key: &K) -> Result<usize, usize>
    ensures value { result ≡ found K.Ord.cmp entries.now key.now }
    ensures bound { within result (length entries.now) }
{
    for (i, e) in entries.iter().enumerate() {
        match e.key.cmp(key) {
            Ordering::Less => {}
            Ordering::Equal => return Ok(i),
            Ordering::Greater => return Err(i),
        }
    }
    Err(entries.len())
}

// Puts an entry at its place among the first `len`: a lent slice has no `insert`.
pub(super) fn insert<K: Copy>(entries: &mut [Entry<K>], len: usize, at: usize, new: Entry<K>)
    requires { (at ≤ len) × (len < length entries.old) }
    ensures { entries.new ≡ take at entries.old ++ (new ∷ slice_range entries.old at len) ++ drop (len + 1) entries.old }
{
    entries[len] = new;
    entries[at..=len].rotate_right(1);
}

// How often the key came.
// A match: the proof of `map_or` did not close, since a caller is not told what its closure reads at an index.
pub(super) fn count_in<K: Ord>(entries: &[Entry<K>], key: &K) -> u16
    ensures { result ≡ counted K.Ord.cmp entries.now key.now }
{
    match find(entries, key) {
        Ok(at) => entries[at].count,
        Err(_) => 0,
    }
}

// Whether both tables have the same count at each key that stands in `keys`.
fn level_on<K: Ord>(keys: &[Entry<K>], a: &[Entry<K>], b: &[Entry<K>]) -> bool
    ensures { Decides result (LevelOn K.Ord.cmp keys.now a.now b.now) }
{
    keys.iter()
        .all(|e| count_in(a, &e.key) == count_in(b, &e.key))
}

// Whether both tables have the same count at every key.
pub fn agree<K: Ord>(a: &[Entry<K>], b: &[Entry<K>]) -> bool
    ensures { Decides result ((k : K) → counted K.Ord.cmp a.now k ≡ counted K.Ord.cmp b.now k) }
{
    level_on(a, a, b) && level_on(b, a, b)
}
