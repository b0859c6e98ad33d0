ghost use Rattle.std.specs.Prelude.{◌≡◌, ℕ, ◌+◌, ◌-◌, ◌<◌, ◌≤◌, length, is_ok, if◌then◌else◌};
ghost use Rattle.tally.specs.Tallies.{counted, added, answer};

use super::entry::Entry;
use super::ops::{count_in, find, insert};
use circuit::{Reason, Refusal};

// The first `len` entries are in use, their keys ascending.
// A lent slice with a length: the caller owns the table, and no heap is used.
#[derive(Drop)]
pub struct Tally<'a, K> {
    entries: &'a mut [Entry<K>],
    len: usize,
    ghost within: { len ≤ length entries.now },
}

impl<'a, K: Ord + Copy> Tally<'a, K> {
    ghost use Rattle.tally.specs.InUse.{in_use};

    // An empty tally over a table.
    pub fn over(entries: &'a mut [Entry<K>]) -> Tally<'a, K>
        ensures none { result.len ≡ 0 }
        ensures room { result.entries.now ≡ entries.old }
        ensures lender { result.entries.ghost_name ≡ entries.entry.ghost_name }
    {
        Tally { entries, len: 0 }
    }

    // How many keys came.
    pub fn len(&self) -> usize
        ensures { result ≡ self.now.len }
    {
        self.len
    }

    // The entries in use.
    fn used(&self) -> &[Entry<K>]
        ensures { result.now ≡ in_use self.now }
    {
        &self.entries[..self.len]
    }

    // How often the key came; an absent key came 0 times.
    pub fn count(&self, key: &K) -> u16
        ensures { result ≡ counted K.Ord.cmp (in_use self.now) key.now }
    {
        count_in(self.used(), key)
    }

    // The key came once more.
    pub fn add(&mut self, key: K) -> Result<(), Refusal>
        ensures answer { result ≡ answer K.Ord.cmp (in_use self.old) key (length self.old.entries.now) }
        ensures after { in_use self.new ≡ (if is_ok result then added K.Ord.cmp (in_use self.old) key else in_use self.old) }
        ensures lender { self.new.entries.ghost_name ≡ self.old.entries.ghost_name }
        ensures room { length self.new.entries.now ≡ length self.old.entries.now }
    {
        let full = Refusal {
            reason: Reason::TallyFull,
            place: 0,
        };
        match find(self.used(), &key) {
            Ok(at) => {
                if self.entries[at].count == u16::MAX {
                    return Err(full);
                }
                self.entries[at].count += 1;
            }
            Err(at) => {
                let len = self.len;
                if len == self.entries.len() {
                    return Err(full);
                }
                insert(self.entries, len, at, Entry { key, count: 1 });
                self.len = len + 1;
            }
        }
        Ok(())
    }

    // The key came once more, if there is room for that; without room nothing changes.
    pub fn put(&mut self, key: K)
        ensures after { in_use self.new ≡ (if is_ok (answer K.Ord.cmp (in_use self.old) key (length self.old.entries.now)) then added K.Ord.cmp (in_use self.old) key else in_use self.old) }
        ensures lender { self.new.entries.ghost_name ≡ self.old.entries.ghost_name }
        ensures room { length self.new.entries.now ≡ length self.old.entries.now }
    {
        let _ = self.add(key);
    }
}
