// The three tables, a net's list among the joins, and whether a list holds a part.
ghost use Rattle.std.specs.Prelude.{◌≡◌, ◌<◌, ℕ, List, min, length, if◌then◌else◌, nat_lt, slice_index};
ghost use Rattle.circuit.specs.Circuit.{at, member, net};
ghost use Rattle.tables.specs.Tables.{circuit_of, start};
ghost use Rattle.tables.specs.Drawn.{drawn_in};

// A class for each part, an end for each net, and the joins: they always travel together.
#[derive(Clone, Copy, PartialEq, Eq, Debug)]
pub struct Tables<'a> {
    pub classes: &'a [u16],
    pub ends: &'a [u16],
    pub joins: &'a [u16],
}

// A net's list: a part of the joins, and where it begins there.
#[derive(Clone, Copy, PartialEq, Eq, Debug)]
pub struct NetList<'a> {
    pub place: usize,
    pub parts: &'a [u16],
}

impl<'a> Tables<'a> {
    // A part's class, absent off the tables.
    pub fn class(self, v: u16) -> Option<u16>
        ensures { result ≡ at self.entry.classes.now v }
    {
        self.classes.get(v as usize).copied()
    }

    // The list of net f, empty off the tables and where the ends do not fit the joins.
    pub fn net(self, f: u16) -> NetList<'a>
        ensures list { result.parts.now ≡ net (drawn_in self.entry) f }
        ensures few { length result.parts.now < 65536 }
        ensures place { result.place ≡ (if nat_lt f (length self.entry.ends.now) then min (start self.entry.ends.now f) (min (slice_index self.entry.ends.now f) (length self.entry.joins.now)) else 0) }
    {
        net_list(self.ends, self.joins, f)
    }
}

// Where net f begins: where the net before it ends.
fn start_of(ends: &[u16], f: usize) -> usize
    ensures { result ≡ start ends.now f }
{
    if f == 0 {
        return 0;
    }
    ends.get(f - 1).copied().unwrap_or(0) as usize
}

// The same without classes, for whoever has none, and as long as the joins are lent.
pub fn net_list<'a>(ends: &[u16], joins: &'a [u16], f: u16) -> NetList<'a>
    ensures list { (classes : List ℕ) → result.parts.now ≡ net (circuit_of classes ends.now joins.now) f }
    ensures few { length result.parts.now < 65536 }
    ensures place { result.place ≡ (if nat_lt f (length ends.now) then min (start ends.now f) (min (slice_index ends.now f) (length joins.now)) else 0) }
{
    let f = f as usize;
    let Some(end) = ends.get(f).copied() else {
        return NetList {
            place: 0,
            parts: &[],
        };
    };
    let to = (end as usize).min(joins.len());
    let from = start_of(ends, f).min(to);
    NetList {
        place: from,
        parts: &joins[from..to],
    }
}

impl<'a> NetList<'a> {
    // How many parts the list has.
    pub fn size(self) -> usize
        ensures { result ≡ length self.entry.parts.now }
    {
        self.parts.len()
    }

    // The k-th part, absent from the list's size on.
    pub fn part(self, k: u16) -> Option<u16>
        ensures { result ≡ at self.entry.parts.now k }
    {
        self.parts.get(k as usize).copied()
    }

    pub fn holds(self, v: u16) -> bool
        ensures { result ≡ member self.entry.parts.now v }
    {
        holds(self.parts, v)
    }
}

// From so many parts on, `contains`, which looks at sixteen numbers at a time, takes less time than to look at one by one,
// but for the first few parts of a long list.
const FEW_PARTS: usize = 12;

// No binary search: tables that nobody has checked may have lists that do not ascend.
pub fn holds(parts: &[u16], v: u16) -> bool
    ensures { result ≡ member parts.now v }
{
    if parts.len() < FEW_PARTS {
        return parts.iter().any(|part| *part == v);
    }
    holds_among_many(parts, v)
}

// Out of line, so that the look through a short list is small enough to stand where it is called.
#[inline(never)]
fn holds_among_many(parts: &[u16], v: u16) -> bool
    ensures { result ≡ member parts.now v }
{
    parts.contains(&v)
}
