// Looks at a tuple.
ghost use Rattle.std.specs.Prelude.{◌≡◌, ℕ, ◌<◌, ◌≤◌, length};
ghost use Rattle.circuit.specs.Circuit.{are_distinct};
ghost use Rattle.matching.specs.Mapped.{past};

// Whether no number comes twice. One by one, since the tuples of a search have at most sixteen numbers, and mostly two or three;
// from the first on, so that an early repeat is told at once, however long the tuple is.
pub fn differ(tuple: &[u16]) -> bool
    ensures { result ≡ are_distinct tuple.now }
{
    let mut rest = tuple;
    while let Some((first, behind)) = rest.split_first() {
        for number in behind {
            if *number == *first {
                return false;
            }
        }
        rest = behind;
    }
    true
}

// The place of the first number that is not below n.
pub(super) fn first_past(tuple: &[u16], n: u16) -> Option<usize>
    ensures { result ≡ past n tuple.now }
{
    tuple.iter().position(|x| n <= *x)
}
