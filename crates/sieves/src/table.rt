// The counts sieve by a table that is filled when it is readied, so that to consult it is a look-up.
ghost use Rattle.std.specs.Prelude.{◌≡◌, ℕ, ◌<◌, true, [], length, replicate, slice_index_or};

pub mod fills;

// For each place of a start, and there for each board net, whether the net fits.
#[derive(Drop)]
pub struct TableSieve {
    fits: [[bool; 4096]; 16],
    ghost deep: { length fits ≡ 16 },
    ghost wide: { (i : ℕ) → i < 16 → length (slice_index_or fits i []) ≡ 4096 },
}

impl TableSieve {
    // A sieve that is yet to be readied: it keeps every start.
    pub fn fresh() -> TableSieve
        ensures { result.fits ≡ replicate 16 (replicate 4096 true) }
    {
        TableSieve {
            fits: [[true; 4096]; 16],
        }
    }
}
