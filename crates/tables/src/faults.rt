// What can be wrong with an end or a join.
ghost use Rattle.std.specs.Prelude.{◌≡◌};
ghost use Rattle.tables.specs.Faults.{refused};

use circuit::{Reason, Refusal};

pub mod checks;

// A net's end, by the net, the last end by the number of nets; or a join, by its place.
#[derive(Clone, Copy, PartialEq, Eq, Debug)]
pub enum Misfit {
    End(usize),
    Join(usize),
}

impl Misfit {
    // The refusal, with one reason for a wrong end and one for a wrong join.
    pub fn refusal(self, end: Reason, join: Reason) -> Refusal
        ensures { result ≡ refused end join self }
    {
        match self {
            Misfit::End(net) => Refusal {
                reason: end,
                place: net,
            },
            Misfit::Join(place) => Refusal {
                reason: join,
                place,
            },
        }
    }
}
