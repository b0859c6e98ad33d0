// How a list goes on, and how it ends.
ghost use Rattle.std.specs.Prelude.{◌≡◌};
ghost use Rattle.listing.specs.Listed.{outcome_of};

use lines::Ending;

// What one call of next led to: a hit that was written, the end, or a pause. The tries of its answer are left out, since a list does not tell them.
#[derive(Clone, Copy, PartialEq, Eq, Debug)]
pub enum Step {
    Found,
    Done,
    Rested,
}

// How a list came to its last line.
#[derive(Clone, Copy, PartialEq, Eq, Debug)]
pub enum Outcome {
    Ended,
    Paused,
    Faulty,
}

// A list that was searched for ended as its search did.
impl From<Ending> for Outcome {
    ghost from_gives = { λ ending outcome. outcome ≡ outcome_of ending };

    fn from(ending: Ending) -> Outcome {
        match ending {
            Ending::End => Outcome::Ended,
            Ending::Paused => Outcome::Paused,
        }
    }
}
