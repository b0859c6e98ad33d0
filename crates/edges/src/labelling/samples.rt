// Labels to try the labelling with.
use labels::{Catalogue, Label, Measured};

// A sort of label with fit ones for all numbers, no two alike, and one that is not fit.
pub trait Sample: Label + Copy {
    fn numbered(number: u16) -> Self;

    fn unfit() -> Self;
}

impl Sample for Measured {
    fn numbered(number: u16) -> Measured {
        match number % 3 {
            0 => Measured::Ohms(f64::from(number)),
            1 => Measured::Picofarads(f64::from(number)),
            _ => Measured::Code(number),
        }
    }

    fn unfit() -> Measured {
        Measured::Ohms(-1.0)
    }
}

impl Sample for Catalogue {
    fn numbered(number: u16) -> Catalogue {
        Catalogue(u32::from(number) + 1)
    }

    fn unfit() -> Catalogue {
        Catalogue(0)
    }
}
