// What a label kind answers, and the two kinds.
ghost use Rattle.std.specs.Prelude.{◌≡◌, Bool, T};
ghost use Rattle.labels.specs.Kinds.{usable_number, measured_fit, measured_alike, catalogue_fit, catalogue_alike};
ghost use Rattle.std.proofs.Common.{rules};

// Among fit labels likeness is an equivalence.
pub trait Label {
    ghost proper: { Self → Bool };

    ghost same: { Self → Self → Bool };

    fn fit(&self) -> bool
        ensures { result ≡ proper self.now };

    fn alike(&self, other: &Self) -> bool
        ensures { result ≡ same self.now other.now };

    ghost itself: { (x : Self) → T (proper x) → T (same x x) };

    ghost turned: { (x y : Self) → T (proper x) → T (proper y) → T (same x y) → T (same y x) };

    ghost chained: { (x y z : Self) → T (proper x) → T (proper y) → T (proper z) → T (same x y) → T (same y z) → T (same x z) };
}

// A label by what was measured, or by a code.
#[derive(Clone, Copy, Debug, PartialEq)]
pub enum Measured {
    Ohms(f64),
    Picofarads(f64),
    Code(u16),
}

// A number that can be a measured value: finite and not negative.
fn usable(x: f64) -> bool
    ensures { result ≡ usable_number x }
{
    x.is_finite() && x >= 0.0
}

impl Label for Measured {
    ghost use Rattle.labels.specs.Likeness.{measured_itself, measured_turned, measured_chained};

    ghost proper = { measured_fit };

    ghost same = { measured_alike };

    ghost itself = { measured_itself };

    ghost turned = { measured_turned };

    ghost chained = { measured_chained };

    fn fit(&self) -> bool {
        match *self {
            Measured::Ohms(x) | Measured::Picofarads(x) => usable(x),
            Measured::Code(_) => true,
        }
    }

    fn alike(&self, other: &Measured) -> bool {
        self == other
    }
}

// A label by its number in a catalogue; 0 is no entry.
#[derive(Clone, Copy, Debug, PartialEq, Eq)]
pub struct Catalogue(pub u32);

impl Label for Catalogue {
    ghost proper = { catalogue_fit };

    ghost same = { catalogue_alike };

    ghost itself = { Prim.search rules };

    ghost turned = { Prim.search rules };

    ghost chained = { Prim.search rules };

    fn fit(&self) -> bool {
        self.0 != 0
    }

    fn alike(&self, other: &Catalogue) -> bool {
        self == other
    }
}
