// Where the lines go.
ghost use Rattle.std.specs.Prelude.{◌≡◌, ℕ, List, OnOk};
ghost use Rattle.listing.specs.Listed.{halt_text};
ghost use Rattle.listing.specs.declared.output.Halt.TheVariants.{Memory};

use std::alloc::AllocError;
use std::error::Error;
use std::fmt;

// What takes the lines, one by one.
pub trait Sink {
    type Error: Drop;

    // What writing a line makes of it.
    ghost writes: { Self → List ℕ → Self → Type 0 };

    fn write(&mut self, line: &str) -> Result<(), Self::Error>
        ensures { OnOk result (writes self.old line.now self.new) };
}

// Why a list was broken off: memory was wanting, or a line could not be written.
#[derive(Debug, Drop)]
pub enum Halt<E> {
    Memory,
    Output(E),
}

// Written out, so that the bytes it writes are stated, which a derive would not do.
impl<E: fmt::Display> fmt::Display for Halt<E> {
    ghost output = { halt_text E.output };

    fn fmt<W: fmt::Write>(&self, f: &mut fmt::Formatter<W>) -> fmt::Result {
        match self {
            Halt::Memory => f.write_str("out of memory"),
            Halt::Output(e) => write!(f, "{e}"),
        }
    }
}

impl<E: fmt::Debug + fmt::Display + Drop> Error for Halt<E> {}

impl<E> From<AllocError> for Halt<E> {
    ghost from_gives = { λ _ halt. halt ≡ Memory };

    fn from(_wanting: AllocError) -> Halt<E> {
        Halt::Memory
    }
}

// Writes a line.
pub fn put<W: Sink>(out: &mut W, line: &str) -> Result<(), Halt<W::Error>>
    ensures { OnOk result (W.Sink.writes out.old line.now out.new) }
{
    out.write(line).map_err(Halt::Output)
}
