// What can be wrong with a sheet, and where.
ghost use Rattle.std.specs.Prelude.{◌≡◌, Some};
ghost use Rattle.sheets.specs.Faults.{file_number, fault_text};
ghost use Rattle.sheets.specs.Sheets.{layer_of, fault_at};
ghost use Rattle.sheets.specs.declared.fault.Trouble.TheVariants.{Faulty, Memory};

use circuit::Reason;
use std::alloc::{AllocError, AllocFailed};
use std::fmt;

// The five sheets that are loaded; a sheet's number is the one that users see.
#[derive(Clone, Copy, PartialEq, Eq, Debug)]
pub enum File {
    PatternParts = 1,
    PatternJoins = 2,
    BoardParts = 3,
    BoardJoins = 4,
    BoardRails = 5,
}

impl File {
    pub fn number(self) -> u16
        ensures { result ≡ file_number self }
    {
        self as u16
    }
}

// Which layer found the fault: a field, a row, the whole table, or a call that the rows were handed to.
#[derive(Clone, Copy, PartialEq, Eq, Debug)]
pub enum Layer {
    Field,
    Row,
    Table,
    Below,
}

// Each reason is given by one layer.
impl From<Reason> for Layer {
    ghost from_gives = { λ reason layer. layer ≡ layer_of reason };

    fn from(reason: Reason) -> Layer {
        match reason {
            Reason::NumberField | Reason::KindField => Layer::Field,
            Reason::NamesLine | Reason::FieldCount | Reason::NetOrder => Layer::Row,
            Reason::SheetSize | Reason::TableFull => Layer::Table,
            _ => Layer::Below,
        }
    }
}

// The line counts from 1, and is 0 for a fault of the whole sheet; the place is a field's first byte in its line.
// The layer is told by the reason, and stands here for whoever reads a fault.
#[derive(Clone, Copy, PartialEq, Eq, Debug)]
pub struct Fault {
    pub file: File,
    pub layer: Layer,
    pub reason: Reason,
    pub line: usize,
    pub place: usize,
}

impl Fault {
    // A fault, with the layer that its reason tells.
    pub fn new(file: File, reason: Reason, line: usize, place: usize) -> Fault
        ensures { result ≡ fault_at file reason line place }
    {
        Fault {
            file,
            layer: Layer::from(reason),
            reason,
            line,
            place,
        }
    }
}

// `fault`, then the numbers of the sheet and of the reason, the line and the place.
impl fmt::Display for Fault {
    ghost output = { λ fault. Some (fault_text fault) };

    fn fmt<W: fmt::Write>(&self, f: &mut fmt::Formatter<W>) -> fmt::Result {
        let file = self.file.number();
        let reason = self.reason.number();
        let line = self.line;
        let place = self.place;
        write!(f, "fault {file} {reason} {line} {place}")
    }
}

// A load that gives no rows found a fault, or no memory.
#[derive(Clone, Copy, PartialEq, Eq, Debug)]
pub enum Trouble {
    Faulty(Fault),
    Memory,
}

impl From<Fault> for Trouble {
    ghost from_gives = { λ fault trouble. trouble ≡ Faulty fault };

    fn from(fault: Fault) -> Trouble {
        Trouble::Faulty(fault)
    }
}

impl From<AllocError> for Trouble {
    ghost from_gives = { λ _ trouble. trouble ≡ Memory };

    fn from(_wanting: AllocError) -> Trouble {
        Trouble::Memory
    }
}

impl<T: Drop> From<AllocFailed<T>> for Trouble {
    ghost from_gives = { λ _ trouble. trouble ≡ Memory };

    fn from(_wanting: AllocFailed<T>) -> Trouble {
        Trouble::Memory
    }
}
