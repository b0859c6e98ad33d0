// Why a call refused, and where.
ghost use Rattle.std.specs.Prelude.{◌≡◌};
ghost use Rattle.circuit.specs.Refusals.{number_of};

// Every reason to refuse; its number is the one that users see.
#[derive(Clone, Copy, PartialEq, Eq, Debug)]
pub enum Reason {
    // the pattern's tables
    NetCount = 1,
    PartCount = 2,
    NetEnd = 3,
    PartOrder = 4,
    LoosePart = 5,
    // the board's tables
    BoardLimit = 11,
    BoardEnd = 12,
    BoardPartOrder = 13,
    // labels
    LabelCount = 21,
    ClassRoom = 22,
    UnfitLabel = 23,
    // calls
    Budget = 31,
    ShortRow = 32,
    TupleLength = 33,
    TupleNet = 34,
    ShortOutput = 35,
    ShortTaken = 36,
    NoPartLeft = 37,
    NetOffBoard = 38,
    TallyFull = 39,
    // sheets
    SheetSize = 41,
    NamesLine = 42,
    FieldCount = 43,
    NumberField = 44,
    KindField = 45,
    NetOrder = 46,
    TableFull = 47,
}

impl Reason {
    pub fn number(self) -> u16
        ensures { result ≡ number_of self }
    {
        self as u16
    }
}

// A refusal: its reason, and the place that the reason speaks of, 0 where it speaks of none, as users see it in a fault line.
#[derive(Clone, Copy, PartialEq, Eq, Debug)]
pub struct Refusal {
    pub reason: Reason,
    pub place: usize,
}
