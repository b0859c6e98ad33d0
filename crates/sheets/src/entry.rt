// What stands in the rows of a sheet.

#[derive(Clone, Copy, PartialEq, Eq, Debug)]
pub enum Kind {
    Resistor,
    Capacitor,
    Coded,
}

// A net and a part on it.
#[derive(Clone, Copy, PartialEq, Eq, Debug)]
pub struct Join {
    pub net: u16,
    pub part: u16,
}

// A net that is blanked.
#[derive(Clone, Copy, PartialEq, Eq, Debug)]
pub struct Rail {
    pub net: u16,
}
