// A part's cell: its class, and the nets of the start that have it, bit i for the i-th.
#[derive(Clone, Copy, PartialEq, Eq, PartialOrd, Ord, Debug)]
pub struct Cell {
    pub class: u16,
    pub mask: u16,
}
