// One call, before and after.
use circuit::Refusal;
use search::Answer;

// One call of next: what it is given, its answer, and the row as it leaves it.
#[derive(Clone, Copy, PartialEq, Eq, Debug)]
pub struct Call {
    pub budget: u32,
    pub row: [u16; 16],
    pub answer: Result<Answer, Refusal>,
}
