// How an answer is printed.
use circuit::Refusal;
use std::fmt;

// What a call answered that can refuse.
#[derive(Clone, Copy, Debug, PartialEq, Eq)]
pub struct Verdict(pub Result<(), Refusal>);

impl fmt::Display for Verdict {
    fn fmt<W: fmt::Write>(&self, f: &mut fmt::Formatter<W>) -> fmt::Result {
        match self.0 {
            Ok(()) => write!(f, "accepted"),
            Err(refusal) => {
                let number = refusal.reason.number();
                let place = refusal.place;
                write!(f, "refused {number} at {place}")
            }
        }
    }
}

// A number that may be absent.
#[derive(Clone, Copy, Debug, PartialEq, Eq)]
pub struct Found(pub Option<u16>);

impl fmt::Display for Found {
    fn fmt<W: fmt::Write>(&self, f: &mut fmt::Formatter<W>) -> fmt::Result {
        match self.0 {
            Some(number) => write!(f, "{number}"),
            None => write!(f, "none"),
        }
    }
}

// A word behind an answer, where there is one to say.
#[derive(Clone, Copy, Debug, PartialEq, Eq)]
pub struct Remark(pub Option<&'static str>);

impl fmt::Display for Remark {
    fn fmt<W: fmt::Write>(&self, f: &mut fmt::Formatter<W>) -> fmt::Result {
        match self.0 {
            Some(word) => write!(f, ", {word}"),
            None => Ok(()),
        }
    }
}

// What is said of a test that passed, and of one that did not.
#[derive(Clone, Copy, Debug, PartialEq, Eq)]
pub struct Words {
    passed: &'static str,
    failed: &'static str,
}

impl Words {
    pub fn of(&self, passed: bool) -> &'static str {
        if passed { self.passed } else { self.failed }
    }
}

pub const YES: Words = Words {
    passed: "yes",
    failed: "no",
};

// Whether a refused call left everything as it was.
pub const KEPT: Words = Words {
    passed: "kept",
    failed: "ALTERED",
};

// Whether what was made answers as its tables say.
pub const DRAWN: Words = Words {
    passed: "as drawn",
    failed: "NOT AS DRAWN",
};

// Whether classes count up, and nothing is written beyond them.
pub const IN_TURN: Words = Words {
    passed: "in turn",
    failed: "OUT OF TURN",
};
