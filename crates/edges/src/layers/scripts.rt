// What is done to a layer, and asked of it.
use crate::cases::Case;
use crate::drafts::Draft;
use crate::questions::Question;
use std::fmt;

#[derive(Clone, Copy, Debug, PartialEq, Eq)]
pub enum Step {
    Blank(u16),
    Show(u16),
    Ask(Question),
}

impl fmt::Display for Step {
    fn fmt<W: fmt::Write>(&self, f: &mut fmt::Formatter<W>) -> fmt::Result {
        match *self {
            Step::Blank(net) => write!(f, "blank({net})"),
            Step::Show(net) => write!(f, "show({net})"),
            Step::Ask(question) => write!(f, "{question}"),
        }
    }
}

// Steps on a fresh layer over a flat board.
#[derive(Clone, Copy, Debug, PartialEq, Eq)]
pub struct Script {
    pub board: Draft,
    pub steps: &'static [Step],
}

// Three nets: parts 0 and 2, part 1, and all three parts.
pub const SMALL: Draft = Draft::Listed {
    parts: 3,
    ends: &[2, 3, 6],
    joins: &[0, 2, 1, 0, 1, 2],
};

pub static SCRIPTS: [Case<Script>; 11] = [
    Case {
        name: "fresh",
        tried: Script {
            board: SMALL,
            steps: &[
                Step::Ask(Question::Parts),
                Step::Ask(Question::Nets),
                Step::Ask(Question::Class(0)),
                Step::Ask(Question::Class(2)),
                Step::Ask(Question::Class(3)),
                Step::Ask(Question::Size(0)),
                Step::Ask(Question::Size(1)),
                Step::Ask(Question::Size(2)),
                Step::Ask(Question::Size(3)),
                Step::Ask(Question::Part(0, 0)),
                Step::Ask(Question::Part(2, 2)),
                Step::Ask(Question::Part(2, 3)),
                Step::Ask(Question::On(0, 0)),
                Step::Ask(Question::On(1, 0)),
                Step::Ask(Question::On(2, 2)),
            ],
        },
    },
    Case {
        name: "last net",
        tried: Script {
            board: SMALL,
            steps: &[
                Step::Blank(2),
                Step::Ask(Question::Size(2)),
                Step::Ask(Question::Part(2, 0)),
                Step::Ask(Question::On(0, 2)),
                Step::Ask(Question::On(2, 2)),
                Step::Ask(Question::Size(1)),
                Step::Ask(Question::Part(1, 0)),
                Step::Ask(Question::On(1, 1)),
                Step::Ask(Question::Parts),
                Step::Ask(Question::Nets),
                Step::Ask(Question::Class(2)),
                Step::Ask(Question::Class(3)),
            ],
        },
    },
    Case {
        name: "middle net",
        tried: Script {
            board: SMALL,
            steps: &[
                Step::Blank(1),
                Step::Ask(Question::Size(0)),
                Step::Ask(Question::Part(0, 1)),
                Step::Ask(Question::On(2, 0)),
                Step::Ask(Question::Size(1)),
                Step::Ask(Question::Part(1, 0)),
                Step::Ask(Question::On(1, 1)),
                Step::Ask(Question::Size(2)),
                Step::Ask(Question::Part(2, 0)),
                Step::Ask(Question::On(1, 2)),
                Step::Ask(Question::Class(1)),
            ],
        },
    },
    Case {
        name: "every net",
        tried: Script {
            board: SMALL,
            steps: &[
                Step::Blank(0),
                Step::Blank(1),
                Step::Blank(2),
                Step::Ask(Question::Size(0)),
                Step::Ask(Question::Size(1)),
                Step::Ask(Question::Size(2)),
                Step::Ask(Question::Part(0, 0)),
                Step::Ask(Question::On(0, 0)),
                Step::Ask(Question::Parts),
                Step::Ask(Question::Nets),
                Step::Ask(Question::Class(0)),
            ],
        },
    },
    Case {
        name: "off the board",
        tried: Script {
            board: SMALL,
            steps: &[
                Step::Blank(1),
                Step::Blank(3),
                Step::Blank(65_535),
                Step::Show(3),
                Step::Show(65_535),
                Step::Ask(Question::Size(0)),
                Step::Ask(Question::Size(1)),
                Step::Ask(Question::Size(2)),
                Step::Ask(Question::Size(3)),
                Step::Ask(Question::Nets),
            ],
        },
    },
    Case {
        name: "blanked twice",
        tried: Script {
            board: SMALL,
            steps: &[
                Step::Blank(1),
                Step::Blank(1),
                Step::Ask(Question::Size(1)),
                Step::Show(1),
                Step::Ask(Question::Size(1)),
                Step::Ask(Question::Part(1, 0)),
                Step::Ask(Question::On(1, 1)),
            ],
        },
    },
    Case {
        name: "shown twice",
        tried: Script {
            board: SMALL,
            steps: &[
                Step::Blank(1),
                Step::Show(1),
                Step::Show(1),
                Step::Ask(Question::Size(1)),
                Step::Blank(1),
                Step::Ask(Question::Size(1)),
            ],
        },
    },
    Case {
        name: "never blanked",
        tried: Script {
            board: SMALL,
            steps: &[
                Step::Show(2),
                Step::Ask(Question::Size(2)),
                Step::Ask(Question::Part(2, 2)),
                Step::Ask(Question::On(2, 2)),
            ],
        },
    },
    Case {
        name: "empty net",
        tried: Script {
            board: Draft::Listed {
                parts: 1,
                ends: &[0, 1],
                joins: &[0],
            },
            steps: &[
                Step::Blank(0),
                Step::Ask(Question::Size(0)),
                Step::Show(0),
                Step::Ask(Question::Size(0)),
                Step::Ask(Question::Size(1)),
            ],
        },
    },
    Case {
        name: "no nets",
        tried: Script {
            board: Draft::Listed {
                parts: 1,
                ends: &[],
                joins: &[],
            },
            steps: &[
                Step::Blank(0),
                Step::Show(0),
                Step::Ask(Question::Nets),
                Step::Ask(Question::Parts),
                Step::Ask(Question::Class(0)),
            ],
        },
    },
    Case {
        name: "4,096 nets",
        tried: Script {
            board: Draft::Grid {
                parts: 1,
                nets: 4_096,
                each: 1,
            },
            steps: &[
                Step::Blank(4_095),
                Step::Ask(Question::Size(4_095)),
                Step::Ask(Question::Part(4_095, 0)),
                Step::Ask(Question::On(0, 4_095)),
                Step::Ask(Question::Size(4_094)),
                Step::Ask(Question::On(0, 4_094)),
                Step::Blank(4_096),
                Step::Show(4_096),
                Step::Ask(Question::Size(4_096)),
                Step::Show(4_095),
                Step::Ask(Question::Size(4_095)),
                Step::Ask(Question::On(0, 4_095)),
            ],
        },
    },
];

// On a layer, before another stands over it.
pub static BELOW: [Step; 3] = [
    Step::Blank(0),
    Step::Ask(Question::Size(0)),
    Step::Ask(Question::Size(1)),
];

// On a layer over that one.
pub static ABOVE: [Step; 22] = [
    Step::Ask(Question::Size(0)),
    Step::Ask(Question::Size(1)),
    Step::Ask(Question::Size(2)),
    Step::Blank(1),
    Step::Ask(Question::Size(1)),
    Step::Show(0),
    Step::Ask(Question::Size(0)),
    Step::Ask(Question::Part(0, 0)),
    Step::Ask(Question::On(0, 0)),
    Step::Ask(Question::Size(2)),
    Step::Ask(Question::Part(2, 0)),
    Step::Ask(Question::On(0, 2)),
    Step::Blank(3),
    Step::Show(3),
    Step::Show(1),
    Step::Ask(Question::Size(1)),
    Step::Ask(Question::Part(1, 0)),
    Step::Ask(Question::Parts),
    Step::Ask(Question::Nets),
    Step::Ask(Question::Class(2)),
    Step::Blank(2),
    Step::Ask(Question::Size(2)),
];

// On a layer over a board that is lent.
pub static LENT: [Step; 10] = [
    Step::Ask(Question::Size(2)),
    Step::Blank(2),
    Step::Ask(Question::Size(2)),
    Step::Ask(Question::On(2, 2)),
    Step::Ask(Question::Size(1)),
    Step::Blank(3),
    Step::Show(2),
    Step::Ask(Question::Size(2)),
    Step::Blank(0),
    Step::Ask(Question::Size(0)),
];

// On a layer over the smallest pattern.
pub static PATTERN: [Step; 11] = [
    Step::Ask(Question::Size(0)),
    Step::Blank(0),
    Step::Ask(Question::Size(0)),
    Step::Ask(Question::Part(0, 0)),
    Step::Ask(Question::On(0, 0)),
    Step::Ask(Question::Parts),
    Step::Ask(Question::Nets),
    Step::Ask(Question::Class(0)),
    Step::Blank(1),
    Step::Show(0),
    Step::Ask(Question::Size(0)),
];
