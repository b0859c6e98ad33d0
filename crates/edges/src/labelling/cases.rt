// Counts of labels, room for classes, and unfit labels.

use crate::cases::Case;

// So many labels, room for so many classes, and the places of the labels that are not fit.
#[derive(Clone, Copy, Debug, PartialEq, Eq)]
pub struct Side {
    pub labels: u16,
    pub room: u16,
    pub unfit: &'static [u16],
}

#[derive(Clone, Copy, Debug, PartialEq, Eq)]
pub struct Sides {
    pub pattern: Side,
    pub board: Side,
}

pub static CASES: [Case<Sides>; 30] = [
    Case {
        name: "no labels and no room",
        tried: Sides {
            pattern: Side {
                labels: 0,
                room: 0,
                unfit: &[],
            },
            board: Side {
                labels: 0,
                room: 0,
                unfit: &[],
            },
        },
    },
    Case {
        name: "no labels, room for one",
        tried: Sides {
            pattern: Side {
                labels: 0,
                room: 1,
                unfit: &[],
            },
            board: Side {
                labels: 0,
                room: 1,
                unfit: &[],
            },
        },
    },
    Case {
        name: "no pattern labels",
        tried: Sides {
            pattern: Side {
                labels: 0,
                room: 0,
                unfit: &[],
            },
            board: Side {
                labels: 2,
                room: 2,
                unfit: &[],
            },
        },
    },
    Case {
        name: "no board labels",
        tried: Sides {
            pattern: Side {
                labels: 2,
                room: 2,
                unfit: &[],
            },
            board: Side {
                labels: 0,
                room: 0,
                unfit: &[],
            },
        },
    },
    Case {
        name: "64 pattern labels",
        tried: Sides {
            pattern: Side {
                labels: 64,
                room: 64,
                unfit: &[],
            },
            board: Side {
                labels: 1,
                room: 1,
                unfit: &[],
            },
        },
    },
    Case {
        name: "65 pattern labels",
        tried: Sides {
            pattern: Side {
                labels: 65,
                room: 65,
                unfit: &[],
            },
            board: Side {
                labels: 1,
                room: 1,
                unfit: &[],
            },
        },
    },
    Case {
        name: "4,096 board labels",
        tried: Sides {
            pattern: Side {
                labels: 1,
                room: 1,
                unfit: &[],
            },
            board: Side {
                labels: 4_096,
                room: 4_096,
                unfit: &[],
            },
        },
    },
    Case {
        name: "4,097 board labels",
        tried: Sides {
            pattern: Side {
                labels: 1,
                room: 1,
                unfit: &[],
            },
            board: Side {
                labels: 4_097,
                room: 4_097,
                unfit: &[],
            },
        },
    },
    Case {
        name: "64 and 4,096 labels",
        tried: Sides {
            pattern: Side {
                labels: 64,
                room: 64,
                unfit: &[],
            },
            board: Side {
                labels: 4_096,
                room: 4_096,
                unfit: &[],
            },
        },
    },
    Case {
        name: "65 and 4,097 labels",
        tried: Sides {
            pattern: Side {
                labels: 65,
                room: 65,
                unfit: &[],
            },
            board: Side {
                labels: 4_097,
                room: 4_097,
                unfit: &[],
            },
        },
    },
    Case {
        name: "pattern classes just enough",
        tried: Sides {
            pattern: Side {
                labels: 3,
                room: 3,
                unfit: &[],
            },
            board: Side {
                labels: 2,
                room: 4,
                unfit: &[],
            },
        },
    },
    Case {
        name: "pattern classes one short",
        tried: Sides {
            pattern: Side {
                labels: 3,
                room: 2,
                unfit: &[],
            },
            board: Side {
                labels: 2,
                room: 4,
                unfit: &[],
            },
        },
    },
    Case {
        name: "board classes just enough",
        tried: Sides {
            pattern: Side {
                labels: 3,
                room: 5,
                unfit: &[],
            },
            board: Side {
                labels: 2,
                room: 2,
                unfit: &[],
            },
        },
    },
    Case {
        name: "board classes one short",
        tried: Sides {
            pattern: Side {
                labels: 3,
                room: 5,
                unfit: &[],
            },
            board: Side {
                labels: 2,
                room: 1,
                unfit: &[],
            },
        },
    },
    Case {
        name: "pattern classes one short of 64",
        tried: Sides {
            pattern: Side {
                labels: 64,
                room: 63,
                unfit: &[],
            },
            board: Side {
                labels: 1,
                room: 1,
                unfit: &[],
            },
        },
    },
    Case {
        name: "board classes one short of 4,096",
        tried: Sides {
            pattern: Side {
                labels: 1,
                room: 1,
                unfit: &[],
            },
            board: Side {
                labels: 4_096,
                room: 4_095,
                unfit: &[],
            },
        },
    },
    Case {
        name: "no room for one label",
        tried: Sides {
            pattern: Side {
                labels: 1,
                room: 0,
                unfit: &[],
            },
            board: Side {
                labels: 1,
                room: 0,
                unfit: &[],
            },
        },
    },
    Case {
        name: "first of 64 pattern labels unfit",
        tried: Sides {
            pattern: Side {
                labels: 64,
                room: 64,
                unfit: &[0],
            },
            board: Side {
                labels: 1,
                room: 1,
                unfit: &[],
            },
        },
    },
    Case {
        name: "last of 64 pattern labels unfit",
        tried: Sides {
            pattern: Side {
                labels: 64,
                room: 64,
                unfit: &[63],
            },
            board: Side {
                labels: 1,
                room: 1,
                unfit: &[],
            },
        },
    },
    Case {
        name: "first of 4,096 board labels unfit",
        tried: Sides {
            pattern: Side {
                labels: 1,
                room: 1,
                unfit: &[],
            },
            board: Side {
                labels: 4_096,
                room: 4_096,
                unfit: &[0],
            },
        },
    },
    Case {
        name: "last of 4,096 board labels unfit",
        tried: Sides {
            pattern: Side {
                labels: 1,
                room: 1,
                unfit: &[],
            },
            board: Side {
                labels: 4_096,
                room: 4_096,
                unfit: &[4_095],
            },
        },
    },
    Case {
        name: "both sides unfit",
        tried: Sides {
            pattern: Side {
                labels: 3,
                room: 3,
                unfit: &[2],
            },
            board: Side {
                labels: 2,
                room: 2,
                unfit: &[0],
            },
        },
    },
    Case {
        name: "two pattern labels unfit",
        tried: Sides {
            pattern: Side {
                labels: 3,
                room: 3,
                unfit: &[1, 2],
            },
            board: Side {
                labels: 2,
                room: 2,
                unfit: &[],
            },
        },
    },
    Case {
        name: "two board labels unfit",
        tried: Sides {
            pattern: Side {
                labels: 3,
                room: 3,
                unfit: &[],
            },
            board: Side {
                labels: 4,
                room: 4,
                unfit: &[1, 3],
            },
        },
    },
    Case {
        name: "21 before 22 and 23, pattern",
        tried: Sides {
            pattern: Side {
                labels: 65,
                room: 64,
                unfit: &[0],
            },
            board: Side {
                labels: 1,
                room: 1,
                unfit: &[],
            },
        },
    },
    Case {
        name: "21 before 22 and 23, board",
        tried: Sides {
            pattern: Side {
                labels: 1,
                room: 1,
                unfit: &[],
            },
            board: Side {
                labels: 4_097,
                room: 4_096,
                unfit: &[0],
            },
        },
    },
    Case {
        name: "21 of the board before 22 and 23 of the pattern",
        tried: Sides {
            pattern: Side {
                labels: 2,
                room: 1,
                unfit: &[0],
            },
            board: Side {
                labels: 4_097,
                room: 4_097,
                unfit: &[],
            },
        },
    },
    Case {
        name: "22 before 23, pattern",
        tried: Sides {
            pattern: Side {
                labels: 3,
                room: 2,
                unfit: &[0],
            },
            board: Side {
                labels: 2,
                room: 2,
                unfit: &[],
            },
        },
    },
    Case {
        name: "22 before 23, board",
        tried: Sides {
            pattern: Side {
                labels: 3,
                room: 3,
                unfit: &[],
            },
            board: Side {
                labels: 2,
                room: 1,
                unfit: &[0],
            },
        },
    },
    Case {
        name: "22 of the board before 23 of the pattern",
        tried: Sides {
            pattern: Side {
                labels: 3,
                room: 3,
                unfit: &[0],
            },
            board: Side {
                labels: 2,
                room: 1,
                unfit: &[],
            },
        },
    },
];
