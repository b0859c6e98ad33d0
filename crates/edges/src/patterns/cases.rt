// Tables of patterns.
use crate::cases::Case;
use crate::drafts::Draft;

pub static CASES: [Case<Draft>; 48] = [
    Case {
        name: "no nets",
        tried: Draft::Listed {
            parts: 1,
            ends: &[],
            joins: &[],
        },
    },
    Case {
        name: "1 net",
        tried: Draft::Listed {
            parts: 1,
            ends: &[1],
            joins: &[0],
        },
    },
    Case {
        name: "16 nets",
        tried: Draft::Grid {
            parts: 1,
            nets: 16,
            each: 1,
        },
    },
    Case {
        name: "17 nets",
        tried: Draft::Grid {
            parts: 1,
            nets: 17,
            each: 1,
        },
    },
    Case {
        name: "no parts",
        tried: Draft::Listed {
            parts: 0,
            ends: &[1],
            joins: &[0],
        },
    },
    Case {
        name: "1 part on 2 nets",
        tried: Draft::Grid {
            parts: 1,
            nets: 2,
            each: 1,
        },
    },
    Case {
        name: "64 parts",
        tried: Draft::Grid {
            parts: 64,
            nets: 1,
            each: 64,
        },
    },
    Case {
        name: "65 parts",
        tried: Draft::Grid {
            parts: 65,
            nets: 1,
            each: 65,
        },
    },
    Case {
        name: "16 nets of 64 parts",
        tried: Draft::Grid {
            parts: 64,
            nets: 16,
            each: 64,
        },
    },
    Case {
        name: "17 nets of 64 parts",
        tried: Draft::Grid {
            parts: 64,
            nets: 17,
            each: 64,
        },
    },
    Case {
        name: "16 nets of 65 parts",
        tried: Draft::Grid {
            parts: 65,
            nets: 16,
            each: 65,
        },
    },
    Case {
        name: "first net empty",
        tried: Draft::Listed {
            parts: 2,
            ends: &[0, 1, 2],
            joins: &[0, 1],
        },
    },
    Case {
        name: "middle net empty",
        tried: Draft::Listed {
            parts: 2,
            ends: &[1, 1, 2],
            joins: &[0, 1],
        },
    },
    Case {
        name: "last net empty",
        tried: Draft::Listed {
            parts: 2,
            ends: &[1, 2, 2],
            joins: &[0, 1],
        },
    },
    Case {
        name: "only net empty",
        tried: Draft::Listed {
            parts: 1,
            ends: &[0],
            joins: &[],
        },
    },
    Case {
        name: "last of 16 nets empty",
        tried: Draft::Listed {
            parts: 1,
            ends: &[1, 2, 3, 4, 5, 6, 7, 8, 9, 10, 11, 12, 13, 14, 15, 15],
            joins: &[0, 0, 0, 0, 0, 0, 0, 0, 0, 0, 0, 0, 0, 0, 0],
        },
    },
    Case {
        name: "end below the one before",
        tried: Draft::Listed {
            parts: 2,
            ends: &[2, 1, 3],
            joins: &[0, 1, 0],
        },
    },
    Case {
        name: "last end below the one before",
        tried: Draft::Listed {
            parts: 2,
            ends: &[2, 1],
            joins: &[0, 1],
        },
    },
    Case {
        name: "end beyond the joins, then one below it",
        tried: Draft::Listed {
            parts: 2,
            ends: &[9, 2],
            joins: &[0, 1],
        },
    },
    Case {
        name: "last end one too small",
        tried: Draft::Listed {
            parts: 2,
            ends: &[1, 2],
            joins: &[0, 0, 1],
        },
    },
    Case {
        name: "last end one too large",
        tried: Draft::Listed {
            parts: 2,
            ends: &[2, 4],
            joins: &[0, 1, 0],
        },
    },
    Case {
        name: "last end right",
        tried: Draft::Listed {
            parts: 2,
            ends: &[2, 3],
            joins: &[0, 1, 0],
        },
    },
    Case {
        name: "part equal to the one before",
        tried: Draft::Listed {
            parts: 2,
            ends: &[2, 4],
            joins: &[0, 1, 1, 1],
        },
    },
    Case {
        name: "part below the one before",
        tried: Draft::Listed {
            parts: 2,
            ends: &[2, 4],
            joins: &[0, 1, 1, 0],
        },
    },
    Case {
        name: "same parts on two nets",
        tried: Draft::Listed {
            parts: 2,
            ends: &[2, 4],
            joins: &[0, 1, 0, 1],
        },
    },
    Case {
        name: "first part of a net below the last of the net before",
        tried: Draft::Listed {
            parts: 2,
            ends: &[1, 2],
            joins: &[1, 0],
        },
    },
    Case {
        name: "part equal to the number of parts",
        tried: Draft::Listed {
            parts: 3,
            ends: &[4],
            joins: &[0, 1, 2, 3],
        },
    },
    Case {
        name: "part one below the number of parts",
        tried: Draft::Listed {
            parts: 3,
            ends: &[3],
            joins: &[0, 1, 2],
        },
    },
    Case {
        name: "first part equal to the number of parts",
        tried: Draft::Listed {
            parts: 1,
            ends: &[1, 2],
            joins: &[1, 0],
        },
    },
    Case {
        name: "part 65535",
        tried: Draft::Listed {
            parts: 3,
            ends: &[4],
            joins: &[0, 1, 2, 65_535],
        },
    },
    Case {
        name: "65 joins of 64 parts",
        tried: Draft::Grid {
            parts: 64,
            nets: 1,
            each: 65,
        },
    },
    Case {
        name: "first part loose",
        tried: Draft::Listed {
            parts: 3,
            ends: &[2],
            joins: &[1, 2],
        },
    },
    Case {
        name: "middle part loose",
        tried: Draft::Listed {
            parts: 3,
            ends: &[1, 2],
            joins: &[0, 2],
        },
    },
    Case {
        name: "last part loose",
        tried: Draft::Listed {
            parts: 3,
            ends: &[2],
            joins: &[0, 1],
        },
    },
    Case {
        name: "last of 64 parts loose",
        tried: Draft::Grid {
            parts: 64,
            nets: 16,
            each: 63,
        },
    },
    Case {
        name: "1 before 2, nothing at all",
        tried: Draft::Listed {
            parts: 0,
            ends: &[],
            joins: &[],
        },
    },
    Case {
        name: "1 before 2, 17 nets and 65 parts",
        tried: Draft::Grid {
            parts: 65,
            nets: 17,
            each: 1,
        },
    },
    Case {
        name: "1 before 3",
        tried: Draft::Listed {
            parts: 1,
            ends: &[],
            joins: &[0],
        },
    },
    Case {
        name: "2 before 3, no parts",
        tried: Draft::Listed {
            parts: 0,
            ends: &[0],
            joins: &[],
        },
    },
    Case {
        name: "2 before 3, 65 parts",
        tried: Draft::Listed {
            parts: 65,
            ends: &[1, 1],
            joins: &[0],
        },
    },
    Case {
        name: "3 before 4",
        tried: Draft::Listed {
            parts: 2,
            ends: &[2, 2],
            joins: &[1, 0],
        },
    },
    Case {
        name: "3 for the last end before 4",
        tried: Draft::Listed {
            parts: 2,
            ends: &[2],
            joins: &[1, 0, 1],
        },
    },
    Case {
        name: "4 before 5",
        tried: Draft::Listed {
            parts: 3,
            ends: &[2],
            joins: &[1, 1],
        },
    },
    Case {
        name: "3 twice",
        tried: Draft::Listed {
            parts: 2,
            ends: &[1, 1, 1, 2],
            joins: &[0, 1],
        },
    },
    Case {
        name: "3 for a net before the last end",
        tried: Draft::Listed {
            parts: 2,
            ends: &[1, 1],
            joins: &[0, 1],
        },
    },
    Case {
        name: "4 twice, order and then range",
        tried: Draft::Listed {
            parts: 2,
            ends: &[4],
            joins: &[0, 1, 1, 2],
        },
    },
    Case {
        name: "4 twice, range and then order",
        tried: Draft::Listed {
            parts: 2,
            ends: &[2, 4],
            joins: &[0, 2, 1, 1],
        },
    },
    Case {
        name: "5 twice",
        tried: Draft::Listed {
            parts: 4,
            ends: &[2],
            joins: &[0, 2],
        },
    },
];
