// Tables of boards.
use crate::cases::Case;
use crate::drafts::Draft;

pub static CASES: [Case<Draft>; 43] = [
    Case {
        name: "nothing at all",
        tried: Draft::Listed {
            parts: 0,
            ends: &[],
            joins: &[],
        },
    },
    Case {
        name: "parts without nets",
        tried: Draft::Listed {
            parts: 2,
            ends: &[],
            joins: &[],
        },
    },
    Case {
        name: "4,096 parts",
        tried: Draft::Grid {
            parts: 4_096,
            nets: 1,
            each: 4_096,
        },
    },
    Case {
        name: "4,097 parts",
        tried: Draft::Grid {
            parts: 4_097,
            nets: 1,
            each: 4_097,
        },
    },
    Case {
        name: "4,096 parts without nets",
        tried: Draft::Listed {
            parts: 4_096,
            ends: &[],
            joins: &[],
        },
    },
    Case {
        name: "4,097 parts without nets",
        tried: Draft::Listed {
            parts: 4_097,
            ends: &[],
            joins: &[],
        },
    },
    Case {
        name: "4,096 nets",
        tried: Draft::Grid {
            parts: 1,
            nets: 4_096,
            each: 1,
        },
    },
    Case {
        name: "4,097 nets",
        tried: Draft::Grid {
            parts: 1,
            nets: 4_097,
            each: 1,
        },
    },
    Case {
        name: "4,096 empty nets",
        tried: Draft::Grid {
            parts: 0,
            nets: 4_096,
            each: 0,
        },
    },
    Case {
        name: "4,097 empty nets",
        tried: Draft::Grid {
            parts: 0,
            nets: 4_097,
            each: 0,
        },
    },
    Case {
        name: "16,384 joins",
        tried: Draft::Grid {
            parts: 4_096,
            nets: 4,
            each: 4_096,
        },
    },
    Case {
        name: "16,385 joins",
        tried: Draft::Grid {
            parts: 3_277,
            nets: 5,
            each: 3_277,
        },
    },
    Case {
        name: "every limit reached",
        tried: Draft::Grid {
            parts: 4_096,
            nets: 4_096,
            each: 4,
        },
    },
    Case {
        name: "every limit passed",
        tried: Draft::Grid {
            parts: 4_097,
            nets: 4_097,
            each: 4,
        },
    },
    Case {
        name: "first, middle and last net empty",
        tried: Draft::Listed {
            parts: 2,
            ends: &[0, 1, 1, 2, 2],
            joins: &[0, 1],
        },
    },
    Case {
        name: "joins without nets",
        tried: Draft::Listed {
            parts: 1,
            ends: &[],
            joins: &[0],
        },
    },
    Case {
        name: "end equal to the one before",
        tried: Draft::Listed {
            parts: 2,
            ends: &[2, 2],
            joins: &[0, 1],
        },
    },
    Case {
        name: "end below the one before",
        tried: Draft::Listed {
            parts: 2,
            ends: &[2, 1, 2],
            joins: &[0, 1],
        },
    },
    Case {
        name: "last end below the one before",
        tried: Draft::Listed {
            parts: 2,
            ends: &[2, 1],
            joins: &[0, 1],
        },
    },
    Case {
        name: "end beyond the joins, then one below it",
        tried: Draft::Listed {
            parts: 2,
            ends: &[9, 2],
            joins: &[0, 1],
        },
    },
    Case {
        name: "last end one too small",
        tried: Draft::Listed {
            parts: 2,
            ends: &[1, 1],
            joins: &[0, 1],
        },
    },
    Case {
        name: "last end one too large",
        tried: Draft::Listed {
            parts: 2,
            ends: &[1, 3],
            joins: &[0, 1],
        },
    },
    Case {
        name: "only empty nets, and a join",
        tried: Draft::Listed {
            parts: 1,
            ends: &[0, 0],
            joins: &[0],
        },
    },
    Case {
        name: "part equal to the one before",
        tried: Draft::Listed {
            parts: 2,
            ends: &[2, 4],
            joins: &[0, 1, 1, 1],
        },
    },
    Case {
        name: "part below the one before",
        tried: Draft::Listed {
            parts: 2,
            ends: &[2, 4],
            joins: &[0, 1, 1, 0],
        },
    },
    Case {
        name: "same parts on two nets",
        tried: Draft::Listed {
            parts: 2,
            ends: &[2, 4],
            joins: &[0, 1, 0, 1],
        },
    },
    Case {
        name: "part below the last of the net before",
        tried: Draft::Listed {
            parts: 2,
            ends: &[1, 2],
            joins: &[1, 0],
        },
    },
    Case {
        name: "part equal to the last before an empty net",
        tried: Draft::Listed {
            parts: 1,
            ends: &[1, 1, 2],
            joins: &[0, 0],
        },
    },
    Case {
        name: "part equal to the number of parts",
        tried: Draft::Listed {
            parts: 3,
            ends: &[2],
            joins: &[1, 3],
        },
    },
    Case {
        name: "part one below the number of parts",
        tried: Draft::Listed {
            parts: 3,
            ends: &[2],
            joins: &[1, 2],
        },
    },
    Case {
        name: "join without parts",
        tried: Draft::Listed {
            parts: 0,
            ends: &[1],
            joins: &[0],
        },
    },
    Case {
        name: "part 4,095 of 4,096",
        tried: Draft::Listed {
            parts: 4_096,
            ends: &[1],
            joins: &[4_095],
        },
    },
    Case {
        name: "part 4,096 of 4,096",
        tried: Draft::Listed {
            parts: 4_096,
            ends: &[1],
            joins: &[4_096],
        },
    },
    Case {
        name: "part 65,535",
        tried: Draft::Listed {
            parts: 3,
            ends: &[1],
            joins: &[65_535],
        },
    },
    Case {
        name: "16,384 joins of 4,095 parts",
        tried: Draft::Grid {
            parts: 4_095,
            nets: 4,
            each: 4_096,
        },
    },
    Case {
        name: "11 before 12",
        tried: Draft::Listed {
            parts: 4_097,
            ends: &[],
            joins: &[0],
        },
    },
    Case {
        name: "11 before 13",
        tried: Draft::Listed {
            parts: 4_097,
            ends: &[1],
            joins: &[4_097],
        },
    },
    Case {
        name: "12 before 13",
        tried: Draft::Listed {
            parts: 1,
            ends: &[2, 1],
            joins: &[5, 0],
        },
    },
    Case {
        name: "12 for the last end before 13",
        tried: Draft::Listed {
            parts: 2,
            ends: &[2],
            joins: &[1, 0, 1],
        },
    },
    Case {
        name: "12 twice",
        tried: Draft::Listed {
            parts: 2,
            ends: &[2, 1, 0, 2],
            joins: &[0, 1],
        },
    },
    Case {
        name: "12 for a net before the last end",
        tried: Draft::Listed {
            parts: 2,
            ends: &[2, 1],
            joins: &[0, 1, 1],
        },
    },
    Case {
        name: "13 twice, order and then range",
        tried: Draft::Listed {
            parts: 2,
            ends: &[3],
            joins: &[1, 1, 2],
        },
    },
    Case {
        name: "13 twice, range and then order",
        tried: Draft::Listed {
            parts: 2,
            ends: &[2, 4],
            joins: &[0, 2, 1, 1],
        },
    },
];
