//! Lists five sheets of which one is replaced: a table of everything that a sheet can be refused for, at the first line and at a later one.
#![tactic(auto)]

ghost use Rattle.std.specs.Prelude.{◌≡◌, ◌++◌, string_bytes};

use listing::{Sink, list};
use loading::Sheets;
use sheets::File;
use std::alloc::AllocError;

// Keeps the lines that it is given.
#[derive(Drop)]
struct Record {
    text: String,
}

impl Sink for Record {
    type Error = AllocError;

    ghost writes = { λ a line b. string_bytes b.text ≡ string_bytes a.text ++ line };

    fn write(&mut self, line: &str) -> Result<(), AllocError> {
        self.text.push_str(line)
    }
}

#[derive(Clone, Copy, PartialEq, Eq, Debug)]
struct Case {
    name: &'static str,
    file: File,
    text: &'static str,
}

// Sheets with one finding, and this one in the place of the file's own: the match picks a field and is no step.
fn replaced(file: File, bytes: &[u8]) -> Sheets<'_> {
    let mut sheets = Sheets {
        pattern_parts: b"kind value\nR 1k\nR 1k\n",
        pattern_joins: b"net part\n0 0\n0 1\n",
        board_parts: b"kind value\nR 1000\nR 1k\nR 2k\n",
        board_joins: b"net part\n0 0\n0 1\n1 1\n1 2\n",
        board_rails: b"net\n",
    };
    match file {
        File::PatternParts => sheets.pattern_parts = bytes,
        File::PatternJoins => sheets.pattern_joins = bytes,
        File::BoardParts => sheets.board_parts = bytes,
        File::BoardJoins => sheets.board_joins = bytes,
        File::BoardRails => sheets.board_rails = bytes,
    }
    sheets
}

fn show(rt: &HostRuntime, name: &str, file: File, bytes: &[u8]) -> anyhow::Result<()> {
    let heap = rt.alloc();
    let mut record = Record {
        text: String::new(heap),
    };
    list(heap, &replaced(file, bytes), &mut record)?;
    let text = record.text.as_str();
    print!(rt; "{name}\n{text}")?;
    Ok(())
}

// A names line, and the same line many times.
fn show_long(
    rt: &HostRuntime,
    name: &str,
    file: File,
    names: &str,
    line: &str,
    times: usize,
) -> anyhow::Result<()> {
    let mut text = String::from_str(rt.alloc(), names)?;
    for _ in 0..times {
        text.push_str(line)?;
    }
    show(rt, name, file, text.as_bytes())
}

fn show_short_ones(rt: &HostRuntime) -> anyhow::Result<()> {
    let cases = [
        Case {
            name: "nothing wrong",
            file: File::BoardRails,
            text: "net\n",
        },
        Case {
            name: "42 empty",
            file: File::PatternParts,
            text: "",
        },
        Case {
            name: "42 no end of line",
            file: File::PatternParts,
            text: "kind value",
        },
        Case {
            name: "42 two spaces",
            file: File::PatternParts,
            text: "kind  value\nR 1k\nR 1k\n",
        },
        Case {
            name: "42 names of joins",
            file: File::BoardParts,
            text: "net part\n0 0\n",
        },
        Case {
            name: "42 names missing",
            file: File::BoardJoins,
            text: "0 0\n0 1\n",
        },
        Case {
            name: "42 blank before",
            file: File::BoardRails,
            text: "\nnet\n",
        },
        Case {
            name: "43 first line, one field",
            file: File::PatternParts,
            text: "kind value\nR\nR 1k\n",
        },
        Case {
            name: "43 later line, three fields",
            file: File::PatternParts,
            text: "kind value\nR 1k\nR 1k 2\n",
        },
        Case {
            name: "43 later line, no byte 10",
            file: File::PatternParts,
            text: "kind value\nR 1k\nR 1k",
        },
        Case {
            name: "43 first line, blank",
            file: File::PatternJoins,
            text: "net part\n\n0 0\n0 1\n",
        },
        Case {
            name: "43 later line, two spaces",
            file: File::PatternJoins,
            text: "net part\n0 0\n0  1\n",
        },
        Case {
            name: "43 later line, space after",
            file: File::BoardJoins,
            text: "net part\n0 0\n0 1 \n",
        },
        Case {
            name: "43 first line, two fields",
            file: File::BoardRails,
            text: "net\n0 0\n",
        },
        Case {
            name: "43 later line, no byte 10, rails",
            file: File::BoardRails,
            text: "net\n0\n1",
        },
        Case {
            name: "44 first line, word",
            file: File::PatternParts,
            text: "kind value\nR x\nR 1k\n",
        },
        Case {
            name: "44 later line, needless zero",
            file: File::PatternParts,
            text: "kind value\nR 1k\nR 01k\n",
        },
        Case {
            name: "44 later line, ten digits",
            file: File::BoardParts,
            text: "kind value\nR 1k\nR 1234567890\n",
        },
        Case {
            name: "44 first line, no number",
            file: File::BoardParts,
            text: "kind value\nR k\n",
        },
        Case {
            name: "44 later line, scale letter for a code",
            file: File::BoardParts,
            text: "kind value\nR 1k\nX 1k\n",
        },
        Case {
            name: "44 first line, code 65536",
            file: File::BoardParts,
            text: "kind value\nX 65536\n",
        },
        Case {
            name: "44 first line, two scale letters",
            file: File::PatternParts,
            text: "kind value\nC 1kk\nR 1k\n",
        },
        Case {
            name: "44 first line, net",
            file: File::PatternJoins,
            text: "net part\n4096 0\n",
        },
        Case {
            name: "44 later line, part",
            file: File::PatternJoins,
            text: "net part\n0 0\n10 4096\n",
        },
        Case {
            name: "44 later line, both",
            file: File::BoardJoins,
            text: "net part\n0 0\n00 x\n",
        },
        Case {
            name: "44 first line, blank rail",
            file: File::BoardRails,
            text: "net\n\n",
        },
        Case {
            name: "44 later line, rail",
            file: File::BoardRails,
            text: "net\n0\n-1\n",
        },
        Case {
            name: "44 before 45, unknown kind with a word",
            file: File::PatternParts,
            text: "kind value\nR 1k\nL x\n",
        },
        Case {
            name: "45 first line",
            file: File::PatternParts,
            text: "kind value\nL 5\nR 1k\n",
        },
        Case {
            name: "45 later line, with a scale letter",
            file: File::PatternParts,
            text: "kind value\nR 1k\nQ 5M\n",
        },
        Case {
            name: "45 later line, small letter",
            file: File::BoardParts,
            text: "kind value\nR 1k\nr 1k\n",
        },
        Case {
            name: "45 first line, two letters",
            file: File::BoardParts,
            text: "kind value\nRC 1\n",
        },
        Case {
            name: "45 first line, no kind",
            file: File::BoardParts,
            text: "kind value\n 1\n",
        },
        Case {
            name: "46 second line, joins",
            file: File::PatternJoins,
            text: "net part\n1 0\n0 1\n",
        },
        Case {
            name: "46 later line, joins",
            file: File::BoardJoins,
            text: "net part\n0 0\n0 1\n2 1\n1 2\n",
        },
        Case {
            name: "46 later line, rails",
            file: File::BoardRails,
            text: "net\n0\n1\n0\n",
        },
        Case {
            name: "46 not for the same net",
            file: File::BoardRails,
            text: "net\n1\n1\n",
        },
        Case {
            name: "44 before 46",
            file: File::BoardJoins,
            text: "net part\n1 0\n0 x\n",
        },
        Case {
            name: "first bad line wins",
            file: File::PatternParts,
            text: "kind value\nQ 1\nR\n",
        },
        Case {
            name: "1 no nets",
            file: File::PatternJoins,
            text: "net part\n",
        },
        Case {
            name: "1 seventeen nets",
            file: File::PatternJoins,
            text: "net part\n0 0\n1 0\n2 0\n3 0\n4 0\n5 0\n6 0\n7 0\n8 0\n9 0\n10 0\n11 0\n12 0\n13 0\n14 0\n15 0\n16 0\n",
        },
        Case {
            name: "2 no parts",
            file: File::PatternParts,
            text: "kind value\n",
        },
        Case {
            name: "3 a net is skipped",
            file: File::PatternJoins,
            text: "net part\n0 0\n2 1\n",
        },
        Case {
            name: "3 the first net is skipped",
            file: File::PatternJoins,
            text: "net part\n1 0\n1 1\n",
        },
        Case {
            name: "4 no such part",
            file: File::PatternJoins,
            text: "net part\n0 0\n0 1\n0 2\n",
        },
        Case {
            name: "4 out of order",
            file: File::PatternJoins,
            text: "net part\n0 1\n0 0\n",
        },
        Case {
            name: "5 part on no net",
            file: File::PatternJoins,
            text: "net part\n0 0\n",
        },
        Case {
            name: "5 first part on no net",
            file: File::PatternJoins,
            text: "net part\n0 1\n",
        },
        Case {
            name: "13 no such part",
            file: File::BoardJoins,
            text: "net part\n0 3\n",
        },
        Case {
            name: "13 twice on a net",
            file: File::BoardJoins,
            text: "net part\n0 0\n1 1\n1 1\n",
        },
        Case {
            name: "a board without nets",
            file: File::BoardJoins,
            text: "net part\n",
        },
        Case {
            name: "a board net is skipped",
            file: File::BoardJoins,
            text: "net part\n0 0\n0 1\n2 1\n2 2\n",
        },
        Case {
            name: "38 rail off the board",
            file: File::BoardRails,
            text: "net\n0\n2\n",
        },
        Case {
            name: "38 first rail off the board",
            file: File::BoardRails,
            text: "net\n7\n",
        },
        Case {
            name: "a rail is blanked",
            file: File::BoardRails,
            text: "net\n0\n",
        },
    ];
    for case in cases {
        show(rt, case.name, case.file, case.text.as_bytes())?;
    }
    Ok(())
}

fn main(rt: HostRuntime) -> anyhow::Result<()> {
    show_short_ones(&rt)?;
    show_long(
        &rt,
        "41 one byte too many",
        File::BoardParts,
        "",
        "0",
        65_537,
    )?;
    show_long(
        &rt,
        "42 as long as can be",
        File::BoardParts,
        "",
        "0",
        65_536,
    )?;
    show_long(
        &rt,
        "47 parts",
        File::BoardParts,
        "kind value\n",
        "X 0\n",
        4_097,
    )?;
    show_long(&rt, "47 rails", File::BoardRails, "net\n", "0\n", 4_097)?;
    show_long(
        &rt,
        "as many rails as can be",
        File::BoardRails,
        "net\n",
        "0\n",
        4_096,
    )?;
    show_long(
        &rt,
        "21 parts of the pattern",
        File::PatternParts,
        "kind value\n",
        "X 0\n",
        65,
    )?;
    show_long(
        &rt,
        "41 joins",
        File::BoardJoins,
        "net part\n",
        "0 0\n",
        16_385,
    )
}
