// Which labels are alike, asked both ways round.
use crate::answers::YES;
use crate::cases::Case;
use labels::{Catalogue, Label, Measured};

static NUMBERS: [Case<(f64, f64)>; 12] = [
    Case {
        name: "0 and minus zero",
        tried: (0.0, -0.0),
    },
    Case {
        name: "1 and 1",
        tried: (1.0, 1.0),
    },
    Case {
        name: "1 and 2",
        tried: (1.0, 2.0),
    },
    Case {
        name: "1 and the next above",
        tried: (1.0, 1.0000000000000002),
    },
    Case {
        name: "1 and minus 1",
        tried: (1.0, -1.0),
    },
    Case {
        name: "smallest positive and 0",
        tried: (5e-324, 0.0),
    },
    Case {
        name: "smallest positive and itself",
        tried: (5e-324, 5e-324),
    },
    Case {
        name: "largest finite and infinity",
        tried: (f64::MAX, f64::INFINITY),
    },
    Case {
        name: "infinity and infinity",
        tried: (f64::INFINITY, f64::INFINITY),
    },
    Case {
        name: "infinity and minus infinity",
        tried: (f64::INFINITY, f64::NEG_INFINITY),
    },
    Case {
        name: "NaN and NaN",
        tried: (f64::NAN, f64::NAN),
    },
    Case {
        name: "NaN and 1",
        tried: (f64::NAN, 1.0),
    },
];

static SORTS: [Case<(Measured, Measured)>; 6] = [
    Case {
        name: "ohms 1 and picofarads 1",
        tried: (Measured::Ohms(1.0), Measured::Picofarads(1.0)),
    },
    Case {
        name: "ohms 1 and code 1",
        tried: (Measured::Ohms(1.0), Measured::Code(1)),
    },
    Case {
        name: "picofarads 1 and code 1",
        tried: (Measured::Picofarads(1.0), Measured::Code(1)),
    },
    Case {
        name: "code 7 and code 7",
        tried: (Measured::Code(7), Measured::Code(7)),
    },
    Case {
        name: "code 7 and code 8",
        tried: (Measured::Code(7), Measured::Code(8)),
    },
    Case {
        name: "code 0 and code 65535",
        tried: (Measured::Code(0), Measured::Code(65_535)),
    },
];

static ENTRIES: [Case<(Catalogue, Catalogue)>; 3] = [
    Case {
        name: "5 and 5",
        tried: (Catalogue(5), Catalogue(5)),
    },
    Case {
        name: "5 and 6",
        tried: (Catalogue(5), Catalogue(6)),
    },
    Case {
        name: "1 and 4294967295",
        tried: (Catalogue(1), Catalogue(4_294_967_295)),
    },
];

fn show_pair<L: Label>(
    rt: &HostRuntime,
    sort: &str,
    name: &str,
    one: &L,
    other: &L,
) -> anyhow::Result<()> {
    let there = YES.of(one.alike(other));
    let back = YES.of(other.alike(one));
    println!(rt; "alike, {sort}, {name}: {there}, turned round {back}")?;
    Ok(())
}

fn show_pairs<L: Label>(
    rt: &HostRuntime,
    sort: &str,
    cases: &[Case<(L, L)>],
) -> anyhow::Result<()> {
    for case in cases {
        show_pair(rt, sort, case.name, &case.tried.0, &case.tried.1)?;
    }
    Ok(())
}

// Two numbers as ohms, and as picofarads.
fn show_numbers(rt: &HostRuntime, case: &Case<(f64, f64)>) -> anyhow::Result<()> {
    let (one, other) = case.tried;
    show_pair(
        rt,
        "ohms",
        case.name,
        &Measured::Ohms(one),
        &Measured::Ohms(other),
    )?;
    show_pair(
        rt,
        "picofarads",
        case.name,
        &Measured::Picofarads(one),
        &Measured::Picofarads(other),
    )
}

pub fn show(rt: &HostRuntime) -> anyhow::Result<()> {
    for case in NUMBERS.iter() {
        show_numbers(rt, case)?;
    }
    show_pairs(rt, "measured", &SORTS)?;
    show_pairs(rt, "catalogue", &ENTRIES)
}
