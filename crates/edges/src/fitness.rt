// Which labels are fit.
use crate::answers::YES;
use crate::cases::Case;
use labels::{Catalogue, Label, Measured};
use std::fmt;

static NUMBERS: [Case<f64>; 11] = [
    Case {
        name: "0",
        tried: 0.0,
    },
    Case {
        name: "minus zero",
        tried: -0.0,
    },
    Case {
        name: "smallest positive",
        tried: 5e-324,
    },
    Case {
        name: "largest finite",
        tried: f64::MAX,
    },
    Case {
        name: "1",
        tried: 1.0,
    },
    Case {
        name: "minus 1",
        tried: -1.0,
    },
    Case {
        name: "minus smallest positive",
        tried: -5e-324,
    },
    Case {
        name: "minus largest finite",
        tried: -f64::MAX,
    },
    Case {
        name: "infinity",
        tried: f64::INFINITY,
    },
    Case {
        name: "minus infinity",
        tried: f64::NEG_INFINITY,
    },
    Case {
        name: "NaN",
        tried: f64::NAN,
    },
];

static CODES: [u16; 2] = [0, 65_535];

static ENTRIES: [u32; 3] = [0, 1, 4_294_967_295];

fn show_fit<N: fmt::Display, L: Label>(
    rt: &HostRuntime,
    sort: &str,
    name: &N,
    label: &L,
) -> anyhow::Result<()> {
    let fit = YES.of(label.fit());
    println!(rt; "fit, {sort}, {name}: {fit}")?;
    Ok(())
}

pub fn show(rt: &HostRuntime) -> anyhow::Result<()> {
    for case in NUMBERS.iter() {
        show_fit(rt, "ohms", &case.name, &Measured::Ohms(case.tried))?;
        show_fit(
            rt,
            "picofarads",
            &case.name,
            &Measured::Picofarads(case.tried),
        )?;
    }
    for code in CODES.iter() {
        show_fit(rt, "code", code, &Measured::Code(*code))?;
    }
    for entry in ENTRIES.iter() {
        show_fit(rt, "catalogue", entry, &Catalogue(*entry))?;
    }
    Ok(())
}
