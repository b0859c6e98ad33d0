//! The five sheets of a folder, and the list of their findings on standard output.
#![tactic(auto)]

use anyhow::anyhow;
use listing::{Outcome, Sink, list};
use loading::Sheets;
use std::fs;
use std::io::{self, ErrorKind, Read};

// One byte more than a sheet may have, so that a longer file is still told apart.
const MOST_BYTES: u64 = 65_537;

// Writes each line to standard output as it comes.
#[derive(Drop)]
struct Printer<'a> {
    rt: &'a HostRuntime,
}

impl<'a> Sink for Printer<'a> {
    type Error = anyhow::Error;

    // No clause can speak of what is printed.
    ghost writes = { λ _ _ _. Unit {0} };

    fn write(&mut self, line: &str) -> anyhow::Result<()> {
        self.rt
            .write_all(line.as_bytes())
            .map_err(|e| told("write", "the list", e))
    }
}

// What went wrong, with what and why, in one line; anyhow's context would put the cause on a line of its own.
fn told(what: &str, path: &str, e: io::Error) -> anyhow::Error {
    anyhow!("cannot {what} {path}: {e}")
}

// The bytes of a sheet; a missing one has none, and of one that is too long no more is read than shows it.
fn read_sheet(rt: &HostRuntime, folder: &str, name: &str) -> anyhow::Result<Vec<u8>> {
    let heap = rt.alloc();
    let path = format!(in heap; "{folder}/{name}")?;
    let mut bytes = Vec::new(heap);
    let file = match fs::open(rt, path.as_str()) {
        Ok(file) => file,
        Err(e) if e.kind() == ErrorKind::NotFound => return Ok(bytes),
        Err(e) => return Err(told("read", path.as_str(), e)),
    };
    file.take(MOST_BYTES)
        .read_to_end(&mut bytes)
        .map_err(|e| told("read", path.as_str(), e))?;
    Ok(bytes)
}

// Lists the findings of a folder. A fault is a line of the list; what else goes wrong is an error.
pub fn list_folder(rt: &HostRuntime, folder: &str) -> anyhow::Result<Outcome> {
    let pattern_parts = read_sheet(rt, folder, "pattern.parts")?;
    let pattern_joins = read_sheet(rt, folder, "pattern.joins")?;
    let board_parts = read_sheet(rt, folder, "board.parts")?;
    let board_joins = read_sheet(rt, folder, "board.joins")?;
    let board_rails = read_sheet(rt, folder, "board.rails")?;
    let sheets = Sheets {
        pattern_parts: pattern_parts.as_slice(),
        pattern_joins: pattern_joins.as_slice(),
        board_parts: board_parts.as_slice(),
        board_joins: board_joins.as_slice(),
        board_rails: board_rails.as_slice(),
    };
    let mut printer = Printer { rt };
    let outcome = list(rt.alloc(), &sheets, &mut printer)?;
    Ok(outcome)
}
