// Loading a sheet.
ghost use Rattle.sheets.specs.Nets.{NetsLoaded};
ghost use Rattle.sheets.specs.Sheets.{sheet_of, Loaded};
ghost use Rattle.sheets.specs.Rows.{join_row, rail_row, join_names, rail_names};
ghost use Rattle.sheets.specs.declared.fault.File.TheVariants.{BoardRails};

use crate::entry::{Join, Rail};
use crate::fault::{Fault, File, Trouble};
use crate::nets::{NetTables, net_tables};
use crate::reader::Reader;
use crate::rows::Row;
use circuit::{Reason, Refusal};
use std::alloc::Global;

const MAX_BYTES: usize = 65_536;

// The rows of a sheet, line by line; the first bad line is the sheet's fault. Labels are rows too: row i is part i.
pub fn load_rows<R: Row>(heap: Global, file: File, bytes: &[u8]) -> Result<Vec<R>, Trouble>
    ensures { Loaded result (sheet_of R.judged file R.heading bytes.now) }
{
    if bytes.len() > MAX_BYTES {
        return Err(Fault::new(file, Reason::SheetSize, 0, 0).into());
    }
    let mut reader = Reader::over(bytes);
    if !reader.step() || !reader.is_line(R::names()) {
        return Err(Fault::new(file, Reason::NamesLine, 1, 0).into());
    }
    let mut rows: Vec<R> = Vec::new(heap);
    // Not a `for`: the reader is a cursor that a row is read out of at every step.
    while reader.step() {
        let line = rows.len() + 2;
        let fault = |bad: Refusal| Fault::new(file, bad.reason, line, bad.place);
        let row = R::read(&mut reader, rows.as_slice()).map_err(fault)?;
        rows.push(row)?;
    }
    Ok(rows)
}

// The tables of a joins sheet; a net that the joins skip is empty.
pub fn load_nets(heap: Global, file: File, bytes: &[u8]) -> Result<NetTables, Trouble>
    ensures { NetsLoaded result (sheet_of join_row file join_names bytes.now) }
{
    let rows: Vec<Join> = load_rows(heap, file, bytes)?;
    Ok(net_tables(heap, rows.as_slice())?)
}

// The rows of the rails sheet. There is one such sheet, so the file is no parameter.
pub fn load_rails(heap: Global, bytes: &[u8]) -> Result<Vec<Rail>, Trouble>
    ensures { Loaded result (sheet_of rail_row BoardRails rail_names bytes.now) }
{
    load_rows(heap, File::BoardRails, bytes)
}
