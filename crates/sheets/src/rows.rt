// The rows of the three sheets.
ghost use Rattle.std.specs.Prelude.{◌≡◌, ℕ, List, Result as Answer};
ghost use Rattle.circuit.specs.declared.refusal.Refusal.{Refusal as Wrong};
ghost use Rattle.sheets.specs.Lines.{Line};
ghost use Rattle.sheets.specs.Numbers.{kind_of};
ghost use Rattle.sheets.specs.Reading.{place_of, text_of, here, Fresh, Still};
ghost use Rattle.sheets.specs.Rows.{bad, measure, join_row, rail_row, part_row, join_names, rail_names, part_names};

use crate::entry::{Join, Kind, Rail};
use crate::numbers::{amount, kind_in, number_to};
use crate::reader::{Field, Reader};
use circuit::{Reason, Refusal};
use labels::Measured;
use std::num::nearest_u64_to_f64;

// The largest net or part, and the largest code.
const MAX_INDEX: u16 = 4_095;

const MAX_CODE: u16 = 65_535;

// How many rows the tables hold.
const MAX_PARTS: usize = 4_096;

const MAX_JOINS: usize = 16_384;

const MAX_RAILS: usize = 4_096;

fn refusal(reason: Reason, place: usize) -> Refusal
    ensures { result ≡ bad reason place }
{
    Refusal { reason, place }
}

// What a kind and a value say.
fn measured(first: Field<'_>, second: Field<'_>) -> Result<Measured, Refusal>
    requires { place_of first ≡ 0 }
    ensures { result ≡ measure (place_of second.entry) (kind_of (text_of first.entry)) (text_of second.entry) }
{
    let wrong = refusal(Reason::NumberField, second.place());
    match kind_in(first) {
        Some(Kind::Resistor) => {
            let ohms = amount(second).ok_or(wrong)?;
            Ok(Measured::Ohms(nearest_u64_to_f64(ohms)))
        }
        Some(Kind::Capacitor) => {
            let picofarads = amount(second).ok_or(wrong)?;
            Ok(Measured::Picofarads(nearest_u64_to_f64(picofarads)))
        }
        Some(Kind::Coded) => {
            let code = number_to(second, MAX_CODE).ok_or(wrong)?;
            Ok(Measured::Code(code))
        }
        None => {
            amount(second).ok_or(wrong)?;
            Err(refusal(Reason::KindField, first.place()))
        }
    }
}

// A kind of row: its names line, and how a line is read.
pub trait Row: Copy {
    ghost judged: { List Self → Line → Answer Self Wrong };

    ghost heading: { List ℕ };

    fn names() -> &'static [u8]
        ensures { result.now ≡ heading };

    // The row that the reader's line has, after the rows before it. Each kind of row tests its own limits, in the order of their numbers.
    // That the line is fresh is asked of the reader and is no type of its own: a reader goes over the sheet with one cursor, field after field.
    fn read(reader: &mut Reader<'_>, before: &[Self]) -> Result<Self, Refusal>
        requires { Fresh reader.old }
        ensures answer { result ≡ judged before.now (here reader.old) }
        ensures still { Still reader.old reader.new };
}

impl Row for Join {
    ghost judged = { join_row };

    ghost heading = { join_names };

    fn names() -> &'static [u8] {
        b"net part"
    }

    fn read(reader: &mut Reader<'_>, before: &[Join]) -> Result<Join, Refusal> {
        let (first, second) = reader.pair().ok_or(refusal(Reason::FieldCount, 0))?;
        let net = number_to(first, MAX_INDEX).ok_or(refusal(Reason::NumberField, first.place()))?;
        let part = number_to(second, MAX_INDEX).ok_or(refusal(
            Reason::NumberField,
            second.place(),
        ))?;
        if before.last().is_some_and(|join| net < join.net) {
            return Err(refusal(Reason::NetOrder, 0));
        }
        if before.len() >= MAX_JOINS {
            return Err(refusal(Reason::TableFull, 0));
        }
        Ok(Join { net, part })
    }
}

impl Row for Rail {
    ghost judged = { rail_row };

    ghost heading = { rail_names };

    fn names() -> &'static [u8] {
        b"net"
    }

    fn read(reader: &mut Reader<'_>, before: &[Rail]) -> Result<Rail, Refusal> {
        let field = reader.single().ok_or(refusal(Reason::FieldCount, 0))?;
        let net = number_to(field, MAX_INDEX).ok_or(refusal(Reason::NumberField, field.place()))?;
        if before.last().is_some_and(|rail| net < rail.net) {
            return Err(refusal(Reason::NetOrder, 0));
        }
        if before.len() >= MAX_RAILS {
            return Err(refusal(Reason::TableFull, 0));
        }
        Ok(Rail { net })
    }
}

impl Row for Measured {
    ghost judged = { part_row };

    ghost heading = { part_names };

    fn names() -> &'static [u8] {
        b"kind value"
    }

    fn read(reader: &mut Reader<'_>, before: &[Measured]) -> Result<Measured, Refusal> {
        let (first, second) = reader.pair().ok_or(refusal(Reason::FieldCount, 0))?;
        let part = measured(first, second)?;
        if before.len() >= MAX_PARTS {
            return Err(refusal(Reason::TableFull, 0));
        }
        Ok(part)
    }
}
