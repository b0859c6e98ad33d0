//! The lines that are written: a names line, hits, and how it ended.
#![tactic(auto)]

ghost use Rattle.std.specs.Prelude.{◌≡◌, List, ℕ, map, Some, IfOk, string_bytes};
ghost use Rattle.std.specs.List.{range_with_len};
ghost use Rattle.lines.specs.Back.{HitBack};
ghost use Rattle.lines.specs.Written.{line_of, ending_text, ending_line, hit_line, names_line, name_of, fault_line};

use sheets::Fault;
use std::alloc::{AllocError, Global};
use std::fmt;

// How a search ended: it came to its end, or was stopped before.
#[derive(Clone, Copy, PartialEq, Eq, Debug)]
pub enum Ending {
    End,
    Paused,
}

impl fmt::Display for Ending {
    ghost output = { λ ending. Some (ending_text ending) };

    fn fmt<W: fmt::Write>(&self, f: &mut fmt::Formatter<W>) -> fmt::Result {
        match self {
            Ending::End => f.write_str("end"),
            Ending::Paused => f.write_str("paused"),
        }
    }
}

// How the search ended, in a word.
pub fn ending_line(heap: Global, ending: Ending) -> Result<String, AllocError>
    ensures { IfOk result (λ s. string_bytes s ≡ ending_line ending) }
{
    format!(in heap; "{ending}\n")
}

// `fault`, the sheet, the reason's number, the line and the place.
#[tactic(auto, using(crate::proofs::Spaces::fault_ended))]
pub fn fault_line(heap: Global, fault: Fault) -> Result<String, AllocError>
    ensures { IfOk result (λ s. string_bytes s ≡ fault_line fault) }
{
    format!(in heap; "{fault}\n")
}

// A net's name: n0, n1 and so on.
#[derive(Clone, Copy)]
struct Name(u16);

impl fmt::Display for Name {
    ghost output = { λ name. Some (name_of name.0) };

    fn fmt<W: fmt::Write>(&self, f: &mut fmt::Formatter<W>) -> fmt::Result {
        let net = self.0;
        write!(f, "n{net}")
    }
}

// The items on one line, with a single space between them.
fn line_of<T: fmt::Display>(heap: Global, items: &[T]) -> Result<String, AllocError>
    ensures { (text : T → List ℕ) → ((x : T) → T.output x ≡ Some (text x)) → IfOk result (λ s. string_bytes s ≡ line_of (map text items.now)) }
{
    let mut line = String::new(heap);
    let mut gap = "";
    for item in items {
        write!(line, "{gap}{item}")?;
        gap = " ";
    }
    line.push_str("\n")?;
    Ok(line)
}

// The net numbers of a hit.
pub fn hit_line(heap: Global, row: &[u16]) -> Result<String, AllocError>
    ensures { IfOk result (λ s. string_bytes s ≡ hit_line row.now) }
{
    line_of(heap, row)
}

// A name for each of so many nets.
fn names(heap: Global, nets: u16) -> Result<Vec<Name>, AllocError>
    ensures { IfOk result (λ names. names.items ≡ map (λ n. record { 0 = n }) (range_with_len 0 nets)) }
{
    (0..nets).map(Name).collect(heap)
}

// The names of the pattern's nets.
pub fn names_line(heap: Global, nets: u16) -> Result<String, AllocError>
    ensures { IfOk result (λ s. string_bytes s ≡ names_line nets) }
{
    let names = names(heap, nets)?;
    line_of(heap, names.as_slice())
}

// A hit line, read back, gives the numbers.
pub fn hits_are_read_back()
    ensures { HitBack }
{}
