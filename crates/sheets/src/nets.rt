// The tables of nets that a joins sheet gives.
ghost use Rattle.std.specs.Prelude.{◌≡◌, ◌≤◌, length, IfOk};
ghost use Rattle.sheets.specs.Nets.{nets_of, front, ends_of, parts_of, Tabled};

use crate::entry::Join;
use std::alloc::{AllocError, Global};

// Net i's parts are the joins from the end of net i - 1, 0 for the first net, up to its own end.
#[derive(PartialEq, Eq, Debug, Drop)]
pub struct NetTables {
    pub ends: Vec<u16>,
    pub joins: Vec<u16>,
}

// The last row's net is the last net.
fn net_count(rows: &[Join]) -> usize
    ensures { result ≡ nets_of rows.now }
{
    rows.last().map_or(0, |row| row.net as usize + 1)
}

// How many rows in front have nets of at most `net`.
fn rows_up_to(rows: &[Join], net: usize) -> usize
    ensures { result ≡ front net rows.now }
{
    rows.iter()
        .take_while(|row| row.net as usize <= net)
        .count()
}

// Allocator and rows are parameters here and below, as in std: a struct of the two would only be taken apart again.
// A net that the rows skip ends where the net before it ends, so the loop counts nets and not rows.
fn net_ends(heap: Global, rows: &[Join]) -> Result<Vec<u16>, AllocError>
    requires { length rows.now ≤ 16384 }
    ensures { IfOk result (λ v. v.items ≡ ends_of rows.now) }
{
    let mut ends: Vec<u16> = Vec::new(heap);
    let mut at = 0;
    for net in 0..net_count(rows) {
        at += rows_up_to(&rows[at..], net);
        ends.push(at as u16)?;
    }
    Ok(ends)
}

// The parts of the rows, in their order.
fn parts_joined(heap: Global, rows: &[Join]) -> Result<Vec<u16>, AllocError>
    ensures { IfOk result (λ v. v.items ≡ parts_of rows.now) }
{
    rows.iter().map(|row| row.part).collect(heap)
}

// The rows are in the order of their nets, so the joins are the rows' parts as they stand.
pub(crate) fn net_tables(heap: Global, rows: &[Join]) -> Result<NetTables, AllocError>
    requires { length rows.now ≤ 16384 }
    ensures { IfOk result (λ t. Tabled t rows.now) }
{
    let ends = net_ends(heap, rows)?;
    let joins = parts_joined(heap, rows)?;
    Ok(NetTables { ends, joins })
}
