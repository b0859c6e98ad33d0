// A pattern: 1 to 16 nets, 1 to 64 parts, no empty net, and no part outside all nets.
ghost use Rattle.std.specs.Prelude.{◌≤◌, length};
ghost use Rattle.tables.specs.Tables.{Spans, Closes, Climbs, Below};
ghost use Rattle.pattern.specs.Whole.{Covers};

use arrayvec::ArrayVec;

pub mod board;
pub mod make;

#[derive(Drop)]
pub struct Pattern {
    classes: ArrayVec<u16, 64>,
    ends: ArrayVec<u16, 16>,
    joins: ArrayVec<u16, 1024>,
    ghost some_parts: { 1 ≤ length classes.items },
    ghost few_parts: { length classes.items ≤ 64 },
    ghost some_nets: { 1 ≤ length ends.items },
    ghost few_nets: { length ends.items ≤ 16 },
    ghost spans: { Spans 1 ends.items },
    ghost closes: { Closes ends.items joins.items },
    ghost climbs: { Climbs ends.items joins.items },
    ghost under: { Below joins.items (length classes.items) },
    ghost covers: { Covers joins.items (length classes.items) },
}
