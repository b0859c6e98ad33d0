// Tables of circuits, right or wrong, from short drafts.
use boards::FlatBoard;
use circuit::{Board, class_of, part_of};
use std::alloc::Global;

#[derive(Clone, Copy, Debug, PartialEq, Eq)]
pub enum Draft {
    // so many parts, with the ends and the joins written out
    Listed {
        parts: u16,
        ends: &'static [u16],
        joins: &'static [u16],
    },
    // so many parts and nets, and on each net so many parts, from part 0 on
    Grid {
        parts: u16,
        nets: u16,
        each: u16,
    },
}

// A class for each part, an end for each net, and the joins.
#[derive(Debug, PartialEq, Eq, Drop)]
pub struct Tables {
    pub classes: Vec<u16>,
    pub ends: Vec<u16>,
    pub joins: Vec<u16>,
}

impl Tables {
    fn empty(heap: Global) -> Tables {
        Tables {
            classes: Vec::new(heap),
            ends: Vec::new(heap),
            joins: Vec::new(heap),
        }
    }

    // Classes count from 100, so that a class of a small circuit is none of its parts.
    fn add_parts(&mut self, parts: u16) -> anyhow::Result<()> {
        self.classes
            .extend((0..parts).map(|part| part.wrapping_add(100)))?;
        Ok(())
    }

    // Ends a net behind the joins so far.
    fn end_net(&mut self) -> anyhow::Result<()> {
        self.ends.push(u16::try_from(self.joins.len())?)?;
        Ok(())
    }

    pub fn drawn(heap: Global, draft: &Draft) -> anyhow::Result<Tables> {
        let mut tables = Tables::empty(heap);
        match *draft {
            Draft::Listed { parts, ends, joins } => {
                tables.add_parts(parts)?;
                tables.ends.extend_from_slice(ends)?;
                tables.joins.extend_from_slice(joins)?;
            }
            Draft::Grid { parts, nets, each } => {
                tables.add_parts(parts)?;
                for _ in 0..nets {
                    tables.joins.extend(0..each)?;
                    tables.end_net()?;
                }
            }
        }
        Ok(tables)
    }

    // The tables that a board answers from.
    pub fn read<B: Board>(heap: Global, board: &B) -> anyhow::Result<Tables> {
        let mut tables = Tables::empty(heap);
        tables
            .classes
            .extend((0..board.parts()).map(|part| class_of(board, part)))?;
        for net in 0..board.nets() {
            let size = board.size(net);
            tables
                .joins
                .extend((0..size).map(|place| part_of(board, net, place)))?;
            tables.end_net()?;
        }
        Ok(tables)
    }

    pub fn lend(&self) -> tables::Tables<'_> {
        tables::Tables {
            classes: &self.classes,
            ends: &self.ends,
            joins: &self.joins,
        }
    }

    pub fn board(&self) -> FlatBoard<'_> {
        FlatBoard::make(self.lend())
    }
}
