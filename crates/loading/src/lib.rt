//! From five sheets to a pattern and the tables of a board.
#![tactic(auto)]

ghost use Rattle.std.specs.Prelude.{◌≡◌};

use boards::{Blanking, FlatBoard, check};
use circuit::{Board, Reason, Refusal};
use labels::{Measured, label_parts};
use pattern::Pattern;
use sheets::{Fault, File, NetTables, Rail, Trouble, load_nets, load_rails, load_rows};
use std::alloc::Global;
use tables::Tables;

// The bytes of the five sheets; a missing one has none.
#[derive(Clone, Copy, PartialEq, Eq, Debug)]
pub struct Sheets<'a> {
    pub pattern_parts: &'a [u8],
    pub pattern_joins: &'a [u8],
    pub board_parts: &'a [u8],
    pub board_joins: &'a [u8],
    pub board_rails: &'a [u8],
}

// A pattern, the tables of a board, and the nets of it that are to be blanked.
#[derive(Drop)]
pub struct Circuits {
    pattern: Pattern,
    classes: Vec<u16>,
    nets: NetTables,
    rails: Vec<Rail>,
}

// The classes of both sides.
#[derive(Drop)]
struct Classes {
    pattern: Vec<u16>,
    board: Vec<u16>,
}

// A refusal of a call that the rows were handed to.
fn below(file: File, refusal: Refusal) -> Fault {
    Fault::new(file, refusal.reason, 0, refusal.place)
}

// The joins sheet of the side that labelling refused. Places from 64 on are the board's.
fn side_of(refusal: Refusal, pattern_parts: usize) -> File {
    match refusal.reason {
        Reason::LabelCount if pattern_parts <= 64 => File::BoardJoins,
        Reason::UnfitLabel if refusal.place >= 64 => File::BoardJoins,
        _ => File::PatternJoins,
    }
}

fn label(heap: Global, pattern: &[Measured], board: &[Measured]) -> Result<Classes, Trouble> {
    let mut classes = Classes {
        pattern: vec![in heap; 0u16; pattern.len()]?,
        board: vec![in heap; 0u16; board.len()]?,
    };
    label_parts(
        pattern,
        board,
        classes.pattern.as_mut_slice(),
        classes.board.as_mut_slice(),
    )
    .map_err(|refusal| below(side_of(refusal, pattern.len()), refusal))?;
    Ok(classes)
}

// The three tables of one side.
fn side<'a>(classes: &'a [u16], nets: &'a NetTables) -> Tables<'a> {
    Tables {
        classes,
        ends: nets.ends.as_slice(),
        joins: nets.joins.as_slice(),
    }
}

// The first fault on the way is the answer.
pub fn prepare(heap: Global, sheets: &Sheets<'_>) -> Result<Circuits, Trouble> {
    let pattern_labels = load_rows::<Measured>(heap, File::PatternParts, sheets.pattern_parts)?;
    let pattern_nets = load_nets(heap, File::PatternJoins, sheets.pattern_joins)?;
    let board_labels = load_rows::<Measured>(heap, File::BoardParts, sheets.board_parts)?;
    let nets = load_nets(heap, File::BoardJoins, sheets.board_joins)?;
    let rails = load_rails(heap, sheets.board_rails)?;
    let labelled = label(heap, pattern_labels.as_slice(), board_labels.as_slice())?;
    let mut pattern = Pattern::smallest();
    pattern
        .make(side(labelled.pattern.as_slice(), &pattern_nets))
        .map_err(|refusal| below(File::PatternJoins, refusal))?;
    let classes = labelled.board;
    check(side(classes.as_slice(), &nets)).map_err(|refusal| below(File::BoardJoins, refusal))?;
    Ok(Circuits {
        pattern,
        classes,
        nets,
        rails,
    })
}

impl Circuits {
    pub fn pattern(&self) -> &Pattern
        ensures { result.now ≡ self.now.pattern }
    {
        &self.pattern
    }

    // The board of the tables, with every net shown.
    pub fn board(&self) -> FlatBoard<'_> {
        FlatBoard::make(side(self.classes.as_slice(), &self.nets))
    }

    // Blanks the rails' nets, or answers the fault of the first rail that is not on the board.
    pub fn blank_rails<B: Board>(&self, board: &mut Blanking<B>) -> Result<(), Trouble> {
        for rail in self.rails.iter() {
            board
                .blank(rail.net)
                .map_err(|refusal| below(File::BoardRails, refusal))?;
        }
        Ok(())
    }
}
