// The labelling of parts, and what it refuses.
mod cases;
mod samples;

use crate::answers::{Found, IN_TURN, KEPT, Verdict};
use crate::cases::Case;
use cases::{CASES, Side, Sides};
use circuit::Refusal;
use labels::{Catalogue, Label, Measured, label_parts};
use samples::Sample;
use std::alloc::Global;

// What class tables hold before they are written; no class is so high.
const MARK: u16 = 9_999;

// The class of the first board part when it is like no pattern part.
const FIRST_BOARD_CLASS: u16 = 64;

// The labels of one side, numbered from `first`, which is then the first one's class.
fn labels_of<L: Sample>(heap: Global, side: &Side, first: u16) -> anyhow::Result<Vec<L>> {
    let labels = (0..side.labels).map(|place| {
        if side.unfit.contains(&place) {
            L::unfit()
        } else {
            L::numbered(first.saturating_add(place))
        }
    });
    Ok(labels.collect(heap)?)
}

// Whether the classes count up from `first` for so many labels, and the mark stands in the rest of the table.
fn in_turn(classes: &[u16], first: u16, labels: u16) -> bool {
    (0..u16::MAX).zip(classes).all(|(place, class)| {
        if place < labels {
            *class == first.saturating_add(place)
        } else {
            *class == MARK
        }
    })
}

fn last_class(classes: &[u16], labels: u16) -> Found {
    Found(classes.iter().take(labels as usize).last().copied())
}

// The class tables of a pattern and of a board.
#[derive(Debug, Drop)]
struct Classes {
    pattern: Vec<u16>,
    board: Vec<u16>,
}

impl Classes {
    // Tables with room for so many classes, all marks.
    fn marked(heap: Global, pattern: usize, board: usize) -> anyhow::Result<Classes> {
        let pattern = vec![in heap; MARK; pattern]?;
        let board = vec![in heap; MARK; board]?;
        Ok(Classes { pattern, board })
    }

    fn write<L: Label>(&mut self, pattern: &[L], board: &[L]) -> Result<(), Refusal> {
        label_parts(pattern, board, &mut self.pattern, &mut self.board)
    }

    // Whether so many labels of each side have classes in turn, and nothing else is written.
    fn in_turn(&self, pattern: u16, board: u16) -> bool {
        in_turn(&self.pattern, 0, pattern) && in_turn(&self.board, FIRST_BOARD_CLASS, board)
    }
}

fn show_case<L: Sample>(rt: &HostRuntime, sort: &str, case: &Case<Sides>) -> anyhow::Result<()> {
    let heap = rt.alloc();
    let name = case.name;
    let Sides { pattern, board } = case.tried;
    let pattern_labels: Vec<L> = labels_of(heap, &pattern, 0)?;
    let board_labels: Vec<L> = labels_of(heap, &board, FIRST_BOARD_CLASS)?;
    let mut classes = Classes::marked(heap, usize::from(pattern.room), usize::from(board.room))?;
    let answer = classes.write(&pattern_labels, &board_labels);
    if answer.is_ok() {
        let pattern_last = last_class(&classes.pattern, pattern.labels);
        let board_last = last_class(&classes.board, board.labels);
        let word = IN_TURN.of(classes.in_turn(pattern.labels, board.labels));
        println!(rt;
            "label_parts, {sort}, {name}: accepted, last classes {pattern_last} and {board_last}, {word}"
        )?;
    } else {
        let verdict = Verdict(answer);
        let word = KEPT.of(classes.in_turn(0, 0));
        println!(rt; "label_parts, {sort}, {name}: {verdict}, {word}")?;
    }
    Ok(())
}

fn show_cases<L: Sample>(rt: &HostRuntime, sort: &str) -> anyhow::Result<()> {
    for case in CASES.iter() {
        show_case::<L>(rt, sort, case)?;
    }
    Ok(())
}

// Both class tables whole, each one entry longer than its labels.
fn show_whole<L: Label>(
    rt: &HostRuntime,
    sort: &str,
    pattern: &[L],
    board: &[L],
) -> anyhow::Result<()> {
    let pattern_room = pattern.len().saturating_add(1);
    let board_room = board.len().saturating_add(1);
    let mut classes = Classes::marked(rt.alloc(), pattern_room, board_room)?;
    let verdict = Verdict(classes.write(pattern, board));
    let Classes { pattern, board } = classes;
    println!(rt; "label_parts, {sort}, whole: {verdict}, {pattern:?} and {board:?}")?;
    Ok(())
}

// Board labels alike to a pattern label, to an earlier board label, and to none.
fn show_worked(rt: &HostRuntime) -> anyhow::Result<()> {
    let pattern = [
        Measured::Ohms(1000.0),
        Measured::Ohms(0.0),
        Measured::Ohms(1000.0),
    ];
    let board = [
        Measured::Picofarads(1000.0),
        Measured::Ohms(-0.0),
        Measured::Ohms(1000.0),
        Measured::Picofarads(1000.0),
        Measured::Code(5),
    ];
    show_whole(rt, "measured", &pattern, &board)?;
    let pattern = [Catalogue(8), Catalogue(1), Catalogue(8)];
    let board = [
        Catalogue(9),
        Catalogue(1),
        Catalogue(8),
        Catalogue(9),
        Catalogue(4_294_967_295),
    ];
    show_whole(rt, "catalogue", &pattern, &board)
}

pub fn show(rt: &HostRuntime) -> anyhow::Result<()> {
    show_worked(rt)?;
    show_cases::<Measured>(rt, "measured")?;
    show_cases::<Catalogue>(rt, "catalogue")
}
