// Flat boards: the tables that are refused, and the questions at a board's edges.
mod cases;

use crate::agreement::answers_as;
use crate::answers::{DRAWN, Remark, Verdict};
use crate::cases::Case;
use crate::drafts::{Draft, Tables};
use crate::questions::{Question, ask_all};
use boards::check;
use cases::CASES;
use circuit::Board;

// A board with an empty net in the middle.
static SMALL: Draft = Draft::Listed {
    parts: 3,
    ends: &[2, 2, 5],
    joins: &[0, 2, 0, 1, 2],
};

// The same with a wrong last end, so that no board is made of it.
static WRONG: Draft = Draft::Listed {
    parts: 3,
    ends: &[2, 2, 4],
    joins: &[0, 2, 0, 1, 2],
};

// A board with as many nets as there can be.
static LARGE: Draft = Draft::Grid {
    parts: 1,
    nets: 4_096,
    each: 1,
};

// What the small board is asked, at its edges and just beyond them.
static QUESTIONS: [Question; 32] = [
    Question::Parts,
    Question::Nets,
    Question::Class(0),
    Question::Class(2),
    Question::Class(3),
    Question::Class(65_535),
    Question::Size(0),
    Question::Size(1),
    Question::Size(2),
    Question::Size(3),
    Question::Size(65_535),
    Question::Part(0, 0),
    Question::Part(0, 1),
    Question::Part(0, 2),
    Question::Part(0, 65_535),
    Question::Part(1, 0),
    Question::Part(2, 2),
    Question::Part(2, 3),
    Question::Part(3, 0),
    Question::Part(65_535, 0),
    Question::Part(65_535, 65_535),
    Question::On(0, 0),
    Question::On(1, 0),
    Question::On(2, 0),
    Question::On(0, 1),
    Question::On(2, 2),
    Question::On(3, 2),
    Question::On(65_535, 2),
    Question::On(2, 3),
    Question::On(2, 65_535),
    Question::On(3, 3),
    Question::On(65_535, 65_535),
];

// What is asked of the board that refused tables make.
static BARE_QUESTIONS: [Question; 6] = [
    Question::Parts,
    Question::Nets,
    Question::Class(0),
    Question::Size(0),
    Question::Part(0, 0),
    Question::On(0, 0),
];

fn show_case(rt: &HostRuntime, case: &Case<Draft>) -> anyhow::Result<()> {
    let name = case.name;
    let tables = Tables::drawn(rt.alloc(), &case.tried)?;
    let answer = check(tables.lend());
    let board = tables.board();
    let verdict = Verdict(answer);
    let parts = board.parts();
    let nets = board.nets();
    let drawn = answers_as(&board, &tables);
    let remark = Remark(answer.is_ok().then_some(DRAWN.of(drawn)));
    println!(rt; "board, {name}: {verdict}, made {parts} parts and {nets} nets{remark}")?;
    Ok(())
}

fn show_questions(
    rt: &HostRuntime,
    name: &str,
    draft: &Draft,
    questions: &[Question],
) -> anyhow::Result<()> {
    let tables = Tables::drawn(rt.alloc(), draft)?;
    ask_all(rt, name, &tables.board(), questions)
}

// The lists of some nets, and where they begin.
fn show_nets(rt: &HostRuntime, name: &str, draft: &Draft, nets: &[u16]) -> anyhow::Result<()> {
    let tables = Tables::drawn(rt.alloc(), draft)?;
    let board = tables.board();
    for net in nets {
        let list = board.net(*net);
        let place = list.place;
        let parts = list.parts;
        println!(rt; "{name}, net({net}): at {place}, {parts:?}")?;
    }
    Ok(())
}

pub fn show(rt: &HostRuntime) -> anyhow::Result<()> {
    for case in CASES.iter() {
        show_case(rt, case)?;
    }
    show_questions(rt, "small board", &SMALL, &QUESTIONS)?;
    show_nets(rt, "small board", &SMALL, &[0, 1, 2, 3, 65_535])?;
    show_questions(rt, "refused board", &WRONG, &BARE_QUESTIONS)?;
    show_nets(rt, "refused board", &WRONG, &[0, 65_535])?;
    show_nets(rt, "board of 4,096 nets", &LARGE, &[0, 4_095, 4_096])
}
