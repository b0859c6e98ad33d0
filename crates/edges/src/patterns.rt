// Patterns: the tables that are refused, and the smallest pattern.
mod cases;

use crate::agreement::answers_as;
use crate::answers::{DRAWN, KEPT, Verdict};
use crate::cases::Case;
use crate::drafts::{Draft, Tables};
use crate::questions::{Question, ask_all};
use cases::CASES;
use pattern::{Pattern, check};

// The pattern that each case is made over.
static BEFORE: Draft = Draft::Listed {
    parts: 3,
    ends: &[2, 4],
    joins: &[0, 2, 1, 2],
};

// What the smallest pattern is asked, at its edges and just beyond them.
static QUESTIONS: [Question; 12] = [
    Question::Parts,
    Question::Nets,
    Question::Class(0),
    Question::Size(0),
    Question::Part(0, 0),
    Question::On(0, 0),
    Question::Class(1),
    Question::Size(1),
    Question::Part(0, 1),
    Question::Part(1, 0),
    Question::On(1, 0),
    Question::On(0, 1),
];

fn show_case(rt: &HostRuntime, case: &Case<Draft>, before: &Tables) -> anyhow::Result<()> {
    let name = case.name;
    let tables = Tables::drawn(rt.alloc(), &case.tried)?;
    let mut pattern = Pattern::smallest();
    // Good tables, so it is not refused; were it, the case would print ALTERED.
    let _ = pattern.make(before.lend());
    let checked = check(tables.lend());
    let made = pattern.make(tables.lend());
    let word = match made {
        Ok(()) => DRAWN.of(answers_as(&pattern, &tables)),
        Err(_) => KEPT.of(answers_as(&pattern, before)),
    };
    let verdict = Verdict(checked);
    if checked == made {
        println!(rt; "pattern, {name}: {verdict}, {word}")?;
    } else {
        println!(rt; "pattern, {name}: DIFFER")?;
    }
    Ok(())
}

pub fn show(rt: &HostRuntime) -> anyhow::Result<()> {
    let before = Tables::drawn(rt.alloc(), &BEFORE)?;
    for case in CASES.iter() {
        show_case(rt, case, &before)?;
    }
    ask_all(rt, "smallest pattern", &Pattern::smallest(), &QUESTIONS)
}
