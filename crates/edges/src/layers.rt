// Layers that blank nets: over flat boards, over a pattern, over boards that are lent, and over other layers.
mod scripts;

use crate::agreement::answers_as;
use crate::answers::{KEPT, Remark, Verdict};
use crate::cases::Case;
use crate::drafts::Tables;
use crate::questions::{Question, ask_all, reply_of};
use boards::Blanking;
use circuit::Board;
use pattern::Pattern;
use scripts::{ABOVE, BELOW, LENT, PATTERN, SCRIPTS, SMALL, Script, Step};

// What is asked of a lent board or layer after steps on the layer over it.
static SIZES: [Question; 3] = [Question::Size(0), Question::Size(1), Question::Size(2)];

fn run_step<B: Board>(
    rt: &HostRuntime,
    name: &str,
    layer: &mut Blanking<B>,
    step: Step,
) -> anyhow::Result<()> {
    let before = Tables::read(rt.alloc(), layer)?;
    // A step is data that is printed too, so it is matched here and is no closure.
    let answer = match step {
        Step::Blank(net) => layer.blank(net),
        Step::Show(net) => layer.show(net),
        Step::Ask(question) => {
            let reply = reply_of(layer, question);
            println!(rt; "{name}, {step}: {reply}")?;
            return Ok(());
        }
    };
    let verdict = Verdict(answer);
    let kept = answers_as(layer, &before);
    let remark = Remark(answer.is_err().then_some(KEPT.of(kept)));
    println!(rt; "{name}, {step}: {verdict}{remark}")?;
    Ok(())
}

fn run_steps<B: Board>(
    rt: &HostRuntime,
    name: &str,
    layer: &mut Blanking<B>,
    steps: &[Step],
) -> anyhow::Result<()> {
    for step in steps {
        run_step(rt, name, layer, *step)?;
    }
    Ok(())
}

fn run_script(rt: &HostRuntime, case: &Case<Script>) -> anyhow::Result<()> {
    let tables = Tables::drawn(rt.alloc(), &case.tried.board)?;
    let mut layer = Blanking::over(tables.board());
    let name = format!(in rt.alloc(); "layer, {}", case.name)?;
    run_steps(rt, name.as_str(), &mut layer, case.tried.steps)
}

fn show_lent(rt: &HostRuntime) -> anyhow::Result<()> {
    let tables = Tables::drawn(rt.alloc(), &SMALL)?;
    let board = tables.board();
    let mut layer = Blanking::over(&board);
    run_steps(rt, "layer over a lent board", &mut layer, &LENT)?;
    ask_all(rt, "lent board", &board, &SIZES)
}

// The layer above owns the one below.
fn show_owned_layer(rt: &HostRuntime) -> anyhow::Result<()> {
    let tables = Tables::drawn(rt.alloc(), &SMALL)?;
    let board = tables.board();
    let mut below = Blanking::over(board);
    run_steps(rt, "layer below", &mut below, &BELOW)?;
    let mut above = Blanking::over(below);
    run_steps(rt, "layer above", &mut above, &ABOVE)
}

fn show_lent_layer(rt: &HostRuntime) -> anyhow::Result<()> {
    let tables = Tables::drawn(rt.alloc(), &SMALL)?;
    let board = tables.board();
    let mut below = Blanking::over(board);
    run_steps(rt, "lent layer below", &mut below, &BELOW)?;
    let mut above = Blanking::over(&below);
    run_steps(rt, "layer above a lent one", &mut above, &ABOVE)?;
    ask_all(rt, "lent layer after", &below, &SIZES)
}

fn show_over_pattern(rt: &HostRuntime) -> anyhow::Result<()> {
    let mut layer = Blanking::over(Pattern::smallest());
    run_steps(rt, "layer over a pattern", &mut layer, &PATTERN)
}

pub fn show(rt: &HostRuntime) -> anyhow::Result<()> {
    for case in SCRIPTS.iter() {
        run_script(rt, case)?;
    }
    show_lent(rt)?;
    show_owned_layer(rt)?;
    show_lent_layer(rt)?;
    show_over_pattern(rt)
}
