//! Tries labels, patterns and boards at both edges of every limit: a line for each case.
#![tactic(auto)]

mod agreement;
mod answers;
mod cases;
mod drafts;
mod fitness;
mod flat_boards;
mod labelling;
mod layers;
mod likeness;
mod patterns;
mod questions;

fn main(rt: HostRuntime) -> anyhow::Result<()> {
    fitness::show(&rt)?;
    likeness::show(&rt)?;
    labelling::show(&rt)?;
    patterns::show(&rt)?;
    flat_boards::show(&rt)?;
    layers::show(&rt)
}
