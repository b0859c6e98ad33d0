//! Lists the findings of the examples, one after another, as `findings` does for one.
#![tactic(auto)]

use folder::list_folder;

fn show(rt: &HostRuntime, folder: &str) -> anyhow::Result<()> {
    println!(rt; "{folder}:")?;
    let outcome = list_folder(rt, folder)?;
    println!(rt; "{outcome:?}")?;
    Ok(())
}

fn main(rt: HostRuntime) -> anyhow::Result<()> {
    for folder in ["pair", "ring", "rail", "low-pass", "nowhere"] {
        show(&rt, folder)?;
    }
    Ok(())
}
