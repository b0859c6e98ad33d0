//! Lists every copy of the pattern in the board: the five sheets are in the folder that is the only argument, or else in the current one.
#![tactic(auto)]

use anyhow::ensure;
use folder::list_folder;
use listing::Outcome;
use std::env;
use std::process::ExitCode;

fn run(rt: &HostRuntime) -> anyhow::Result<Outcome> {
    let mut args = env::args(rt)?;
    let _program = args.next();
    let folder = args.next();
    ensure!(args.next().is_none(), "usage: findings [FOLDER]");
    list_folder(rt, folder.as_ref().map_or(".", |folder| folder.as_str()))
}

// A fault has its own line on standard output, so no more is said of it than by the status.
fn main(rt: HostRuntime) -> anyhow::Result<ExitCode> {
    match run(&rt)? {
        Outcome::Faulty => Ok(ExitCode::FAILURE),
        _ => Ok(ExitCode::SUCCESS),
    }
}
