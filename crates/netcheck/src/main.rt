// Says whether a net file keeps the rules: what is in it, or the first rule that it breaks.
#![tactic(auto)]

mod command;
mod failure;
mod net_file;

use command::{Command, HELP};
use failure::Failure;
use net_file::NetFile;
use std::env;
use std::env::Env;
use std::fs::Files;
use std::process::ExitCode;

// Does what the arguments ask for.
fn run(rt: &(impl Env + Files + AllocGlobal + Print)) -> Result<(), Failure> {
    match Command::from_args(rt.alloc(), env::args(rt)?)? {
        Command::Help => Ok(rt.print(HELP)?),
        Command::Check { name, strictness } => NetFile::read(rt, name)?.check(rt, strictness),
    }
}

// Runs, and says on standard error what went wrong.
fn main(rt: HostRuntime) -> ExitCode {
    match run(&rt) {
        Ok(()) => ExitCode::SUCCESS,
        Err(failure) => {
            failure.report(&rt);
            ExitCode::FAILURE
        }
    }
}
