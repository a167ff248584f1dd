//! The command `ds2`: the top call over the files of the current folder and standard output.
#![tactic(auto)]

mod command;

use std::process::ExitCode;

fn main(rt: HostRuntime) -> ExitCode {
    ExitCode::from(command::run(&rt).code())
}
