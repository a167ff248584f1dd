//! What no command can time: each operation on decimals beside the same work on whole numbers of 128 bits.
//!
//! With the word `time` it prints nanoseconds an operation, else the number that the answers fold into.
#![tactic(auto)]

mod decimals;

use std::env;

fn main(rt: HostRuntime) -> anyhow::Result<()> {
    let timed = match env::args(&rt)?.nth(1) {
        Some(word) => word.as_str() == "time",
        None => false,
    };
    decimals::run(&rt, timed)?;
    Ok(())
}
