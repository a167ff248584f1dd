//! Cases of single layers of the compiler and its runtime, as a person reads and writes them.
//!
//! Standard input holds sections, one behind the other. Each begins with a line `#### layer WORD`, and the lines below it are the cases
//! of that layer, in its own form:
//!
//! - `tokens`, texts and their tokens;
//! - `trees`, sources and their trees;
//! - `loads`, the loads of `set` and of `merge` over small tables;
//! - `codes`, whether codes are valid, and what their units do in the machine;
//! - `objects`, object files, whole and spoiled;
//! - `stages`, stages of a sample job on several workers.
//!
//! Standard output gets the same lines, and below each the answers of its section. The module of a layer tells its form. No case has a
//! line that begins so: where lines are cases, one that begins with `#` is a heading.
#![tactic(auto)]

mod codes;
mod loads;
mod objects;
mod stages;
mod texts;
mod tokens;
mod trees;

use std::io;

// Prints the answers to the cases of a layer that wants no thread.
fn run_layer(rt: &HostRuntime, layer: &str, cases: &str) -> anyhow::Result<()> {
    match layer {
        "tokens" => tokens::run(rt, cases),
        "trees" => trees::run(rt, cases),
        "loads" => Ok(loads::run(rt, cases)?),
        "codes" => Ok(codes::run(rt, cases)?),
        "objects" => Ok(objects::run(rt, cases)?),
        _ => Ok(println!(rt; "no such layer")?),
    }
}

// Prints the line with which the answers of a layer begin.
fn print_heading(rt: &HostRuntime, layer: &str) -> io::Result<()> {
    println!(rt; "#### layer {layer}")
}

fn main(rt: HostRuntime) -> anyhow::Result<()> {
    let input = io::read_to_string(rt.alloc(), rt.reader())?;
    let Some(sections) = input.as_str().strip_prefix("#### layer ") else {
        return Ok(println!(rt; "no section")?);
    };
    for section in sections.split("\n#### layer ") {
        let (layer, cases) = section.split_once('\n').unwrap_or((section, ""));
        print_heading(&rt, layer)?;
        if layer == "stages" {
            stages::run(&rt, rt.alloc(), cases)?;
        } else {
            run_layer(&rt, layer, cases)?;
        }
    }
    Ok(())
}
