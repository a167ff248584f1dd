//! Stages of a sample job, each on 1, 2, 4 and 8 workers.
//!
//! Each line has numbers: how many groups the job has, and which of them end by a fault. The answer is the
//! line again and, below it, what the stage gives on each number of workers: which group faulted first, and how many instructions
//! each answer executed, which is its group's number. A line that begins with `#` is a heading.
//!
//! A line that begins with `@` has two numbers in front: whoever holds the group of the first one waits until that of the second was handed
//! in, which only another worker can do.
mod sample;
mod telling;

use crate::stages::telling::{answers, answers_at_gate};
use std::alloc::Global;
use std::io;
use std::sync::Wait;
use std::thread::Threads;

/// Prints each job, and what its stage gives.
pub fn run<R: Print + Threads + Wait + Sync>(rt: &R, alloc: Global, cases: &str) -> io::Result<()> {
    for line in cases.lines() {
        println!(rt; "{line}")?;
        if let Some(job) = line.strip_prefix("@") {
            let text = answers_at_gate(rt, alloc, job)?;
            println!(rt; "{text}")?;
        } else if !line.starts_with('#') && !line.is_empty() {
            let text = answers(rt, alloc, line)?;
            println!(rt; "{text}")?;
        }
    }
    Ok(())
}
