//! What a stage gives, as a text.
ghost use Rattle.std.specs.Prelude.{◌≤◌};

use crate::stages::sample::Sample;
use ds2_bags::StageEnd;
use ds2_case_gate::WaitingGate;
use ds2_outside::{Gate, NoGate};
use ds2_stage::run_stage;
use std::alloc::{AllocError, Global};
use std::sync::Wait;
use std::thread::Threads;

// The first fault, and the answers in order.
fn told(alloc: Global, end: &StageEnd) -> Result<String, AllocError> {
    let mut text = match end.faulted {
        Some(g) => format!(in alloc; "a fault in group {g}, answers")?,
        None => String::from_str(alloc, "no fault, answers")?,
    };
    for answer in end.ends.as_slice() {
        let executed = answer.executed;
        let piece = format!(in alloc; " {executed}")?;
        text.push_str(piece.as_str())?;
    }
    Ok(text)
}

// What the stage gives on so many workers.
fn answer<G: Gate + Sync, R: Threads + Wait + Sync>(
    rt: &R,
    alloc: Global,
    job: &Sample,
    workers: u32,
    gate: &G,
) -> Result<String, AllocError>
    requires { (1 ≤ workers) × (workers ≤ 64) }
{
    match run_stage(rt, alloc, job, workers, gate) {
        Ok(end) => told(alloc, &end),
        Err(_) => String::from_str(alloc, "no memory"),
    }
}

/// What the stage of a line gives on 1, 2, 4 and 8 workers.
pub fn answers<R: Threads + Wait + Sync>(
    rt: &R,
    alloc: Global,
    line: &str,
) -> Result<String, AllocError> {
    let job = Sample::of(alloc, line)?;
    let one = answer(rt, alloc, &job, 1, &NoGate)?;
    let two = answer(rt, alloc, &job, 2, &NoGate)?;
    let four = answer(rt, alloc, &job, 4, &NoGate)?;
    let eight = answer(rt, alloc, &job, 8, &NoGate)?;
    format!(in alloc; "    1: {one}\n    2: {two}\n    4: {four}\n    8: {eight}")
}

// What the stage gives on so many workers, where one group waits for another.
fn answer_at_gate<R: Threads + Wait + Sync>(
    rt: &R,
    alloc: Global,
    job: &Sample,
    workers: u32,
    held: u64,
    awaited: u64,
) -> Result<String, AllocError>
    requires { (1 ≤ workers) × (workers ≤ 64) }
{
    let gate = WaitingGate::new(held, awaited);
    let text = answer(rt, alloc, job, workers, &gate)?;
    let way = if gate.has_waited(workers) {
        "waited"
    } else {
        "did not wait"
    };
    format!(in alloc; "{text}; group {held} {way} for group {awaited}")
}

// The number in front of a text, or 0, and what comes behind it.
fn number_first(line: &str) -> (u64, &str) {
    match line.split_once(' ') {
        Some((word, rest)) => (word.parse::<u32>().unwrap_or(0) as u64, rest),
        None => (0, ""),
    }
}

/// What the stage of a line gives on 2 and 4 workers, where whoever holds the group of the first number waits until that of the second
/// was handed in.
pub fn answers_at_gate<R: Threads + Wait + Sync>(
    rt: &R,
    alloc: Global,
    line: &str,
) -> Result<String, AllocError> {
    let (held, behind) = number_first(line);
    let (awaited, job) = number_first(behind);
    let job = Sample::of(alloc, job)?;
    let two = answer_at_gate(rt, alloc, &job, 2, held, awaited)?;
    let four = answer_at_gate(rt, alloc, &job, 4, held, awaited)?;
    format!(in alloc; "    2: {two}\n    4: {four}")
}
