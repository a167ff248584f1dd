//! The stage: fork, join, and what the caller does then.
ghost use Rattle.std.specs.Prelude.{◌≡◌, ◌+◌, ◌≤◌, IfOk, length, map, vec_len};
ghost use Rattle.std.specs.List.{All};
ghost use Rattle.ds2_bags.specs.Endings.{ended_by_fault};
ghost use Rattle.ds2_bags.specs.StageEnds.{IsStageEnd};
ghost use Rattle.ds2_stage.specs.Ended.{IsEndedBag, ComesOfHistory};
ghost use Rattle.ds2_stage.specs.Passes.{MayWork, AreInOrderOfNumber};

use crate::bag::Bag;
use crate::concluding::{Brought, Concluded, conclude};
use crate::opening::{Opened, open_shared};
use crate::pass::Pass;
use crate::shared::Shared;
use crate::worker::work;
use ds2_bags::{Job, StageEnd};
use ds2_base::OutOfMemory;
use ds2_outside::Gate;
use std::alloc::Global;
use std::marker::Brand;
use std::sync::Wait;
use std::sync::ledger::{Blank, Ledger};
use std::thread;
use std::thread::Threads;

/// Runs the groups of a job on 1 to 64 workers. Whatever worker has which group, and in whatever order they come to an end, the answer
/// is that of one thread: the answers of groups 0, 1, and so on, up to and with the least group that faults, or of all groups. The draws
/// and hand-ins that it comes of are a legal and complete history; [`crate::conclude`] says which.
pub fn run_stage<J: Job + Sync, G: Gate + Sync, W: Threads + Wait + Sync>(
    rt: &W,
    alloc: Global,
    job: &J,
    workers: u32,
    gate: &G,
) -> Result<StageEnd, OutOfMemory>
    requires { (1 ≤ workers) × (workers ≤ 64) }
    ensures end { IfOk result (λ e. IsStageEnd (J.answer job.now) (J.count job.now) e) }
    ensures history { IfOk result (λ e. ComesOfHistory (J.answer job.now) (J.count job.now) workers e) }
{
    let parts = workers as u64 + 1;
    over::<J, G, Brand, Brand, W>(
        rt,
        alloc,
        job,
        workers,
        gate,
        Blanks {
            count: Blank::new(parts),
            rows: Blank::new(parts),
        },
    )
}

// Of the ledgers that are still to be opened: that of the groups handed in, and that of their rows.
#[derive(Drop)]
struct Blanks {
    count: Blank,
    rows: Blank,
}

// The stage over two ledgers.
fn over<
    J: Job + Sync,
    G: Gate + Sync,
    C: Ledger + Send + Sync,
    R: Ledger + Send + Sync,
    W: Threads + Wait + Sync,
>(
    rt: &W,
    alloc: Global,
    job: &J,
    workers: u32,
    gate: &G,
    blanks: Blanks,
) -> Result<StageEnd, OutOfMemory>
    requires workers { (1 ≤ workers) × (workers ≤ 64) }
    requires count { (blanks.count.name ≡ C.name) × (blanks.count.parts ≡ C.parts) × (C.parts ≡ workers + 1) }
    requires rows { (blanks.rows.name ≡ R.name) × (blanks.rows.parts ≡ R.parts) × (R.parts ≡ workers + 1) }
    ensures end { IfOk result (λ e. IsStageEnd (J.answer job.now) (J.count job.now) e) }
    ensures history { IfOk result (λ e. ComesOfHistory (J.answer job.now) (J.count job.now) workers e) }
{
    let groups = job.groups();
    if groups > 1 << 32 {
        return Err(OutOfMemory);
    }
    let Opened {
        shared,
        workers: passes,
        caller,
    } = open_shared::<C, R>(alloc, blanks.count, blanks.rows, groups, workers)?;
    let bags = run_workers(rt, alloc, job, &shared, passes.into_vec(), gate)?;
    let brought = Brought { caller, bags };
    let Concluded {
        end,
        ran: _,
        seat: _,
    } = conclude(rt, alloc, job, &shared, brought, gate)?;
    Ok(end)
}

// Each worker in a thread of its own where one can be made.
fn run_workers<
    'j,
    J: Job + Sync,
    G: Gate + Sync,
    C: Ledger + Send + Sync,
    R: Ledger + Send + Sync,
    W: Threads + Wait + Sync,
>(
    rt: &W,
    alloc: Global,
    job: &'j J,
    shared: &Shared<C, R>,
    passes: Vec<Pass<C, R>>,
    gate: &G,
) -> Result<Vec<Bag<'j, J, C, R>>, OutOfMemory>
    requires passes { All (λ p. MayWork (J.count job.now) shared.now.tickets p) passes.items }
    requires number { AreInOrderOfNumber passes.items }
    ensures len { IfOk result (λ bags. vec_len bags ≡ vec_len passes) }
    ensures each { IfOk result (λ bags. All (λ b. IsEndedBag (J.answer job.now) shared.now.tickets b.pass (map (λ d. record { group = d.group; rows = length d.end.rows; faulted = ended_by_fault d.end.ending }) b.dones) (record { short = b.short; odd = b.odd; stop = b.stop }) × All (λ d. d.job.now ≡ job.now) b.dones) bags.items) }
    ensures number { IfOk result (λ bags. AreInOrderOfNumber (map (λ b. b.pass) bags.items)) }
{
    let bags = thread::map_vec(
        rt,
        passes,
        &move |pass: Pass<C, R>| -> Bag<J, C, R>
            requires { MayWork (J.count job.now) shared.now.tickets pass }
            ensures { IsEndedBag (J.answer job.entry.now) shared.entry.now.tickets result.pass (map (λ d. record { group = d.group; rows = length d.end.rows; faulted = ended_by_fault d.end.ending }) result.dones) (record { short = result.short; odd = result.odd; stop = result.stop }) × All (λ d. d.job.now ≡ job.entry.now) result.dones × (result.pass.number ≡ pass.number) }
        { party(rt, alloc, job, shared, pass, gate) },
    )?;
    Ok(bags)
}

// What a worker brings.
fn party<'j, J: Job, G: Gate, C: Ledger, R: Ledger, W: Wait>(
    rt: &W,
    alloc: Global,
    job: &'j J,
    shared: &Shared<C, R>,
    pass: Pass<C, R>,
    gate: &G,
) -> Bag<'j, J, C, R>
    requires { MayWork (J.count job.now) shared.now.tickets pass }
    ensures { IsEndedBag (J.answer job.now) shared.now.tickets result.pass (map (λ d. record { group = d.group; rows = length d.end.rows; faulted = ended_by_fault d.end.ending }) result.dones) (record { short = result.short; odd = result.odd; stop = result.stop }) × All (λ d. d.job.now ≡ job.now) result.dones × (result.pass.number ≡ pass.number) }
{
    work(rt, alloc, job, shared, pass, gate)
}
