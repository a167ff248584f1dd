//! What the caller makes of what workers have brought.
ghost use Rattle.std.specs.Prelude.{◌≡◌, ℕ, ◌+◌, ◌<◌, ◌≤◌, ◌++◌, [], false, None, IfOk, length, slice_index_or, vec_len, vec_capacity};
ghost use Rattle.ds2_bags.specs.Rest.{HasRunRest, unless_brought};
ghost use Rattle.ds2_bags.specs.Endings.{ended_by_fault};
ghost use Rattle.ds2_bags.specs.StageEnds.{Brings, IsStageEnd};

use crate::group_end::GroupEnd;
use crate::job::Job;
use ds2_base::{List, OutOfMemory};
use ds2_outside::Gate;
use std::alloc::Global;

/// What a stage gives.
#[derive(Drop)]
pub struct StageEnd {
    /// The answers of groups 0, 1, and so on, up to and with the least group that faulted, or of all groups.
    pub ends: List<GroupEnd>,
    /// The least group that faulted.
    pub faulted: Option<u64>,
}

/// What the caller makes of a stage.
#[derive(Drop)]
pub struct Finished {
    pub end: StageEnd,
    /// The groups that the caller ran itself, in order.
    pub ran: List<u64>,
}

/// The answers in order, up to and with the first fault. Runs the groups that nobody brought, as far as they are needed, on a state of
/// its own. `caller` is the caller's number for the gate.
pub fn finish<J: Job, G: Gate>(
    alloc: Global,
    job: &J,
    caller: u32,
    placed: List<Option<GroupEnd>>,
    gate: &G,
) -> Result<Finished, OutOfMemory>
    requires len { length placed ≡ J.count job.now }
    requires each { (g : ℕ) → g < J.count job.now → Brings (J.answer job.now) g (slice_index_or placed g None) }
    ensures end { IfOk result (λ f. IsStageEnd (J.answer job.now) (J.count job.now) f.end) }
    ensures ran { IfOk result (λ f. HasRunRest (J.answer job.now) (λ g. slice_index_or placed g None) (J.count job.now) f.ran) }
{
    let caller = Caller {
        number: caller,
        gate,
    };
    let groups = job.groups();
    let mut placed = placed.into_vec();
    let mut worker = job.start(alloc)?;
    let mut ends = Vec::with_capacity(alloc, groups as usize)?;
    let mut ran = Vec::with_capacity(alloc, groups as usize)?;
    for g in 0..groups {
        let brought = placed[g as usize].take();
        note(&mut ran, g, &brought);
        let end = answer_of(alloc, job, &mut worker, g, brought, &caller)?;
        let fault = end.is_fault();
        ends.push_reserved(end);
        if fault {
            return Ok(ended(ends, Some(g), ran));
        }
    }
    Ok(ended(ends, None, ran))
}

// Notes a group that the caller has to run.
fn note(ran: &mut Vec<u64>, g: u64, brought: &Option<GroupEnd>)
    requires { vec_len ran.old < vec_capacity ran.old }
    ensures items { ran.new.items ≡ ran.old.items ++ unless_brought brought.now g [] }
    ensures room { (vec_capacity ran.new ≡ vec_capacity ran.old) × (vec_len ran.new ≤ vec_len ran.old + 1) }
{
    if brought.is_none() {
        ran.push_reserved(g);
    }
}

fn ended(ends: Vec<GroupEnd>, faulted: Option<u64>, ran: Vec<u64>) -> Finished
    ensures end { result.end ≡ record { ends = ends.items; faulted = faulted } }
    ensures ran { result.ran ≡ ran.items }
{
    Finished {
        end: StageEnd {
            ends: List::of(ends),
            faulted,
        },
        ran: List::of(ran),
    }
}

// The caller of a stage, by its number at the gate.
#[derive(Drop)]
struct Caller<'g, G: Gate> {
    number: u32,
    gate: &'g G,
}

// A group's answer: what was brought, or a run of the caller's own.
fn answer_of<J: Job, G: Gate>(
    alloc: Global,
    job: &J,
    worker: &mut J::Worker,
    g: u64,
    brought: Option<GroupEnd>,
    caller: &Caller<'_, G>,
) -> Result<GroupEnd, OutOfMemory>
    requires group { g < J.count job.now }
    requires brought { Brings (J.answer job.now) g brought }
    requires fits { J.fits job.now worker.old }
    ensures answer { IfOk result (λ e. e ≡ J.answer job.now g) }
    ensures fits { IfOk result (λ e. ended_by_fault e.ending ≡ false → J.fits job.now worker.new) }
{
    if let Some(end) = brought {
        return Ok(end);
    }
    caller.gate.before(caller.number, g);
    let end = job.run(alloc, worker, g)?;
    caller.gate.after(caller.number, g);
    Ok(end)
}
