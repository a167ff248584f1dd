//! What the caller does behind the joins.
ghost use Rattle.std.specs.Prelude.{◌≡◌, ◌==◌, ℕ, ◌+◌, ◌<◌, ◌≤◌, IfOk, length, map, sum_by, vec_len};
ghost use Rattle.std.specs.List.{All, list_any};
ghost use Rattle.ds2_bags.specs.Endings.{ended_by_fault};
ghost use Rattle.ds2_bags.specs.StageEnds.{IsStageEnd};
ghost use Rattle.ds2_schedule.specs.Rule.{shown};
ghost use Rattle.ds2_schedule.specs.Runs.{run_length};
ghost use Rattle.ds2_schedule.specs.Seats.{view_of};
ghost use Rattle.ds2_stage.specs.Ended.{IsEndedBag, HasEnded, HaveEachOnce, ComesOfHistory};
ghost use Rattle.ds2_stage.specs.Bags.{EndedInFull};
ghost use Rattle.ds2_stage.specs.Gathered.{IsEndedPass, times_shown};
ghost use Rattle.ds2_stage.specs.Passes.{PassView, IsCallerPass, AreInOrderOfNumber};

use crate::bag::Bag;
use crate::drawing::draw_rest;
use crate::gathering::gather;
use crate::pass::Pass;
use crate::shared::Shared;
use ds2_bags::{Answers, Done, Finished, GroupEnd, Job, StageEnd, finish, place};
use ds2_base::{List, OutOfMemory};
use ds2_outside::Gate;
use ds2_schedule::TicketSeat;
use ds2_schedule::dealing_laws::runs_are_least;
use ds2_schedule::laws::{
    ended_is_carried, ended_is_complete, every_schedule, whole_bags_have_all,
};
use std::alloc::Global;
use std::sync::Wait;
use std::sync::ledger::Ledger;

/// What the parties of a stage have behind the joins.
pub struct Brought<'j, J: Answers, C: Ledger, R: Ledger> {
    /// The pass of the caller.
    pub caller: Pass<C, R>,
    /// The bags of all workers, in order of number.
    pub bags: Vec<Bag<'j, J, C, R>>,
}

/// What the caller makes of a stage.
#[derive(Drop)]
pub struct Concluded {
    pub end: StageEnd,
    /// The groups that the caller ran itself, in order.
    pub ran: List<u64>,
    /// The first seat, which shows all numbers that were drawn.
    pub seat: TicketSeat,
}

/// What the caller does behind the joins: takes in what the workers have, draws the runs that they left, and runs the groups that
/// nobody brought, as far as they are needed. What the workers and the caller have then makes a history that is legal and complete;
/// where each worker ended neither early nor at a fault, their bags have each group once.
pub fn conclude<'j, J: Job, G: Gate, C: Ledger, R: Ledger, W: Wait>(
    rt: &W,
    alloc: Global,
    job: &'j J,
    shared: &Shared<C, R>,
    brought: Brought<'j, J, C, R>,
    gate: &G,
) -> Result<Concluded, OutOfMemory>
    requires groups { J.count job.now ≡ shared.now.tickets.groups }
    requires cut { shared.now.tickets.length ≡ run_length shared.now.tickets.groups (vec_len brought.bags) }
    requires some { (0 < vec_len brought.bags) × (vec_len brought.bags ≤ 64) }
    requires caller { IsCallerPass shared.now.tickets (vec_len brought.bags) brought.caller }
    requires parts { (C.parts ≡ vec_len brought.bags + 1) × (R.parts ≡ vec_len brought.bags + 1) }
    requires bags { All (λ b. IsEndedBag (J.answer job.now) shared.now.tickets b.pass (map (λ d. record { group = d.group; rows = length d.end.rows; faulted = ended_by_fault d.end.ending }) b.dones) (record { short = b.short; odd = b.odd; stop = b.stop }) × All (λ d. d.job.now ≡ job.now) b.dones) brought.bags.items }
    requires number { AreInOrderOfNumber (map (λ b. b.pass) brought.bags.items) }
    ensures end { IfOk result (λ c. IsStageEnd (J.answer job.now) (J.count job.now) c.end) }
    ensures ended { IfOk result (λ c. HasEnded (J.answer job.now) shared.now.tickets (map (λ b. record { drawn = shown (view_of b.pass.seat); runs = map (λ d. record { group = d.group; rows = length d.end.rows; faulted = ended_by_fault d.end.ending }) b.dones }) brought.entry.bags.items) c.ran c.seat) }
    ensures whole { IfOk result (λ _. All (λ b. EndedInFull (record { short = b.short; odd = b.odd; stop = b.stop }) (map (λ d. record { group = d.group; rows = length d.end.rows; faulted = ended_by_fault d.end.ending }) b.dones)) brought.entry.bags.items → HaveEachOnce (J.count job.now) (map (λ b. record { drawn = shown (view_of b.pass.seat); runs = map (λ d. record { group = d.group; rows = length d.end.rows; faulted = ended_by_fault d.end.ending }) b.dones }) brought.entry.bags.items)) }
    ensures history { IfOk result (λ c. ComesOfHistory (J.answer job.now) (J.count job.now) (vec_len brought.entry.bags) c.end) }
{
    runs_are_least();
    ended_is_complete();
    whole_bags_have_all();
    ended_is_carried::<(), (), (), GroupEnd>();
    every_schedule::<(), (), (), GroupEnd>();
    let Brought { caller, bags } = brought;
    let workers = bags.len() as u32;
    let Unpacked { passes, dones } = unpack(alloc, job, shared, bags)?;
    let (_totals, mut seat) = gather(rt, shared, caller, passes);
    draw_rest(&shared.tickets, &mut seat);
    let placed = place(alloc, job, dones)?;
    let Finished { end, ran } = finish(alloc, job, workers, placed, gate)?;
    Ok(Concluded { end, ran, seat })
}

// The passes of all workers, and what they ran.
#[derive(Drop)]
struct Unpacked<'j, J: Answers, C: Ledger, R: Ledger> {
    passes: List<Pass<C, R>>,
    dones: List<List<Done<'j, J>>>,
}

// Takes the bags apart.
fn unpack<'j, J: Answers, C: Ledger, R: Ledger>(
    alloc: Global,
    job: &'j J,
    shared: &Shared<C, R>,
    mut bags: Vec<Bag<'j, J, C, R>>,
) -> Result<Unpacked<'j, J, C, R>, OutOfMemory>
    requires bags { All (λ b. IsEndedBag (J.answer job.now) shared.now.tickets b.pass (map (λ d. record { group = d.group; rows = length d.end.rows; faulted = ended_by_fault d.end.ending }) b.dones) (record { short = b.short; odd = b.odd; stop = b.stop }) × All (λ d. d.job.now ≡ job.now) b.dones) bags.items }
    ensures len { IfOk result (λ u. length u.passes ≡ vec_len bags.entry) }
    ensures parts { IfOk result (λ u. sum_by (λ (p : PassView). p.parts) u.passes ≡ vec_len bags.entry) }
    ensures passes { IfOk result (λ u. All (IsEndedPass shared.now.tickets) u.passes) }
    ensures jobs { IfOk result (λ u. All (λ bag. All (λ d. d.job.now ≡ job.now) bag) u.dones) }
    ensures numbers { IfOk result (λ u. (x : ℕ) → sum_by (times_shown x) u.passes ≡ sum_by (λ b. times_shown x b.pass) bags.entry.items) }
    ensures named { IfOk result (λ u. (g : ℕ) → list_any (λ bag. list_any (λ d. d.group == g) bag) u.dones ≡ list_any (λ b. list_any (λ d. d.group == g) b.dones) bags.entry.items) }
{
    let _kept = job;
    let _tickets = &shared.tickets;
    let mut passes = Vec::new(alloc);
    let mut dones = Vec::new(alloc);
    if passes.reserve(bags.len()).is_err() || dones.reserve(bags.len()).is_err() {
        let_go(bags);
        return Err(OutOfMemory);
    }
    while let Some(bag) = bags.pop() {
        let Bag {
            pass,
            dones: brought,
            short: _,
            odd: _,
            stop: _,
        } = bag;
        passes.push_reserved(pass);
        dones.push_reserved(brought);
    }
    bags.destroy_empty();
    Ok(Unpacked {
        passes: List::of(passes),
        dones: List::of(dones),
    })
}

fn let_go<'j, J: Answers, C: Ledger, R: Ledger>(mut bags: Vec<Bag<'j, J, C, R>>) {
    while let Some(bag) = bags.pop() {
        let Bag {
            pass: _,
            dones: _,
            short: _,
            odd: _,
            stop: _,
        } = bag;
    }
    bags.destroy_empty();
}
