//! What one worker does.
ghost use Rattle.std.specs.Prelude.{◌≡◌, ◌<◌, ◌≤◌, ℕ, List as Items, length, map, IfSome};
ghost use Rattle.std.specs.List.{All};
ghost use Rattle.ds2_bags.specs.Endings.{ended_by_fault};
ghost use Rattle.ds2_bags.specs.declared.group_end.GroupEnd.{GroupEnd};
ghost use Rattle.ds2_schedule.specs.Rule.{MayDraw};
ghost use Rattle.ds2_schedule.specs.Seats.{view_of, IsSeatOf};
ghost use Rattle.ds2_schedule.specs.Bags.{GroupRun};
ghost use Rattle.ds2_stage.specs.Bags.{HasWorked};
ghost use Rattle.ds2_stage.specs.Next.{IsAtNext};
ghost use Rattle.ds2_stage.specs.Passes.{PassView, MayWork};
ghost use Rattle.ds2_stage.specs.Working.{IsWorking};

use crate::bag::Bag;
use crate::desk::Odd;
use crate::group::{AtWork, Went, run_one};
use crate::pass::Pass;
use crate::shared::Shared;
use ds2_bags::Job;
use ds2_base::List;
use ds2_outside::Gate;
use ds2_schedule::laws::still_ascends;
use ds2_schedule::{Draw, Tickets};
use std::alloc::Global;
use std::sync::Wait;
use std::sync::ledger::Ledger;

/// Draws runs, runs their groups and hands each in, until no run is left. It ends before that behind a fault, where a group below its
/// next one has faulted, where there is no memory, and where a test of the book fails. The job has as many groups as the stage.
pub fn work<'j, J: Job, G: Gate, C: Ledger, R: Ledger, W: Wait>(
    rt: &W,
    alloc: Global,
    job: &'j J,
    shared: &Shared<C, R>,
    pass: Pass<C, R>,
    gate: &G,
) -> Bag<'j, J, C, R>
    requires { MayWork (J.count job.now) shared.now.tickets pass }
    ensures of { All (λ d. d.job.now ≡ job.now) result.dones }
    ensures worked { HasWorked (J.answer job.now) shared.now.tickets pass result.pass (map (λ d. record { group = d.group; rows = length d.end.rows; faulted = ended_by_fault d.end.ending }) result.dones) (record { short = result.short; odd = result.odd; stop = result.stop }) }
{
    let Ok(state) = job.start(alloc) else {
        return Bag {
            pass,
            dones: List::new(alloc),
            short: true,
            odd: None,
            stop: None,
        };
    };
    let dones = Vec::new(alloc);
    let mut worker = AtWork {
        shared,
        state,
        pass,
        dones,
    };
    let mut next = 0;
    let mut end = 0;
    let mut least = None;
    for _ in rt.forever() {
        let Some((g, to)) = next_group(&shared.tickets, &mut worker.pass, next, end) else {
            return filled(worker, false, None, None);
        };
        if let Some(fault) = below(least, g) {
            return filled(worker, false, None, Some(fault));
        }
        match run_one(rt, alloc, job, &mut worker, g, gate) {
            Went::On(fault) => least = fault,
            Went::Fault => return filled(worker, false, None, None),
            Went::Short => return filled(worker, true, None, None),
            Went::Refused(odd) => return filled(worker, false, Some(odd), None),
        }
        next = g + 1;
        end = to;
    }
    unreachable!()
}

// The next group and where its run ends: of the groups from `next` up to `end`, or, where there are none, of a run that is drawn.
fn next_group<C: Ledger, R: Ledger>(
    tickets: &Tickets,
    pass: &mut Pass<C, R>,
    next: u64,
    end: u64,
) -> Option<(u64, u64)>
    requires inside { next ≤ end }
    requires of { IsSeatOf tickets.now pass.old.seat }
    requires may { MayDraw tickets.now.runs (view_of pass.old.seat) }
    ensures { (answer : ℕ → GroupEnd) (before : PassView) (runs : Items GroupRun) → IsWorking answer tickets.now before pass.old runs next end → IsAtNext answer tickets.now before pass.new runs result }
{
    if next < end {
        return Some((next, end));
    }
    still_ascends();
    match pass.draw(tickets) {
        Draw::Run { from, to } => Some((from, to)),
        Draw::NoMore(_) => None,
    }
}

// The least fault, where it is below a group.
fn below(least: Option<u64>, g: u64) -> Option<u64>
    ensures { IfSome result (λ fault. fault < g) }
{
    match least {
        Some(fault) => { if fault < g { Some(fault) } else { None } }
        None => None,
    }
}

// What a worker brings when it ends.
fn filled<'j, J: Job, C: Ledger, R: Ledger>(
    worker: AtWork<'_, 'j, J, C, R>,
    short: bool,
    odd: Option<Odd>,
    stop: Option<u64>,
) -> Bag<'j, J, C, R>
    ensures pass { result.pass ≡ worker.entry.pass }
    ensures dones { result.dones ≡ worker.entry.dones.items }
    ensures early { (result.short ≡ short) × (result.odd ≡ odd) × (result.stop ≡ stop) }
{
    let AtWork {
        shared: _,
        state: _,
        pass,
        dones,
    } = worker;
    Bag {
        pass,
        dones: List::of(dones),
        short,
        odd,
        stop,
    }
}
