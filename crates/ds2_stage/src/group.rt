//! A worker's step: one group.
ghost use Rattle.std.specs.Prelude.{◌≡◌, ◌+◌, ◌<◌, ◌≤◌, length, map, true, false, vec_len, vec_capacity};
ghost use Rattle.std.specs.List.{All};
ghost use Rattle.ds2_bags.specs.Endings.{ended_by_fault};
ghost use Rattle.ds2_stage.specs.Steps.{HasGone, goes_on};

use crate::desk::Odd;
use crate::pass::Pass;
use crate::shared::Shared;
use ds2_bags::{Done, Job, run_group};
use ds2_outside::Gate;
use std::alloc::Global;
use std::sync::Wait;
use std::sync::ledger::Ledger;

// How a worker comes out of a group.
#[derive(Clone, Copy, PartialEq, Eq)]
pub(crate) enum Went {
    // It ended without fault and was handed in. The least group that faulted so far.
    On(Option<u64>),
    // It ended by a fault and was handed in.
    Fault,
    // There was no memory.
    Short,
    // A test of the book failed.
    Refused(Odd),
}

// A worker at work: what it shares with the others, the state that it runs groups on, its pass, and what it ran.
#[derive(Drop)]
pub(crate) struct AtWork<'s, 'j, J: Job, C: Ledger, R: Ledger> {
    pub(crate) shared: &'s Shared<C, R>,
    pub(crate) state: J::Worker,
    pub(crate) pass: Pass<C, R>,
    pub(crate) dones: Vec<Done<'j, J>>,
}

// Runs a group and hands it in. Room for it in the bag is made first: nothing is allocated under the lock, or between it and the bag.
pub(crate) fn run_one<'j, J: Job, G: Gate, C: Ledger, R: Ledger, W: Wait>(
    rt: &W,
    alloc: Global,
    job: &'j J,
    worker: &mut AtWork<'_, 'j, J, C, R>,
    g: u64,
    gate: &G,
) -> Went
    requires group { g < J.count job.now }
    requires fits { J.fits job.now worker.old.state }
    requires part { 0 < worker.old.pass.parts }
    requires of { All (λ d. d.job.now ≡ job.now) worker.old.dones.items }
    ensures of { All (λ d. d.job.now ≡ job.now) worker.new.dones.items }
    ensures gone { HasGone (J.answer job.now) (J.count job.now) g worker.old.pass worker.new.pass (map (λ d. record { group = d.group; rows = length d.end.rows; faulted = ended_by_fault d.end.ending }) worker.old.dones.items) (map (λ d. record { group = d.group; rows = length d.end.rows; faulted = ended_by_fault d.end.ending }) worker.new.dones.items) result }
    ensures fits { goes_on result ≡ true → J.fits job.now worker.new.state }
{
    let AtWork {
        shared,
        state,
        pass,
        dones,
    } = worker;
    if dones.reserve(1).is_err() {
        return Went::Short;
    }
    let number = pass.number();
    gate.before(number, g);
    let Ok(done) = run_group(alloc, job, state, g) else {
        return Went::Short;
    };
    let went = keep(rt, job, shared, pass, dones, done);
    gate.after(number, g);
    went
}

// Hands in a group that was run, and keeps it.
fn keep<'j, J: Job, C: Ledger, R: Ledger, W: Wait>(
    rt: &W,
    job: &'j J,
    shared: &Shared<C, R>,
    pass: &mut Pass<C, R>,
    dones: &mut Vec<Done<'j, J>>,
    done: Done<'j, J>,
) -> Went
    requires job { done.job.now ≡ job.now }
    requires end { done.end ≡ J.answer job.now done.group }
    requires part { 0 < pass.old.parts }
    requires room { vec_len dones.old + 1 ≤ vec_capacity dones.old }
    requires of { All (λ d. d.job.now ≡ job.now) dones.old.items }
    ensures of { All (λ d. d.job.now ≡ job.now) dones.new.items }
    ensures gone { HasGone (J.answer job.now) (J.count job.now) done.entry.group pass.old pass.new (map (λ d. record { group = d.group; rows = length d.end.rows; faulted = ended_by_fault d.end.ending }) dones.old.items) (map (λ d. record { group = d.group; rows = length d.end.rows; faulted = ended_by_fault d.end.ending }) dones.new.items) result }
    ensures calm { goes_on result ≡ true → ended_by_fault done.entry.end.ending ≡ false }
{
    if done.rows() >= 1 << 31 {
        return Went::Short;
    }
    match shared.hand_in(rt, job.groups(), pass, &done) {
        Err(odd) => Went::Refused(odd),
        Ok(least) => {
            let faulted = done.is_fault();
            dones.push_reserved(done);
            if faulted {
                Went::Fault
            } else {
                Went::On(least)
            }
        }
    }
}
