//! What the parties of a stage share.
ghost use Rattle.std.specs.Prelude.{◌≡◌, ◌<◌, ◌^◌, IfOk, IfErr, length};
ghost use Rattle.ds2_stage.specs.Passes.{IsHandedIn};
ghost use Rattle.ds2_stage.specs.Odds.{IsOdd};

use crate::desk::{Desk, Odd};
use crate::pass::Pass;
use ds2_bags::{Answers, Done};
use ds2_schedule::{Tickets, Totals};
use std::sync::ledger::Ledger;
use std::sync::{Mutex, Wait};

/// The tickets of a stage, and the lock with the book of its hand-ins.
#[derive(Drop)]
pub struct Shared<C: Ledger, R: Ledger> {
    pub(crate) desk: Mutex<Desk<C, R>>,
    pub(crate) tickets: Tickets,
}

impl<C: Ledger, R: Ledger> Shared<C, R> {
    // Hands a group in under the lock, where the book is that of the worker's job. Answers the least group that faulted so far.
    pub(crate) fn hand_in<J: Answers, W: Wait>(
        &self,
        rt: &W,
        groups: u64,
        pass: &mut Pass<C, R>,
        done: &Done<'_, J>,
    ) -> Result<Option<u64>, Odd>
        requires group { done.now.group < groups }
        requires few { length done.now.end.rows < 2 ^ 31 }
        requires part { 0 < pass.old.parts }
        ensures ok { IfOk result (λ _. IsHandedIn pass.old (length done.now.end.rows) pass.new) }
        ensures err { IfErr result (λ odd. IsOdd groups odd × (pass.new ≡ pass.old)) }
    {
        let mut desk = self.desk.lock(rt);
        let desk = &mut *desk;
        if let Some(odd) = desk.odd(groups) {
            return Err(odd);
        }
        Ok(desk.hand_in(pass, done.group(), done.rows(), done.is_fault()))
    }

    // The sums under the lock, which are those of a pass that has all parts of both ledgers.
    pub(crate) fn totals<W: Wait>(&self, rt: &W, all: &mut Pass<C, R>) -> Totals
        requires { (all.old.parts ≡ C.parts) × (all.old.parts ≡ R.parts) }
        ensures totals { (result.groups ≡ all.old.groups) × (result.rows ≡ all.old.rows) }
        ensures pass { all.new ≡ all.old }
    {
        self.desk.lock(rt).totals(all)
    }
}
