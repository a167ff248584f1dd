//! What the lock keeps: the sums of the hand-ins.
ghost use Rattle.std.specs.Prelude.{◌≡◌, ◌≢◌, ◌<◌, ◌^◌, None, Some, IfSome};
ghost use Rattle.ds2_stage.specs.Passes.{IsHandedIn};
ghost use Rattle.ds2_stage.specs.Odds.{IsOdd};

use crate::pass::Pass;
use ds2_schedule::{Book, Totals};
use std::sync::ledger;
use std::sync::ledger::Ledger;

/// A test of the book under its lock that failed.
#[derive(Clone, Copy, PartialEq, Eq)]
pub enum Odd {
    /// The book is not of a stage with as many groups as the worker's job has.
    Groups {
        /// The number of groups of the worker's job.
        kept: u64,
        /// That of the book.
        found: u64,
    },
    /// The book takes no further hand-in.
    Full {
        /// How many were made.
        hand_ins: u64,
    },
}

// The book, with the totals of the two ledgers.
#[derive(Drop)]
pub(crate) struct Desk<C: Ledger, R: Ledger> {
    pub(crate) book: Book,
    pub(crate) count: ledger::Book<C>,
    pub(crate) rows: ledger::Book<R>,
    ghost counted: { count.total ≡ book.hand_ins },
    ghost rows_counted: { rows.total ≡ book.rows },
}

impl<C: Ledger, R: Ledger> Desk<C, R> {
    // Why a worker whose job has so many groups may not hand in; None where it may.
    pub(crate) fn odd(&self, groups: u64) -> Option<Odd>
        ensures none { result ≡ None → (self.now.book.groups ≡ groups) × (self.now.book.hand_ins < 2 ^ 32) }
        ensures some { IfSome result (λ odd. IsOdd groups odd) }
    {
        let found = self.book.groups();
        if found != groups {
            return Some(Odd::Groups {
                kept: groups,
                found,
            });
        }
        if self.book.full() {
            return Some(Odd::Full { hand_ins: 1 << 32 });
        }
        None
    }

    // Takes in a group that a worker ran. Answers the least group that faulted so far.
    pub(crate) fn hand_in(
        &mut self,
        pass: &mut Pass<C, R>,
        g: u64,
        rows: u64,
        faulted: bool,
    ) -> Option<u64>
        requires free { self.old.book.hand_ins < 2 ^ 32 }
        requires group { g < self.old.book.groups }
        requires few { rows < 2 ^ 31 }
        requires part { 0 < pass.old.parts }
        ensures { IsHandedIn pass.old rows pass.new }
    {
        let Desk {
            book,
            count,
            rows: all_rows,
        } = self;
        let Pass {
            number: _,
            seat: _,
            count: mine,
            rows: my_rows,
        } = pass;
        let least = book.hand_in(g, rows, faulted);
        count.add(mine, 1);
        all_rows.add(my_rows, rows);
        least
    }

    // The sums, which are those of a pass that has all parts of both ledgers.
    pub(crate) fn totals(&mut self, all: &mut Pass<C, R>) -> Totals
        requires { (all.old.parts ≡ C.parts) × (all.old.parts ≡ R.parts) }
        ensures totals { (result.groups ≡ all.old.groups) × (result.rows ≡ all.old.rows) }
        ensures pass { all.new ≡ all.old }
    {
        let Desk { book, count, rows } = self;
        let Pass {
            number: _,
            seat: _,
            count: mine,
            rows: my_rows,
        } = all;
        count.audit(mine);
        rows.audit(my_rows);
        book.totals()
    }
}
