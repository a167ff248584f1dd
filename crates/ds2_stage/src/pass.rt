//! What a party of a stage carries between two holdings of the lock.
ghost use Rattle.std.specs.Prelude.{◌≡◌, ◌+◌, ℕ};
ghost use Rattle.ds2_schedule.specs.Rule.{MayDraw, MayJoin, ShowsAll, with_joined};
ghost use Rattle.ds2_schedule.specs.Seats.{view_of, IsSeatOf, IsRun, IsInside, HasDrawn};
ghost use Rattle.ds2_stage.specs.Passes.{IsSameButSeat, IsMerged};

use ds2_schedule::{Draw, TicketSeat, Tickets};
use std::marker::Model;
use std::sync::ledger::{Ledger, Share};

/// A party's number, its seat at the tickets, and its part of both ledgers: how many groups it handed in, and their rows.
#[derive(Drop)]
pub struct Pass<C: Ledger, R: Ledger> {
    pub(crate) number: u32,
    pub(crate) seat: TicketSeat,
    pub(crate) count: Share<C>,
    pub(crate) rows: Share<R>,
}

impl<C: Ledger, R: Ledger> Model for Pass<C, R> {
    ghost use Rattle.std.specs.Prelude.{◌≡◌};
    ghost use Rattle.ds2_stage.specs.Passes.{PassView};

    ghost Value = { PassView };

    ghost view = { λ p. record { number = p.number; seat = p.seat; groups = p.count.amount; rows = p.rows.amount; parts = p.count.parts } };

    ghost invariant = { λ p. p.count.parts ≡ p.rows.parts };
}

impl<C: Ledger, R: Ledger> Pass<C, R> {
    /// The number of the party. Workers are numbered from 0, and the caller's number is that of the workers.
    pub fn number(&self) -> u32
        ensures { result ≡ self.now.number }
    {
        self.number
    }

    // Draws a run.
    pub(crate) fn draw(&mut self, tickets: &Tickets) -> Draw
        requires of { IsSeatOf tickets.now self.old.seat }
        requires may { MayDraw tickets.now.runs (view_of self.old.seat) }
        ensures same { IsSameButSeat self.old self.new }
        ensures of { IsSeatOf tickets.now self.new.seat }
        ensures drawn { HasDrawn tickets.now (view_of self.old.seat) (view_of self.new.seat) result }
        ensures inside { IsInside tickets.now result }
        ensures again { IsRun result → MayDraw tickets.now.runs (view_of self.new.seat) }
    {
        tickets.draw(&mut self.seat)
    }

    // Takes in what another party has.
    pub(crate) fn merge(&mut self, tickets: &Tickets, other: Pass<C, R>)
        requires of { IsSeatOf tickets.now self.old.seat × IsSeatOf tickets.now other.seat }
        requires may { MayJoin (view_of self.old.seat) (view_of other.seat) }
        ensures sums { IsMerged self.old other self.new }
        ensures seat { IsSeatOf tickets.now self.new.seat × (view_of self.new.seat ≡ with_joined (view_of self.old.seat) (view_of other.seat)) }
        ensures all { (next : ℕ) × ShowsAll next (view_of self.new.seat) }
    {
        let Pass {
            number: _,
            seat,
            count,
            rows,
        } = other;
        tickets.join(&mut self.seat, seat);
        self.count.merge(count);
        self.rows.merge(rows);
    }

    // The seat alone.
    pub(crate) fn into_seat(self) -> TicketSeat
        ensures { result ≡ self.seat }
    {
        let Pass {
            number: _,
            seat,
            count: _,
            rows: _,
        } = self;
        seat
    }
}
