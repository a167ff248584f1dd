//! The calls on tickets.
ghost use Rattle.std.specs.Prelude.{◌≡◌, ℕ, ◌<◌, ◌≤◌, [], IfOk};
ghost use Rattle.ds2_schedule.specs.Runs.{run_length, run_count};
ghost use Rattle.ds2_schedule.specs.Rule.{MayDraw, MaySplit, MayJoin, ShowsAll, with_split, with_joined};
ghost use Rattle.ds2_schedule.specs.Seats.{view_of, IsSeatOf, IsRun, IsInside, draw_of, HasDrawn};
ghost use Rattle.ds2_schedule.specs.declared.rule.SeatView.TheVariants.{First, Other};

use crate::cutting::{length_of_runs, number_of_runs};
use crate::rule::{Drawn, JoinedIn, Looked, SeatView, SplitOff, TicketLaw};
use crate::tickets::{Draw, TicketSeat, Tickets};
use atomic_table::Table;
use ds2_base::OutOfMemory;
use std::alloc::Global;

impl Tickets {
    /// The tickets of a stage, and the first seat, which shows no number. From 1 to 64 workers.
    pub fn open(
        alloc: Global,
        groups: u64,
        workers: u32,
    ) -> Result<(Tickets, TicketSeat), OutOfMemory>
        requires { (1 ≤ workers) × (workers ≤ 64) }
        ensures seat { IfOk result (λ t. IsSeatOf t.0 t.1 × (view_of t.1 ≡ First 0 0 [])) }
        ensures groups { IfOk result (λ t. t.0.groups ≡ groups) }
        ensures length { IfOk result (λ t. t.0.length ≡ run_length groups workers) }
        ensures runs { IfOk result (λ t. t.0.runs ≡ run_count groups (run_length groups workers)) }
    {
        let length = length_of_runs(groups, workers);
        let runs = number_of_runs(groups, length);
        let (table, seat) = Table::<u8, SeatView, u64, TicketLaw, Global>::of_words(
            alloc,
            &[0],
            &runs,
        )?;
        Ok((
            Tickets {
                table,
                groups,
                length,
                runs,
            },
            TicketSeat { seat },
        ))
    }

    /// A seat for another thread, which shows no number. Takes no memory. The first seat counts it; at most 64 may be split from it.
    pub fn split(&self, seat: &mut TicketSeat) -> TicketSeat
        requires of { IsSeatOf self.now seat.old }
        requires may { MaySplit (view_of seat.old) }
        ensures first { IsSeatOf self.now seat.new × (view_of seat.new ≡ with_split (view_of seat.old)) }
        ensures new { IsSeatOf self.now result × (view_of result ≡ Other []) }
    {
        TicketSeat {
            seat: self.table.shared.split_seat::<SplitOff>(&mut seat.seat),
        }
    }

    /// Draws the next number, which the seat then shows, and gives the groups of its run; where that is a run, the seat may draw again. One atomic step: it takes no memory and waits for nobody.
    pub fn draw(&self, seat: &mut TicketSeat) -> Draw
        requires of { IsSeatOf self.now seat.old }
        requires may { MayDraw self.now.runs (view_of seat.old) }
        ensures of { IsSeatOf self.now seat.new }
        ensures drawn { HasDrawn self.now (view_of seat.old) (view_of seat.new) result }
        ensures inside { IsInside self.now result }
        ensures again { IsRun result → MayDraw self.now.runs (view_of seat.new) }
    {
        let number = self.table.shared.fetch_add::<Drawn>(&mut seat.seat, 0, 1);
        self.run(number)
    }

    /// Takes a seat that was split from the first one into that: the first one then shows the numbers of both. Takes no memory. Where every seat was joined, it shows all numbers that were drawn.
    pub fn join(&self, into: &mut TicketSeat, seat: TicketSeat)
        requires of { IsSeatOf self.now into.old × IsSeatOf self.now seat }
        requires may { MayJoin (view_of into.old) (view_of seat) }
        ensures first { IsSeatOf self.now into.new × (view_of into.new ≡ with_joined (view_of into.old) (view_of seat)) }
        ensures all { (next : ℕ) × ShowsAll next (view_of into.new) }
    {
        let TicketSeat { seat } = seat;
        self.table
            .shared
            .join_seat::<JoinedIn>(&mut into.seat, seat);
        self.table.shared.load::<Looked>(&mut into.seat, 0);
    }

    // The groups of a run.
    fn run(&self, number: u64) -> Draw
        ensures { result ≡ draw_of self.now number }
    {
        if number >= self.runs {
            Draw::NoMore(number)
        } else {
            let from = number * self.length;
            Draw::Run {
                from,
                to: from + self.length.min(self.groups - from),
            }
        }
    }
}
