//! The caller draws what the workers have left of the runs.
ghost use Rattle.std.specs.Prelude.{◌≡◌, ℕ};
ghost use Rattle.ds2_schedule.specs.Rule.{MayDraw};
ghost use Rattle.ds2_schedule.specs.Seats.{view_of, IsSeatOf};
ghost use Rattle.ds2_stage.specs.Ended.{HasAllNumbers, HasDrawnRest};

use ds2_schedule::{Draw, TicketSeat, Tickets};

// Draws until no run is left.
pub(crate) fn draw_rest(tickets: &Tickets, seat: &mut TicketSeat)
    requires of { IsSeatOf tickets.now seat.old }
    requires may { MayDraw tickets.now.runs (view_of seat.old) }
    ensures { (workers word : ℕ) → HasAllNumbers workers word seat.old → (n : ℕ) × HasDrawnRest tickets.now workers word n seat.new }
{
    for _i in 0..u64::MAX {
        match tickets.draw(seat) {
            Draw::Run { from: _, to: _ } => {}
            Draw::NoMore(_) => return,
        }
    }
}
