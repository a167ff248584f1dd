//! What seats know, and the kinds of step that keep the ticket's rule.
ghost use Rattle.std.specs.Prelude.{◌≡◌, [], ℕ};
ghost use Rattle.ds2_schedule.specs.Rule.{IsTicket, with_number, with_split, with_joined, IsAbove, ShowsAll};
ghost use Rattle.ds2_schedule.specs.declared.rule.SeatView.TheVariants.{First as first_seat, Other as other_seat, Spent as spent_seat};

use atomic_table::{Join, Play, Split, TableRule};
use ds2_base::List;

/// What a seat shows to contracts. No value of it is made.
pub enum SeatView {
    /// The seat that [`crate::Tickets::open`] gives: how many seats were split from it and joined into it, and the numbers that it shows.
    First {
        split: u32,
        joined: u32,
        drawn: List<u64>,
    },
    /// A seat that was split from the first one, with the numbers that it has drawn.
    Other {
        drawn: List<u64>,
    },
    /// A seat that was joined into the first one.
    Spent,
}

/// The rule of a ticket. The key is the number of runs.
pub struct TicketLaw;

impl TableRule<u8, SeatView, u64> for TicketLaw {
    ghost holds = { IsTicket };

    ghost first = { λ runs. first_seat 0 0 [] };
}

/// A draw: the number found goes to the seat's own.
pub struct Drawn;

impl Play<u8, SeatView> for Drawn {
    ghost then = { λ step me found after. (after ≡ (with_number found me.0, me.1)) × IsAbove found me.0 × ShowsAll found me.0 };
}

/// A look at the next number.
pub struct Looked;

impl Play<u8, SeatView> for Looked {
    ghost then = { λ step me found after. (after ≡ me) × ShowsAll found me.0 };
}

/// A split: a new seat without numbers.
pub struct SplitOff;

impl Split<SeatView> for SplitOff {
    ghost left = { with_split };

    ghost right = { λ v. other_seat [] };
}

/// A join: the first seat takes in the other's numbers, and the other is spent.
pub struct JoinedIn;

impl Join<SeatView> for JoinedIn {
    ghost both = { with_joined };

    ghost spent = { spent_seat };
}
