//! The tickets of a stage, the seats by which threads draw, and what a draw gives.
ghost use Rattle.std.specs.Prelude.{◌≡◌, ℕ, ◌^◌, ◌<◌, ◌≤◌, []};
ghost use Rattle.ds2_schedule.specs.Runs.{run_count};

use crate::rule::{SeatView, TicketLaw};
use atomic_table::{Seat, Table};
use std::alloc::Global;

/// What a draw gives.
#[derive(Clone, Copy, PartialEq, Eq)]
pub enum Draw {
    /// The groups from `from` up to, and without, `to`; there is at least one.
    Run { from: u64, to: u64 },
    /// No run is left. The number that was drawn is past the last run.
    NoMore(u64),
}

/// The runs of a stage's groups, each of which is drawn once. Threads share it.
#[derive(Drop)]
pub struct Tickets {
    pub(crate) table: Table<u8, SeatView, u64, TicketLaw, Global>,
    pub(crate) groups: u64,
    pub(crate) length: u64,
    pub(crate) runs: u64,
    ghost key: { table.shared.key ≡ runs },
    ghost one: { table.shared.table_id.words ≡ 1 },
    ghost long: { 1 ≤ length },
    ghost all: { runs ≡ run_count groups length },
    ghost few: { runs ≤ 2 ^ 58 },
    ghost small: { groups < 2 ^ 64 },
}

/// By which one thread draws. It has no bytes; a contract sees the numbers that it shows, and whether it is the first seat.
#[derive(Drop)]
pub struct TicketSeat {
    pub(crate) seat: Seat<u8, SeatView>,
    ghost empty: { seat.me.1 ≡ [] },
}
