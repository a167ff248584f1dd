//! Laws of the schedule: however the groups of a stage are drawn, run and handed in, what comes of them in order is what one thread gives.
//!
//! The stage machine is that of `ds2_schedule`. Each law is a function in [`laws`] that does nothing; its contract is the law, for any types of states and results. A proof above uses one by calling it:
//!
//! ```
//! laws::every_schedule::<State, Location, Content, GroupEnd>();
//! ```
//!
//! How the groups of a stage are dealt to workers: tickets that hand out runs of groups, and a book of what was handed in.
//!
//! [`Tickets`] cut the groups of a stage into runs and give each run once, by a counter that threads share; a thread draws with a [`TicketSeat`] of its own. A [`Draw`] is a run of groups, or that there is none left. A [`Book`] adds up what was handed in ([`Totals`]) and knows the least group that faulted.
//!
//! ```
//! let (tickets, mut first) = Tickets::open(alloc, groups, workers)?;
//! let mut seat = tickets.split(&mut first);          // one seat for each worker
//! while let Draw::Run { from, to } = tickets.draw(&mut seat) {
//!     for group in from..to { .. }                   // run the group, then book.hand_in(group, rows, faulted)
//! }
//! tickets.join(&mut first, seat);                    // when the worker has ended
//! ```
//!
//! `specs/Stage.antt` has the stage machine of which a draw and a hand-in are steps: which histories of steps are legal and complete.
#![tactic(auto)]

mod book;
mod calls;
mod cutting;
pub mod dealing_laws;
pub mod laws;
mod rule;
mod tickets;

pub use book::{Book, Totals};
pub use rule::SeatView;
pub use tickets::{Draw, TicketSeat, Tickets};
