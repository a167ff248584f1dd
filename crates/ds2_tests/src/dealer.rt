//! Seats go from thread to thread, and tickets are shared.
use ds2_schedule::{TicketSeat, Tickets};

fn crosses_threads<T: Send>() {}

fn is_shared<T: Sync>() {}

#[test]
fn tickets_are_shared(_rt: HostRuntime) {
    crosses_threads::<TicketSeat>();
    is_shared::<Tickets>();
}
