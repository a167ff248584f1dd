//! The opening of a stage.
ghost use Rattle.std.specs.Prelude.{◌≡◌, ℕ, ◌+◌, ◌^◌, ◌<◌, ◌≤◌, IfOk, length, slice_index_or};
ghost use Rattle.ds2_schedule.specs.Runs.{run_length, run_count};
ghost use Rattle.ds2_stage.specs.Passes.{PassView, IsWorkerPass, IsCallerPass};

use crate::desk::Desk;
use crate::pass::Pass;
use crate::shared::Shared;
use ds2_base::{List, OutOfMemory};
use ds2_schedule::{Book, Tickets};
use std::alloc::Global;
use std::sync::ledger::{Blank, Ledger};
use std::sync::{Mutex, ledger};

/// A stage before its first draw.
#[derive(Drop)]
pub struct Opened<C: Ledger, R: Ledger> {
    pub shared: Shared<C, R>,
    /// The pass of each worker, in order of number.
    pub workers: List<Pass<C, R>>,
    /// The pass of the caller, which has the first seat.
    pub caller: Pass<C, R>,
}

/// Opens a stage of at most 2^32 groups for 1 to 64 workers: what its parties share, and a pass for each of them. Each pass has one
/// part of both ledgers, whose names the blanks have, nothing handed in, and a seat that shows no number.
pub fn open_shared<C: Ledger, R: Ledger>(
    alloc: Global,
    count: Blank,
    rows: Blank,
    groups: u64,
    workers: u32,
) -> Result<Opened<C, R>, OutOfMemory>
    requires groups { groups ≤ 2 ^ 32 }
    requires workers { (1 ≤ workers) × (workers ≤ 64) }
    requires count { (count.name ≡ C.name) × (count.parts ≡ C.parts) × (C.parts ≡ workers + 1) }
    requires rows { (rows.name ≡ R.name) × (rows.parts ≡ R.parts) × (R.parts ≡ workers + 1) }
    ensures groups { IfOk result (λ o. o.shared.tickets.groups ≡ groups) }
    ensures length { IfOk result (λ o. o.shared.tickets.length ≡ run_length groups workers) }
    ensures len { IfOk result (λ o. length o.workers ≡ workers) }
    ensures workers { IfOk result (λ o. (i : ℕ) (d : PassView) → i < workers → IsWorkerPass o.shared.tickets i (slice_index_or o.workers i d)) }
    ensures caller { IfOk result (λ o. IsCallerPass o.shared.tickets workers o.caller) }
{
    let (tickets, mut first) = Tickets::open(alloc, groups, workers)?;
    let (count, mut counts) = count.open::<C>();
    let (rows, mut row_counts) = rows.open::<R>();
    let mut passes = Vec::with_capacity(alloc, workers as usize)?;
    for number in 0..workers {
        let seat = tickets.split(&mut first);
        let count = counts.split_off(1, 0);
        let rows = row_counts.split_off(1, 0);
        passes.push_reserved(Pass {
            number,
            seat,
            count,
            rows,
        });
    }
    Ok(Opened {
        shared: shared_of(tickets, groups, count, rows),
        workers: List::of(passes),
        caller: Pass {
            number: workers,
            seat: first,
            count: counts,
            rows: row_counts,
        },
    })
}

fn shared_of<C: Ledger, R: Ledger>(
    tickets: Tickets,
    groups: u64,
    count: ledger::Book<C>,
    rows: ledger::Book<R>,
) -> Shared<C, R>
    requires groups { groups ≤ 2 ^ 32 }
    requires none { (count.total ≡ 0) × (rows.total ≡ 0) }
    ensures { result.tickets ≡ tickets }
{
    Shared {
        desk: Mutex::new(Desk {
            book: Book::open(groups),
            count,
            rows,
        }),
        tickets,
    }
}
