//! The caller takes in what the workers have.
ghost use Rattle.std.specs.Prelude.{◌≡◌, ◌<◌, ◌+◌, sum_by, length};
ghost use Rattle.std.specs.List.{All};
ghost use Rattle.ds2_stage.specs.Gathered.{IsEndedPass, HasJoined};
ghost use Rattle.ds2_stage.specs.Passes.{PassView, IsCallerPass};

use crate::pass::Pass;
use crate::shared::Shared;
use ds2_base::List;
use ds2_schedule::{TicketSeat, Totals};
use std::sync::Wait;
use std::sync::ledger::Ledger;

/// The sums that the lock keeps, which are those over the passes of all workers, and the first seat, which shows every number that was
/// drawn. The passes are those of the caller and of every worker: together they have all parts of both ledgers.
pub fn gather<C: Ledger, R: Ledger, W: Wait>(
    rt: &W,
    shared: &Shared<C, R>,
    caller: Pass<C, R>,
    workers: List<Pass<C, R>>,
) -> (Totals, TicketSeat)
    requires caller { IsCallerPass shared.now.tickets (length workers) caller }
    requires workers { All (IsEndedPass shared.now.tickets) workers }
    requires some { 0 < length workers }
    requires count { caller.parts + sum_by (λ (p : PassView). p.parts) workers ≡ C.parts }
    requires rows { caller.parts + sum_by (λ (p : PassView). p.parts) workers ≡ R.parts }
    ensures totals { (result.0.groups ≡ sum_by (λ (p : PassView). p.groups) workers) × (result.0.rows ≡ sum_by (λ (p : PassView). p.rows) workers) }
    ensures seat { HasJoined shared.now.tickets workers result.1 }
{
    let mut all = caller;
    let mut left = workers.into_vec();
    while let Some(pass) = left.pop() {
        all.merge(&shared.tickets, pass);
    }
    let totals = shared.totals(rt, &mut all);
    (totals, all.into_seat())
}
