//! What groups gave, kept one after the other.
ghost use Rattle.std.specs.Prelude.{◌≡◌, ◌++◌, IfOk, OnOk};
ghost use Rattle.ds2_bags.specs.Endings.{ended_by_fault};
ghost use Rattle.ds2_unit.specs.Threads.{rows_kept};
ghost use Rattle.ds2_group_job.specs.GroupRuns.{given_together};
ghost use Rattle.ds2_group_job.specs.StageJobs.{HasKeptGroups};

use ds2_bags::GroupEnd;
use ds2_base::{List, OutOfMemory};
use ds2_machine::{OutRow, UnitRecord};
use ds2_unit::{UnitsEnd, sum_of};
use ds2_value::{Ending, Row};

// Keeps the rows of a group. No row is copied.
fn keep_rows(written: &mut UnitRecord, rows: List<Row>) -> Result<(), OutOfMemory>
    ensures rows { OnOk result (rows_kept written.new.rows ≡ rows_kept written.old.rows ++ rows) }
    ensures lines { written.new.lines ≡ written.old.lines }
{
    'rows: for row in rows.into_vec() {
        written.rows.push(OutRow { output: 0, row })?;
    }
    Ok(())
}

// Keeps what a group gave, and tells how it ended.
fn keep_end(written: &mut UnitRecord, given: GroupEnd) -> Result<UnitsEnd, OutOfMemory>
    ensures { IfOk result (λ end. HasKeptGroups written.old written.new given end) }
{
    let GroupEnd {
        rows,
        lines,
        ending,
        executed,
    } = given;
    keep_rows(written, rows)?;
    written.lines.append_list(lines)?;
    Ok(UnitsEnd { ending, executed })
}

/// Keeps what groups gave behind what was written before: their rows and lines in order of group. Tells how the last of them ended and
/// how many instructions they executed together. A number above 128 bits, which no run has the time to come to, is refused as want of
/// memory.
pub(crate) fn keep_all(
    written: &mut UnitRecord,
    given: List<GroupEnd>,
) -> Result<UnitsEnd, OutOfMemory>
    ensures { IfOk result (λ end. HasKeptGroups written.old written.new (given_together given) end) }
{
    let mut all = UnitsEnd {
        ending: Ending::Normal,
        executed: 0,
    };
    'given: for one in given.into_vec() {
        let end = keep_end(written, one)?;
        let executed = sum_of(all.executed, end.executed)?;
        all = UnitsEnd {
            ending: end.ending,
            executed,
        };
    }
    Ok(all)
}

/// Whether units ended by a fault.
pub(crate) fn is_fault(ending: Ending) -> bool
    ensures { result ≡ ended_by_fault ending }
{
    match ending {
        Ending::Normal => false,
        Ending::Faulted { .. } => true,
    }
}
