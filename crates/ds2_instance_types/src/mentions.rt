//! The tables that mentions mean.
ghost use Rattle.std.specs.Prelude.{◌≡◌, IfOk};
ghost use Rattle.ds2_names.specs.SourceLimits.{mentioned_table};

use ds2_base::{Name, OutOfMemory};
use ds2_meaning::MentionedTable;
use std::alloc::Global;

/// The table that data programs make, once more.
fn copied(alloc: Global, t: &MentionedTable) -> Result<MentionedTable, OutOfMemory>
    ensures { IfOk result (λ table. table ≡ t.now) }
{
    let name = t.name.copy(alloc)?;
    Ok(MentionedTable {
        name,
        maker: t.maker,
    })
}

/// The table that a name means: the first of the tables that data programs make which has it, else the table of the store.
pub fn mentioned(
    alloc: Global,
    made: &[MentionedTable],
    name: &Name,
) -> Result<MentionedTable, OutOfMemory>
    ensures { IfOk result (λ table. table ≡ mentioned_table made.now name.now) }
{
    'made: for t in made {
        if t.name.as_str().as_bytes() == name.as_str().as_bytes() {
            let own = copied(alloc, t)?;
            return Ok(own);
        }
    }
    let own = name.copy(alloc)?;
    Ok(MentionedTable {
        name: own,
        maker: 0,
    })
}
