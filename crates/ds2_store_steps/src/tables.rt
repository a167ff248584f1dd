//! The reading of the tables of the store.
ghost use Rattle.std.specs.Prelude.{◌≡◌, Ok, [], IfOk};
ghost use Rattle.ds2_csv.specs.Reads.{reads};
ghost use Rattle.ds2_answer.specs.Answer.{table_file};
ghost use Rattle.ds2_store_steps.specs.Halts.{CausedByStore, InSession};
ghost use Rattle.ds2_store_steps.specs.TableReads.{AreTablesRead, DifferAll, KeepsRead, ReadsTable, ReadsTables};

use crate::Halt;
use crate::files::{read_file, table_file};
use crate::halt::refuse_file;
use crate::kept::KeptTable;
use crate::references::are_columns_named;
use crate::session::Session;
use ds2_answer::{FileKind, TABLE_LIMIT};
use ds2_base::{Bytes, List, Name, Stop, Text};
use ds2_code::TableReference;
use ds2_csv::read_table;
use ds2_outside::Store;
use ds2_reading::HashKey;
use std::alloc::Global;

// Keeps a table of the columns that the references have, or refuses its file.
fn keep_table(
    alloc: Global,
    references: &[TableReference],
    file: &Text,
    table: KeptTable,
    log: &mut Bytes,
) -> Result<KeptTable, Halt>
    requires file { file.now ≡ table_file table.name }
    ensures { KeepsRead references.now table.name (Ok table.contents) log.old result log.new }
{
    if are_columns_named(
        references,
        table.name(),
        table.schema().columns().as_slice(),
    ) {
        Ok(table)
    } else {
        Err(refuse_file(alloc, file, FileKind::OtherSchema, log))
    }
}

// The table of these bytes of a file, or the file is refused.
fn kept_table(
    alloc: Global,
    references: &[TableReference],
    name: &Name,
    file: &Text,
    bytes: &Bytes,
    log: &mut Bytes,
) -> Result<KeptTable, Halt>
    requires file { file.now ≡ table_file name.now }
    ensures { KeepsRead references.now name.now (reads bytes.now) log.old result log.new }
{
    match read_table(alloc, bytes) {
        Ok(table) => {
            let key = HashKey::new().with(bytes.as_slice());
            let kept = KeptTable::new(alloc, name, table, key)?;
            keep_table(alloc, references, file, kept, log)
        }
        Err(Stop::Refused(refusal)) => {
            Err(refuse_file(alloc, file, FileKind::Table(refusal), log))
        }
        Err(Stop::OutOfMemory) => Err(Halt::OutOfMemory),
    }
}

// Reads a table of the store, or refuses its file.
fn read_one<S: Store>(
    session: &mut Session<S>,
    references: &[TableReference],
    name: &Name,
) -> Result<KeptTable, Halt>
    ensures loads { InSession S.files (ReadsTable references.now name.now) session.old result session.new }
    ensures cause { CausedByStore S.read_faults S.write_faults session.old result session.new }
{
    let file = table_file(session.alloc, name)?;
    let bytes = read_file(session, &file, TABLE_LIMIT)?;
    let alloc = session.alloc;
    kept_table(alloc, references, name, &file, &bytes, &mut session.log)
}

/// Reads tables of the store, each once, in this order, each with the columns that the references have for it. The first that is refused ends
/// the command.
pub fn read_tables<S: Store>(
    session: &mut Session<S>,
    references: &[TableReference],
    names: &[Name],
) -> Result<List<KeptTable>, Halt>
    requires apart { DifferAll names.now }
    ensures loads { InSession S.files (ReadsTables references.now names.now []) session.old result session.new }
    ensures kept { IfOk result (λ read. AreTablesRead references.now names.now read × (S.files session.new.store.now ≡ S.files session.old.store.now)) }
    ensures cause { CausedByStore S.read_faults S.write_faults session.old result session.new }
{
    let mut read: List<KeptTable> = List::new(session.alloc);
    let mut rest = names;
    'names: while let [name, after @ ..] = rest {
        let table = read_one(session, references, name)?;
        read.push(table)?;
        rest = after;
    }
    Ok(read)
}
