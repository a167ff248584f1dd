//! The reading statement of a program with `run`.
ghost use Rattle.std.specs.Prelude.{◌≡◌, IfOk, map, option_copied};
ghost use Rattle.std.specs.Option.{option_map};
ghost use Rattle.ds2_elaboration.specs.ProgramTypes.{read_input, read_by, asked_workers, read_statement};
ghost use Rattle.ds2_names.specs.SourceLimits.{mentioned_table};
ghost use Rattle.ds2_meaning.specs.declared.readings.Reading.TheVariants.{Set, Merge, From as FromStage};
ghost use Rattle.ds2_names.specs.SourceUnit.{spelled_name, columns_stored, by_list};
ghost use Rattle.ds2_tree.specs.declared.readings.InputFlag.{InputFlag as FlagOf};

use ds2_base::{List, Name, OutOfMemory};
use ds2_declared_types::names::{name, number};
use ds2_meaning::{
    ByVariable as TypedBy, Input as TypedInput, MentionedTable, Reading as TypedReading,
};
use ds2_names::NamedSchema;
use ds2_scope::columns_of;
use ds2_token::Token;
use ds2_tree::{By, ByVariable, Input, InputFlag, Reading, Threads};
use ds2_value::{Column, copy_columns};
use std::alloc::Global;

/// The table that data programs make, once more.
fn copied(alloc: Global, t: &MentionedTable) -> Result<MentionedTable, OutOfMemory>
    ensures { IfOk result (λ table. table ≡ t.now) }
{
    let name = t.name.copy(alloc)?;
    Ok(MentionedTable {
        name,
        maker: t.maker,
    })
}

/// The table that a name means: the first of the tables that data programs make which has it, else the table of the store.
fn mentioned(
    alloc: Global,
    made: &[MentionedTable],
    name: &Name,
) -> Result<MentionedTable, OutOfMemory>
    ensures { IfOk result (λ table. table ≡ mentioned_table made.now name.now) }
{
    'made: for t in made {
        if t.name.as_str().as_bytes() == name.as_str().as_bytes() {
            let own = copied(alloc, t)?;
            return Ok(own);
        }
    }
    let own = name.copy(alloc)?;
    Ok(MentionedTable {
        name: own,
        maker: 0,
    })
}

/// The name of a flag, where there is one.
fn flag_name(alloc: Global, flag: &Option<InputFlag>) -> Result<Option<Name>, OutOfMemory>
    ensures { IfOk result (λ name. name ≡ option_map (λ (f : FlagOf). spelled_name f.name) flag.now) }
{
    match flag {
        None => Ok(None),
        Some(flag) => {
            let own = name(alloc, &flag.name)?;
            Ok(Some(own))
        }
    }
}

/// A table of a reading statement, behind data programs that make these tables.
fn input(
    alloc: Global,
    tables: &[NamedSchema],
    made: &[MentionedTable],
    i: &Input,
) -> Result<TypedInput, OutOfMemory>
    ensures { IfOk result (λ read. read ≡ read_input (columns_stored tables.now) made.now i.now) }
{
    let table = name(alloc, &i.table)?;
    let columns = copy_columns(alloc, columns_of(tables, table.as_str().as_bytes()))?;
    let present = flag_name(alloc, &i.flag)?;
    let table = mentioned(alloc, made, &table)?;
    Ok(TypedInput {
        table,
        present,
        columns,
    })
}

/// The tables of a reading statement.
fn inputs(
    alloc: Global,
    tables: &[NamedSchema],
    made: &[MentionedTable],
    read: &[Input],
) -> Result<List<TypedInput>, OutOfMemory>
    ensures { IfOk result (λ all. all ≡ map (read_input (columns_stored tables.now) made.now) read.now) }
{
    let mut all: List<TypedInput> = List::new(alloc);
    'read: for i in read {
        let own = input(alloc, tables, made, i)?;
        all.push(own)?;
    }
    Ok(all)
}

/// A BY variable.
fn by_variable(alloc: Global, b: &ByVariable) -> Result<TypedBy, OutOfMemory>
    ensures { IfOk result (λ by. by ≡ read_by b.now) }
{
    let name = name(alloc, &b.name)?;
    Ok(TypedBy {
        name,
        is_descending: b.descending.is_some(),
    })
}

/// BY variables.
fn by_variables(alloc: Global, bys: &[ByVariable]) -> Result<List<TypedBy>, OutOfMemory>
    ensures { IfOk result (λ all. all ≡ map read_by bys.now) }
{
    let mut all: List<TypedBy> = List::new(alloc);
    'bys: for b in bys {
        let own = by_variable(alloc, b)?;
        all.push(own)?;
    }
    Ok(all)
}

/// The BY variables of a `set`, where it has some.
fn by_if_any(alloc: Global, by: &Option<By>) -> Result<List<TypedBy>, OutOfMemory>
    ensures { IfOk result (λ all. all ≡ map read_by (by_list by.now)) }
{
    match by {
        None => Ok(List::new(alloc)),
        Some(by) => by_variables(alloc, by.variables.as_slice()),
    }
}

/// `set`, with its tables and BY variables.
fn set(
    alloc: Global,
    tables: &[NamedSchema],
    made: &[MentionedTable],
    read: &[Input],
    by: &Option<By>,
) -> Result<TypedReading, OutOfMemory>
    ensures { IfOk result (λ reading. reading ≡ Set (map (read_input (columns_stored tables.now) made.now) read.now) (map read_by (by_list by.now))) }
{
    let inputs = inputs(alloc, tables, made, read)?;
    let bys = by_if_any(alloc, by)?;
    Ok(TypedReading::Set { inputs, bys })
}

/// `merge`, with its tables and BY variables.
fn merge(
    alloc: Global,
    tables: &[NamedSchema],
    made: &[MentionedTable],
    read: &[Input],
    by: &By,
    retains: bool,
) -> Result<TypedReading, OutOfMemory>
    ensures { IfOk result (λ reading. reading ≡ Merge (map (read_input (columns_stored tables.now) made.now) read.now) (map read_by by.now.variables) retains) }
{
    let inputs = inputs(alloc, tables, made, read)?;
    let bys = by_variables(alloc, by.variables.as_slice())?;
    Ok(TypedReading::Merge {
        inputs,
        bys,
        retains,
    })
}

/// How many workers `set from` asks for: one, where it does not say.
fn asked_workers(threads: &Option<Threads>) -> Result<u32, OutOfMemory>
    ensures { IfOk result (λ n. n ≡ asked_workers threads.now) }
{
    match threads {
        None => Ok(1),
        Some(threads) => number(&threads.number),
    }
}

/// `set from` an instance of a thread program, whose rows have these columns.
fn from_stage(
    alloc: Global,
    instance: &Token,
    threads: &Option<Threads>,
    stage: &[Column],
) -> Result<TypedReading, OutOfMemory>
    ensures { IfOk result (λ reading. reading ≡ FromStage (spelled_name instance.now) (asked_workers threads.now) stage.now) }
{
    let workers = asked_workers(threads)?;
    let columns = copy_columns(alloc, stage)?;
    let instance = name(alloc, instance)?;
    Ok(TypedReading::From {
        instance,
        workers,
        columns,
    })
}

/// The reading statement of a program with `run`, which reads from a thread program with these columns where it reads from one: without
/// a reading statement there is one load.
pub fn read_statement(
    alloc: Global,
    tables: &[NamedSchema],
    made: &[MentionedTable],
    stage: &[Column],
    reading: Option<&Reading>,
) -> Result<TypedReading, OutOfMemory>
    ensures { IfOk result (λ typed. typed ≡ read_statement (columns_stored tables.now) made.now stage.now (option_copied reading.entry)) }
{
    match reading {
        None => Ok(TypedReading::Once),
        Some(reading) => match reading {
            Reading::Set { inputs, by, .. } => set(alloc, tables, made, inputs.as_slice(), by),
            Reading::SetFrom {
                instance,
                threads,
                ..
            } => from_stage(alloc, instance, threads, stage),
            Reading::Merge {
                inputs,
                retain,
                by,
                ..
            } => merge(alloc, tables, made, inputs.as_slice(), by, retain.is_some()),
        },
    }
}
