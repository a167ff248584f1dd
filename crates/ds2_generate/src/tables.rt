//! The tables, hash objects, iterators and parameters of a program's code.
ghost use Rattle.std.specs.Prelude.{◌≡◌, ◌++◌, bytes_eq, map, flat_map, position, unwrap_or, IfOk, OnOk};
ghost use Rattle.std.specs.Option.{option_map};
ghost use Rattle.ds2_value.specs.declared.schema.Column.{Column as ColumnModel};
ghost use Rattle.ds2_meaning.specs.declared.globals.Variable.{Variable as VariableModel};
ghost use Rattle.ds2_meaning.specs.declared.location.Global.TheVariants.{Named, Parameter};
ghost use Rattle.ds2_meaning.specs.ProgramMeaning.{global_name};
ghost use Rattle.ds2_meaning.specs.ProgramTree.{InstanceTree};
ghost use Rattle.ds2_meaning.specs.View.{instance_tree};
ghost use Rattle.ds2_program_code.specs.CodeParts.{table_part, columns_of_variables, hash_table_part, walked_hash, iterator_parts};
ghost use Rattle.ds2_numbering.specs.CellNumbers.{tree_of};
ghost use Rattle.ds2_numbering.specs.SoughtLocations.{home_of_name, location_sought};
ghost use Rattle.ds2_generate.specs.PartsAmong.{slot_among, variable_slots_among, hash_part_among, hash_parts_among};

use crate::bodies::number;
use crate::slots::name_of_global;
use ds2_base::{List, Name, OutOfMemory};
use ds2_code::{HashPart, HashTable, TableReference};
use ds2_meaning::{
    DeclaredHash, DeclaredIterator, HashVariable, Instance, LoadedTable, MentionedTable, Program,
    Variable,
};
use ds2_numbering::{GlobalSort, HomeName, SlotTable, Sought, find_hash};
use ds2_value::{Column, copy_columns};
use std::alloc::Global;

/// The first slot of a global, 0 where it has none.
pub fn slot_number(slots: &SlotTable<'_>, sought: &Sought<'_>) -> u32
    ensures { result ≡ slot_among slots.now (location_sought sought.now) }
{
    slots.number(sought).unwrap_or(0)
}

/// A table with its columns, in code.
pub fn table_reference(
    alloc: Global,
    table: &MentionedTable,
    columns: &[Column],
) -> Result<TableReference, OutOfMemory>
    ensures { IfOk result (λ part. part ≡ table_part table.now columns.now) }
{
    Ok(TableReference {
        name: table.name.copy(alloc)?,
        maker: table.maker,
        columns: copy_columns(alloc, columns)?,
    })
}

// The slots of variables of a hash object of a home.
fn variable_slots(
    alloc: Global,
    slots: &SlotTable<'_>,
    home: HomeName<'_>,
    variables: &[HashVariable],
) -> Result<List<u32>, OutOfMemory>
    ensures { IfOk result (λ list. list ≡ variable_slots_among slots.now (home_of_name home.entry) variables.now) }
{
    let mut list = List::new(alloc);
    'variables: for variable in variables {
        list.push(slot_number(slots, &Sought::global(home, &variable.global)))?;
    }
    Ok(list)
}

/// The slots of columns, of the program itself.
pub fn column_slots(
    alloc: Global,
    slots: &SlotTable<'_>,
    columns: &[Column],
) -> Result<List<u32>, OutOfMemory>
    ensures { IfOk result (λ list. list ≡ map (λ (c : ColumnModel). slot_among slots.now (record { home = None; global = Named c.name })) columns.now) }
{
    let mut list = List::new(alloc);
    'columns: for column in columns {
        list.push(slot_number(slots, &Sought::named(HomeName::Own, &column.name)))?;
    }
    Ok(list)
}

// Where the first column of a name stands.
fn find_column(columns: &[Column], name: &Name) -> Option<usize>
    ensures { result ≡ position (λ (c : ColumnModel). bytes_eq c.name name.now) columns.now }
{
    columns.iter().position(|column| column.name == *name)
}

// The number of the column of a variable's name, 0 where there is none.
fn column_number(columns: &[Column], variable: &HashVariable) -> Result<u32, OutOfMemory>
    ensures { IfOk result (λ n. n ≡ unwrap_or (position (λ (c : ColumnModel). bytes_eq c.name (global_name variable.now.global)) columns.now) 0) }
{
    match find_column(columns, name_of_global(&variable.global)) {
        None => Ok(0),
        Some(at) => number(at),
    }
}

// For each variable of a hash object the number of the column of its name.
fn column_numbers(
    alloc: Global,
    columns: &[Column],
    variables: &[HashVariable],
) -> Result<List<u32>, OutOfMemory>
    ensures { IfOk result (λ list. list ≡ columns_of_variables columns.now variables.now) }
{
    let mut list = List::new(alloc);
    'variables: for variable in variables {
        list.push(column_number(columns, variable)?)?;
    }
    Ok(list)
}

// The table with which a hash object begins.
fn hash_table(
    alloc: Global,
    hash: &DeclaredHash,
    loaded: &LoadedTable,
) -> Result<HashTable, OutOfMemory>
    ensures { IfOk result (λ part. part ≡ hash_table_part hash.now loaded.now) }
{
    let columns = loaded.columns.as_slice();
    Ok(HashTable {
        table: table_reference(alloc, &loaded.table, columns)?,
        key_columns: column_numbers(alloc, columns, hash.key_variables.as_slice())?,
        data_columns: column_numbers(alloc, columns, hash.data_variables.as_slice())?,
    })
}

// The table with which a hash object begins, where it begins with one.
fn loaded_table(alloc: Global, hash: &DeclaredHash) -> Result<Option<HashTable>, OutOfMemory>
    ensures { IfOk result (λ part. part ≡ option_map (hash_table_part hash.now) hash.now.loaded) }
{
    match &hash.loaded {
        None => Ok(None),
        Some(loaded) => Ok(Some(hash_table(alloc, hash, loaded)?)),
    }
}

// A hash object of a home.
fn hash_part(
    alloc: Global,
    slots: &SlotTable<'_>,
    home: HomeName<'_>,
    hash: &DeclaredHash,
) -> Result<HashPart, OutOfMemory>
    ensures { IfOk result (λ part. part ≡ hash_part_among slots.now (home_of_name home.entry) hash.now) }
{
    Ok(HashPart {
        key_slots: variable_slots(alloc, slots, home, hash.key_variables.as_slice())?,
        data_slots: variable_slots(alloc, slots, home, hash.data_variables.as_slice())?,
        loaded: loaded_table(alloc, hash)?,
    })
}

// Adds the hash objects of a home.
fn add_hashes(
    alloc: Global,
    parts: &mut List<HashPart>,
    slots: &SlotTable<'_>,
    home: HomeName<'_>,
    hashes: &[DeclaredHash],
) -> Result<(), OutOfMemory>
    ensures { OnOk result (parts.new ≡ parts.old ++ map (hash_part_among slots.now (home_of_name home.entry)) hashes.now) }
{
    'hashes: for hash in hashes {
        parts.push(hash_part(alloc, slots, home, hash)?)?;
    }
    Ok(())
}

// Adds the hash objects of instances.
fn add_instance_hashes(
    alloc: Global,
    parts: &mut List<HashPart>,
    slots: &SlotTable<'_>,
    instances: &[Instance],
) -> Result<(), OutOfMemory>
    ensures { OnOk result (parts.new ≡ parts.old ++ flat_map (λ (i : InstanceTree). map (hash_part_among slots.now (Some i.name)) i.objects.hashes) (map instance_tree instances.now)) }
{
    'instances: for instance in instances {
        let hashes = instance.package.get().hashes.as_slice();
        add_hashes(
            alloc,
            parts,
            slots,
            HomeName::Instance(&instance.name),
            hashes,
        )?;
    }
    Ok(())
}

/// The hash objects of a program, its own before those of its instances.
pub fn hash_parts(
    alloc: Global,
    slots: &SlotTable<'_>,
    program: &Program,
) -> Result<List<HashPart>, OutOfMemory>
    ensures { IfOk result (λ parts. parts ≡ hash_parts_among slots.now (tree_of program.now)) }
{
    let mut parts = List::new(alloc);
    add_hashes(
        alloc,
        &mut parts,
        slots,
        HomeName::Own,
        program.hashes.as_slice(),
    )?;
    add_instance_hashes(alloc, &mut parts, slots, program.instances.as_slice())?;
    Ok(parts)
}

// Adds the hash objects that the iterators of a home walk.
fn add_iterators(
    parts: &mut List<u32>,
    program: &Program,
    home: HomeName<'_>,
    iterators: &[DeclaredIterator],
) -> Result<(), OutOfMemory>
    ensures { OnOk result (parts.new ≡ parts.old ++ map (walked_hash (tree_of program.now) (home_of_name home.entry)) iterators.now) }
{
    'iterators: for iterator in iterators {
        let walked = find_hash(program, &Sought::named(home, &iterator.hash))?;
        parts.push(walked.unwrap_or(0))?;
    }
    Ok(())
}

// Adds those that the iterators of instances walk.
fn add_instance_iterators(
    parts: &mut List<u32>,
    program: &Program,
    instances: &[Instance],
) -> Result<(), OutOfMemory>
    ensures { OnOk result (parts.new ≡ parts.old ++ flat_map (λ (i : InstanceTree). map (walked_hash (tree_of program.now) (Some i.name)) i.objects.iterators) (map instance_tree instances.now)) }
{
    'instances: for instance in instances {
        let iterators = instance.package.get().iterators.as_slice();
        add_iterators(
            parts,
            program,
            HomeName::Instance(&instance.name),
            iterators,
        )?;
    }
    Ok(())
}

/// The iterators of a program, its own before those of its instances: the hash object that each walks.
pub fn iterator_parts(alloc: Global, program: &Program) -> Result<List<u32>, OutOfMemory>
    ensures { IfOk result (λ parts. parts ≡ iterator_parts (tree_of program.now)) }
{
    let mut parts = List::new(alloc);
    add_iterators(
        &mut parts,
        program,
        HomeName::Own,
        program.iterators.as_slice(),
    )?;
    add_instance_iterators(&mut parts, program, program.instances.as_slice())?;
    Ok(parts)
}

/// The slots of the parameters of a thread program.
pub fn parameter_slots(
    alloc: Global,
    slots: &SlotTable<'_>,
    parameters: &[Variable],
) -> Result<List<u32>, OutOfMemory>
    ensures { IfOk result (λ list. list ≡ map (λ (v : VariableModel). slot_among slots.now (record { home = None; global = Parameter v.name })) parameters.now) }
{
    let mut list = List::new(alloc);
    'parameters: for parameter in parameters {
        let sought = Sought::own(GlobalSort::Parameter, &parameter.name);
        list.push(slot_number(slots, &sought))?;
    }
    Ok(list)
}
