//! What a program's loads set, and what `run` sets to null.
ghost use Rattle.std.specs.List.{list_any};
ghost use Rattle.std.specs.Prelude.{◌≡◌, None};
ghost use Rattle.ds2_value.specs.Schema.{has_column as column_named};
ghost use Rattle.ds2_meaning.specs.declared.readings.Input.{Input as InputModel};
ghost use Rattle.ds2_meaning.specs.HashObjects.{object_at};
ghost use Rattle.ds2_meaning.specs.IsTyped.{is_present as present_named, is_flag_of};
ghost use Rattle.ds2_meaning.specs.ProgramTree.{data_vector, is_listed as listed, has_variable as variable_named, is_cleared as is_cleared_in};
ghost use Rattle.ds2_meaning.specs.Reading.{bys_of as bys_of_reading, inputs_of as inputs_of_reading, is_column as column_read};
ghost use Rattle.ds2_meaning.specs.View.{reading_with_run};
ghost use Rattle.ds2_locality.specs.Deeds.{global_at};
ghost use Rattle.ds2_locality.specs.KeptLocations.{is_kept as is_kept_in, is_flag_of_by};
ghost use Rattle.ds2_deeds.specs.CodeTrees.{nameless_tree};
ghost use Rattle.ds2_deeds.specs.NamedLocations.{code_home, global_named, location_named};

use ds2_base::Name;
use ds2_deeds::{CodeHome, GlobalName, LocationName};
use ds2_meaning::{ByVariable, Input, Program, Reading, Variable};
use ds2_recorded_walk::is_by;
use ds2_value::Column;

fn bys_of(reading: &Reading) -> &[ByVariable]
    ensures { result.now ≡ bys_of_reading reading.now }
{
    match reading {
        Reading::Nothing => &[],
        Reading::Once => &[],
        Reading::Set { bys, .. } => bys.as_slice(),
        Reading::Merge { bys, .. } => bys.as_slice(),
        Reading::From { .. } => &[],
    }
}

fn inputs_of(reading: &Reading) -> &[Input]
    ensures { result.now ≡ inputs_of_reading reading.now }
{
    match reading {
        Reading::Nothing => &[],
        Reading::Once => &[],
        Reading::Set { inputs, .. } => inputs.as_slice(),
        Reading::Merge { inputs, .. } => inputs.as_slice(),
        Reading::From { .. } => &[],
    }
}

/// The BY variables of a program's loads.
#[tactic(auto, using(crate::proofs::ReadingLemmas::bys_with_run))]
pub fn bys_read(program: &Program) -> &[ByVariable]
    ensures { result.now ≡ bys_of_reading (reading_with_run program.now.run program.now.reading) }
{
    match &program.run {
        None => &[],
        Some(_) => bys_of(&program.reading),
    }
}

/// The tables of a program's loads.
#[tactic(auto, using(crate::proofs::ReadingLemmas::inputs_with_run))]
fn inputs_read(program: &Program) -> &[Input]
    ensures { result.now ≡ inputs_of_reading (reading_with_run program.now.run program.now.reading) }
{
    match &program.run {
        None => &[],
        Some(_) => inputs_of(&program.reading),
    }
}

fn has_column(columns: &[Column], name: &Name) -> bool
    ensures { result ≡ column_named name.now columns.now }
{
    'columns: for column in columns {
        if column.name == *name {
            return true;
        }
    }
    false
}

// Whether a name is that of a column of one of these tables.
fn is_column_among(inputs: &[Input], name: &Name) -> bool
    ensures { result ≡ list_any (λ (input : InputModel). column_named name.now input.columns) inputs.now }
{
    'inputs: for input in inputs {
        if has_column(input.columns.as_slice(), name) {
            return true;
        }
    }
    false
}

// Whether a name is that of a column of a reading statement.
fn is_column_of(reading: &Reading, name: &Name) -> bool
    ensures { result ≡ column_read reading.now name.now }
{
    match reading {
        Reading::Nothing => false,
        Reading::Once => false,
        Reading::Set { inputs, .. } => is_column_among(inputs.as_slice(), name),
        Reading::Merge { inputs, .. } => is_column_among(inputs.as_slice(), name),
        Reading::From { columns, .. } => has_column(columns.as_slice(), name),
    }
}

// Whether a name is that of a column of a program's loads.
#[tactic(auto, using(crate::proofs::ReadingLemmas::column_with_run))]
fn is_column(program: &Program, name: &Name) -> bool
    ensures { result ≡ column_read (reading_with_run program.now.run program.now.reading) name.now }
{
    match &program.run {
        None => false,
        Some(_) => is_column_of(&program.reading, name),
    }
}

// Whether a table's `in=` flag has a name.
fn is_flag(input: &Input, name: &Name) -> bool
    ensures { result ≡ is_flag_of input.now.present name.now }
{
    match &input.present {
        None => false,
        Some(flag) => flag == name,
    }
}

// Whether an `in=` flag of one of these tables has a name.
fn is_present(inputs: &[Input], name: &Name) -> bool
    ensures { result ≡ present_named inputs.now name.now }
{
    'inputs: for input in inputs {
        if is_flag(input, name) {
            return true;
        }
    }
    false
}

fn is_listed(names: &[Name], name: &Name) -> bool
    ensures { result ≡ listed names.now name.now }
{
    'names: for other in names {
        if other == name {
            return true;
        }
    }
    false
}

fn has_variable(variables: &[Variable], name: &Name) -> bool
    ensures { result ≡ variable_named variables.now name.now }
{
    'variables: for variable in variables {
        if variable.name == *name {
            return true;
        }
    }
    false
}

// Whether the vector of a program has a variable of a name.
#[tactic(auto, using(crate::proofs::ReadingLemmas::variable_in_both))]
fn is_in_vector(program: &Program, name: &Name) -> bool
    ensures { result ≡ variable_named (data_vector (nameless_tree program.now)) name.now }
{
    has_variable(program.declared.as_slice(), name)
        || has_variable(program.columns.as_slice(), name)
}

// Whether `run` sets a variable of the vector to null.
fn is_cleared(program: &Program, name: &Name) -> bool
    ensures { result ≡ is_cleared_in (nameless_tree program.now) name.now }
{
    is_in_vector(program, name)
        && !is_listed(program.retained.as_slice(), name)
        && !is_column(program, name)
}

// Whether a variable of the vector, or what has its name, keeps what it holds from one load to the next.
fn is_kept_name(program: &Program, name: &Name) -> bool
    ensures { result ≡ is_kept_in (nameless_tree program.now) (object_at None name.now) }
{
    !is_column(program, name) && !is_cleared(program, name)
}

// Whether a global of the program keeps what it holds from one load to the next.
fn is_kept_global(program: &Program, global: GlobalName<'_>) -> bool
    ensures { result ≡ is_kept_in (nameless_tree program.now) (global_at None (global_named global.entry)) }
{
    match global {
        GlobalName::Named(name) => is_kept_name(program, name),
        GlobalName::First(name) => !is_by(bys_read(program), name),
        GlobalName::Last(name) => !is_by(bys_read(program), name),
        GlobalName::Present(name) => !is_present(inputs_read(program), name),
        GlobalName::Parameter(_) => true,
    }
}

/// Whether a location keeps what it holds from one load to the next but for what `run` does: no load sets it, and `run` does not set it
/// to null.
pub fn is_kept(program: &Program, at: LocationName<'_>) -> bool
    ensures { result ≡ is_kept_in (nameless_tree program.now) (location_named at.entry) }
{
    match at.home {
        CodeHome::Program => is_kept_global(program, at.global),
        CodeHome::Instance(_) => true,
    }
}

// Whether a global of the program is a flag of one of these BY variables.
fn is_flag_of_global(bys: &[ByVariable], global: GlobalName<'_>) -> bool
    ensures { result ≡ is_flag_of_by bys.now None (global_named global.entry) }
{
    match global {
        GlobalName::Named(_) => false,
        GlobalName::First(name) => is_by(bys, name),
        GlobalName::Last(name) => is_by(bys, name),
        GlobalName::Present(_) => false,
        GlobalName::Parameter(_) => false,
    }
}

/// Whether a location is a flag of one of these BY variables.
pub fn is_flag_of_bys(bys: &[ByVariable], at: LocationName<'_>) -> bool
    ensures { result ≡ is_flag_of_by bys.now (code_home at.entry.home) (global_named at.entry.global) }
{
    match at.home {
        CodeHome::Program => is_flag_of_global(bys, at.global),
        CodeHome::Instance(_) => false,
    }
}
