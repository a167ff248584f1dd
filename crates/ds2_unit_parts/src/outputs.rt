//! The outputs that a unit makes, typed.
ghost use Rattle.std.specs.Prelude.{◌≡◌, ◌++◌, ◌∷◌, [], List as Items, IfOk, OnOk, map, nat_eq, option_copied};
ghost use Rattle.std.specs.Cmp.Lexicographic.{pointwise};
ghost use Rattle.std.specs.HashMap.{get};
ghost use Rattle.std.specs.List.{list_any};
ghost use Rattle.std.specs.Option.{option_map_or};
ghost use Rattle.ds2_elaboration.specs.ProgramTypes.{made_column, made_outputs, says_overwrite, table_of_thread};
ghost use Rattle.ds2_given_names.specs.OutputParts.{AreStatementLists, HasNewNames};
ghost use Rattle.ds2_meaning.specs.declared.globals.Variable.{Variable as VariableOf};
ghost use Rattle.ds2_names.specs.NameRules.{name_if_renamed, options_of};
ghost use Rattle.ds2_names.specs.SourceUnit.{names_alone, spelled_name, UnitSource};
ghost use Rattle.ds2_scope.specs.CodeUnits.{unit_source};
ghost use Rattle.ds2_token.specs.declared.token.Token.{Token as TokenOf};
ghost use Rattle.ds2_tree.specs.declared.units.Renaming.{Renaming as RenamingOf};
ghost use Rattle.ds2_type_tables.specs.Tables.{HasLocals};
ghost use Rattle.ds2_unit_parts.specs.TypedOutputs.{columns_made_of, columns_with, made_among, output_of_thread, outputs_made_of, outputs_over, passes_both};

use crate::declared::declared_type;
use ds2_base::{Bytes, List, Name, OutOfMemory};
use ds2_declared_types::names::{name, name_of_bytes};
use ds2_given_names::{KeepDrop, NewNames, new_names, option_lists, passes_lists, statement_lists};
use ds2_meaning::{OutputColumn, OutputTable as TypedOutput, Variable};
use ds2_names::PlacedName;
use ds2_reference_types::scopes::KnownNames;
use ds2_scope::{Unit, UnitKind, spelled_name};
use ds2_token::{Token, is_table_name};
use ds2_tree::{OutputOption, OutputOptions, OutputTable};
use ds2_type_tables::locals::locals;
use ds2_value::Ty;
use std::alloc::Global;

/// What the columns of an output are made of.
#[derive(Clone, Copy)]
pub struct OutputParts<'a> {
    /// The types of the variables of the program.
    pub types: &'a KnownNames,
    /// The names that the statements of the program keep and drop.
    pub statements: &'a KeepDrop,
    /// The names that the options of the output keep and drop.
    pub options: &'a KeepDrop,
    /// The new names of columns.
    pub news: &'a NewNames,
}

/// The name of a column in the table of an output.
fn column_name(alloc: Global, news: &NewNames, source: &Bytes) -> Result<Name, OutOfMemory>
    ensures { IfOk result (λ n. n ≡ (name_if_renamed source.now (get (pointwise nat_eq) news.now source.now)).name) }
{
    match news.get(source) {
        None => name_of_bytes(alloc, source.as_slice()),
        Some(new) => name_of_bytes(alloc, new.name.as_slice()),
    }
}

/// The type of a variable; BIGINT stands for none.
fn column_type(types: &KnownNames, name: &Bytes) -> Ty
    ensures { (variables : Items VariableOf) → HasLocals types.now variables → (renamings : Items RenamingOf) → result ≡ (made_column variables renamings name.now).ty }
{
    match declared_type(types, name) {
        None => Ty::BigInt,
        Some(ty) => ty,
    }
}

/// Whether the statements of a program and the options of an output let a variable through.
fn passes(parts: OutputParts<'_>, name: &Bytes) -> bool
    ensures { result ≡ passes_both parts.entry name.now }
{
    passes_lists(parts.statements, name) && passes_lists(parts.options, name)
}

/// A column of an output.
fn column(
    alloc: Global,
    parts: OutputParts<'_>,
    source: &Bytes,
) -> Result<OutputColumn, OutOfMemory>
    ensures { (variables : Items VariableOf) (renamings : Items RenamingOf) → HasLocals parts.entry.types.now variables → HasNewNames parts.entry.news.now renamings
        → IfOk result (λ c. c ≡ made_column variables renamings source.now) }
{
    let name = column_name(alloc, parts.news, source)?;
    let own = name_of_bytes(alloc, source.as_slice())?;
    let ty = column_type(parts.types, source);
    Ok(OutputColumn {
        name,
        source: own,
        ty,
    })
}

/// Adds a column of an output, where the variable is one.
fn push_column(
    alloc: Global,
    columns: &mut List<OutputColumn>,
    parts: OutputParts<'_>,
    source: &Bytes,
) -> Result<(), OutOfMemory>
    ensures { (variables : Items VariableOf) (renamings : Items RenamingOf) → HasLocals parts.entry.types.now variables → HasNewNames parts.entry.news.now renamings
        → OnOk result (columns.new ≡ columns.old ++ columns_made_of parts.entry variables renamings (source.now ∷ [])) }
{
    if passes(parts, source) {
        let own = column(alloc, parts, source)?;
        columns.push(own)?;
        Ok(())
    } else {
        Ok(())
    }
}

/// The columns of an output that come of variables.
fn columns(
    alloc: Global,
    parts: OutputParts<'_>,
    variables: &[PlacedName],
) -> Result<List<OutputColumn>, OutOfMemory>
    ensures { (all : Items VariableOf) (renamings : Items RenamingOf) → HasLocals parts.entry.types.now all → HasNewNames parts.entry.news.now renamings
        → IfOk result (λ made. made ≡ columns_made_of parts.entry all renamings (names_alone variables.now)) }
{
    let mut made: List<OutputColumn> = List::new(alloc);
    'variables: for n in variables {
        push_column(alloc, &mut made, parts, &n.name)?;
    }
    Ok(made)
}

/// The options of an output.
fn option_list(options: &Option<OutputOptions>) -> &[OutputOption]
    ensures { result.now ≡ options_of options.now }
{
    match options {
        None => &[],
        Some(options) => options.list.as_slice(),
    }
}

/// Whether an option says `overwrite=yes`.
fn overwrites(option: &OutputOption) -> bool
    ensures { result ≡ says_overwrite option.now }
{
    match option {
        OutputOption::Overwrite { answer, .. } => answer.is_word("yes"),
        OutputOption::Listed { .. } => false,
        OutputOption::Rename { .. } => false,
    }
}

/// Whether one of these options says `overwrite=yes`.
fn any_overwrites(options: &[OutputOption]) -> bool
    ensures { result ≡ list_any says_overwrite options.now }
{
    'options: for option in options {
        if overwrites(option) {
            return true;
        }
    }
    false
}

/// The columns of an output with these options, in the order of the vector.
fn columns_with(
    alloc: Global,
    types: &KnownNames,
    statements: &KeepDrop,
    variables: &[PlacedName],
    options: &[OutputOption],
) -> Result<List<OutputColumn>, OutOfMemory>
    ensures { (all : Items VariableOf) (u : UnitSource) → HasLocals types.now all → AreStatementLists statements.now u.globals
        → IfOk result (λ made. made ≡ columns_with all u (names_alone variables.now) options.now) }
{
    let lists = option_lists(alloc, options)?;
    let news = new_names(alloc, options)?;
    let parts = OutputParts {
        types,
        statements,
        options: &lists,
        news: &news,
    };
    let made = columns(alloc, parts, variables)?;
    Ok(made)
}

/// An output of a data program, with its columns in the order of the vector.
fn typed_output(
    alloc: Global,
    types: &KnownNames,
    statements: &KeepDrop,
    variables: &[PlacedName],
    o: &OutputTable,
) -> Result<TypedOutput, OutOfMemory>
    ensures { (all : Items VariableOf) (u : UnitSource) → HasLocals types.now all → AreStatementLists statements.now u.globals
        → IfOk result (λ made. made ≡ outputs_made_of all u (names_alone variables.now) o.now) }
{
    let options = option_list(&o.options);
    let columns = columns_with(alloc, types, statements, variables, options)?;
    let name = name(alloc, &o.table)?;
    Ok(TypedOutput {
        name,
        overwrites: any_overwrites(options),
        columns,
    })
}

/// Adds an output, where it is not `_null_`.
fn push_output(
    alloc: Global,
    all: &mut List<TypedOutput>,
    types: &KnownNames,
    statements: &KeepDrop,
    variables: &[PlacedName],
    o: &OutputTable,
) -> Result<(), OutOfMemory>
    ensures { (known : Items VariableOf) (u : UnitSource) → HasLocals types.now known → AreStatementLists statements.now u.globals
        → OnOk result (all.new ≡ all.old ++ map (outputs_made_of known u (names_alone variables.now)) (made_among (o.now ∷ []))) }
{
    let own = spelled_name(alloc, &o.table)?;
    let null = own.as_slice() == b"_null_".as_slice();
    if null {
        Ok(())
    } else {
        let made = typed_output(alloc, types, statements, variables, o)?;
        all.push(made)?;
        Ok(())
    }
}

/// The outputs that a data program makes.
fn data_outputs(
    alloc: Global,
    unit: Unit<'_>,
    vector: &[Variable],
    variables: &[PlacedName],
) -> Result<List<TypedOutput>, OutOfMemory>
    ensures { IfOk result (λ all. all ≡ map (outputs_made_of vector.now (unit_source unit.entry) (names_alone variables.now)) (made_outputs (unit_source unit.entry))) }
{
    let types = locals(alloc, vector)?;
    let statements = statement_lists(alloc, unit.globals)?;
    let mut all: List<TypedOutput> = List::new(alloc);
    'outputs: for o in unit.outputs {
        push_output(alloc, &mut all, &types, &statements, variables, o)?;
    }
    Ok(all)
}

/// The name of the table that a thread program makes: its own where that is the name of a table, else `rows`.
fn thread_table(alloc: Global, own: &Token) -> Result<Name, OutOfMemory>
    ensures { IfOk result (λ name. name ≡ table_of_thread (spelled_name own.now)) }
{
    let letters = spelled_name(alloc, own)?;
    if is_table_name(letters.as_slice()) {
        name_of_bytes(alloc, letters.as_slice())
    } else {
        name_of_bytes(alloc, b"rows")
    }
}

/// The output of a thread program of this name.
fn output_of_thread(
    alloc: Global,
    unit: Unit<'_>,
    vector: &[Variable],
    variables: &[PlacedName],
    own: &Token,
) -> Result<TypedOutput, OutOfMemory>
    ensures { IfOk result (λ made. made ≡ output_of_thread vector.now (unit_source unit.entry) (names_alone variables.now) own.now) }
{
    let types = locals(alloc, vector)?;
    let statements = statement_lists(alloc, unit.globals)?;
    let columns = columns_with(alloc, &types, &statements, variables, &[])?;
    let name = thread_table(alloc, own)?;
    Ok(TypedOutput {
        name,
        overwrites: false,
        columns,
    })
}

/// One output alone.
fn one_output(alloc: Global, output: TypedOutput) -> Result<List<TypedOutput>, OutOfMemory>
    ensures { IfOk result (λ all. all ≡ output ∷ []) }
{
    let mut all: List<TypedOutput> = List::new(alloc);
    all.push(output)?;
    Ok(all)
}

/// The one output of a thread program.
fn thread_outputs(
    alloc: Global,
    unit: Unit<'_>,
    vector: &[Variable],
    variables: &[PlacedName],
) -> Result<List<TypedOutput>, OutOfMemory>
    ensures { IfOk result (λ all. all ≡ option_map_or (λ (name : TokenOf). output_of_thread vector.now (unit_source unit.entry) (names_alone variables.now) name ∷ []) (option_copied unit.entry.name) []) }
{
    match unit.name {
        None => Ok(List::new(alloc)),
        Some(own) => {
            let output = output_of_thread(alloc, unit, vector, variables, own)?;
            let all = one_output(alloc, output)?;
            Ok(all)
        }
    }
}

/// The outputs of a unit over the variables of its vector: those that a data program makes, the one of a thread program, and none of a
/// package.
pub fn unit_outputs(
    alloc: Global,
    unit: Unit<'_>,
    vector: &[Variable],
    variables: &[PlacedName],
) -> Result<List<TypedOutput>, OutOfMemory>
    ensures { IfOk result (λ all. all ≡ outputs_over vector.now (unit_source unit.entry) (names_alone variables.now) (unit_source unit.entry).kind) }
{
    match unit.kind {
        UnitKind::Package => Ok(List::new(alloc)),
        UnitKind::Thread => {
            let all = thread_outputs(alloc, unit, vector, variables)?;
            Ok(all)
        }
        UnitKind::Data => {
            let all = data_outputs(alloc, unit, vector, variables)?;
            Ok(all)
        }
    }
}
