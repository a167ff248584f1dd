//! Hash objects: their variables, their tables, and the rules of types that these break.
ghost use Rattle.std.specs.Prelude.{◌≡◌, ◌++◌, IfOk, OnOk, option_copied};
ghost use Rattle.std.specs.Option.{option_map};
ghost use Rattle.ds2_elaboration.specs.ExpressionTypes.{KnownVariable, TypeScope, global_variable};
ghost use Rattle.ds2_elaboration.specs.ProgramTypes.{clashing_load, hash_load, hash_variable_of, loaded_refusals, typed_hash_variables};
ghost use Rattle.ds2_reference_types.specs.Scopes.{reference_of, IsKnownVariable};
ghost use Rattle.ds2_instance_types.specs.HashDeclarations.{hash_declared, hash_variables_of, load_rules, variables_of_reference};
ghost use Rattle.ds2_names.specs.NameRules.{from_each};
ghost use Rattle.ds2_names.specs.SourceUnit.{columns_stored, spelled_name, spelled_text};
ghost use Rattle.ds2_scope.specs.CodeUnits.{names_bracketed};
ghost use Rattle.ds2_type_tables.specs.Globals.{HasGlobals};
ghost use Rattle.ds2_types.specs.Judgements.{first_type_refusal, lesser_refusal};
ghost use Rattle.ds2_value.specs.Row.{Columns};

use crate::mentions::mentioned;
use ds2_base::{List, Name, OutOfMemory, Place, Refusal};
use ds2_calls::spelled_text;
use ds2_declared_types::joins::{agrees, type_of_column};
use ds2_declared_types::names::{name, name_of_bytes};
use ds2_meaning::{DeclaredHash, HashVariable, LoadedTable, MentionedTable, Reference, TypeKind};
use ds2_names::NamedSchema;
use ds2_reference_types::scopes::{KnownName, KnownNames};
use ds2_reference_types::variables::reference;
use ds2_scope::{columns_of, spelled_name};
use ds2_token::Token;
use ds2_tree::BracketedName;
use ds2_type_tables::globals::global_named;
use ds2_types::refusals::lesser;
use ds2_types::rules::clash_unless;
use ds2_value::{Column, Ty, copy_columns};
use std::alloc::Global;

/// What a declaration says of a hash object.
#[derive(Clone, Copy)]
pub struct HashDeclaration<'t> {
    pub keys: &'t [BracketedName],
    pub items: &'t [BracketedName],
    /// The text of its table, where it has one.
    pub table: Option<&'t Token>,
}

// ---- variables

/// Adds a variable of a hash object: a global with its type; a parameter or a local is none.
fn push_at(
    variables: &mut List<HashVariable>,
    variable: Reference,
    ty: Ty,
) -> Result<(), OutOfMemory>
    ensures { OnOk result (variables.new ≡ variables.old ++ variables_of_reference variable ty) }
{
    match variable {
        Reference::At(global) => variables.push(HashVariable { global, ty }),
        Reference::Local(_) => Ok(()),
    }
}

/// Adds a global as a key or data variable of a hash object.
fn push_known(
    alloc: Global,
    variables: &mut List<HashVariable>,
    known: &KnownName,
) -> Result<(), OutOfMemory>
    ensures { OnOk result (variables.new ≡ variables.old ++ variables_of_reference (reference_of known.now.standing known.now.name) known.now.ty) }
{
    let variable = reference(alloc, &known.name, known.standing)?;
    push_at(variables, variable, known.ty)?;
    Ok(())
}

/// Adds the key or data variable of a name.
fn push_named(
    alloc: Global,
    variables: &mut List<HashVariable>,
    globals: &KnownNames,
    listed: &Token,
) -> Result<(), OutOfMemory>
    ensures { (scope : TypeScope) → HasGlobals globals.now scope.unjoined scope.variables scope.parameters scope.flags
        → OnOk result (variables.new ≡ variables.old ++ hash_variable_of (global_variable scope (spelled_name listed.now))) }
{
    let spelled = spelled_name(alloc, listed)?;
    match global_named(globals, &spelled) {
        None => Ok(()),
        Some(known) => {
            push_known(alloc, variables, known)?;
            Ok(())
        }
    }
}

/// The key or data variables of a hash object.
fn hash_variables(
    alloc: Global,
    globals: &KnownNames,
    names: &[BracketedName],
) -> Result<List<HashVariable>, OutOfMemory>
    ensures { (scope : TypeScope) → HasGlobals globals.now scope.unjoined scope.variables scope.parameters scope.flags
        → IfOk result (λ variables. variables ≡ typed_hash_variables scope (names_bracketed names.now)) }
{
    let mut variables: List<HashVariable> = List::new(alloc);
    'names: for n in names {
        push_named(alloc, &mut variables, globals, &n.name)?;
    }
    Ok(variables)
}

// ---- tables

/// The name that the text of a table or of a hash object spells. What is no name, which the rules of names refuse, is want of memory.
pub fn text_name(alloc: Global, text: &Token) -> Result<Name, OutOfMemory>
    ensures { IfOk result (λ name. name ≡ spelled_text text.now) }
{
    let spelled = spelled_text(alloc, text)?;
    let name = name_of_bytes(alloc, spelled.as_slice())?;
    Ok(name)
}

/// The table of which a hash object has the rows.
fn loaded_table(
    alloc: Global,
    tables: &[NamedSchema],
    made: &[MentionedTable],
    text: &Token,
) -> Result<LoadedTable, OutOfMemory>
    ensures { IfOk result (λ loaded. loaded ≡ hash_load (columns_stored tables.now) made.now text.now) }
{
    let own = text_name(alloc, text)?;
    let columns = copy_columns(alloc, columns_of(tables, own.as_str().as_bytes()))?;
    let table = mentioned(alloc, made, &own)?;
    Ok(LoadedTable { table, columns })
}

/// The table of a hash object, where it has one.
fn loaded(
    alloc: Global,
    tables: &[NamedSchema],
    made: &[MentionedTable],
    text: Option<&Token>,
) -> Result<Option<LoadedTable>, OutOfMemory>
    ensures { IfOk result (λ loaded. loaded ≡ option_map (hash_load (columns_stored tables.now) made.now) (option_copied text.entry)) }
{
    match text {
        None => Ok(None),
        Some(text) => {
            let own = loaded_table(alloc, tables, made, text)?;
            Ok(Some(own))
        }
    }
}

/// A hash object of this name.
pub fn hash_object(
    alloc: Global,
    tables: &[NamedSchema],
    made: &[MentionedTable],
    globals: &KnownNames,
    named: &Token,
    hash: HashDeclaration<'_>,
) -> Result<DeclaredHash, OutOfMemory>
    ensures { (scope : TypeScope) → HasGlobals globals.now scope.unjoined scope.variables scope.parameters scope.flags
        → IfOk result (λ own. own ≡ hash_declared (columns_stored tables.now) made.now scope (spelled_name named.now) hash.entry) }
{
    let own = name(alloc, named)?;
    let key_variables = hash_variables(alloc, globals, hash.keys)?;
    let data_variables = hash_variables(alloc, globals, hash.items)?;
    let loaded = loaded(alloc, tables, made, hash.table)?;
    Ok(DeclaredHash {
        name: own,
        key_variables,
        data_variables,
        loaded,
    })
}

// ---- rules

/// What a variable of a hash object breaks whose column in the table has this type: TypeClash at the table's text where they do not join to the
/// variable's own type; nothing of a column of a unit whose tables do not join.
fn clash_of_load(text: Place, known: &KnownName, column: Option<Ty>) -> Option<Refusal<TypeKind>>
    ensures { (v : KnownVariable) (columns : Columns) → IsKnownVariable known.now v → result ≡ first_type_refusal (clashing_load text columns v column) }
{
    match column {
        None => None,
        Some(ty) => match &known.refusal {
            Some(_) => None,
            None => clash_unless(agrees(Some(known.ty), ty), text),
        },
    }
}

/// What the variable of a name breaks over a table with these columns, whose text stands at this place.
fn clash_of_variable(
    alloc: Global,
    globals: &KnownNames,
    columns: &[Column],
    text: Place,
    listed: &Token,
) -> Result<Option<Refusal<TypeKind>>, OutOfMemory>
    ensures { (scope : TypeScope) → HasGlobals globals.now scope.unjoined scope.variables scope.parameters scope.flags
        → IfOk result (λ r. r ≡ first_type_refusal (load_rules columns.now scope text listed.now)) }
{
    let spelled = spelled_name(alloc, listed)?;
    match global_named(globals, &spelled) {
        None => Ok(None),
        Some(known) => {
            let column = type_of_column(columns, spelled.as_slice());
            Ok(clash_of_load(text, known, column))
        }
    }
}

/// The one that is given of the rules that variables break over a table with these columns.
fn clash_of_variables(
    alloc: Global,
    globals: &KnownNames,
    columns: &[Column],
    text: Place,
    names: &[BracketedName],
) -> Result<Option<Refusal<TypeKind>>, OutOfMemory>
    ensures { (scope : TypeScope) → HasGlobals globals.now scope.unjoined scope.variables scope.parameters scope.flags
        → IfOk result (λ r. r ≡ first_type_refusal (from_each (load_rules columns.now scope text) (names_bracketed names.now))) }
{
    let mut found: Option<Refusal<TypeKind>> = None;
    'names: for n in names {
        let own = clash_of_variable(alloc, globals, columns, text, &n.name)?;
        found = lesser(found, own);
    }
    Ok(found)
}

/// The one that is given of the rules of types that a hash object breaks over the table of this text.
fn clash_of_table(
    alloc: Global,
    tables: &[NamedSchema],
    globals: &KnownNames,
    hash: HashDeclaration<'_>,
    text: &Token,
) -> Result<Option<Refusal<TypeKind>>, OutOfMemory>
    ensures { (scope : TypeScope) → HasGlobals globals.now scope.unjoined scope.variables scope.parameters scope.flags
        → IfOk result (λ r. r ≡ first_type_refusal (from_each (load_rules (columns_stored tables.now (spelled_text text.now)) scope text.now.place) (hash_variables_of hash.entry))) }
{
    let spelled = spelled_text(alloc, text)?;
    let columns = columns_of(tables, spelled.as_slice());
    let keys = clash_of_variables(alloc, globals, columns, text.place, hash.keys)?;
    let items = clash_of_variables(alloc, globals, columns, text.place, hash.items)?;
    Ok(lesser(keys, items))
}

/// The one that is given of the rules of types that a hash object breaks.
pub fn hash_clash(
    alloc: Global,
    tables: &[NamedSchema],
    globals: &KnownNames,
    hash: HashDeclaration<'_>,
) -> Result<Option<Refusal<TypeKind>>, OutOfMemory>
    ensures { (scope : TypeScope) → HasGlobals globals.now scope.unjoined scope.variables scope.parameters scope.flags
        → IfOk result (λ r. r ≡ first_type_refusal (loaded_refusals (columns_stored tables.now) scope (hash_variables_of hash.entry) (option_copied hash.entry.table))) }
{
    match hash.table {
        None => Ok(None),
        Some(text) => {
            let clash = clash_of_table(alloc, tables, globals, hash, text)?;
            Ok(clash)
        }
    }
}
