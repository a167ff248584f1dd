//! The variables of a unit: declared variables, columns and `in=` flags.
ghost use Rattle.std.specs.Prelude.{◌≡◌, ℕ, List as Items, IfOk, nat_eq};
ghost use Rattle.std.specs.Cmp.Lexicographic.{pointwise};
ghost use Rattle.std.specs.HashMap.{get};
ghost use Rattle.std.specs.Option.{option_copied};
ghost use Rattle.ds2_elaboration.specs.ExpressionTypes.{TypeScope, global_variable};
ghost use Rattle.ds2_reference_types.specs.Scopes.{known_or, IsKnownAs};
ghost use Rattle.ds2_meaning.specs.IsTyped.{type_in};
ghost use Rattle.ds2_names.specs.SourceUnit.{PlacedName as PlacedOf};
ghost use Rattle.ds2_type_tables.specs.Clashes.{HasClashes};
ghost use Rattle.ds2_type_tables.specs.Globals.{known_column, column_known_as, parameter_as_known, parameter_known_as, known_flag, HasGlobals, HasColumns};

use crate::clashes::{Clashes, clash_table, same_refusal};
use crate::tables::add;
use ds2_base::{Bytes, List, Name, OutOfMemory};
use ds2_meaning::Variable;
use ds2_names::PlacedName;
use ds2_reference_types::scopes::{KnownName, KnownNames, Standing};
use ds2_value::Ty;
use std::alloc::Global;
use std::collections::HashMap;

/// A declared variable or a column, with the rule that is broken where its tables do not join.
fn column(alloc: Global, table: &Clashes, v: &Variable) -> Result<KnownName, OutOfMemory>
    ensures { (columns : Items PlacedOf) → HasClashes table.now columns → IfOk result (λ k. k ≡ known_column columns v.now) }
{
    let key = List::from_slice(alloc, v.name.as_str().as_bytes())?;
    let refusal = same_refusal(table.get(&key));
    let name = v.name.copy(alloc)?;
    Ok(KnownName {
        name,
        standing: Standing::Variable,
        ty: v.ty,
        refusal,
    })
}

/// The table of declared variables and columns; of one name the first counts.
fn columns(
    alloc: Global,
    variables: &[Variable],
    unjoined: &[PlacedName],
) -> Result<KnownNames, OutOfMemory>
    ensures { IfOk result (λ names. HasColumns names unjoined.now variables.now) }
{
    let table = clash_table(alloc, unjoined)?;
    let mut names: KnownNames = HashMap::new(alloc);
    'variables: for v in variables {
        let known = column(alloc, &table, v)?;
        add(alloc, &mut names, known)?;
    }
    Ok(names)
}

/// An `in=` flag, which is a BIGINT.
fn flag(alloc: Global, name: &Name) -> Result<KnownName, OutOfMemory>
    ensures { IfOk result (λ k. k ≡ known_flag name.now) }
{
    Ok(KnownName {
        name: name.copy(alloc)?,
        standing: Standing::Flag,
        ty: Ty::BigInt,
        refusal: None,
    })
}

/// A parameter of a thread program.
fn parameter(alloc: Global, v: &Variable) -> Result<KnownName, OutOfMemory>
    ensures { IfOk result (λ k. k ≡ parameter_as_known v.now) }
{
    Ok(KnownName {
        name: v.name.copy(alloc)?,
        standing: Standing::Parameter,
        ty: v.ty,
        refusal: None,
    })
}

/// The table of declared variables and columns, and behind them of the parameters of a thread program.
fn variables_and_parameters(
    alloc: Global,
    variables: &[Variable],
    unjoined: &[PlacedName],
    parameters: &[Variable],
) -> Result<KnownNames, OutOfMemory>
    ensures { IfOk result (λ names. (name : Items ℕ) → get (pointwise nat_eq) names name ≡ known_or (column_known_as unjoined.now name (type_in variables.now name)) (parameter_known_as name (type_in parameters.now name))) }
{
    let mut names = columns(alloc, variables, unjoined)?;
    'parameters: for v in parameters {
        let known = parameter(alloc, v)?;
        add(alloc, &mut names, known)?;
    }
    Ok(names)
}

/// The table of declared variables and columns, behind them of the parameters of a thread program, and behind these of `in=` flags.
pub fn globals(
    alloc: Global,
    variables: &[Variable],
    unjoined: &[PlacedName],
    parameters: &[Variable],
    flags: &[Name],
) -> Result<KnownNames, OutOfMemory>
    ensures { IfOk result (λ names. HasGlobals names unjoined.now variables.now parameters.now flags.now) }
{
    let mut names = variables_and_parameters(alloc, variables, unjoined, parameters)?;
    'flags: for name in flags {
        let known = flag(alloc, name)?;
        add(alloc, &mut names, known)?;
    }
    Ok(names)
}

/// The global that a name stands for: a variable or column of the unit, else a parameter of a thread program, else a flag.
pub fn global_named<'n>(names: &'n KnownNames, name: &Bytes) -> Option<&'n KnownName>
    ensures { (types : TypeScope) → HasGlobals names.now types.unjoined types.variables types.parameters types.flags → IsKnownAs (option_copied result) (global_variable types name.now) }
{
    names.get(name)
}
