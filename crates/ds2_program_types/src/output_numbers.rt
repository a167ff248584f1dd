//! The numbers of the outputs that a unit makes.
ghost use Rattle.std.specs.Prelude.{◌≡◌, ◌+◌, ◌∷◌, [], ℕ, List as Items, IfOk, OnOk, Some, length, nat_eq};
ghost use Rattle.std.specs.Cmp.Lexicographic.{pointwise};
ghost use Rattle.std.specs.HashMap.{get};
ghost use Rattle.std.specs.Option.{option_or};
ghost use Rattle.ds2_elaboration.specs.ProgramTypes.{made_names};
ghost use Rattle.ds2_names.specs.SourceUnit.{spelled_name, OfThread};
ghost use Rattle.ds2_program_types.specs.MadeOutputs.{made_if, number_behind_output, number_if_made, names_made, HasNumbers};
ghost use Rattle.ds2_scope.specs.CodeUnits.{unit_source};

use ds2_base::{Bytes, OutOfMemory};
use ds2_scope::{Unit, UnitKind, spelled_name};
use ds2_simple_statement_types::method_scope::OutputNumbers;
use ds2_token::Token;
use ds2_tree::OutputTable;
use std::alloc::Global;
use std::collections::HashMap;

/// The outputs that a unit makes: their numbers, from 0, by their names, and how many there are.
#[derive(Drop)]
pub struct MadeOutputs {
    pub numbers: OutputNumbers,
    pub count: u32,
}

/// The number behind one; 2^32 outputs are want of memory.
fn next(number: u32) -> Result<u32, OutOfMemory>
    ensures { IfOk result (λ n. n ≡ number + 1) }
{
    match number.checked_add(1) {
        Some(n) => Ok(n),
        None => Err(OutOfMemory),
    }
}

/// Adds an output of this number, unless the table has one of its name.
fn add(numbers: &mut OutputNumbers, name: Bytes, number: u32) -> Result<(), OutOfMemory>
    ensures { OnOk result ((other : Items ℕ) → get (pointwise nat_eq) numbers.new other ≡ option_or (get (pointwise nat_eq) numbers.old other) (number_if_made other number (Some name))) }
{
    if numbers.get(&name).is_none() {
        numbers.insert(name, number)?;
    }
    Ok(())
}

/// Adds an output, where it is not `_null_`; gives the number of the next one.
fn note(
    alloc: Global,
    numbers: &mut OutputNumbers,
    number: u32,
    o: &OutputTable,
) -> Result<u32, OutOfMemory>
    ensures number { IfOk result (λ n. n ≡ number_behind_output number (made_if o.now)) }
    ensures table { OnOk result ((name : Items ℕ) → get (pointwise nat_eq) numbers.new name ≡ option_or (get (pointwise nat_eq) numbers.old name) (number_if_made name number (made_if o.now))) }
{
    let name = spelled_name(alloc, &o.table)?;
    let null = name.as_slice() == b"_null_".as_slice();
    if null {
        return Ok(number);
    }
    add(numbers, name, number)?;
    next(number)
}

/// Those of these outputs that a program makes; of one name the first counts.
fn made_outputs(alloc: Global, outputs: &[OutputTable]) -> Result<MadeOutputs, OutOfMemory>
    ensures numbers { IfOk result (λ made. HasNumbers made.numbers (names_made outputs.now)) }
    ensures count { IfOk result (λ made. made.count ≡ length (names_made outputs.now)) }
{
    let mut numbers: OutputNumbers = HashMap::new(alloc);
    let mut count = 0;
    'outputs: for o in outputs {
        count = note(alloc, &mut numbers, count, o)?;
    }
    Ok(MadeOutputs { numbers, count })
}

/// No output.
fn no_outputs(alloc: Global) -> MadeOutputs
    ensures numbers { HasNumbers result.numbers [] }
    ensures count { result.count ≡ 0 }
{
    MadeOutputs {
        numbers: HashMap::new(alloc),
        count: 0,
    }
}

/// The one output of a thread program of this name.
fn one_output(alloc: Global, own: &Token) -> Result<MadeOutputs, OutOfMemory>
    ensures numbers { IfOk result (λ made. HasNumbers made.numbers (spelled_name own.now ∷ [])) }
    ensures count { IfOk result (λ made. made.count ≡ 1) }
{
    let name = spelled_name(alloc, own)?;
    let mut numbers: OutputNumbers = HashMap::new(alloc);
    numbers.insert(name, 0)?;
    Ok(MadeOutputs { numbers, count: 1 })
}

/// The output of a thread program, which has its name.
fn thread_output(alloc: Global, unit: Unit<'_>) -> Result<MadeOutputs, OutOfMemory>
    ensures numbers { IfOk result (λ made. HasNumbers made.numbers (made_names OfThread (unit_source unit.entry))) }
    ensures count { IfOk result (λ made. made.count ≡ length (made_names OfThread (unit_source unit.entry))) }
{
    match unit.name {
        None => Ok(no_outputs(alloc)),
        Some(own) => {
            let made = one_output(alloc, own)?;
            Ok(made)
        }
    }
}

/// The outputs of a unit: those that a data program makes, the one of a thread program, and none of a package.
pub fn unit_numbers(alloc: Global, unit: Unit<'_>) -> Result<MadeOutputs, OutOfMemory>
    ensures numbers { IfOk result (λ made. HasNumbers made.numbers (made_names (unit_source unit.entry).kind (unit_source unit.entry))) }
    ensures count { IfOk result (λ made. made.count ≡ length (made_names (unit_source unit.entry).kind (unit_source unit.entry))) }
{
    match unit.kind {
        UnitKind::Package => Ok(no_outputs(alloc)),
        UnitKind::Thread => {
            let made = thread_output(alloc, unit)?;
            Ok(made)
        }
        UnitKind::Data => {
            let made = made_outputs(alloc, unit.outputs)?;
            Ok(made)
        }
    }
}
