//! `output`.
ghost use Rattle.std.specs.Prelude.{◌≡◌, [], ℕ, List as Items, IfOk, map};
ghost use Rattle.std.specs.List.{range_with_len};
ghost use Rattle.ds2_elaboration.specs.ExpressionTypes.{TypeScope};
ghost use Rattle.ds2_elaboration.specs.StatementTypes.{written_refusals, output_numbers};
ghost use Rattle.ds2_elaboration.specs.Typings.{TypeRefusals};
ghost use Rattle.ds2_meaning.specs.TypedStatement as typed;
ghost use Rattle.ds2_meaning.specs.View.{typed_statement};
ghost use Rattle.ds2_names.specs.NameRules.{from_each};
ghost use Rattle.ds2_types.specs.Judgements.{IsOutcome};
ghost use Rattle.ds2_simple_statement_types.specs.MethodScopes.{IsMethodScope};
ghost use Rattle.ds2_simple_statement_types.specs.StatementOutcomes.{AreTypedAs, StandsAs};
ghost use Rattle.ds2_simple_statement_types.specs.ReturnedAndWritten.{as_it_is, output_number};

use crate::method_scope::MethodScope;
use crate::outcomes::{StatementOutcome, boxed};
use crate::parts::with_one;
use ds2_base::{List, OutOfMemory, Place, Refusal};
use ds2_meaning::{Statement, TypeKind};
use ds2_reference_types::names::spelled_name;
use ds2_token::Token;
use ds2_types::refusals::refusal;
use std::alloc::Global;

/// The numbers of outputs, or the first of the tables that are none.
pub type NumbersOutcome = Result<List<u32>, Refusal<TypeKind>>;

/// The number of the output that a token names; what is no output is TypeClash at it.
fn written(
    alloc: Global,
    scope: &MethodScope<'_>,
    table: &Token,
) -> Result<Result<u32, Refusal<TypeKind>>, OutOfMemory>
    ensures { (types : TypeScope) → IsMethodScope types scope.now
        → IfOk result (IsOutcome (λ n. n ≡ output_number types.outputs table.now) (written_refusals types table.now)) }
{
    let name = spelled_name(alloc, table)?;
    match scope.output(&name) {
        None => Ok(Err(refusal(TypeKind::TypeClash, table.place))),
        Some(number) => Ok(Ok(*number)),
    }
}

/// The numbers of the outputs that tokens name.
fn all_written(
    alloc: Global,
    scope: &MethodScope<'_>,
    tables: &[Token],
) -> Result<NumbersOutcome, OutOfMemory>
    ensures { (types : TypeScope) → IsMethodScope types scope.now
        → IfOk result (AreTypedAs as_it_is (from_each (written_refusals types) tables.now) (map (output_number types.outputs) tables.now)) }
{
    let mut all: NumbersOutcome = Ok(List::new(alloc));
    'tables: for table in tables {
        let one = written(alloc, scope, table)?;
        all = with_one(all, one)?;
    }
    Ok(all)
}

/// The numbers of all outputs of a program with so many.
fn every_number(alloc: Global, count: u32) -> Result<List<u32>, OutOfMemory>
    ensures { IfOk result (λ numbers. numbers ≡ range_with_len 0 count) }
{
    let mut numbers = List::new(alloc);
    'numbers: for n in 0..count {
        numbers.push(n)?;
    }
    Ok(numbers)
}

/// The tree of `output`.
fn output_node(place: Place, outputs: List<u32>) -> Statement
    ensures { typed_statement result ≡ typed.Output place outputs }
{
    Statement::Output { place, outputs }
}

/// `output` to these outputs.
fn output_to(
    alloc: Global,
    place: Place,
    outputs: NumbersOutcome,
) -> Result<StatementOutcome, OutOfMemory>
    ensures { (refusals : TypeRefusals) (numbers : Items ℕ) → AreTypedAs as_it_is refusals numbers outputs → StandsAs refusals (typed.Output place numbers) result }
{
    match outputs {
        Err(refusal) => Ok(Err(refusal)),
        Ok(outputs) => {
            let made = boxed(alloc, output_node(place, outputs))?;
            Ok(Ok(made))
        }
    }
}

/// `output` to all outputs.
fn output_to_all(
    alloc: Global,
    scope: &MethodScope<'_>,
    place: Place,
) -> Result<StatementOutcome, OutOfMemory>
    ensures { StandsAs [] (typed.Output place (range_with_len 0 scope.now.output_count)) result }
{
    let outputs = every_number(alloc, scope.output_count)?;
    let made = boxed(alloc, output_node(place, outputs))?;
    Ok(Ok(made))
}

/// `output ..;`: to the outputs that it names, or to all where it names none.
pub fn output(
    alloc: Global,
    scope: &MethodScope<'_>,
    place: Place,
    tables: &[Token],
) -> Result<StatementOutcome, OutOfMemory>
    ensures { (types : TypeScope) → IsMethodScope types scope.now
        → StandsAs (from_each (written_refusals types) tables.now) (typed.Output place (output_numbers types.outputs tables.now)) result }
{
    if tables.is_empty() {
        return output_to_all(alloc, scope, place);
    }
    let all = all_written(alloc, scope, tables)?;
    output_to(alloc, place, all)
}
