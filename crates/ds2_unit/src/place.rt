//! A program of a chain over its tables, and the machine that it begins with.
ghost use Rattle.std.specs.Prelude.{◌≡◌, IfOk};
ghost use Rattle.ds2_code.specs.CodeUnit.{opening_data};
ghost use Rattle.ds2_code.specs.Scales.{AreGivenScaled};
ghost use Rattle.ds2_code_answer.specs.CodeTables.{rows_of_each};
ghost use Rattle.ds2_unit.specs.Places.{IsMachineAt, IsPlaceOfChain};

use crate::given::are_given_scaled;
use ds2_base::OutOfMemory;
use ds2_code::ProgramParts;
use ds2_loads::TableRows;
use ds2_machine::Machine;
use ds2_reading::Tables;
use ds2_valid_code::ProgramCode;
use ds2_value::Value;
use std::alloc::Global;

/// A program of code: the data program, or one of the thread programs below it.
#[derive(Clone, Copy)]
pub struct ProgramPlace<'a> {
    pub code: &'a ProgramCode,
    /// Its number: 0 for the data program, k for the k-th thread program below it.
    pub number: usize,
    pub program: &'a ProgramParts,
    /// The tables that it and those below it name, in the order of their numbers.
    pub tables: &'a Tables,
}

// The machine of a program, with values of its parameters that have the scales of their slots.
fn machine_with(
    alloc: Global,
    place: &ProgramPlace,
    given: &[Value],
    parameters: usize,
) -> Result<Machine, OutOfMemory>
    requires place { IsPlaceOfChain place.now }
    requires given { AreGivenScaled place.now.program.now.slots place.now.program.now.parameters given.now }
    ensures machine { IfOk result (λ machine. IsMachineAt place.now machine) }
    ensures begun { IfOk result (λ machine. machine.state ≡ opening_data place.now.program.now given.now (rows_of_each place.now.tables.now) parameters) }
{
    let rows = TableRows {
        tables: place.tables,
    };
    let machine = Machine::open(alloc, place.code, place.number, given, &rows, parameters)?;
    Ok(machine)
}

/// The machine of a program before its `init`, with these values of its parameters, and room for so many of the thread program that it reads
/// from.
///
/// A decimal of another scale than its parameter's, which valid code does not set, would be refused as want of memory.
pub(crate) fn open_machine(
    alloc: Global,
    place: &ProgramPlace,
    given: &[Value],
    parameters: usize,
) -> Result<Machine, OutOfMemory>
    requires place { IsPlaceOfChain place.now }
    ensures machine { IfOk result (λ machine. IsMachineAt place.now machine) }
    ensures begun { IfOk result (λ machine. machine.state ≡ opening_data place.now.program.now given.now (rows_of_each place.now.tables.now) parameters) }
{
    let numbers = place.program.parameters.as_slice();
    if are_given_scaled(&place.program.slots, numbers, given) {
        machine_with(alloc, place, given, parameters)
    } else {
        Err(OutOfMemory)
    }
}
