//! The units of a data program on its loads.
ghost use Rattle.std.specs.Prelude.{◌≡◌, [], IfOk};
ghost use Rattle.ds2_code_answer.specs.CodeLoads.{code_loads};
ghost use Rattle.ds2_code_answer.specs.CodeTables.{AreTablesOfCode};
ghost use Rattle.ds2_loads.specs.Readings.{ReadsNoThread};
ghost use Rattle.ds2_unit.specs.UnitsRun.{HasRunOnLoads, IsReadyToRun};

use crate::units::run_units;
use crate::units_end::UnitsEnd;
use ds2_base::OutOfMemory;
use ds2_code_answer::laws::{loads_are_scaled, readings_fit_tables};
use ds2_loads::{ProgramLoads, statement_of};
use ds2_machine::{Machine, UnitSink};
use ds2_reading::Tables;
use ds2_valid_code::ProgramCode;
use std::alloc::Global;

/// Runs the units of a data program on its loads over its tables.
pub(crate) fn run_reading<S: UnitSink>(
    alloc: Global,
    code: &ProgramCode,
    tables: &Tables,
    machine: &mut Machine,
    budget: u64,
    sink: &mut S,
) -> Result<UnitsEnd, OutOfMemory>
    requires reads { ReadsNoThread code.now.program.reading }
    requires tables { AreTablesOfCode code.now tables.now }
    requires stages { code.now.stages ≡ [] }
    requires ready { IsReadyToRun code.now machine.old budget }
    ensures { IfOk result (λ end. HasRunOnLoads S.has_taken sink.old sink.new code.now.program budget machine.old.state (code_loads code.now.program tables.now) end) }
{
    readings_fit_tables();
    loads_are_scaled();
    let program = &code.parts().program;
    let reading = statement_of(alloc, program)?;
    let mut loads = ProgramLoads::walk(alloc, program, &reading, tables)?;
    run_units(alloc, code, machine, &mut loads, budget, sink)
}
