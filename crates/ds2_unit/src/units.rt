//! The units of a program, one after the other, on the loads of a source.
ghost use Rattle.std.specs.Prelude.{◌≡◌, ◌+◌, ◌≤◌, false, IfOk};
ghost use Rattle.std.specs.List.{AllByRecursion};
ghost use Rattle.ds2_table.specs.OneThread.{run_all, run_each, then_unit};
ghost use Rattle.ds2_code.specs.CodeUnit.{code_init};
ghost use Rattle.ds2_code.specs.Scales.{AreSettingsScaled, IsDataScaled};
ghost use Rattle.ds2_machine.specs.AtRest.{staged_program};
ghost use Rattle.ds2_machine.specs.declared.machine.TheConstants.{MOST_BUDGET};
ghost use Rattle.ds2_code_answer.specs.CodeAnswer.{code_units};
ghost use Rattle.ds2_unit.specs.UnitsRun.{HasRunLoads, HasRunAnswer};

use crate::units_end::UnitsEnd;
use ds2_base::OutOfMemory;
use ds2_loads::LoadSource;
use ds2_machine::{Machine, UnitSink};
use ds2_valid_code::ProgramCode;
use ds2_value::Ending;
use std::alloc::Global;

/// So many instructions and so many more. A number above 128 bits, which no run has the time to come to, is refused as want of memory.
pub fn sum_of(executed: u128, more: u128) -> Result<u128, OutOfMemory>
    ensures { IfOk result (λ sum. sum ≡ executed + more) }
{
    match executed.checked_add(more) {
        None => Err(OutOfMemory),
        Some(sum) => Ok(sum),
    }
}

// So many instructions and those of one more unit.
fn and_more(executed: u128, more: u64) -> Result<u128, OutOfMemory>
    ensures { IfOk result (λ sum. sum ≡ executed + more) }
{
    sum_of(executed, u128::from(more))
}

/// Runs the unit `run` of a machine's program on each load, up to the first fault, each time with this budget of at most
/// [`ds2_machine::MOST_BUDGET`] steps and calls.
pub fn run_loads<L: LoadSource, S: UnitSink>(
    alloc: Global,
    code: &ProgramCode,
    machine: &mut Machine,
    source: &mut L,
    budget: u64,
    sink: &mut S,
) -> Result<UnitsEnd, OutOfMemory>
    requires scaled { IsDataScaled (staged_program code.now machine.old.program) machine.old.state }
    requires loads { AllByRecursion (AreSettingsScaled (staged_program code.now machine.old.program).slots) (L.left source.old) }
    requires budget { budget ≤ MOST_BUDGET }
    requires ready { machine.old.spent ≡ false }
    ensures ran { IfOk result (λ end. HasRunLoads S.has_taken sink.old sink.new
        (run_all (code_units (staged_program code.now machine.old.program) budget) (L.left source.old) machine.old.state) end machine.new) }
    ensures scaled { machine.new.spent ≡ false → IsDataScaled (staged_program code.now machine.new.program) machine.new.state }
    ensures program { machine.new.program ≡ machine.old.program }
    ensures grouped { L.grouped source.new ≡ L.grouped source.old }
{
    let mut executed: u128 = 0;
    'loads: while source.next_load() {
        let unit = machine.call_run(alloc, code, &*source, budget, sink)?;
        let sum = and_more(executed, unit.executed)?;
        if machine.spent() {
            return Ok(UnitsEnd {
                ending: unit.ending,
                executed: sum,
            });
        }
        executed = sum;
    }
    Ok(UnitsEnd {
        ending: Ending::Normal,
        executed,
    })
}

/// Runs `run` on each load, and then `term`, up to the first fault.
pub fn run_to_end<L: LoadSource, S: UnitSink>(
    alloc: Global,
    code: &ProgramCode,
    machine: &mut Machine,
    source: &mut L,
    budget: u64,
    sink: &mut S,
) -> Result<UnitsEnd, OutOfMemory>
    requires scaled { IsDataScaled (staged_program code.now machine.old.program) machine.old.state }
    requires loads { AllByRecursion (AreSettingsScaled (staged_program code.now machine.old.program).slots) (L.left source.old) }
    requires budget { budget ≤ MOST_BUDGET }
    requires ready { machine.old.spent ≡ false }
    ensures { IfOk result (λ end. HasRunAnswer S.has_taken sink.old sink.new
        (run_each (code_units (staged_program code.now machine.old.program) budget) (L.left source.old) machine.old.state) end) }
{
    let loads = run_loads(alloc, code, machine, source, budget, sink)?;
    if machine.spent() {
        return Ok(loads);
    }
    let last = machine.call_term(alloc, code, budget, sink)?;
    let sum = and_more(loads.executed, last.executed)?;
    Ok(UnitsEnd {
        ending: last.ending,
        executed: sum,
    })
}

/// Runs `init`, `run` on each load, and `term`, up to the first fault.
pub fn run_units<L: LoadSource, S: UnitSink>(
    alloc: Global,
    code: &ProgramCode,
    machine: &mut Machine,
    source: &mut L,
    budget: u64,
    sink: &mut S,
) -> Result<UnitsEnd, OutOfMemory>
    requires scaled { IsDataScaled (staged_program code.now machine.old.program) machine.old.state }
    requires loads { AllByRecursion (AreSettingsScaled (staged_program code.now machine.old.program).slots) (L.left source.old) }
    requires budget { budget ≤ MOST_BUDGET }
    requires ready { machine.old.spent ≡ false }
    ensures { IfOk result (λ end. HasRunAnswer S.has_taken sink.old sink.new
        (then_unit (code_init (staged_program code.now machine.old.program) budget machine.old.state)
        (run_each (code_units (staged_program code.now machine.old.program) budget) (L.left source.old))) end) }
{
    let first = machine.call_init(alloc, code, budget, sink)?;
    let executed = u128::from(first.executed);
    if machine.spent() {
        return Ok(UnitsEnd {
            ending: first.ending,
            executed,
        });
    }
    let rest = run_to_end(alloc, code, machine, source, budget, sink)?;
    let sum = and_more(rest.executed, first.executed)?;
    Ok(UnitsEnd {
        ending: rest.ending,
        executed: sum,
    })
}
