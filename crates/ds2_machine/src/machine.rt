//! The machine between two units.
ghost use Rattle.std.specs.Prelude.{◌≡◌, ◌+◌, ◌*◌, ◌≤◌, false, length, slice_get, Some, ℕ, IfOk};
ghost use Rattle.ds2_code.specs.CodeUnit.{code_unit, code_init, code_run, code_term, opening_data};
ghost use Rattle.ds2_code.specs.ValidCode.{EndsInTime, unit_entries};
ghost use Rattle.ds2_code.specs.Scales.{AreGivenScaled, AreSettingsScaled, IsDataScaled};
ghost use Rattle.ds2_slots.specs.LoadedHashes.{AreSlotTypesInBounds};
ghost use Rattle.ds2_machine.specs.AtRest.{staged_program, IsProgramOfValid, IsEndingAt, IsUnitEnd, is_early, leaves_spent};
ghost use Rattle.ds2_machine.specs.Executable.{IsExecutable};
ghost use Rattle.ds2_machine.specs.declared.machine.TheConstants.{MOST_BUDGET};

use crate::program::program_of;
use crate::state::{Halt, State};
use crate::{UnitEnd, UnitLoad, UnitSink};
use ds2_base::{OutOfMemory, Place};
use ds2_code::ProgramParts;
use ds2_code::laws::{run_has_one_end, units_begin_with_little, valid_code_ends};
use ds2_code::scale_laws::{
    clearing_keeps_scales, loaded_hashes_are_scaled, settings_keep_scales, units_begin_scaled,
};
use ds2_slots::{HashObjects, HashTables, clear, copy_all, nulls, set_values};
use ds2_valid_code::ProgramCode;
use ds2_value::{Ending, Value};
use std::alloc::Global;
use std::marker::Model;

/// The most steps and calls of a unit.
pub const MOST_BUDGET: u64 = 1_000_000_000;

/// A machine for one program of valid code. It holds the program's data from unit to unit.
///
/// A machine whose unit ended by a fault, or for want of memory, is spent: it runs no other unit.
#[derive(Drop)]
pub struct Machine {
    state: State,
    spent: bool,
    // The number of its program: 0 for the data program, k for the k-th thread program below it.
    program: usize,
}

impl Model for Machine {
    ghost use Rattle.ds2_machine.specs.AtRest.{MachineAtRest};
    ghost use Rattle.ds2_machine.specs.MachineView.{data_of_state};

    ghost Value = { MachineAtRest };

    ghost view = { λ m. record { state = data_of_state m.state; spent = m.spent; program = m.program } };
}

impl Machine {
    /// A machine for a program of this code before its first unit: all slots are null but for the program's own parameters, which have
    /// the given values; hash objects have the rows of their tables; and so many parameters of the thread program that it reads from
    /// are null. Program 0 is the data program, and k the k-th thread program below it.
    pub fn open<T: HashTables>(
        alloc: Global,
        code: &ProgramCode,
        program: usize,
        given: &[Value],
        tables: &T,
        parameters: usize,
    ) -> Result<Machine, OutOfMemory>
        requires program { program ≤ length code.now.stages }
        requires given { AreGivenScaled (staged_program code.now program).slots (staged_program code.now program).parameters given.now }
        ensures scaled { IfOk result (λ machine. IsDataScaled (staged_program code.now machine.program) machine.state) }
        ensures opened { IfOk result (λ machine. machine ≡ record { state = opening_data (staged_program code.now program) given.now (T.tables tables.now) parameters; spent = false; program = program }) }
    {
        settings_keep_scales();
        loaded_hashes_are_scaled();
        opened(
            alloc,
            program_of(code, program),
            program,
            given,
            tables,
            parameters,
        )
    }

    /// Whether the last unit came to no normal end, so that no other may run.
    pub fn spent(&self) -> bool
        ensures { result ≡ self.now.spent }
    {
        self.spent
    }

    /// The values that were set for the parameters of the thread program that the program reads from; null where none was.
    pub fn stage_parameters(&self) -> &[Value]
        ensures { result.now ≡ self.now.state.parameters }
    {
        self.state.parameters.as_slice()
    }

    /// An equal machine.
    pub fn copy(&self, alloc: Global) -> Result<Machine, OutOfMemory>
        ensures { IfOk result (λ machine. machine ≡ self.now) }
    {
        let slots = copy_all(alloc, self.state.slots.as_slice())?;
        let objects = self.state.objects.copy(alloc)?;
        let parameters = copy_all(alloc, self.state.parameters.as_slice())?;
        Ok(Machine {
            state: State::new(alloc, slots, objects, parameters),
            spent: self.spent,
            program: self.program,
        })
    }

    /// Runs the unit `init` of the code that the machine was opened for, with a budget of at most [`MOST_BUDGET`] steps and calls.
    ///
    /// Rows and lines go to the sink as they are written. Want of memory ends the unit wherever it is.
    pub fn call_init<S: UnitSink>(
        &mut self,
        alloc: Global,
        code: &ProgramCode,
        budget: u64,
        sink: &mut S,
    ) -> Result<UnitEnd, OutOfMemory>
        requires scaled { IsDataScaled (staged_program code.now self.old.program) self.old.state }
        requires budget { budget ≤ MOST_BUDGET }
        requires ready { self.old.spent ≡ false }
        ensures ran { IfOk result (λ end. IsUnitEnd S.has_taken sink.old sink.new (code_init (staged_program code.now self.old.program) budget self.old.state) end self.new.state) }
        ensures bound { IfOk result (λ end. end.executed ≤ (budget + 1) * length (staged_program code.now self.old.program).instrs) }
        ensures spent { self.new.spent ≡ leaves_spent result }
        ensures scaled { self.new.spent ≡ false → IsDataScaled (staged_program code.now self.new.program) self.new.state }
        ensures program { self.new.program ≡ self.old.program }
    {
        valid_code_ends();
        let program = program_of(code, self.program);
        self.unit(alloc, program, program.init, budget, sink)
    }

    /// Runs the unit `run` on a load, as [`Machine::call_init`] runs `init`: slots that `run` sets to null are null, and those of the
    /// load have its values.
    pub fn call_run<L: UnitLoad, S: UnitSink>(
        &mut self,
        alloc: Global,
        code: &ProgramCode,
        load: &L,
        budget: u64,
        sink: &mut S,
    ) -> Result<UnitEnd, OutOfMemory>
        requires scaled { IsDataScaled (staged_program code.now self.old.program) self.old.state }
        requires load { AreSettingsScaled (staged_program code.now self.old.program).slots (L.settings load.now) }
        requires budget { budget ≤ MOST_BUDGET }
        requires ready { self.old.spent ≡ false }
        ensures ran { IfOk result (λ end. IsUnitEnd S.has_taken sink.old sink.new (code_run (staged_program code.now self.old.program) budget (L.settings load.now) self.old.state) end self.new.state) }
        ensures bound { IfOk result (λ end. end.executed ≤ (budget + 1) * length (staged_program code.now self.old.program).instrs) }
        ensures spent { self.new.spent ≡ leaves_spent result }
        ensures scaled { self.new.spent ≡ false → IsDataScaled (staged_program code.now self.new.program) self.new.state }
        ensures program { self.new.program ≡ self.old.program }
    {
        valid_code_ends();
        let program = program_of(code, self.program);
        self.run_unit(alloc, program, load, budget, sink)
    }

    /// Runs the unit `term`, as [`Machine::call_init`] runs `init`.
    pub fn call_term<S: UnitSink>(
        &mut self,
        alloc: Global,
        code: &ProgramCode,
        budget: u64,
        sink: &mut S,
    ) -> Result<UnitEnd, OutOfMemory>
        requires scaled { IsDataScaled (staged_program code.now self.old.program) self.old.state }
        requires budget { budget ≤ MOST_BUDGET }
        requires ready { self.old.spent ≡ false }
        ensures ran { IfOk result (λ end. IsUnitEnd S.has_taken sink.old sink.new (code_term (staged_program code.now self.old.program) budget self.old.state) end self.new.state) }
        ensures bound { IfOk result (λ end. end.executed ≤ (budget + 1) * length (staged_program code.now self.old.program).instrs) }
        ensures spent { self.new.spent ≡ leaves_spent result }
        ensures scaled { self.new.spent ≡ false → IsDataScaled (staged_program code.now self.new.program) self.new.state }
        ensures program { self.new.program ≡ self.old.program }
    {
        valid_code_ends();
        let program = program_of(code, self.program);
        self.unit(alloc, program, program.term, budget, sink)
    }

    // Runs the unit `run` of a program on a load.
    fn run_unit<L: UnitLoad, S: UnitSink>(
        &mut self,
        alloc: Global,
        code: &ProgramParts,
        load: &L,
        budget: u64,
        sink: &mut S,
    ) -> Result<UnitEnd, OutOfMemory>
        requires valid { IsProgramOfValid code.now }
        requires scaled { IsDataScaled code.now self.old.state }
        requires load { AreSettingsScaled code.now.slots (L.settings load.now) }
        requires budget { budget ≤ MOST_BUDGET }
        requires ends { EndsInTime code.now budget (code_run code.now budget (L.settings load.now) self.old.state) }
        ensures ran { IfOk result (λ end. IsUnitEnd S.has_taken sink.old sink.new (code_run code.now budget (L.settings load.now) self.old.state) end self.new.state) }
        ensures spent { self.new.spent ≡ leaves_spent result }
        ensures scaled { self.new.spent ≡ false → IsDataScaled code.now self.new.state }
        ensures program { self.new.program ≡ self.old.program }
    {
        settings_keep_scales();
        clearing_keeps_scales();
        self.spent = true;
        clear(&mut self.state.slots, code.slots.as_slice());
        load.set_into(alloc, &mut self.state.slots)?;
        self.unit(alloc, code, code.run, budget, sink)
    }

    // Runs a unit from its entry.
    fn unit<S: UnitSink>(
        &mut self,
        alloc: Global,
        code: &ProgramParts,
        entry: u32,
        budget: u64,
        sink: &mut S,
    ) -> Result<UnitEnd, OutOfMemory>
        requires executable { IsExecutable code.now }
        requires valid { IsProgramOfValid code.now }
        requires entry { (k : ℕ) × (slice_get (unit_entries code.now) k ≡ Some entry) }
        requires scaled { IsDataScaled code.now self.old.state }
        requires budget { budget ≤ MOST_BUDGET }
        requires ends { EndsInTime code.now budget (code_unit code.now entry budget self.old.state) }
        ensures ran { IfOk result (λ end. IsUnitEnd S.has_taken sink.old sink.new (code_unit code.now entry budget self.old.state) end self.new.state) }
        ensures spent { self.new.spent ≡ leaves_spent result }
        ensures scaled { self.new.spent ≡ false → IsDataScaled code.now self.new.state }
        ensures program { self.new.program ≡ self.old.program }
    {
        run_has_one_end();
        units_begin_with_little();
        units_begin_scaled();
        self.spent = true;
        self.state.begin(entry, budget);
        let ran = self.state.run(alloc, code, sink)?;
        let ending = ending_of(ran.halt, self.state.place);
        self.spent = is_early(ending);
        Ok(UnitEnd {
            ending,
            left: self.state.left,
            executed: ran.executed,
        })
    }
}

// A machine for a program before its first unit.
fn opened<T: HashTables>(
    alloc: Global,
    code: &ProgramParts,
    program: usize,
    given: &[Value],
    tables: &T,
    parameters: usize,
) -> Result<Machine, OutOfMemory>
    requires { AreSlotTypesInBounds code.now.slots }
    ensures { IfOk result (λ machine. machine ≡ record { state = opening_data code.now given.now (T.tables tables.now) parameters; spent = false; program = program }) }
{
    let mut slots = nulls(alloc, code.slots.len())?;
    set_values(alloc, &mut slots, code.parameters.as_slice(), given)?;
    let objects = HashObjects::load(
        alloc,
        code.slots.as_slice(),
        code.hashes.as_slice(),
        code.iterators.as_slice(),
        tables,
    )?;
    let stage = nulls(alloc, parameters)?;
    Ok(Machine {
        state: State::new(alloc, slots, objects, stage),
        spent: false,
        program,
    })
}

// Whether a unit that ended so came to no normal end.
fn is_early(ending: Ending) -> bool
    ensures { result ≡ is_early ending }
{
    match ending {
        Ending::Normal => false,
        Ending::Faulted { .. } => true,
    }
}

// How the unit ended, where it came to its end; a fault is at the place of the step that is under way.
fn ending_of(halt: Halt, place: Place) -> Ending
    requires { halt ≡ Halt.Stuck → ⊥ }
    ensures { IsEndingAt halt place result }
{
    match halt {
        Halt::Normal => Ending::Normal,
        Halt::Faulted(kind) => Ending::Faulted { kind, place },
        Halt::Stuck => unreachable!(),
    }
}
