//! The code of a program.
ghost use Rattle.std.specs.Prelude.{◌≡◌, ◌++◌, ◌||◌, length, map, IfOk, OnOk};
ghost use Rattle.std.specs.List.{list_any};
ghost use Rattle.std.specs.Option.{option_copied};
ghost use Rattle.ds2_meaning.specs.Method.{MethodTree};
ghost use Rattle.ds2_meaning.specs.ProgramTree.{program_has_output};
ghost use Rattle.ds2_meaning.specs.TypedStatement.{have_output};
ghost use Rattle.ds2_meaning.specs.View.{system_tree, typed_method, unit_tree};
ghost use Rattle.ds2_layout.specs.Layout.{layout_of, program_slots, projection};
ghost use Rattle.ds2_gen.specs.BodyCode.{code_of_body, bodies_code};
ghost use Rattle.ds2_gen.specs.UnitCode.{implicit_outputs};
ghost use Rattle.ds2_program_code.specs.PlacedProgram.{layout_size, first_of_run, first_of_term};
ghost use Rattle.ds2_program_code.specs.CodeMethods.{code_methods};
ghost use Rattle.ds2_program_code.specs.ProgramCode.{program_code, run_body, run_entry, term_entry, methods_entry, method_parts, code_bodies};
ghost use Rattle.ds2_numbering.specs.CellNumbers.{tree_of};
ghost use Rattle.ds2_generate.specs.OwnSlots.{AreProgramSlots};
ghost use Rattle.ds2_generate.specs.UnitBodies.{IsLaidOut, tree_of_unit};
ghost use Rattle.ds2_generate.specs.UnitTables.{AreTablesOfUnit};

use crate::bodies::{emit_declared_methods, emit_instance_methods, emit_system_method, number};
use crate::constants::program_constants;
use crate::readings::{output_parts, program_reading};
use crate::slots::{add_own_slots, layout_slots};
use crate::tables::{hash_parts, iterator_parts, parameter_slots};
use crate::unit::Unit;
use ds2_base::{List, Name, OutOfMemory};
use ds2_body_survey::statements_have_output;
use ds2_code::{HashPart, Instr, MethodPart, OutputPart, ProgramParts, ReadingPart, Slot};
use ds2_layout::Layout;
use ds2_meaning::{Method, Program, SystemMethod, Variable};
use ds2_numbering::{HomeName, SlotTable};
use std::alloc::Global;

/// The slots of a program, and the first of those that its system methods have of their own.
#[derive(Drop)]
struct ProgramSlots {
    slots: List<Slot>,
    init: u32,
    run: u32,
    term: u32,
}

// The slots of a program: those of its layout, and behind them those of its system methods.
fn all_slots(unit: &Unit<'_, '_>) -> Result<ProgramSlots, OutOfMemory>
    requires { IsLaidOut unit.now }
    ensures { IfOk result (λ s. AreProgramSlots (tree_of_unit unit.now) s) }
{
    ds2_program_code::placement_laws::each_value_has_type();
    let alloc = unit.alloc;
    let program = unit.program;
    let mut slots = layout_slots(alloc, unit.slots.as_slice())?;
    let init = add_own_slots(alloc, &mut slots, "init", &program.init)?;
    let run = add_own_slots(alloc, &mut slots, "run", &program.run)?;
    let term = add_own_slots(alloc, &mut slots, "term", &program.term)?;
    Ok(ProgramSlots {
        slots,
        init,
        run,
        term,
    })
}

// Whether an `output` statement stands in a system method.
fn system_has_output(method: &Option<SystemMethod>) -> bool
    ensures { result ≡ have_output (system_tree method.now).statements }
{
    match method {
        None => false,
        Some(method) => statements_have_output(method.body.as_slice()),
    }
}

// Whether one stands in a declared method of the program itself.
fn methods_have_output(methods: &[Method]) -> bool
    ensures { result ≡ list_any (λ (m : MethodTree). have_output m.body) (map typed_method methods.now) }
{
    'methods: for method in methods {
        if statements_have_output(method.body.as_slice()) {
            return true;
        }
    }
    false
}

// Whether one stands in one of these parts of a program.
fn is_in_one(init: bool, run: bool, term: bool, methods: bool) -> bool
    ensures { result ≡ (init || run || term || methods) }
{
    init || (run || (term || methods))
}

// Whether one stands in the program.
fn has_output(program: &Program) -> bool
    ensures { result ≡ program_has_output (tree_of program.now) }
{
    let init = system_has_output(&program.init);
    let run = system_has_output(&program.run);
    let term = system_has_output(&program.term);
    let methods = methods_have_output(program.methods.as_slice());
    is_in_one(init, run, term, methods)
}

// The outputs to which `run` writes at its end.
fn written_at_end(alloc: Global, program: &Program) -> Result<List<u32>, OutOfMemory>
    ensures { IfOk result (λ list. list ≡ implicit_outputs (tree_of program.now)) }
{
    let mut list = List::new(alloc);
    if has_output(program) {
        return Ok(list);
    }
    let count = number(program.outputs.len())?;
    'outputs: for output in 0..count {
        list.push(output)?;
    }
    Ok(list)
}

// Adds the code of `run`, whose own slots begin at a number, with the rows that it writes at its end.
fn emit_run(unit: &Unit<'_, '_>, code: &mut List<Instr>, first: u32) -> Result<(), OutOfMemory>
    requires laid_out { IsLaidOut unit.now }
    requires own { first ≡ first_of_run (tree_of_unit unit.now) }
    ensures { OnOk result (code.new ≡ code.old ++ code_of_body (length code.old) (run_body (tree_of_unit unit.now))) }
{
    let written = written_at_end(unit.alloc, unit.program)?;
    emit_system_method(
        unit,
        code,
        first,
        &[],
        &unit.program.run,
        written.as_slice(),
    )
}

/// The instructions of a program, its methods, and where its units begin.
#[derive(Drop)]
struct ProgramBodies {
    instrs: List<Instr>,
    methods: List<MethodPart>,
    run: u32,
    term: u32,
}

// The instructions of a program whose system methods have slots of their own from these numbers on.
fn program_bodies(unit: &Unit<'_, '_>, slots: &ProgramSlots) -> Result<ProgramBodies, OutOfMemory>
    requires laid_out { IsLaidOut unit.now }
    requires init { slots.now.init ≡ layout_size (tree_of_unit unit.now) }
    requires run { slots.now.run ≡ first_of_run (tree_of_unit unit.now) }
    requires term { slots.now.term ≡ first_of_term (tree_of_unit unit.now) }
    ensures instrs { IfOk result (λ b. b.instrs ≡ bodies_code 0 (code_bodies (tree_of_unit unit.now))) }
    ensures methods { IfOk result (λ b. b.methods ≡ method_parts (tree_of_unit unit.now) (methods_entry (tree_of_unit unit.now)) (code_methods (tree_of_unit unit.now))) }
    ensures run_entry { IfOk result (λ b. b.run ≡ run_entry (tree_of_unit unit.now)) }
    ensures term_entry { IfOk result (λ b. b.term ≡ term_entry (tree_of_unit unit.now)) }
{
    let program = unit.program;
    let mut instrs = List::new(unit.alloc);
    let mut methods = List::new(unit.alloc);
    let instances = program.instances.as_slice();
    emit_system_method(unit, &mut instrs, slots.init, instances, &program.init, &[])?;
    let run = number(instrs.len())?;
    emit_run(unit, &mut instrs, slots.run)?;
    let term = number(instrs.len())?;
    emit_system_method(unit, &mut instrs, slots.term, &[], &program.term, &[])?;
    let own = program.methods.as_slice();
    emit_declared_methods(unit, &mut instrs, &mut methods, HomeName::Own, own)?;
    emit_instance_methods(unit, &mut instrs, &mut methods, instances)?;
    Ok(ProgramBodies {
        instrs,
        methods,
        run,
        term,
    })
}

/// The hash objects, iterators, parameters, reading and outputs of a program.
#[derive(Drop)]
struct TableParts {
    hashes: List<HashPart>,
    iterators: List<u32>,
    parameters: List<u32>,
    reading: ReadingPart,
    outputs: List<OutputPart>,
}

// The hash objects, iterators, parameters, reading and outputs of a program whose outputs have these slots.
fn table_parts(unit: &Unit<'_, '_>, projections: &[List<u32>]) -> Result<TableParts, OutOfMemory>
    requires laid_out { IsLaidOut unit.now }
    requires outputs { projections.now ≡ map (projection (program_slots (tree_of_unit unit.now))) (tree_of_unit unit.now).outputs }
    ensures { IfOk result (λ t. AreTablesOfUnit (tree_of_unit unit.now) t) }
{
    let alloc = unit.alloc;
    let program = unit.program;
    let hashes = hash_parts(alloc, unit.slots, program)?;
    let iterators = iterator_parts(alloc, program)?;
    let parameters = parameter_slots(alloc, unit.slots, unit.parameters)?;
    let reading = program_reading(alloc, unit.slots, program)?;
    let outputs = output_parts(alloc, program.outputs.as_slice(), projections)?;
    Ok(TableParts {
        hashes,
        iterators,
        parameters,
        reading,
        outputs,
    })
}

// A name once more, where there is one.
fn copy_name(alloc: Global, name: Option<&Name>) -> Result<Option<Name>, OutOfMemory>
    ensures { IfOk result (λ copy. copy ≡ option_copied name.entry) }
{
    match name {
        None => Ok(None),
        Some(name) => Ok(Some(name.copy(alloc)?)),
    }
}

// The code of a program that is laid out, of the name that it has as a thread program.
fn unit_parts(
    unit: &Unit<'_, '_>,
    thread: Option<&Name>,
    projections: &[List<u32>],
) -> Result<ProgramParts, OutOfMemory>
    requires laid_out { IsLaidOut unit.now }
    requires outputs { projections.now ≡ map (projection (program_slots (tree_of_unit unit.now))) (tree_of_unit unit.now).outputs }
    ensures { IfOk result (λ code. code ≡ program_code (unit_tree (option_copied thread.entry) unit.now.parameters.now unit.now.program.now)) }
{
    let own = all_slots(unit)?;
    let bodies = program_bodies(unit, &own)?;
    let tables = table_parts(unit, projections)?;
    let constants = unit.constants.to_constants(unit.alloc)?;
    let name = copy_name(unit.alloc, thread)?;
    Ok(ProgramParts {
        name,
        slots: own.slots,
        constants,
        hashes: tables.hashes,
        iterators: tables.iterators,
        parameters: tables.parameters,
        methods: bodies.methods,
        reading: tables.reading,
        outputs: tables.outputs,
        init: 0,
        run: bodies.run,
        term: bodies.term,
        instrs: bodies.instrs,
    })
}

/// The code of a program with this layout, of the name and with the parameters that it has as a thread program. Wants memory too where a
/// number has more than 32 bits.
pub fn program_parts<'p>(
    alloc: Global,
    thread: Option<&Name>,
    parameters: &'p [Variable],
    program: &'p Program,
    layout: &'p Layout,
) -> Result<ProgramParts, OutOfMemory>
    requires { layout.now ≡ layout_of (unit_tree None parameters.now program.now) }
    ensures { IfOk result (λ code. code ≡ program_code (unit_tree (option_copied thread.entry) parameters.now program.now)) }
{
    let constants = program_constants(alloc, program)?;
    let slots = SlotTable::new(alloc, layout.slots.as_slice())?;
    let unit = Unit {
        alloc,
        program,
        parameters,
        slots: &slots,
        constants: &constants,
    };
    unit_parts(&unit, thread, layout.projections.as_slice())
}
