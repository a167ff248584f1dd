//! The layout of a program.
ghost use Rattle.std.specs.Prelude.{◌≡◌, ℕ, List as Items, Option as Maybe, IfOk};
ghost use Rattle.ds2_meaning.specs.declared.globals.Variable.{Variable as VariableModel};
ghost use Rattle.std.specs.HashSet.{contains_text};
ghost use Rattle.ds2_meaning.specs.Reading.{is_column};
ghost use Rattle.ds2_meaning.specs.View.{unit_tree, typed_data_program, typed_thread_program, reading_with_run};
ghost use Rattle.ds2_meaning.specs.ProgramTree.{reader_of, is_listed};
ghost use Rattle.ds2_layout.specs.Layout.{vector_slots, program_slots, layout_of};

use crate::names::name_set;
use crate::numbers::{number_slots, projections};
use crate::reading::{bys_read, columns_read, inputs_read};
use crate::slots::{
    VectorNames, add_by_flags, add_input_flags, add_instances, add_parameters, add_vector,
};
use crate::{Layout, LayoutSlot};
use ds2_base::{List, OutOfMemory};
use ds2_meaning::{Program, TypedData, TypedThread, Variable};
use std::alloc::Global;

// The names that tell what a variable of a program's vector is for.
fn vector_names(alloc: Global, program: &Program) -> Result<VectorNames, OutOfMemory>
    ensures columns { IfOk result (λ names. (other : Items ℕ) → contains_text names.columns other ≡ is_column (reading_with_run program.now.run program.now.reading) other) }
    ensures retained { IfOk result (λ names. (other : Items ℕ) → contains_text names.retained other ≡ is_listed program.now.retained other) }
{
    let columns = columns_read(alloc, program)?;
    Ok(VectorNames {
        columns,
        retained: name_set(alloc, program.retained.as_slice())?,
    })
}

// The slots of the program data vector: declared variables, then columns.
fn vector_slots(alloc: Global, program: &Program) -> Result<List<LayoutSlot>, OutOfMemory>
    ensures { (thread : Maybe (Items ℕ)) (parameters : Items VariableModel) → IfOk result (λ slots. slots ≡ vector_slots (unit_tree thread parameters program.now)) }
{
    let names = vector_names(alloc, program)?;
    let first = program.declared.as_slice();
    let second = program.columns.as_slice();
    let mut slots = List::new(alloc);
    add_vector(alloc, &mut slots, &names, first)?;
    add_vector(alloc, &mut slots, &names, second)?;
    Ok(slots)
}

// The slots of a program with these parameters.
fn program_slots(
    alloc: Global,
    parameters: &[Variable],
    program: &Program,
) -> Result<List<LayoutSlot>, OutOfMemory>
    ensures { (thread : Maybe (Items ℕ)) → IfOk result (λ slots. slots ≡ program_slots (unit_tree thread parameters.now program.now)) }
{
    let mut slots = vector_slots(alloc, program)?;
    add_parameters(alloc, &mut slots, parameters)?;
    add_input_flags(alloc, &mut slots, inputs_read(program))?;
    add_by_flags(alloc, &mut slots, bys_read(program))?;
    add_instances(alloc, &mut slots, program.instances.as_slice())?;
    Ok(slots)
}

// The layout of a program with these parameters.
fn program_layout(
    alloc: Global,
    parameters: &[Variable],
    program: &Program,
) -> Result<Layout, OutOfMemory>
    ensures { (thread : Maybe (Items ℕ)) → IfOk result (λ layout. layout ≡ layout_of (unit_tree thread parameters.now program.now)) }
{
    let slots = program_slots(alloc, parameters, program)?;
    let numbers = number_slots(alloc, slots.as_slice())?;
    let projections = projections(alloc, &numbers, program.outputs.as_slice())?;
    Ok(Layout { slots, projections })
}

/// The layout of a data program. Wants memory too where it has more than 2 ^ 32 slots.
pub fn lay_out(alloc: Global, program: &TypedData) -> Result<Layout, OutOfMemory>
    ensures { IfOk result (λ layout. layout ≡ layout_of (reader_of (typed_data_program program.now))) }
{
    program_layout(alloc, &[], &program.program)
}

/// The layout of a thread program. Wants memory too where it has more than 2 ^ 32 slots.
pub fn lay_out_thread(alloc: Global, thread: &TypedThread) -> Result<Layout, OutOfMemory>
    ensures { IfOk result (λ layout. layout ≡ layout_of (reader_of (typed_thread_program thread.now))) }
{
    program_layout(alloc, thread.parameters.as_slice(), &thread.program)
}
