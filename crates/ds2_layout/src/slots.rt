//! The slots of a program, a sort of them after the other.
ghost use Rattle.std.specs.Prelude.{◌≡◌, ◌++◌, if◌then◌else◌, IfOk, OnOk, map, flat_map, None, Some};
ghost use Rattle.std.specs.HashSet.{contains_text};
ghost use Rattle.ds2_meaning.specs.declared.globals.Variable.{Variable as VariableModel};
ghost use Rattle.ds2_meaning.specs.declared.location.Global.TheVariants as global;
ghost use Rattle.ds2_meaning.specs.View.{instance_tree};
ghost use Rattle.ds2_layout.specs.Layout.{slot_for, flag_slot, input_flag_slots, by_flag_slots, instance_slots};
ghost use Rattle.ds2_layout.specs.SlotSearch.{vector_slot_by};
ghost use Rattle.ds2_layout.specs.declared.slot.SlotRole.TheVariants.{Column, Kept, Cleared};

use crate::{LayoutSlot, SlotRole};
use ds2_base::{List, Name, OutOfMemory};
use ds2_meaning::{ByVariable, Input, Instance, Variable};
use ds2_value::Ty;
use std::alloc::Global;
use std::collections::HashSet;

/// The names that tell what a variable of the vector is for: those of the reading's columns, and those of the retained variables.
#[derive(Drop)]
pub(crate) struct VectorNames {
    pub(crate) columns: HashSet<String>,
    pub(crate) retained: HashSet<String>,
}

// What a variable of the vector is for.
fn vector_role(names: &VectorNames, name: &Name) -> SlotRole
    ensures { result ≡ (if contains_text names.now.columns name.now then Column else if contains_text names.now.retained name.now then Kept else Cleared) }
{
    if names.columns.contains(name.as_str()) {
        return SlotRole::Column;
    }
    if names.retained.contains(name.as_str()) {
        return SlotRole::Kept;
    }
    SlotRole::Cleared
}

fn vector_slot(
    alloc: Global,
    names: &VectorNames,
    variable: &Variable,
) -> Result<LayoutSlot, OutOfMemory>
    ensures { IfOk result (λ slot. slot ≡ vector_slot_by (contains_text names.now.columns) (contains_text names.now.retained) variable.now) }
{
    let name = variable.name.copy(alloc)?;
    Ok(LayoutSlot {
        instance: None,
        global: ds2_meaning::Global::Named(name),
        ty: variable.ty,
        role: vector_role(names, &variable.name),
    })
}

/// Adds the slots of variables of the vector.
pub(crate) fn add_vector(
    alloc: Global,
    slots: &mut List<LayoutSlot>,
    names: &VectorNames,
    variables: &[Variable],
) -> Result<(), OutOfMemory>
    ensures { OnOk result (slots.new ≡ slots.old ++ map (vector_slot_by (contains_text names.now.columns) (contains_text names.now.retained)) variables.now) }
{
    'variables: for variable in variables {
        slots.push(vector_slot(alloc, names, variable)?)?;
    }
    Ok(())
}

fn parameter_slot(alloc: Global, variable: &Variable) -> Result<LayoutSlot, OutOfMemory>
    ensures { IfOk result (λ slot. slot ≡ slot_for None (global.Parameter variable.now.name) variable.now.ty Kept) }
{
    let name = variable.name.copy(alloc)?;
    Ok(LayoutSlot {
        instance: None,
        global: ds2_meaning::Global::Parameter(name),
        ty: variable.ty,
        role: SlotRole::Kept,
    })
}

/// Adds the slots of the parameters of a thread program.
pub(crate) fn add_parameters(
    alloc: Global,
    slots: &mut List<LayoutSlot>,
    parameters: &[Variable],
) -> Result<(), OutOfMemory>
    ensures { OnOk result (slots.new ≡ slots.old ++ map (λ (v : VariableModel). slot_for None (global.Parameter v.name) v.ty Kept) parameters.now) }
{
    'parameters: for parameter in parameters {
        slots.push(parameter_slot(alloc, parameter)?)?;
    }
    Ok(())
}

// The slot of a flag.
fn flag_slot(flag: ds2_meaning::Global) -> LayoutSlot
    ensures { result ≡ flag_slot flag }
{
    LayoutSlot {
        instance: None,
        global: flag,
        ty: Ty::BigInt,
        role: SlotRole::Flag,
    }
}

// Adds the slot of the `in=` flag of a table, where it has one.
fn add_input_flag(
    alloc: Global,
    slots: &mut List<LayoutSlot>,
    input: &Input,
) -> Result<(), OutOfMemory>
    ensures { OnOk result (slots.new ≡ slots.old ++ input_flag_slots input.now) }
{
    match &input.present {
        None => Ok(()),
        Some(name) => {
            let name = name.copy(alloc)?;
            slots.push(flag_slot(ds2_meaning::Global::Present(name)))
        }
    }
}

/// Adds the slots of the `in=` flags of tables.
pub(crate) fn add_input_flags(
    alloc: Global,
    slots: &mut List<LayoutSlot>,
    inputs: &[Input],
) -> Result<(), OutOfMemory>
    ensures { OnOk result (slots.new ≡ slots.old ++ flat_map input_flag_slots inputs.now) }
{
    'inputs: for input in inputs {
        add_input_flag(alloc, slots, input)?;
    }
    Ok(())
}

// Adds the slots of the two flags of a BY variable.
fn add_by_flag_pair(
    alloc: Global,
    slots: &mut List<LayoutSlot>,
    by: &ByVariable,
) -> Result<(), OutOfMemory>
    ensures { OnOk result (slots.new ≡ slots.old ++ by_flag_slots by.now) }
{
    let first = ds2_meaning::Global::First(by.name.copy(alloc)?);
    slots.push(flag_slot(first))?;
    let last = ds2_meaning::Global::Last(by.name.copy(alloc)?);
    slots.push(flag_slot(last))
}

/// Adds the slots of the flags of BY variables.
pub(crate) fn add_by_flags(
    alloc: Global,
    slots: &mut List<LayoutSlot>,
    bys: &[ByVariable],
) -> Result<(), OutOfMemory>
    ensures { OnOk result (slots.new ≡ slots.old ++ flat_map by_flag_slots bys.now) }
{
    'bys: for by in bys {
        add_by_flag_pair(alloc, slots, by)?;
    }
    Ok(())
}

fn instance_slot(
    alloc: Global,
    instance: &Name,
    variable: &Variable,
) -> Result<LayoutSlot, OutOfMemory>
    ensures { IfOk result (λ slot. slot ≡ slot_for (Some instance.now) (global.Named variable.now.name) variable.now.ty Kept) }
{
    let name = variable.name.copy(alloc)?;
    Ok(LayoutSlot {
        instance: Some(instance.copy(alloc)?),
        global: ds2_meaning::Global::Named(name),
        ty: variable.ty,
        role: SlotRole::Kept,
    })
}

// Adds the slots of the variables of the instance of a name.
fn add_instance(
    alloc: Global,
    slots: &mut List<LayoutSlot>,
    instance: &Name,
    variables: &[Variable],
) -> Result<(), OutOfMemory>
    ensures { OnOk result (slots.new ≡ slots.old ++ map (λ (v : VariableModel). slot_for (Some instance.now) (global.Named v.name) v.ty Kept) variables.now) }
{
    'variables: for variable in variables {
        slots.push(instance_slot(alloc, instance, variable)?)?;
    }
    Ok(())
}

/// Adds the slots of the variables of instances.
pub(crate) fn add_instances(
    alloc: Global,
    slots: &mut List<LayoutSlot>,
    instances: &[Instance],
) -> Result<(), OutOfMemory>
    ensures { OnOk result (slots.new ≡ slots.old ++ flat_map instance_slots (map instance_tree instances.now)) }
{
    'instances: for instance in instances {
        let variables = instance.package.get().variables.as_slice();
        add_instance(alloc, slots, &instance.name, variables)?;
    }
    Ok(())
}
