//! The slots of a program's code.
ghost use Rattle.std.specs.Prelude.{◌≡◌, ◌++◌, length, map, IfOk, OnOk, unwrap_or};
ghost use Rattle.ds2_meaning.specs.declared.globals.Variable.{Variable as VariableModel};
ghost use Rattle.ds2_meaning.specs.View.{system_tree};
ghost use Rattle.ds2_meaning.specs.ProgramMeaning.{global_name};
ghost use Rattle.ds2_program_code.specs.PlacementLaws.{code_role};
ghost use Rattle.ds2_program_code.specs.CodeParts.{layout_slot, own_types, slots_of_body};
ghost use Rattle.ds2_base.specs.Name.{IsOwnName};
ghost use Rattle.ds2_generate.specs.OwnSlots.{kept_slot};

use crate::bodies::number;
use ds2_base::{List, Name, OutOfMemory};
use ds2_body_survey::add_kept_types;
use ds2_code::{Slot, SlotRole};
use ds2_layout::LayoutSlot;
use ds2_meaning::{SystemMethod, Variable};
use ds2_value::Ty;
use std::alloc::Global;

// What a slot of the layout is for, in code.
fn role_in_code(role: ds2_layout::SlotRole) -> SlotRole
    ensures { result ≡ code_role role }
{
    match role {
        ds2_layout::SlotRole::Cleared => SlotRole::Cleared,
        ds2_layout::SlotRole::Kept => SlotRole::Kept,
        ds2_layout::SlotRole::Column => SlotRole::Column,
        ds2_layout::SlotRole::Flag => SlotRole::Flag,
    }
}

/// The name of a global.
pub fn name_of_global(global: &ds2_meaning::Global) -> &Name
    ensures { result.now ≡ global_name global.now }
{
    match global {
        ds2_meaning::Global::Named(name) => name,
        ds2_meaning::Global::First(name) => name,
        ds2_meaning::Global::Last(name) => name,
        ds2_meaning::Global::Present(name) => name,
        ds2_meaning::Global::Parameter(name) => name,
    }
}

// The name under which a slot stands in code: the variable's, or that of the instance whose variable it is.
fn slot_name(alloc: Global, slot: &LayoutSlot) -> Result<Name, OutOfMemory>
    ensures { IfOk result (λ name. name ≡ unwrap_or slot.now.instance (global_name slot.now.global)) }
{
    match &slot.instance {
        None => name_of_global(&slot.global).copy(alloc),
        Some(instance) => instance.copy(alloc),
    }
}

/// The slots of a layout in code.
pub fn layout_slots(alloc: Global, layout: &[LayoutSlot]) -> Result<List<Slot>, OutOfMemory>
    ensures { IfOk result (λ slots. slots ≡ map layout_slot layout.now) }
{
    let mut slots = List::new(alloc);
    'layout: for slot in layout {
        slots.push(Slot {
            name: slot_name(alloc, slot)?,
            ty: slot.ty,
            role: role_in_code(slot.role),
        })?;
    }
    Ok(slots)
}

/// Adds the types of variables.
pub fn add_variable_types(types: &mut List<Ty>, variables: &[Variable]) -> Result<(), OutOfMemory>
    ensures { OnOk result (types.new ≡ types.old ++ map (λ (v : VariableModel). v.ty) variables.now) }
{
    'variables: for variable in variables {
        types.push(variable.ty)?;
    }
    Ok(())
}

// The types of what a system method keeps in slots of its own, also of one that constructs instances first.
fn own_types(alloc: Global, method: &Option<SystemMethod>) -> Result<List<Ty>, OutOfMemory>
    ensures { IfOk result (λ types. types ≡ own_types (system_tree method.now)) }
{
    let mut types = List::new(alloc);
    match method {
        None => Ok(types),
        Some(method) => {
            add_variable_types(&mut types, method.locals.as_slice())?;
            add_kept_types(&mut types, method.body.as_slice())?;
            Ok(types)
        }
    }
}

// A text that is a name as it stands, such as that of a system method.
fn own_name(alloc: Global, text: &str) -> Result<Name, OutOfMemory>
    requires { IsOwnName text.now }
    ensures { IfOk result (λ name. name ≡ text.now) }
{
    match Name::new(alloc, text) {
        Ok(name) => Ok(name),
        Err(_) => Err(OutOfMemory),
    }
}

// Adds a slot under this name for each of these types.
fn add_slots(
    alloc: Global,
    slots: &mut List<Slot>,
    name: &Name,
    types: &[Ty],
) -> Result<(), OutOfMemory>
    ensures { OnOk result (slots.new ≡ slots.old ++ map (kept_slot name.now) types.now) }
{
    'types: for ty in types {
        slots.push(Slot {
            name: name.copy(alloc)?,
            ty: *ty,
            role: SlotRole::Kept,
        })?;
    }
    Ok(())
}

/// Adds the slots of its own of the system method of this name, and gives the number of the first of them.
pub fn add_own_slots(
    alloc: Global,
    slots: &mut List<Slot>,
    text: &str,
    method: &Option<SystemMethod>,
) -> Result<u32, OutOfMemory>
    requires { IsOwnName text.now }
    ensures first { IfOk result (λ first. first ≡ length slots.old) }
    ensures slots { OnOk result (slots.new ≡ slots.old ++ slots_of_body text.now (system_tree method.now)) }
{
    let first = number(slots.len())?;
    let name = own_name(alloc, text)?;
    let types = own_types(alloc, method)?;
    add_slots(alloc, slots, &name, types.as_slice())?;
    Ok(first)
}
