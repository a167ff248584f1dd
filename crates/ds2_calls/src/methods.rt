//! A table of the methods of a unit.
ghost use Rattle.std.specs.Prelude.{◌≡◌, ℕ, List as Items, IfOk, OnOk, nat_eq, map, option_copied};
ghost use Rattle.std.specs.Cmp.Lexicographic.{pointwise};
ghost use Rattle.std.specs.HashMap.{get};
ghost use Rattle.std.specs.Option.{option_or};
ghost use Rattle.ds2_tree.specs.UnitViews.{method_tree, global_tree};
ghost use Rattle.ds2_names.specs.SourceUnit.{source_methods};
ghost use Rattle.ds2_names.specs.Uses.{method_named};
ghost use Rattle.ds2_scope.specs.Collected.{methods_in};
ghost use Rattle.ds2_calls.specs.MethodFlags.{are_in_out, flags_of_method, flags_if_named, HasMethods};

use ds2_base::{Bytes, List, OutOfMemory};
use ds2_scope::{NameTable, spelled_name};
use ds2_tree::{GlobalItem, Method, Parameter};
use std::alloc::Global;

/// For each name of a method its parameters: whether each is in_out.
pub type MethodFlags = NameTable<List<bool>>;

// For each parameter whether it is in_out.
fn in_out_flags(alloc: Global, parameters: &[Parameter]) -> Result<List<bool>, OutOfMemory>
    ensures { IfOk result (λ flags. flags ≡ are_in_out parameters.now) }
{
    let mut flags: List<bool> = List::new(alloc);
    'parameters: for p in parameters {
        flags.push(p.in_out.is_some())?;
    }
    Ok(flags)
}

// Adds a method, unless its name is there.
fn note_method(alloc: Global, methods: &mut MethodFlags, m: &Method) -> Result<(), OutOfMemory>
    ensures { OnOk result ((name : Items ℕ) → get (pointwise nat_eq) methods.new name ≡ option_or (get (pointwise nat_eq) methods.old name) (flags_if_named name (method_tree m.now))) }
{
    let name = spelled_name(alloc, &m.name)?;
    if methods.get(&name).is_none() {
        let flags = in_out_flags(alloc, m.parameters.list.as_slice())?;
        methods.insert(name, flags)?;
    }
    Ok(())
}

// Adds a part of a unit, where it is a method.
fn note_global(
    alloc: Global,
    methods: &mut MethodFlags,
    global: &GlobalItem,
) -> Result<(), OutOfMemory>
    ensures { OnOk result ((name : Items ℕ) → get (pointwise nat_eq) methods.new name ≡ option_or (get (pointwise nat_eq) methods.old name) (flags_of_method (method_named (methods_in (global_tree global.now)) name))) }
{
    match global {
        GlobalItem::Method(m) => note_method(alloc, methods, m),
        GlobalItem::Listed { .. } => Ok(()),
        GlobalItem::Declaration(_) => Ok(()),
    }
}

/// For each method of a unit, by its name, whether each of its parameters is in_out; the first method of a name counts.
pub fn method_flags(alloc: Global, globals: &[GlobalItem]) -> Result<MethodFlags, OutOfMemory>
    ensures { IfOk result (λ table. HasMethods table (source_methods (map global_tree globals.now))) }
{
    let mut methods: MethodFlags = NameTable::new(alloc);
    'globals: for global in globals {
        note_global(alloc, &mut methods, global)?;
    }
    Ok(methods)
}

/// For each parameter of the method of a name whether it is in_out, where there is one.
pub fn parameters_of<'m>(methods: &'m MethodFlags, name: &Bytes) -> Option<&'m [bool]>
    ensures { option_copied result ≡ get (pointwise nat_eq) methods.now name.now }
{
    match methods.get(name) {
        None => None,
        Some(flags) => Some(flags.as_slice()),
    }
}
