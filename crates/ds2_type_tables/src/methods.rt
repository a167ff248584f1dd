//! The methods of a unit that can be called.
ghost use Rattle.std.specs.Prelude.{◌≡◌, ◌+◌, ℕ, List as Items, IfOk, OnOk, nat_eq, map, not};
ghost use Rattle.std.specs.Cmp.Lexicographic.{pointwise};
ghost use Rattle.std.specs.HashMap.{get};
ghost use Rattle.std.specs.Option.{option_or};
ghost use Rattle.ds2_tree.specs.UnitViews.{method_tree, global_tree};
ghost use Rattle.ds2_names.specs.SourceUnit.{is_system_name, source_methods, spelled_name};
ghost use Rattle.ds2_elaboration.specs.ProgramTypes.{methods_to_call};
ghost use Rattle.ds2_scope.specs.CodeUnits.{unit_kind};
ghost use Rattle.ds2_type_tables.specs.Callables.{known_method, known_if_named, can_be_called, callable_in, callable_if, number_behind_method, known_in_part, HasCallables};

use ds2_base::OutOfMemory;
use ds2_declared_types::spelled::returned_type;
use ds2_declared_types::variables::parameters;
use ds2_reference_types::scopes::{KnownMethod, KnownMethods};
use ds2_scope::{NameTable, UnitKind, is_system_name, spelled_name};
use ds2_tree::{GlobalItem, Method};
use std::alloc::Global;

/// What is known of the method of this number.
fn known_method(alloc: Global, number: u32, m: &Method) -> Result<KnownMethod, OutOfMemory>
    ensures { IfOk result (λ k. k ≡ known_method number (method_tree m.now)) }
{
    let parameters = parameters(alloc, m.parameters.list.as_slice())?;
    let returns = returned_type(&m.returns)?;
    Ok(KnownMethod {
        number,
        parameters,
        returns,
    })
}

/// Adds the method of this number, unless the table has one of its name.
fn note(
    alloc: Global,
    methods: &mut KnownMethods,
    number: u32,
    m: &Method,
) -> Result<(), OutOfMemory>
    ensures { OnOk result ((name : Items ℕ) → get (pointwise nat_eq) methods.new name ≡ option_or (get (pointwise nat_eq) methods.old name) (known_if_named name number (method_tree m.now))) }
{
    let name = spelled_name(alloc, &m.name)?;
    if methods.get(&name).is_none() {
        let known = known_method(alloc, number, m)?;
        methods.insert(name, known)?;
    }
    Ok(())
}

/// The number behind one; more than 2^32 methods are want of memory.
fn next(number: u32) -> Result<u32, OutOfMemory>
    ensures { IfOk result (λ n. n ≡ number + 1) }
{
    match number.checked_add(1) {
        Some(n) => Ok(n),
        None => Err(OutOfMemory),
    }
}

/// Whether a method is none of `init`, `run` and `term`.
fn is_own(alloc: Global, m: &Method) -> Result<bool, OutOfMemory>
    ensures { IfOk result (λ own. own ≡ not (is_system_name (spelled_name m.now.name))) }
{
    let name = spelled_name(alloc, &m.name)?;
    Ok(!is_system_name(name.as_slice()))
}

/// Whether a method of a unit of this kind can be called: each of a package, and of a program all but `init`, `run` and `term`.
fn can_be_called(alloc: Global, kind: UnitKind, m: &Method) -> Result<bool, OutOfMemory>
    ensures { IfOk result (λ calls. calls ≡ can_be_called (unit_kind kind) (method_tree m.now)) }
{
    match kind {
        UnitKind::Package => Ok(true),
        UnitKind::Thread => is_own(alloc, m),
        UnitKind::Data => is_own(alloc, m),
    }
}

/// Adds a method of a unit of this kind, where it can be called; gives the number of the next one.
fn note_method(
    alloc: Global,
    kind: UnitKind,
    methods: &mut KnownMethods,
    number: u32,
    m: &Method,
) -> Result<u32, OutOfMemory>
    ensures number { IfOk result (λ n. n ≡ number_behind_method number (callable_if (unit_kind kind) (method_tree m.now))) }
    ensures table { OnOk result ((name : Items ℕ) → get (pointwise nat_eq) methods.new name ≡ option_or (get (pointwise nat_eq) methods.old name) (known_in_part name number (callable_if (unit_kind kind) (method_tree m.now)))) }
{
    let calls = can_be_called(alloc, kind, m)?;
    if calls {
        note(alloc, methods, number, m)?;
        let behind = next(number)?;
        Ok(behind)
    } else {
        Ok(number)
    }
}

/// Adds a part of a unit of this kind, where it is a method that can be called; gives the number of the next one.
fn note_global(
    alloc: Global,
    kind: UnitKind,
    methods: &mut KnownMethods,
    number: u32,
    global: &GlobalItem,
) -> Result<u32, OutOfMemory>
    ensures number { IfOk result (λ n. n ≡ number_behind_method number (callable_in (unit_kind kind) (global_tree global.now))) }
    ensures table { OnOk result ((name : Items ℕ) → get (pointwise nat_eq) methods.new name ≡ option_or (get (pointwise nat_eq) methods.old name) (known_in_part name number (callable_in (unit_kind kind) (global_tree global.now)))) }
{
    match global {
        GlobalItem::Method(m) => note_method(alloc, kind, methods, number, m),
        GlobalItem::Listed { .. } => Ok(number),
        GlobalItem::Declaration(_) => Ok(number),
    }
}

/// The table of the methods of a unit of this kind that can be called; of one name the first counts.
pub fn methods(
    alloc: Global,
    kind: UnitKind,
    globals: &[GlobalItem],
) -> Result<KnownMethods, OutOfMemory>
    ensures { IfOk result (λ table. HasCallables table (methods_to_call (unit_kind kind) (source_methods (map global_tree globals.now)))) }
{
    let mut table: KnownMethods = NameTable::new(alloc);
    let mut number = 0;
    'globals: for global in globals {
        number = note_global(alloc, kind, &mut table, number, global)?;
    }
    Ok(table)
}
