//! What the methods and instances of a unit mention, one by one.
ghost use Rattle.std.specs.Prelude.{◌≡◌, ◌++◌, IfOk, OnOk, map};
ghost use Rattle.ds2_tree.specs.UnitViews.{method_tree, global_tree};
ghost use Rattle.ds2_calls.specs.UnitsCalls.{calls_by_tables};
ghost use Rattle.ds2_names.specs.SourceUnit.{source_methods};
ghost use Rattle.ds2_scope.specs.Collected.{methods_in};
ghost use Rattle.ds2_aliases.specs.MentionParts.{flags_by_calls, variable_mentions};
ghost use Rattle.ds2_aliases.specs.PartsOfMethods.{parts_of_method, part_of_instance, unit_parts};

use crate::mentions::Mention;
use crate::statements::mentions_of_body;
use ds2_base::{Bytes, List, OutOfMemory};
use ds2_calls::Calls;
use ds2_names::PlacedName;
use ds2_scope::{local_names, spelled_name};
use ds2_tree::{GlobalItem, Method};
use std::alloc::Global;

/// A method: its name, its parameters and locals, and what its body mentions. Of an instance: its name, and the key and data variables of
/// its hash object.
#[derive(Drop)]
pub struct MethodParts {
    pub name: Bytes,
    pub locals: List<PlacedName>,
    pub mentions: List<Mention>,
}

/// What a unit mentions: its methods, and the variables of its hash objects and iterators.
#[derive(Drop)]
pub struct UnitParts {
    pub methods: List<MethodParts>,
    pub objects: List<MethodParts>,
}

// The parts of a method.
fn parts_of_method(
    alloc: Global,
    calls: &Calls<'_, '_>,
    m: &Method,
) -> Result<MethodParts, OutOfMemory>
    ensures { IfOk result (λ parts. parts ≡ parts_of_method (flags_by_calls calls.now) (method_tree m.now)) }
{
    let name = spelled_name(alloc, &m.name)?;
    let locals = local_names(alloc, m)?;
    let mentions = mentions_of_body(alloc, calls, m.body.as_slice())?;
    Ok(MethodParts {
        name,
        locals,
        mentions,
    })
}

// Adds a part of a unit, where it is a method.
fn push_parts_in(
    alloc: Global,
    calls: &Calls<'_, '_>,
    all: &mut List<MethodParts>,
    global: &GlobalItem,
) -> Result<(), OutOfMemory>
    ensures { OnOk result (all.new ≡ all.old ++ map (parts_of_method (flags_by_calls calls.now)) (methods_in (global_tree global.now))) }
{
    match global {
        GlobalItem::Method(m) => all.push(parts_of_method(alloc, calls, m)?),
        GlobalItem::Listed { .. } => Ok(()),
        GlobalItem::Declaration(_) => Ok(()),
    }
}

// The methods of a unit.
fn parts_of_methods(
    alloc: Global,
    calls: &Calls<'_, '_>,
    globals: &[GlobalItem],
) -> Result<List<MethodParts>, OutOfMemory>
    ensures { IfOk result (λ all. all ≡ map (parts_of_method (flags_by_calls calls.now)) (source_methods (map global_tree globals.now))) }
{
    let mut all: List<MethodParts> = List::new(alloc);
    'globals: for global in globals {
        push_parts_in(alloc, calls, &mut all, global)?;
    }
    Ok(all)
}

// Mentions of variables.
fn variable_mentions(alloc: Global, variables: &[Bytes]) -> Result<List<Mention>, OutOfMemory>
    ensures { IfOk result (λ found. found ≡ variable_mentions variables.now) }
{
    let mut found: List<Mention> = List::new(alloc);
    'variables: for variable in variables {
        found.push(Mention::Name(List::from_slice(alloc, variable.as_slice())?))?;
    }
    Ok(found)
}

// The parts of the instance of a name.
fn part_of_instance(
    alloc: Global,
    calls: &Calls<'_, '_>,
    n: &PlacedName,
) -> Result<MethodParts, OutOfMemory>
    ensures { IfOk result (λ part. part ≡ part_of_instance (calls_by_tables calls.now).sort_of_instance n.now) }
{
    let mentions = variable_mentions(alloc, calls.variables_of(&n.name))?;
    let name = List::from_slice(alloc, n.name.as_slice())?;
    Ok(MethodParts {
        name,
        locals: List::new(alloc),
        mentions,
    })
}

// The instances of a unit.
fn parts_of_instances(
    alloc: Global,
    calls: &Calls<'_, '_>,
    instances: &[PlacedName],
) -> Result<List<MethodParts>, OutOfMemory>
    ensures { IfOk result (λ all. all ≡ map (part_of_instance (calls_by_tables calls.now).sort_of_instance) instances.now) }
{
    let mut all: List<MethodParts> = List::new(alloc);
    'instances: for n in instances {
        all.push(part_of_instance(alloc, calls, n)?)?;
    }
    Ok(all)
}

/// What a unit with instances of these names mentions.
pub fn parts_of_unit(
    alloc: Global,
    calls: &Calls<'_, '_>,
    globals: &[GlobalItem],
    instances: &[PlacedName],
) -> Result<UnitParts, OutOfMemory>
    ensures { IfOk result (λ parts. parts ≡ unit_parts (calls_by_tables calls.now) (source_methods (map global_tree globals.now)) instances.now) }
{
    let methods = parts_of_methods(alloc, calls, globals)?;
    let objects = parts_of_instances(alloc, calls, instances)?;
    Ok(UnitParts { methods, objects })
}
