//! The locations of a program in the order of their numbers.
ghost use Rattle.std.specs.Prelude.{◌≡◌, [], ◌++◌, IfOk, OnOk, map, flat_map, Some};
ghost use Rattle.ds2_layout.specs.Layout.{location_of_slot};
ghost use Rattle.ds2_locality.specs.Verdict.{hashes_brought, hashes_kept_at, iterators_brought, iterators_kept_at, objects_in_order, own_object_at, own_objects_first};
ghost use Rattle.ds2_meaning.specs.HashObjects.{hash_named, iterator_named};
ghost use Rattle.ds2_meaning.specs.ProgramTree.{InstanceTree};
ghost use Rattle.ds2_meaning.specs.View.{instance_tree, objects_tree};
ghost use Rattle.ds2_deeds.specs.CodeTrees.{nameless_tree};
ghost use Rattle.ds2_deeds.specs.NamedLocations.{code_home, locations_named, with_locations, told_once};

use crate::location::{CodeHome, LocationName, global_location, home_of, named_location};
use crate::location_table::LocationTable;
use crate::scope::{find_hash, find_iterator, method_scope};
use ds2_base::{List, Name, OutOfMemory};
use ds2_layout::LayoutSlot;
use ds2_meaning::{DeclaredHash, DeclaredIterator, Instance, Program};
use std::alloc::Global;

// Adds the locations of slots.
fn add_slots<'p>(
    locations: &mut LocationTable<'p>,
    slots: &'p [LayoutSlot],
) -> Result<(), OutOfMemory>
    ensures { OnOk result (locations_named locations.new ≡ with_locations (locations_named locations.old) (map location_of_slot slots.now)) }
{
    'slots: for slot in slots {
        locations.add(global_location(home_of(&slot.instance), &slot.global))?;
    }
    Ok(())
}

// Adds the hash objects of a home.
fn add_hashes<'p>(
    locations: &mut LocationTable<'p>,
    home: CodeHome<'p>,
    hashes: &'p [DeclaredHash],
) -> Result<(), OutOfMemory>
    ensures { OnOk result (locations_named locations.new ≡ with_locations (locations_named locations.old) (hashes_kept_at (code_home home.entry) (objects_tree hashes.now []))) }
{
    'hashes: for hash in hashes {
        locations.add(named_location(home, &hash.name))?;
    }
    Ok(())
}

// Adds the hash objects of instances.
fn add_instance_hashes<'p>(
    locations: &mut LocationTable<'p>,
    instances: &'p [Instance],
) -> Result<(), OutOfMemory>
    ensures { OnOk result (locations_named locations.new ≡ with_locations (locations_named locations.old) (flat_map (λ (i : InstanceTree). hashes_kept_at (Some i.name) i.objects) (map instance_tree instances.now))) }
{
    'instances: for instance in instances {
        let home = CodeHome::Instance(&instance.name);
        add_hashes(locations, home, instance.package.get().hashes.as_slice())?;
    }
    Ok(())
}

// Adds the iterators of a home.
fn add_iterators<'p>(
    locations: &mut LocationTable<'p>,
    home: CodeHome<'p>,
    iterators: &'p [DeclaredIterator],
) -> Result<(), OutOfMemory>
    ensures { OnOk result (locations_named locations.new ≡ with_locations (locations_named locations.old) (iterators_kept_at (code_home home.entry) (objects_tree [] iterators.now))) }
{
    'iterators: for iterator in iterators {
        locations.add(named_location(home, &iterator.name))?;
    }
    Ok(())
}

// Adds the iterators of instances.
fn add_instance_iterators<'p>(
    locations: &mut LocationTable<'p>,
    instances: &'p [Instance],
) -> Result<(), OutOfMemory>
    ensures { OnOk result (locations_named locations.new ≡ with_locations (locations_named locations.old) (flat_map (λ (i : InstanceTree). iterators_kept_at (Some i.name) i.objects) (map instance_tree instances.now))) }
{
    'instances: for instance in instances {
        let home = CodeHome::Instance(&instance.name);
        add_iterators(locations, home, instance.package.get().iterators.as_slice())?;
    }
    Ok(())
}

// Adds the own hash objects and iterators, and those of instances, the own ones first.
fn add_objects<'p>(
    locations: &mut LocationTable<'p>,
    program: &'p Program,
) -> Result<(), OutOfMemory>
    ensures { OnOk result (locations_named locations.new ≡ with_locations (locations_named locations.old) (own_objects_first (nameless_tree program.now))) }
{
    let instances = program.instances.as_slice();
    add_hashes(locations, CodeHome::Program, program.hashes.as_slice())?;
    add_instance_hashes(locations, instances)?;
    add_iterators(locations, CodeHome::Program, program.iterators.as_slice())?;
    add_instance_iterators(locations, instances)?;
    Ok(())
}

// Adds the own hash object of a name, where there is one.
fn add_own_hash<'p>(
    locations: &mut LocationTable<'p>,
    hashes: &'p [DeclaredHash],
    name: &'p Name,
) -> Result<(), OutOfMemory>
    ensures { OnOk result (locations_named locations.new ≡ with_locations (locations_named locations.old) (own_object_at name.now (hash_named hashes.now name.now))) }
{
    match find_hash(hashes, name) {
        None => Ok(()),
        Some(_) => locations.add(named_location(CodeHome::Program, name)),
    }
}

// Adds the own iterator of a name, where there is one.
fn add_own_iterator<'p>(
    locations: &mut LocationTable<'p>,
    iterators: &'p [DeclaredIterator],
    name: &'p Name,
) -> Result<(), OutOfMemory>
    ensures { OnOk result (locations_named locations.new ≡ with_locations (locations_named locations.old) (own_object_at name.now (iterator_named iterators.now name.now))) }
{
    match find_iterator(iterators, name) {
        None => Ok(()),
        Some(_) => locations.add(named_location(CodeHome::Program, name)),
    }
}

// Adds the hash objects that the declaration of a name brings.
fn add_declared_hashes<'p>(
    locations: &mut LocationTable<'p>,
    program: &'p Program,
    name: &'p Name,
) -> Result<(), OutOfMemory>
    ensures { OnOk result (locations_named locations.new ≡ with_locations (locations_named locations.old) (hashes_brought (nameless_tree program.now) name.now)) }
{
    add_own_hash(locations, program.hashes.as_slice(), name)?;
    let home = CodeHome::Instance(name);
    let scope = method_scope(program, home);
    add_hashes(locations, home, scope.hashes)
}

// Adds the iterators that the declaration of a name brings.
fn add_declared_iterators<'p>(
    locations: &mut LocationTable<'p>,
    program: &'p Program,
    name: &'p Name,
) -> Result<(), OutOfMemory>
    ensures { OnOk result (locations_named locations.new ≡ with_locations (locations_named locations.old) (iterators_brought (nameless_tree program.now) name.now)) }
{
    add_own_iterator(locations, program.iterators.as_slice(), name)?;
    let home = CodeHome::Instance(name);
    let scope = method_scope(program, home);
    add_iterators(locations, home, scope.iterators)
}

// Adds the hash objects that declarations bring.
fn add_all_declared_hashes<'p>(
    locations: &mut LocationTable<'p>,
    program: &'p Program,
    names: &'p [Name],
) -> Result<(), OutOfMemory>
    ensures { OnOk result (locations_named locations.new ≡ with_locations (locations_named locations.old) (flat_map (hashes_brought (nameless_tree program.now)) names.now)) }
{
    'names: for name in names {
        add_declared_hashes(locations, program, name)?;
    }
    Ok(())
}

// Adds the iterators that declarations bring.
fn add_all_declared_iterators<'p>(
    locations: &mut LocationTable<'p>,
    program: &'p Program,
    names: &'p [Name],
) -> Result<(), OutOfMemory>
    ensures { OnOk result (locations_named locations.new ≡ with_locations (locations_named locations.old) (flat_map (iterators_brought (nameless_tree program.now)) names.now)) }
{
    'names: for name in names {
        add_declared_iterators(locations, program, name)?;
    }
    Ok(())
}

/// The locations of a program, each once: those of its slots, then the hash objects and then the iterators, in the order of the names of its
/// declarations. Those that no name brings stand behind these, the program's own before those of its instances.
pub fn locations_in_order<'p>(
    alloc: Global,
    slots: &'p [LayoutSlot],
    program: &'p Program,
    names: &'p [Name],
) -> Result<List<LocationName<'p>>, OutOfMemory>
    ensures { IfOk result (λ locations. locations_named locations ≡ told_once (map location_of_slot slots.now ++ objects_in_order names.now (nameless_tree program.now))) }
{
    let mut locations = LocationTable::new(alloc);
    add_slots(&mut locations, slots)?;
    add_all_declared_hashes(&mut locations, program, names)?;
    add_all_declared_iterators(&mut locations, program, names)?;
    add_objects(&mut locations, program)?;
    Ok(locations.into_list())
}
