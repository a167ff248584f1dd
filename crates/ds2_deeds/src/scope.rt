//! What the statements of a body name.
ghost use Rattle.std.specs.Prelude.{◌≡◌, [], map, slice_get, Some};
ghost use Rattle.std.specs.Option.{option_copied};
ghost use Rattle.ds2_meaning.specs.HashObjects.{hash_named, iterator_named};
ghost use Rattle.ds2_meaning.specs.ProgramTree.{instance_objects};
ghost use Rattle.ds2_meaning.specs.View.{instance_tree};
ghost use Rattle.ds2_locality.specs.Deeds.{system_scope, method_scope};
ghost use Rattle.ds2_deeds.specs.CodeTrees.{nameless_tree, scope_of};
ghost use Rattle.ds2_deeds.specs.NamedLocations.{code_home};

use crate::location::CodeHome;
use ds2_base::Name;
use ds2_meaning::{DeclaredHash, DeclaredIterator, Instance, OutputTable, Program};

/// Whose code a body is, and the hash objects, iterators and outputs that it names.
#[derive(Clone, Copy)]
pub struct BodyScope<'p> {
    pub home: CodeHome<'p>,
    pub hashes: &'p [DeclaredHash],
    pub iterators: &'p [DeclaredIterator],
    pub outputs: &'p [OutputTable],
}

/// The hash object of a name.
pub fn find_hash<'p>(hashes: &'p [DeclaredHash], name: &Name) -> Option<&'p DeclaredHash>
    ensures { option_copied result ≡ hash_named hashes.now name.now }
{
    'hashes: for hash in hashes {
        if hash.name == *name {
            return Some(hash);
        }
    }
    None
}

/// The iterator of a name.
pub fn find_iterator<'p>(
    iterators: &'p [DeclaredIterator],
    name: &Name,
) -> Option<&'p DeclaredIterator>
    ensures { option_copied result ≡ iterator_named iterators.now name.now }
{
    'iterators: for iterator in iterators {
        if iterator.name == *name {
            return Some(iterator);
        }
    }
    None
}

/// The output of a number.
pub fn find_output(outputs: &[OutputTable], number: u32) -> Option<&OutputTable>
    ensures { option_copied result ≡ slice_get outputs.now number }
{
    outputs.get(number as usize)
}

/// What the system methods of a program name.
pub fn system_scope(program: &Program) -> BodyScope<'_>
    ensures { scope_of result ≡ system_scope (nameless_tree program.now) }
{
    BodyScope {
        home: CodeHome::Program,
        hashes: program.hashes.as_slice(),
        iterators: program.iterators.as_slice(),
        outputs: program.outputs.as_slice(),
    }
}

// What the methods of the first instance of a name name; where there is none, nothing.
fn instance_scope<'p>(instances: &'p [Instance], name: &'p Name) -> BodyScope<'p>
    ensures { scope_of result ≡ record { home = Some name.now; objects = instance_objects (map instance_tree instances.now) name.now; outputs = [] } }
{
    'instances: for instance in instances {
        if instance.name == *name {
            return BodyScope {
                home: CodeHome::Instance(name),
                hashes: instance.package.get().hashes.as_slice(),
                iterators: instance.package.get().iterators.as_slice(),
                outputs: &[],
            };
        }
    }
    BodyScope {
        home: CodeHome::Instance(name),
        hashes: &[],
        iterators: &[],
        outputs: &[],
    }
}

/// What the methods of a home name.
pub fn method_scope<'p>(program: &'p Program, home: CodeHome<'p>) -> BodyScope<'p>
    ensures { scope_of result ≡ method_scope (nameless_tree program.now) (code_home home.entry) }
{
    match home {
        CodeHome::Program => BodyScope {
            home,
            hashes: program.hashes.as_slice(),
            iterators: program.iterators.as_slice(),
            outputs: &[],
        },
        CodeHome::Instance(name) => instance_scope(program.instances.as_slice(), name),
    }
}
