//! The instances that a unit declares.
ghost use Rattle.std.specs.Prelude.{◌≡◌, ◌++◌, ◌∷◌, [], IfOk, OnOk, map, option_copied};
ghost use Rattle.ds2_names.specs.SourceUnit.{constants_listed, sized_table, source_instances};
ghost use Rattle.ds2_scope.specs.CodeUnits.{instance_listed, instances_in_source};
ghost use Rattle.ds2_scope.specs.Collected.{instances_in, instance_name};
ghost use Rattle.ds2_tree.specs.Globals.{Declared};
ghost use Rattle.ds2_tree.specs.UnitViews.{global_tree};

use crate::names::placed_name;
use ds2_base::{List, OutOfMemory};
use ds2_names::PlacedName;
use ds2_token::Token;
use ds2_tree::{BracketedName, Constant, Constants, Declaration, GlobalItem, HashSize};
use std::alloc::Global;

/// What an instance is one of.
#[derive(Clone, Copy)]
pub enum InstanceSort<'t> {
    /// A package, with the constants for its constructor.
    Package {
        package: &'t Token,
        arguments: &'t [Constant],
    },
    /// A hash object: its key and data variables, and the text of its table.
    Hash {
        keys: &'t [BracketedName],
        items: &'t [BracketedName],
        table: Option<&'t Token>,
    },
    /// An iterator, with the text of its hash object.
    Iterator(&'t Token),
    /// A thread program.
    Thread(&'t Token),
}

/// An instance that a unit declares at a word.
#[derive(Clone, Copy)]
pub struct Instance<'t> {
    pub keyword: &'t Token,
    pub name: &'t Token,
    pub sort: InstanceSort<'t>,
}

// The constants of an instance, where there are some.
fn constants_listed(arguments: &Option<Constants>) -> &[Constant]
    ensures { result.now ≡ constants_listed arguments.now }
{
    match arguments {
        None => &[],
        Some(constants) => constants.list.as_slice(),
    }
}

// The text of a hash object's table.
fn table_text(size: &Option<HashSize>) -> Option<&Token>
    ensures { option_copied result ≡ sized_table size.now }
{
    match size {
        None => None,
        Some(size) => match &size.table {
            None => None,
            Some(table) => Some(&table.text),
        },
    }
}

// The instance of a declaration, where it declares one.
fn declared_instance(declaration: &Declaration) -> Option<Instance<'_>>
    ensures { instance_listed result ≡ source_instances (Declared declaration.now ∷ []) }
{
    match declaration {
        Declaration::Variables(_) => None,
        Declaration::Instance {
            keyword,
            package,
            name,
            arguments,
            ..
        } => Some(Instance {
            keyword,
            name,
            sort: InstanceSort::Package {
                package,
                arguments: constants_listed(arguments),
            },
        }),
        Declaration::Hash {
            keyword,
            name,
            key_variables,
            data_variables,
            size,
            ..
        } => Some(Instance {
            keyword,
            name,
            sort: InstanceSort::Hash {
                keys: key_variables.names.as_slice(),
                items: data_variables.names.as_slice(),
                table: table_text(size),
            },
        }),
        Declaration::Hiter {
            keyword,
            name,
            hash,
            ..
        } => Some(Instance {
            keyword,
            name,
            sort: InstanceSort::Iterator(hash),
        }),
        Declaration::Thread {
            keyword,
            thread,
            name,
            ..
        } => Some(Instance {
            keyword,
            name,
            sort: InstanceSort::Thread(thread),
        }),
    }
}

// Adds the instance that a part of a unit declares, where it declares one.
#[tactic(auto, using(crate::proofs::CollectedLemmas::instance_added))]
fn push_instance<'t>(
    instances: &mut List<Instance<'t>>,
    global: &'t GlobalItem,
) -> Result<(), OutOfMemory>
    ensures { OnOk result (instances_in_source instances.new ≡ instances_in_source instances.old ++ instances_in (global_tree global.now)) }
{
    match global {
        GlobalItem::Declaration(declaration) => match declared_instance(declaration) {
            None => Ok(()),
            Some(instance) => instances.push(instance),
        },
        GlobalItem::Listed { .. } => Ok(()),
        GlobalItem::Method(_) => Ok(()),
    }
}

/// The instances that a unit declares, in order.
pub fn instances_of(
    alloc: Global,
    globals: &[GlobalItem],
) -> Result<List<Instance<'_>>, OutOfMemory>
    ensures { IfOk result (λ instances. instances_in_source instances ≡ source_instances (map global_tree globals.now)) }
{
    let mut instances: List<Instance<'_>> = List::new(alloc);
    'globals: for global in globals {
        push_instance(&mut instances, global)?;
    }
    Ok(instances)
}

/// The names of instances.
pub fn instance_names(
    alloc: Global,
    instances: &[Instance<'_>],
) -> Result<List<PlacedName>, OutOfMemory>
    ensures { IfOk result (λ names. names ≡ map instance_name (instances_in_source instances.now)) }
{
    let mut names: List<PlacedName> = List::new(alloc);
    'instances: for instance in instances {
        names.push(placed_name(alloc, instance.name)?)?;
    }
    Ok(names)
}
