//! Tables of a unit's globals, and tests on names by them.
ghost use Rattle.std.specs.Prelude.{◌≡◌, IfOk, nat_eq, option_copied};
ghost use Rattle.ds2_calls.specs.KnownUnits.{units_in_tables};
ghost use Rattle.ds2_misplaced.specs.InstanceTables.{AreGlobalTables, constructor_among, is_hash_object, tests_in_tables};
ghost use Rattle.ds2_names.specs.SourceUnit.{SourceNames};
ghost use Rattle.ds2_scope.specs.UnitNames.{NamesAre};

use ds2_base::{Bytes, OutOfMemory};
use ds2_calls::{Calls, KnownCalls, Sort};
use ds2_scope::{NameSet, UnitNames, name_set};
use std::alloc::Global;

/// Tables of a unit's globals.
#[derive(Drop)]
pub(crate) struct GlobalTables {
    /// Declared variables and columns.
    pub variables: NameSet,
    /// The parameters of a thread program.
    pub parameters: NameSet,
    /// The `in=` flags.
    pub flags: NameSet,
    pub instances: NameSet,
    /// Whether a name that is not there may be a column.
    pub is_open: bool,
}

/// What a declaration of an instance sees.
#[derive(Clone, Copy)]
pub(crate) struct InstanceScope<'s, 'u, 'k> {
    pub globals: &'s GlobalTables,
    pub calls: &'s Calls<'u, 'k>,
}

/// What a declaration of an instance sees of these globals and calls.
pub(crate) fn scope_over<'s, 'u, 'k>(
    globals: &'s GlobalTables,
    calls: &'s Calls<'u, 'k>,
) -> InstanceScope<'s, 'u, 'k>
    ensures globals { result.globals.now ≡ globals.now }
    ensures calls { result.calls.now ≡ calls.now }
{
    InstanceScope { globals, calls }
}

/// The tables of these names.
pub(crate) fn global_tables(alloc: Global, names: &UnitNames) -> Result<GlobalTables, OutOfMemory>
    ensures { IfOk result (λ t. (all : SourceNames) → NamesAre names.now all → AreGlobalTables t all) }
{
    let variables = name_set(alloc, names.variables.as_slice())?;
    let parameters = name_set(alloc, names.parameters.as_slice())?;
    let flags = name_set(alloc, names.flags.as_slice())?;
    let instances = name_set(alloc, names.instances.as_slice())?;
    Ok(GlobalTables {
        variables,
        parameters,
        flags,
        instances,
        is_open: names.is_open,
    })
}

// Whether an instance is a hash object.
fn is_hash_object(sort: Option<&Sort>) -> bool
    ensures { result ≡ is_hash_object (option_copied sort.entry) }
{
    match sort {
        None => false,
        Some(sort) => match sort {
            Sort::Package(_) => false,
            Sort::Hash(_) => true,
            Sort::Iterator(_) => false,
            Sort::Thread(_) => false,
        },
    }
}

// For each parameter of the constructor of the package of a name whether it is in_out, where there is a package.
fn constructor<'k>(known: &'k KnownCalls, name: &Bytes) -> Option<&'k [bool]>
    ensures { option_copied result ≡ constructor_among ((units_in_tables known.now).methods_of_package name.now) name.now }
{
    if known.has_package(name) {
        match known.parameters_under(name, name) {
            None => Some(&[]),
            Some(flags) => Some(flags),
        }
    } else {
        None
    }
}

impl<'k> InstanceScope<'_, '_, 'k> {
    /// Whether a name is that of a global of any kind, or may be that of a column.
    pub(crate) fn is_global(&self, name: &Bytes) -> bool
        ensures { result ≡ (tests_in_tables self.now).is_global name.now }
    {
        self.globals.variables.contains(name)
            || self.globals.parameters.contains(name)
            || self.globals.flags.contains(name)
            || self.globals.instances.contains(name)
            || self.globals.is_open
    }

    /// Whether a global may be set.
    pub(crate) fn is_settable(&self, name: &Bytes) -> bool
        ensures { result ≡ (tests_in_tables self.now).is_settable name.now }
    {
        self.globals.variables.contains(name)
            || self.globals.parameters.contains(name)
            || self.globals.is_open
                && (!self.globals.flags.contains(name) && !self.globals.instances.contains(name))
    }

    /// Whether a name is that of an instance and of no other global.
    pub(crate) fn is_instance(&self, name: &Bytes) -> bool
        ensures { result ≡ (tests_in_tables self.now).is_instance name.now }
    {
        self.globals.instances.contains(name)
            && !(self.globals.variables.contains(name)
                || self.globals.parameters.contains(name)
                || self.globals.flags.contains(name))
    }

    /// Whether a name is that of a hash object.
    pub(crate) fn is_hash(&self, name: &Bytes) -> bool
        ensures { result ≡ (tests_in_tables self.now).is_hash name.now }
    {
        is_hash_object(self.calls.sort_of(name))
    }

    /// For each parameter of the constructor of the package of a name whether it is in_out, where there is a package.
    pub(crate) fn constructor(&self, name: &Bytes) -> Option<&'k [bool]>
        ensures { option_copied result ≡ (tests_in_tables self.now).constructor name.now }
    {
        constructor(self.calls.known, name)
    }

    /// Whether there is a thread program of a name.
    pub(crate) fn is_thread(&self, name: &Bytes) -> bool
        ensures { result ≡ (tests_in_tables self.now).is_thread name.now }
    {
        self.calls.known.has_thread(name)
    }
}
