//! What the calls of a unit may mean.
ghost use Rattle.std.specs.Prelude.{◌≡◌, [], IfOk, map, unwrap_or, option_copied};
ghost use Rattle.ds2_tree.specs.UnitViews.{global_tree};
ghost use Rattle.ds2_names.specs.SourceUnit.{source_instances, source_methods};
ghost use Rattle.ds2_calls.specs.InstanceSorts.{variables_in_sort, variables_by_name};
ghost use Rattle.ds2_calls.specs.KnownUnits.{units_in_tables};
ghost use Rattle.ds2_calls.specs.SortCalls.{flags_on_sort, flags_by_names};
ghost use Rattle.ds2_calls.specs.UnitsCalls.{calls_by_tables, HasUnitCalls};

use crate::instances::{Sort, SortTable, instance_sorts};
use crate::known_calls::KnownCalls;
use crate::methods::{MethodFlags, method_flags, parameters_of};
use ds2_base::{Bytes, OutOfMemory};
use ds2_scope::spelled_name;
use ds2_tree::{Callee, GlobalItem};
use std::alloc::Global;

/// Tables of the methods and instances of a unit.
#[derive(Drop)]
pub struct UnitCalls {
    pub methods: MethodFlags,
    pub sorts: SortTable,
}

/// What the calls of a unit may mean: its own methods and instances, and the units before it.
#[derive(Clone, Copy)]
pub struct Calls<'u, 'k> {
    pub unit: &'u UnitCalls,
    pub known: &'k KnownCalls,
}

/// The methods and instances of a unit.
pub fn calls_of_unit(alloc: Global, globals: &[GlobalItem]) -> Result<UnitCalls, OutOfMemory>
    ensures { IfOk result (λ calls. HasUnitCalls calls (source_methods (map global_tree globals.now)) (source_instances (map global_tree globals.now))) }
{
    let methods = method_flags(alloc, globals)?;
    let sorts = instance_sorts(alloc, globals)?;
    Ok(UnitCalls { methods, sorts })
}

// What stands there, or nothing.
fn flags_or_none(flags: Option<&[bool]>) -> &[bool]
    ensures { result.now ≡ unwrap_or (option_copied flags.entry) [] }
{
    match flags {
        None => &[],
        Some(flags) => flags,
    }
}

// The key and data variables of a hash object.
fn variables_in_sort(sort: Option<&Sort>) -> &[Bytes]
    ensures { result.now ≡ variables_in_sort (option_copied sort.entry) }
{
    match sort {
        None => &[],
        Some(sort) => match sort {
            Sort::Package(_) => &[],
            Sort::Hash(variables) => variables.as_slice(),
            Sort::Iterator(_) => &[],
            Sort::Thread(_) => &[],
        },
    }
}

impl<'u, 'k> Calls<'u, 'k> {
    /// For each parameter of the method of a name whether it is in_out, where there is one.
    pub fn parameters_of(&self, name: &Bytes) -> Option<&[bool]>
        ensures { option_copied result ≡ (calls_by_tables self.now).method name.now }
    {
        parameters_of(&self.unit.methods, name)
    }

    /// What the instance of a name is one of, where there is one.
    pub fn sort_of(&self, name: &Bytes) -> Option<&Sort>
        ensures { option_copied result ≡ (calls_by_tables self.now).sort_of_instance name.now }
    {
        self.unit.sorts.get(name)
    }

    /// The key and data variables of the hash object that the instance of a name is or goes over; none where there is none.
    pub fn variables_of(&self, name: &Bytes) -> &[Bytes]
        ensures { result.now ≡ variables_by_name (calls_by_tables self.now).sort_of_instance name.now }
    {
        match self.sort_of(name) {
            None => &[],
            Some(sort) => match sort {
                Sort::Package(_) => &[],
                Sort::Hash(variables) => variables.as_slice(),
                Sort::Iterator(hash) => variables_in_sort(self.sort_of(hash)),
                Sort::Thread(_) => &[],
            },
        }
    }

    // For each parameter of a method of an instance whether it is in_out.
    fn flags_on_sort(&self, sort: Option<&Sort>, method: &Bytes) -> &[bool]
        ensures { result.now ≡ flags_on_sort (units_in_tables self.now.known.now) (option_copied sort.entry) method.now }
    {
        match sort {
            None => &[],
            Some(sort) => match sort {
                Sort::Package(name) => flags_or_none(self.known.parameters_under(name, method)),
                Sort::Hash(_) => &[],
                Sort::Iterator(_) => &[],
                Sort::Thread(_) => &[],
            },
        }
    }

    /// For each parameter of what is called whether it is in_out; none where it is no method.
    pub fn flags_of(&self, alloc: Global, callee: &Callee) -> Result<&[bool], OutOfMemory>
        ensures { IfOk result (λ flags. flags.now ≡ flags_by_names (calls_by_tables self.now) callee.now) }
    {
        match callee {
            Callee::Function(name) => {
                let name = spelled_name(alloc, name)?;
                Ok(flags_or_none(self.parameters_of(&name)))
            }
            Callee::Null(_) => Ok(&[]),
            Callee::Method { object, method, .. } => {
                let name = spelled_name(alloc, object)?;
                let method = spelled_name(alloc, method)?;
                Ok(self.flags_on_sort(self.sort_of(&name), &method))
            }
        }
    }
}
