//! What is known of the units that stand before one: the methods of packages, and how many parameters thread programs have.
ghost use Rattle.std.specs.Prelude.{◌≡◌, ◌∷◌, [], List as Items, OnOk, map, length};
ghost use Rattle.ds2_tree.specs.UnitViews.{global_tree};
ghost use Rattle.ds2_tree.specs.declared.globals.Parameter.{Parameter as ParameterTree};
ghost use Rattle.ds2_names.specs.SourceUnit.{KnownUnit, KnownPackage, KnownThread, Packaged, Threaded, placed_name, names_alone, parameters_listed, spelled_name, source_methods};
ghost use Rattle.ds2_calls.specs.KnownUnits.{KnowsCalls};

use crate::methods::{MethodFlags, method_flags};
use ds2_base::{Bytes, OutOfMemory};
use ds2_scope::spelled_name;
use ds2_tree::{Package, Parameters, Thread};
use std::alloc::Global;
use std::collections::HashMap;

/// What calls may mean of the units that stand before one.
#[derive(Drop)]
pub struct KnownCalls {
    /// For each package, by its name, its methods.
    pub packages: HashMap<Bytes, MethodFlags>,
    /// For each thread program, by its name, how many parameters it has.
    pub threads: HashMap<Bytes, usize>,
}

// How many parameters stand behind the name of a thread program.
fn parameter_count(parameters: &Option<Parameters>) -> usize
    ensures { result ≡ length (parameters_listed parameters.now) }
{
    match parameters {
        None => 0,
        Some(parameters) => parameters.list.len(),
    }
}

impl KnownCalls {
    /// Before the first unit of a source.
    pub fn new(alloc: Global) -> KnownCalls
        ensures { KnowsCalls result [] }
    {
        KnownCalls {
            packages: HashMap::new(alloc),
            threads: HashMap::new(alloc),
        }
    }

    /// Behind a further package.
    pub fn add_package(&mut self, alloc: Global, unit: &Package) -> Result<(), OutOfMemory>
        ensures { OnOk result ((known : Items KnownUnit) (p : KnownPackage) → p.name ≡ spelled_name unit.now.name → p.methods ≡ source_methods (map global_tree unit.now.globals)
            → KnowsCalls self.old known → KnowsCalls self.new (Packaged p ∷ known)) }
    {
        let name = spelled_name(alloc, &unit.name)?;
        let methods = method_flags(alloc, unit.globals.as_slice())?;
        self.packages.insert(name, methods)?;
        Ok(())
    }

    /// Behind a further thread program.
    pub fn add_thread(&mut self, alloc: Global, unit: &Thread) -> Result<(), OutOfMemory>
        ensures { OnOk result ((known : Items KnownUnit) (t : KnownThread) → t.name ≡ spelled_name unit.now.name
            → t.parameters ≡ names_alone (map (λ (p : ParameterTree). placed_name p.name) (parameters_listed unit.now.parameters))
            → KnowsCalls self.old known → KnowsCalls self.new (Threaded t ∷ known)) }
    {
        let name = spelled_name(alloc, &unit.name)?;
        let count = parameter_count(&unit.parameters);
        self.threads.insert(name, count)?;
        Ok(())
    }
}
