//! Packages and thread programs with their types, by their names.
ghost use Rattle.std.specs.Prelude.{◌≡◌, ◌∷◌, [], IfOk, map, option_copied};
ghost use Rattle.std.specs.Option.{option_map};
ghost use Rattle.ds2_elaboration.specs.UnitsBefore.{UnitsBefore, package_types, typed_thread_named};
ghost use Rattle.ds2_declared_types.specs.TypesKnown.{kept_types, parameters_named, sources_named, types_of_package, TellsTypes};
ghost use Rattle.ds2_meaning.specs.ProgramTree.{reader_of};
ghost use Rattle.ds2_meaning.specs.View.{typed_thread_program};
ghost use Rattle.ds2_names.specs.SourceUnit.{source_methods};
ghost use Rattle.ds2_tree.specs.UnitViews.{global_tree};

use ds2_base::{List, OutOfMemory};
use ds2_meaning::{Shared, TypedPackage, TypedThread, Variable};
use ds2_tree::{GlobalItem, Package};
use std::alloc::Global;

/// What is kept of a package.
#[derive(Drop)]
pub struct KnownPackage<'s> {
    /// Where it stands in the source.
    pub source: &'s Package,
    pub typed: Shared<TypedPackage>,
}

/// The packages and thread programs that stand before a unit, each kind with the last one first.
#[derive(Drop)]
pub struct KnownTypes<'s> {
    pub packages: List<KnownPackage<'s>>,
    pub threads: List<Shared<TypedThread>>,
}

/// The first of these packages that has a name.
fn first_package<'k, 's>(
    packages: &'k [KnownPackage<'s>],
    name: &[u8],
) -> Option<&'k KnownPackage<'s>>
    ensures { option_map kept_types (option_copied result) ≡ package_types (map kept_types packages.now) name.now }
{
    'packages: for p in packages {
        if p.typed.get().name.as_str().as_bytes() == name {
            return Some(p);
        }
    }
    None
}

/// The first of these thread programs that has a name.
#[tactic(auto, using(crate::proofs::ThreadTrees::one_more_thread))]
fn first_thread<'k>(
    threads: &'k [Shared<TypedThread>],
    name: &[u8],
) -> Option<&'k Shared<TypedThread>>
    ensures { option_map typed_thread_program (option_copied result) ≡ typed_thread_named (map typed_thread_program threads.now) name.now }
{
    'threads: for t in threads {
        if t.get().name.as_str().as_bytes() == name {
            return Some(t);
        }
    }
    None
}

impl<'s> KnownTypes<'s> {
    /// No unit.
    pub fn new(alloc: Global) -> Self
        ensures tells { (before : UnitsBefore) → before.packages ≡ [] → before.threads ≡ [] → TellsTypes result before }
        ensures none { result.threads ≡ [] }
    {
        KnownTypes {
            packages: List::new(alloc),
            threads: List::new(alloc),
        }
    }

    /// With one package more.
    pub fn with_package(
        self,
        alloc: Global,
        source: &'s Package,
        typed: TypedPackage,
    ) -> Result<Self, OutOfMemory>
        ensures threads { IfOk result (λ known. known.threads ≡ self.entry.threads) }
        ensures tells { (before behind : UnitsBefore) → TellsTypes self.entry before → behind.packages ≡ types_of_package source.now typed ∷ before.packages → behind.threads ≡ before.threads
            → IfOk result (λ known. TellsTypes known behind) }
    {
        let KnownTypes { packages, threads } = self;
        let typed = Shared::new(alloc, typed)?;
        let mut all = packages.into_vec();
        all.insert(0, KnownPackage { source, typed })?;
        Ok(KnownTypes {
            packages: List::of(all),
            threads,
        })
    }

    /// With one thread program more.
    pub fn with_thread(self, alloc: Global, typed: TypedThread) -> Result<Self, OutOfMemory>
        ensures kept { IfOk result (λ known. known.threads ≡ typed ∷ self.entry.threads) }
        ensures tells { (before behind : UnitsBefore) → TellsTypes self.entry before → behind.packages ≡ before.packages → behind.threads ≡ typed_thread_program typed ∷ before.threads
            → IfOk result (λ known. TellsTypes known behind) }
    {
        let KnownTypes { packages, threads } = self;
        let typed = Shared::new(alloc, typed)?;
        let mut all = threads.into_vec();
        all.insert(0, typed)?;
        Ok(KnownTypes {
            packages,
            threads: List::of(all),
        })
    }

    /// The package of a name, where there is one.
    pub fn package_named(&self, name: &[u8]) -> Option<&KnownPackage<'s>>
        ensures { (before : UnitsBefore) → TellsTypes self.now before → option_map kept_types (option_copied result) ≡ package_types before.packages name.now }
    {
        first_package(self.packages.as_slice(), name)
    }

    /// The thread program of a name, where there is one.
    pub fn thread_named(&self, name: &[u8]) -> Option<&Shared<TypedThread>>
        ensures { (before : UnitsBefore) → TellsTypes self.now before → option_map typed_thread_program (option_copied result) ≡ typed_thread_named before.threads name.now }
    {
        first_thread(self.threads.as_slice(), name)
    }

    /// What the source of the package of a name declares; nothing where there is none.
    pub fn source_named(&self, name: &[u8]) -> &[GlobalItem]
        ensures { (before : UnitsBefore) → TellsTypes self.now before → source_methods (map global_tree result.now) ≡ sources_named before.packages name.now }
    {
        match self.package_named(name) {
            None => &[],
            Some(found) => found.source.globals.as_slice(),
        }
    }

    /// The parameters of the thread program of a name; none where there is none.
    pub fn parameters_named(&self, name: &[u8]) -> &[Variable]
        ensures { (before : UnitsBefore) → TellsTypes self.now before → result.now ≡ parameters_named before.threads name.now }
    {
        match self.thread_named(name) {
            None => &[],
            Some(thread) => parameters_of(thread.get()),
        }
    }
}

/// The parameters of a thread program.
pub fn parameters_of(thread: &TypedThread) -> &[Variable]
    ensures { result.now ≡ (reader_of (typed_thread_program thread.now)).parameters }
{
    thread.parameters.as_slice()
}
