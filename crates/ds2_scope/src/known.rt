//! The packages and thread programs that stand before a unit.
ghost use Rattle.std.specs.Prelude.{◌≡◌, ◌+◌, ◌∷◌, [], List as Items, IfOk, OnOk, is_some, nat_eq, option_copied, unwrap_or};
ghost use Rattle.std.specs.Cmp.Lexicographic.{pointwise};
ghost use Rattle.std.specs.HashMap.{get};
ghost use Rattle.ds2_meaning.specs.ProgramTree.{is_listed};
ghost use Rattle.ds2_names.specs.SourceUnit.{known_names, KnownUnit, KnownPackage as PackageBefore, KnownThread as ThreadBefore, Packaged, Threaded};
ghost use Rattle.ds2_scope.specs.UnitsKnown.{KnowsUnits, kept_thread};

use ds2_base::{Bytes, List, OutOfMemory};
use std::alloc::Global;
use std::collections::HashMap;

/// What is kept of a thread program.
#[derive(Drop)]
pub struct KnownThread {
    /// The names of the columns of its rows.
    pub columns: List<Bytes>,
    /// How many thread programs the longest chain has that it is the end of.
    pub chain: u32,
}

/// The packages and thread programs that stand before a unit.
#[derive(Drop)]
pub struct KnownUnits {
    /// For each package how many tokens it has.
    pub packages: HashMap<Bytes, usize>,
    pub threads: HashMap<Bytes, KnownThread>,
    pub package_count: u32,
    pub thread_count: u32,
}

/// One more, where there is a number for it.
pub fn one_more(count: u32) -> Result<u32, OutOfMemory>
    ensures { IfOk result (λ more. more ≡ count + 1) }
{
    if count == u32::MAX {
        Err(OutOfMemory)
    } else {
        Ok(count + 1)
    }
}

impl KnownUnits {
    /// No unit.
    pub fn new(alloc: Global) -> Self
        ensures { KnowsUnits result [] }
    {
        KnownUnits {
            packages: HashMap::new(alloc),
            threads: HashMap::new(alloc),
            package_count: 0,
            thread_count: 0,
        }
    }

    // Whether a package has this name.
    fn has_package(&self, name: &Bytes) -> bool
        ensures { result ≡ is_some (get (pointwise nat_eq) self.now.packages name.now) }
    {
        self.packages.get(name).is_some()
    }

    // Whether a thread program has this name.
    fn has_thread(&self, name: &Bytes) -> bool
        ensures { result ≡ is_some (get (pointwise nat_eq) self.now.threads name.now) }
    {
        self.threads.get(name).is_some()
    }

    /// Whether a unit has this name.
    pub fn has_name(&self, name: &Bytes) -> bool
        ensures { (known : Items KnownUnit) → KnowsUnits self.now known → result ≡ is_listed (known_names known) name.now }
    {
        self.has_package(name) || self.has_thread(name)
    }

    /// How many tokens the package of a name has, 0 where there is none.
    pub fn tokens_of(&self, name: &Bytes) -> usize
        ensures { result ≡ unwrap_or (get (pointwise nat_eq) self.now.packages name.now) 0 }
    {
        match self.packages.get(name) {
            None => 0,
            Some(tokens) => *tokens,
        }
    }

    /// The thread program of a name, where there is one.
    pub fn thread(&self, name: &Bytes) -> Option<&KnownThread>
        ensures { option_copied result ≡ get (pointwise nat_eq) self.now.threads name.now }
    {
        self.threads.get(name)
    }

    /// Adds a package with so many tokens. Answers want of memory, too, beyond 2^32 - 1 packages; nothing is known of what is kept then.
    pub fn add_package(&mut self, name: Bytes, tokens: usize) -> Result<(), OutOfMemory>
        ensures { OnOk result ((known : Items KnownUnit) (p : PackageBefore) → KnowsUnits self.old known → p.name ≡ name → p.tokens ≡ tokens → KnowsUnits self.new (Packaged p ∷ known)) }
    {
        self.package_count = one_more(self.package_count)?;
        self.packages.insert(name, tokens)?;
        Ok(())
    }

    /// Adds a thread program. Answers want of memory, too, beyond 2^32 - 1 thread programs; nothing is known of what is kept then.
    pub fn add_thread(&mut self, name: Bytes, thread: KnownThread) -> Result<(), OutOfMemory>
        ensures { OnOk result ((known : Items KnownUnit) (t : ThreadBefore) → KnowsUnits self.old known → t.name ≡ name → kept_thread t ≡ thread → KnowsUnits self.new (Threaded t ∷ known)) }
    {
        self.thread_count = one_more(self.thread_count)?;
        self.threads.insert(name, thread)?;
        Ok(())
    }
}
