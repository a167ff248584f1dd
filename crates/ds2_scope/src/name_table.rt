//! Tables and sets by names, found by the order of the names, so that names that are chosen badly make no look-up long.
ghost use Rattle.std.specs.Prelude.{◌≡◌, ◌||◌, ℕ, List as Items, IfOk, OnOk, None, Some, bytes_eq, if◌then◌else◌, nat_eq, not, option_copied};
ghost use Rattle.std.specs.Cmp.Lexicographic.{pointwise};
ghost use Rattle.std.specs.HashMap.{IsEmpty, get};
ghost use Rattle.std.specs.HashSet.{IsEmpty as IsEmptySet, contains};

use ds2_base::{Bytes, OutOfMemory};
use std::alloc::Global;
use std::collections::BTreeMap;
use std::marker::Model;

/// What is kept under names. A contract sees the entries, as it does those of a hash table.
#[derive(Drop)]
pub struct NameTable<V> {
    entries: BTreeMap<Vec<u8>, V>,
}

impl<V> Model for NameTable<V> {
    ghost use Rattle.std.specs.Prelude.{ℕ, List as Items};
    ghost use Rattle.std.specs.HashMap.{HashMap};
    ghost use Rattle.std.specs.Coded.{coded_list, coded_ℕ};
    ghost use base.Stored.{coded_unit};
    ghost use Rattle.indexmap.specs.Layout.{hash_map_code};
    ghost use Rattle.ds2_scope.specs.NameTables.{named_entries};

    ghost Value = { HashMap (Items ℕ) V (Unit {0}) };

    ghost coded = { hash_map_code (coded_list coded_ℕ) V.code coded_unit };

    ghost view = { λ t. named_entries t.entries };
}

impl<V> NameTable<V> {
    /// The table without a name. Takes no memory.
    pub fn new(alloc: Global) -> NameTable<V>
        ensures { IsEmpty result }
    {
        NameTable {
            entries: BTreeMap::new(alloc),
        }
    }

    /// What is kept under a name.
    pub fn get(&self, name: &Bytes) -> Option<&V>
        ensures { option_copied result ≡ get (pointwise nat_eq) self.now name.now }
    {
        self.entries.get(name.as_slice())
    }

    /// Keeps a value under a name, and gives the one that was kept there.
    pub fn insert(&mut self, name: Bytes, value: V) -> Result<Option<V>, OutOfMemory>
    where
        V: Drop,
        ensures old { IfOk result (λ old. old ≡ get (pointwise nat_eq) self.old name) }
        ensures updates { OnOk result ((other : Items ℕ) → get (pointwise nat_eq) self.new other ≡ (if bytes_eq name other then Some value else get (pointwise nat_eq) self.old other)) }
    {
        Ok(self.entries.insert(name.into_vec(), value)?)
    }

    /// Takes out what is kept under a name.
    pub fn remove(&mut self, name: &Bytes) -> Option<V>
        ensures value { result ≡ get (pointwise nat_eq) self.old name.now }
        ensures updates { (other : Items ℕ) → get (pointwise nat_eq) self.new other ≡ (if bytes_eq name.now other then None else get (pointwise nat_eq) self.old other) }
    {
        self.entries.remove(name.as_slice())
    }
}

/// A set of names.
#[derive(Drop)]
pub struct NameSet {
    names: NameTable<()>,
}

impl Model for NameSet {
    ghost use Rattle.std.specs.Prelude.{ℕ, List as Items};
    ghost use Rattle.std.specs.HashSet.{HashSet};
    ghost use Rattle.std.specs.Coded.{coded_list, coded_ℕ};
    ghost use base.Stored.{coded_unit};
    ghost use Rattle.indexmap.specs.Layout.{hash_set_code, key_set};

    ghost Value = { HashSet (Items ℕ) (Unit {0}) };

    ghost coded = { hash_set_code (coded_list coded_ℕ) coded_unit };

    ghost view = { λ s. key_set s.names };
}

impl NameSet {
    /// The set without a name. Takes no memory.
    pub fn new(alloc: Global) -> NameSet
        ensures { IsEmptySet result }
    {
        NameSet {
            names: NameTable::new(alloc),
        }
    }

    /// Whether a name is there.
    pub fn contains(&self, name: &Bytes) -> bool
        ensures { result ≡ contains (pointwise nat_eq) self.now name.now }
    {
        self.names.get(name).is_some()
    }

    /// Adds a name; true exactly where it was not there.
    pub fn insert(&mut self, name: Bytes) -> Result<bool, OutOfMemory>
        ensures added { IfOk result (λ added. added ≡ not (contains (pointwise nat_eq) self.old name)) }
        ensures updates { OnOk result ((other : Items ℕ) → contains (pointwise nat_eq) self.new other ≡ (bytes_eq name other || contains (pointwise nat_eq) self.old other)) }
    {
        Ok(self.names.insert(name, ())?.is_none())
    }
}
