//! Tables by their numbers.
ghost use Rattle.std.specs.Prelude.{◌≡◌, [], ◌∷◌, ◌++◌, length, slice_get, OnOk, OnErr, option_copied};
ghost use Rattle.std.specs.Option.{option_map};
ghost use Rattle.std.specs.Arc.{arc_value};

use ds2_base::{List, OutOfMemory};
use ds2_hash::HashKey;
use ds2_table::Table;
use std::alloc::Global;
use std::marker::Model;
use std::sync::Arc;

/// Tables by number, from 0, and the key of the hash objects beside them. A contract sees the list of tables, however they are shared.
#[derive(Drop)]
pub struct Tables {
    tables: List<Arc<Table, Global>>,
    key: HashKey,
}

impl Model for Tables {
    ghost use Rattle.std.specs.Prelude.{List as Items, map};
    ghost use Rattle.std.specs.Arc.{arc_value};
    ghost use Rattle.ds2_table.specs.Table.{Contents};

    ghost Value = { Items Contents };

    ghost view = { λ t. map arc_value t.tables };
}

impl Tables {
    /// No tables, and this key. Takes no memory.
    pub fn new(alloc: Global, key: HashKey) -> Tables
        ensures { result ≡ [] }
    {
        Tables {
            tables: List::new(alloc),
            key,
        }
    }

    /// The key of hash objects.
    pub fn key(&self) -> HashKey {
        self.key
    }

    /// Adds a table, whose number is how many there were before. After a refusal the tables are as they were, and this one is let go.
    #[tactic(auto, using(crate::proofs::TableNumbers::shared))]
    pub fn push(&mut self, table: Arc<Table, Global>) -> Result<(), OutOfMemory>
        ensures ok { OnOk result (self.new ≡ self.old ++ arc_value table ∷ []) }
        ensures err { OnErr result (self.new ≡ self.old) }
    {
        self.tables.push(table)
    }

    /// The table of this number; None exactly past the end.
    #[tactic(auto, using(crate::proofs::TableNumbers::shared))]
    pub fn get(&self, i: usize) -> Option<&Arc<Table, Global>>
        ensures { option_map arc_value (option_copied result) ≡ slice_get self.now i }
    {
        self.tables.get(i)
    }

    /// The number of tables.
    #[tactic(auto, using(crate::proofs::TableNumbers::shared))]
    pub fn len(&self) -> usize
        ensures { result ≡ length self.now }
    {
        self.tables.len()
    }
}
