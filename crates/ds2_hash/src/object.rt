//! A hash object: items under keys, in order of insertion.
ghost use Rattle.std.specs.Prelude.{◌≡◌, ◌<◌, ◌^◌, [], None, true, is_some, length, slice_get, pos, IfOk, OnOk, OnErr};
ghost use Rattle.std.specs.Map.Iter.{deref_pair};
ghost use Rattle.std.specs.Option.{option_map, option_copied};
ghost use Rattle.ds2_value.specs.HashList.{hash_answer, only_code, Stays, Empties};
ghost use Rattle.ds2_value.specs.declared.hash_function.HashFunction.TheVariants as hash;
ghost use Rattle.ds2_value.specs.declared.value.Value.TheVariants.{Int};
ghost use Rattle.ds2_hash.specs.Calls.{answer_of, shift_of_removal, HasDistinctKeys};

use crate::HashKey;
use ds2_base::OutOfMemory;
use ds2_value::{Row, copy_row};
use indexmap::IndexMap;
use std::alloc::Global;
use std::marker::Model;

/// Items in order of insertion, each a data row under a key row. No two of its keys are equal.
///
/// Keys are equal as values are: 1 and 1.00 are one key, and so are texts that differ in blanks at the end.
#[derive(Drop)]
pub struct HashObject {
    items: IndexMap<Row, Row, HashKey>,
}

impl Model for HashObject {
    ghost use Rattle.ds2_value.specs.HashList.{HashItems};

    ghost Value = { HashItems };

    ghost view = { λ h. h.items.entries };
}

impl HashObject {
    /// An object without items, which hashes by this key. Takes no memory.
    pub fn open(alloc: Global, key: HashKey) -> Self
        ensures { result ≡ [] }
    {
        HashObject {
            items: IndexMap::with_hasher(alloc, key),
        }
    }

    /// The data of the item with this key; None exactly where there is none.
    pub fn find(&self, key: &Row) -> Option<&Row>
        ensures { hash_answer hash.Find key.now [] self.now ≡ answer_of (is_some result) self.now (option_copied result) Stays }
    {
        self.items.get(key)
    }

    /// Whether there is an item with this key.
    pub fn check(&self, key: &Row) -> bool
        ensures { hash_answer hash.Check key.now [] self.now ≡ answer_of result self.now None Stays }
    {
        self.items.contains_key(key)
    }

    /// Puts an item last; false exactly where its key is present, and then nothing changes.
    ///
    /// For want of memory the object is as it was, and the item is gone.
    pub fn add(&mut self, key: Row, item: Row) -> Result<bool, OutOfMemory>
        ensures ok { IfOk result (λ added. hash_answer hash.Add key item self.old ≡ answer_of added self.new None Stays) }
        ensures err { OnErr result (self.new ≡ self.old) }
    {
        if self.items.contains_key(&key) {
            return Ok(false);
        }
        self.items.insert(key, item)?;
        Ok(true)
    }

    /// Gives the item with this key other data, in its place and under the key row that it has; where there is none, puts one last.
    ///
    /// For want of memory the object is as it was, and the data are gone.
    pub fn replace(&mut self, key: Row, new_data: Row) -> Result<(), OutOfMemory>
        ensures ok { OnOk result (hash_answer hash.Replace key new_data self.old ≡ answer_of true self.new None Stays) }
        ensures err { OnErr result (self.new ≡ self.old) }
    {
        self.items.insert(key, new_data)?;
        Ok(())
    }

    /// Takes the item with this key out and gives the position that it had; None exactly where there is none.
    ///
    /// The others keep their order, so it takes time for each item behind it. Each iterator of the object has to be told,
    /// by [`Hiter::removed`](crate::Hiter::removed).
    pub fn remove(&mut self, key: &Row) -> Option<u64>
        ensures { hash_answer hash.Remove key.now [] self.old ≡ answer_of (is_some result) self.new None (shift_of_removal result) }
    {
        let (position, _key, _item) = self.items.shift_remove_full(key)?;
        Some(position as u64)
    }

    /// Takes all items out. Each iterator of the object has to be told, by [`Hiter::cleared`](crate::Hiter::cleared).
    ///
    /// It takes time for all that there is room for. Where that is much more than there are items, the room is given back, so that one who
    /// clears the object again and again does not pay each time for the most that were ever in it.
    pub fn clear(&mut self)
        ensures { hash_answer hash.Clear [] [] self.old ≡ answer_of true self.new None Empties }
    {
        let room = self.items.capacity();
        let count = self.items.len();
        self.items.clear();
        if count < room / 8 {
            self.items.shrink_to_fit();
        }
    }

    /// The number of items.
    pub fn num_items(&self) -> u64
        ensures count { result ≡ length self.now }
        ensures code { hash_answer hash.NumItems [] [] self.now ≡ only_code (Int (pos result)) self.now }
        ensures small { result < 2 ^ 63 }
        ensures distinct { HasDistinctKeys self.now }
    {
        self.items.len() as u64
    }

    /// The key row and the data row of the item at `i`, counted from 0; None exactly past the end.
    pub fn item(&self, i: u64) -> Option<(&Row, &Row)>
        ensures { option_map deref_pair result ≡ slice_get self.now i }
    {
        self.items.get_index(i as usize)
    }

    /// An object with the same items and the same key.
    pub fn copy(&self, alloc: Global) -> Result<HashObject, OutOfMemory>
        ensures { IfOk result (λ copy. copy ≡ self.now) }
    {
        let hasher = *self.items.hasher();
        let mut items = IndexMap::with_capacity_and_hasher(alloc, self.items.len(), hasher)?;
        'items: for (key, item) in self.items.iter() {
            items.insert(
                copy_row(alloc, key.as_slice())?,
                copy_row(alloc, item.as_slice())?,
            )?;
        }
        Ok(HashObject { items })
    }
}
