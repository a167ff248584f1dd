//! A list that grows at its end.
ghost use Rattle.std.specs.Prelude.{◌≡◌, ◌+◌, ◌-◌, ◌==◌, ◌<◌, ◌≤◌, [], ◌∷◌, ◌++◌, length, take, OnOk, OnErr, IfOk, MatchOption, slice_get, slice_set, option_copied};

use crate::OutOfMemory;
use std::alloc::Global;
use std::marker::Model;
use std::mem;

/// A list. A contract sees its items, and nothing of the places that are reserved for more.
#[derive(Drop)]
pub struct List<T> {
    items: Vec<T>,
}

/// Any bytes, as a file has them.
pub type Bytes = List<u8>;

impl<T> Model for List<T> {
    ghost use Rattle.std.specs.Prelude.{List as Items};
    ghost use Rattle.std.specs.Coded.{coded_list};

    ghost Value = { Items T };

    ghost coded = { coded_list T.code };

    ghost view = { λ l. l.items.items };
}

impl<T> List<T> {
    /// The empty list. Takes no memory.
    pub fn new(alloc: Global) -> Self
        ensures { result ≡ [] }
    {
        List {
            items: Vec::new(alloc),
        }
    }

    /// The list of a vector's items. Takes no memory.
    pub fn of(items: Vec<T>) -> Self
        ensures { result ≡ items.items }
    {
        List { items }
    }

    /// The vector of the list's items. Takes no memory.
    pub fn into_vec(self) -> Vec<T>
        ensures { result.items ≡ self }
    {
        self.items
    }

    /// Adds an item at the end. After a refusal the list is as it was, and the item is gone.
    pub fn push(&mut self, item: T) -> Result<(), OutOfMemory>
    where
        T: Drop,
        ensures ok { OnOk result (self.new ≡ self.old ++ item ∷ []) }
        ensures err { OnErr result (self.new ≡ self.old) }
    {
        self.items.push(item)?;
        Ok(())
    }

    /// Adds an item at the end of a list that seldom gets a second one: where there is none yet, room is made for this one alone.
    /// After a refusal the list is as it was, and the item is gone.
    pub fn push_sparing(&mut self, item: T) -> Result<(), OutOfMemory>
    where
        T: Drop,
        ensures ok { OnOk result (self.new ≡ self.old ++ item ∷ []) }
        ensures err { OnErr result (self.new ≡ self.old) }
    {
        if self.items.is_empty() {
            self.items.reserve_exact(1)?;
        }
        self.push(item)
    }

    /// Makes room for `n` more items at once.
    pub fn reserve(&mut self, n: usize) -> Result<(), OutOfMemory>
        ensures { self.new ≡ self.old }
    {
        self.items.reserve(n)?;
        Ok(())
    }

    /// Moves all items of another list to the end. After a refusal this list is as it was, and the other is gone.
    pub fn append_list(&mut self, more: List<T>) -> Result<(), OutOfMemory>
    where
        T: Drop,
        ensures ok { OnOk result (self.new ≡ self.old ++ more) }
        ensures err { OnErr result (self.new ≡ self.old) }
    {
        let List { mut items } = more;
        self.items.append(&mut items)?;
        Ok(())
    }

    /// The number of items.
    pub fn len(&self) -> usize
        ensures { result ≡ length self.now }
    {
        self.items.len()
    }

    pub fn is_empty(&self) -> bool
        ensures { result ≡ (length self.now == 0) }
    {
        self.items.is_empty()
    }

    /// The item at `i`, counted from 0; None exactly past the end.
    pub fn get(&self, i: usize) -> Option<&T>
        ensures { option_copied result ≡ slice_get self.now i }
    {
        self.items.get(i)
    }

    /// The items as a slice, over which a `for` or an iterator goes.
    pub fn as_slice(&self) -> &[T]
        ensures { result.now ≡ self.now }
    {
        self.items.as_slice()
    }

    /// Takes the last item off; None exactly where there is none.
    pub fn pop(&mut self) -> Option<T>
        ensures { MatchOption result ((self.old ≡ []) × (self.new ≡ [])) (λ last. self.old ≡ self.new ++ last ∷ []) }
    {
        self.items.pop()
    }

    /// Puts an item in the place of the one at `i`, which it gives back.
    pub fn replace(&mut self, i: usize, item: T) -> T
        requires { i < length self.old }
        ensures old { slice_get self.old i ≡ Some result }
        ensures new { self.new ≡ slice_set self.old i item }
    {
        mem::replace(&mut self.items[i], item)
    }

    /// Drops all items but the first `n`.
    pub fn truncate(&mut self, n: usize)
    where
        T: Drop,
        ensures { self.new ≡ take n self.old }
    {
        self.items.truncate(n)
    }
}

impl<T: Copy> List<T> {
    /// A list of the same items.
    pub fn copy(&self, alloc: Global) -> Result<List<T>, OutOfMemory>
        ensures { IfOk result (λ list. list ≡ self.now) }
    {
        List::from_slice(alloc, self.as_slice())
    }

    /// The list of a slice's items.
    pub fn from_slice(alloc: Global, items: &[T]) -> Result<List<T>, OutOfMemory>
        ensures { IfOk result (λ list. list ≡ items.now) }
    {
        Ok(List {
            items: Vec::from_slice(alloc, items)?,
        })
    }

    /// Adds items at the end. After a refusal the list is as it was.
    pub fn append(&mut self, items: &[T]) -> Result<(), OutOfMemory>
        ensures ok { OnOk result (self.new ≡ self.old ++ items.now) }
        ensures err { OnErr result (self.new ≡ self.old) }
    {
        self.items.extend_from_slice(items)?;
        Ok(())
    }
}
