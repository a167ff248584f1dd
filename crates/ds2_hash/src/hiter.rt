//! Iterators of hash objects.
ghost use Rattle.std.specs.Prelude.{◌≡◌, ◌<◌, ◌^◌, length};
ghost use Rattle.ds2_value.specs.HashList.{iterator_answer, first_position, last_position, next_position, prev_position, item_sought, gone_to, shifted, Closes, Empties};
ghost use Rattle.ds2_value.specs.declared.hash_function.IteratorFunction.TheVariants as iterator;
ghost use Rattle.ds2_hash.specs.Calls.{iteration_of};

use crate::HashObject;

/// An iterator of a hash object: a position among its items, none at first.
#[derive(Clone, Copy, PartialEq, Eq)]
pub struct Hiter {
    /// The position, counted from 0.
    pub at: Option<u64>,
}

fn first_of(n: u64) -> Option<u64>
    ensures { result ≡ first_position n }
{
    if n > 0 { Some(0) } else { None }
}

fn last_of(n: u64) -> Option<u64>
    ensures { result ≡ last_position n }
{
    n.checked_sub(1)
}

fn next_of(n: u64, at: Option<u64>) -> Option<u64>
    ensures { result ≡ next_position n at }
{
    match at {
        None => first_of(n),
        Some(p) => {
            if p < n && p + 1 < n {
                Some(p + 1)
            } else {
                None
            }
        }
    }
}

fn prev_of(n: u64, at: Option<u64>) -> Option<u64>
    ensures { result ≡ prev_position n at }
{
    match at {
        None => last_of(n),
        Some(p) => p.checked_sub(1),
    }
}

impl Hiter {
    /// Goes to the first item; false exactly where there is none, and then it stays where it was.
    pub fn first(&mut self, h: &HashObject) -> bool
        ensures { iterator_answer iterator.First h.now self.old.at ≡ iteration_of result self.new.at h.now }
    {
        self.go_to(h, first_of(h.num_items()))
    }

    /// Goes to the next item, from nowhere to the first; false exactly where there is none, and then it stays where it was.
    pub fn next(&mut self, h: &HashObject) -> bool
        ensures { iterator_answer iterator.Next h.now self.old.at ≡ iteration_of result self.new.at h.now }
    {
        self.go_to(h, next_of(h.num_items(), self.at))
    }

    /// Goes to the item before, from nowhere to the last; false exactly where there is none, and then it stays where it was.
    pub fn prev(&mut self, h: &HashObject) -> bool
        ensures { iterator_answer iterator.Prev h.now self.old.at ≡ iteration_of result self.new.at h.now }
    {
        self.go_to(h, prev_of(h.num_items(), self.at))
    }

    /// Goes to the last item; false exactly where there is none, and then it stays where it was.
    pub fn last(&mut self, h: &HashObject) -> bool
        ensures { iterator_answer iterator.Last h.now self.old.at ≡ iteration_of result self.new.at h.now }
    {
        self.go_to(h, last_of(h.num_items()))
    }

    // Whether there is an item where it was to go.
    fn go_to(&mut self, h: &HashObject, sought: Option<u64>) -> bool
        ensures { gone_to (item_sought sought h.now) self.old.at ≡ iteration_of result self.new.at h.now }
    {
        match sought {
            Some(p) if p < h.num_items() => {
                self.at = Some(p);
                true
            }
            _ => false,
        }
    }

    /// The item at `i` was removed from its object: in front of it the iterator stays, behind it, and at it, it goes one back,
    /// from the first item to nowhere.
    pub fn removed(&mut self, i: u64)
        ensures { self.new.at ≡ shifted (Closes i) self.old.at }
    {
        self.at = match self.at {
            Some(p) if p >= i => p.checked_sub(1),
            stays => stays,
        };
    }

    /// All items were removed from its object: the iterator stands nowhere.
    pub fn cleared(&mut self)
        ensures { self.new.at ≡ shifted Empties self.old.at }
    {
        self.at = None;
    }
}
