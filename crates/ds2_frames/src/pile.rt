//! Values of all methods that are under way in one vector.
ghost use Rattle.std.specs.Prelude.{◌≡◌, ◌≤◌, [], ◌∷◌, ◌++◌, reverse, take, drop, length, replicate, IfSome, MatchOption, OnOk, None, Some, slice_get, slice_set, if◌then◌else◌};
ghost use Rattle.ds2_value.specs.Value.{or_null};
ghost use Rattle.ds2_value.specs.declared.value.Value.TheVariants.{Null};
ghost use Rattle.ds2_code.specs.Desk.{take_off};
ghost use Rattle.ds2_frames.specs.Results.{as_list};

use crate::arguments::Arguments;
use ds2_base::OutOfMemory;
use ds2_value::Value;
use std::alloc::Global;
use std::marker::Model;
use std::mem;

/// Values of the method that is at work, and below them those of the callers that wait.
#[derive(Drop)]
pub struct Pile {
    items: Vec<Value>,
    base: usize,
}

impl Model for Pile {
    ghost use Rattle.std.specs.Prelude.{◌≤◌, length, reverse, take, drop};
    ghost use Rattle.ds2_frames.specs.PileView.{PileView};

    ghost Value = { PileView };

    ghost view = { λ p. record { own = drop p.base p.items.items; stack = reverse (drop p.base p.items.items); below = take p.base p.items.items } };

    ghost invariant = { λ p. p.base ≤ length p.items.items };
}

impl Pile {
    /// No values. Takes no memory.
    pub fn new(alloc: Global) -> Pile
        ensures { result ≡ record { own = []; stack = []; below = [] } }
    {
        Pile {
            items: Vec::new(alloc),
            base: 0,
        }
    }

    /// Drops all values, and keeps their places for the next ones.
    pub fn clear(&mut self)
        ensures { self.new ≡ record { own = []; stack = []; below = [] } }
    {
        self.base = 0;
        self.items.clear();
    }

    /// Puts a value on top.
    #[inline]
    pub fn push(&mut self, value: Value) -> Result<(), OutOfMemory>
        ensures stack { OnOk result (self.new.stack ≡ value ∷ self.old.stack) }
        ensures own { OnOk result (self.new.own ≡ self.old.own ++ value ∷ []) }
        ensures below { OnOk result (self.new.below ≡ self.old.below) }
    {
        self.items.reserve(1)?;
        self.items.push_reserved(value);
        Ok(())
    }

    /// Puts a copy of a value on top. A number takes no memory but its place.
    #[inline]
    pub fn push_copy(&mut self, alloc: Global, value: &Value) -> Result<(), OutOfMemory>
        ensures stack { OnOk result (self.new.stack ≡ value.now ∷ self.old.stack) }
        ensures below { OnOk result (self.new.below ≡ self.old.below) }
    {
        match value {
            Value::Null => self.push(Value::Null),
            Value::Int(i) => self.push(Value::Int(*i)),
            Value::Dec(d) => self.push(Value::Dec(*d)),
            Value::Txt(t) => {
                let copy = t.copy(alloc)?;
                self.push(Value::Txt(copy))
            }
        }
    }

    /// Puts a copy of the value of this number on top, null where there is none.
    #[inline]
    pub fn push_at(
        &mut self,
        alloc: Global,
        values: &[Value],
        number: usize,
    ) -> Result<(), OutOfMemory>
        ensures stack { OnOk result (self.new.stack ≡ or_null (slice_get values.now number) ∷ self.old.stack) }
        ensures below { OnOk result (self.new.below ≡ self.old.below) }
    {
        match values.get(number) {
            None => self.push(Value::Null),
            Some(value) => self.push_copy(alloc, value),
        }
    }

    /// Puts a value on top, where there is one.
    #[inline]
    pub fn push_some(&mut self, value: Option<Value>) -> Result<(), OutOfMemory>
        ensures stack { OnOk result (self.new.stack ≡ as_list value ++ self.old.stack) }
        ensures below { OnOk result (self.new.below ≡ self.old.below) }
    {
        match value {
            None => Ok(()),
            Some(value) => self.push(value),
        }
    }

    /// Puts a copy of a value on top, where that is wanted.
    #[inline]
    pub fn push_where(
        &mut self,
        alloc: Global,
        wanted: bool,
        value: &Value,
    ) -> Result<(), OutOfMemory>
        ensures stack { OnOk result (self.new.stack ≡ (if wanted then value.now ∷ self.old.stack else self.old.stack)) }
        ensures below { OnOk result (self.new.below ≡ self.old.below) }
    {
        if wanted {
            self.push_copy(alloc, value)
        } else {
            Ok(())
        }
    }

    /// Takes the topmost value of the method off; None exactly where there is none.
    #[inline]
    pub fn pop(&mut self) -> Option<Value>
        ensures stack { MatchOption result (self.old.stack ≡ []) (λ v. self.old.stack ≡ v ∷ self.new.stack) }
        ensures below { self.new.below ≡ self.old.below }
    {
        if self.items.len() <= self.base {
            return None;
        }
        // A number is moved as one word, and not with the room that a text would take.
        match self.items.pop() {
            Some(Value::Int(i)) => Some(Value::Int(i)),
            last => last,
        }
    }

    /// The method's values, the lowest one first.
    #[inline]
    pub fn own(&self) -> &[Value]
        ensures value { result.now ≡ self.now.own }
        ensures stack { reverse result.now ≡ self.now.stack }
    {
        &self.items[self.base..]
    }

    /// The n topmost values of the method, the last one on top; None exactly where there are fewer.
    #[inline]
    #[tactic(auto, using(crate::proofs::PileLemmas::taken))]
    pub fn last(&self, n: usize) -> Option<&[Value]>
        ensures taken { MatchOption result (take_off n [] self.now.stack ≡ None) (λ values. take_off n [] self.now.stack ≡ Some (record { values = values.now; below = drop n self.now.stack })) }
        ensures count { IfSome result (λ values. length values.now ≡ n) }
    {
        let values = self.own();
        if values.len() < n {
            return None;
        }
        Some(values.split_at(values.len() - n).1)
    }

    /// Takes the n topmost values of the method off; all where there are fewer.
    #[inline]
    #[tactic(auto, using(crate::proofs::PileLemmas::shortened))]
    pub fn drop_last(&mut self, n: usize)
        ensures stack { self.new.stack ≡ drop n self.old.stack }
        ensures below { self.new.below ≡ self.old.below }
    {
        let own = self.items.len() - self.base;
        let kept = self.base + own.saturating_sub(n);
        self.items.truncate(kept);
    }

    /// Puts a value in the place of the n topmost ones of the method.
    #[inline]
    pub fn replace_last(&mut self, n: usize, value: Value) -> Result<(), OutOfMemory>
        ensures stack { OnOk result (self.new.stack ≡ value ∷ drop n self.old.stack) }
        ensures below { OnOk result (self.new.below ≡ self.old.below) }
    {
        self.drop_last(n);
        self.push(value)
    }

    /// Puts a value in the place of the two topmost ones of the method. Takes no memory.
    #[inline]
    pub fn replace_two(&mut self, value: Value)
        requires { 2 ≤ length self.old.stack }
        ensures stack { self.new.stack ≡ value ∷ drop 2 self.old.stack }
        ensures below { self.new.below ≡ self.old.below }
    {
        let _top = self.items.pop();
        let _next = self.items.pop();
        self.items.push_reserved(value);
    }

    /// Sets the value of a number; nothing where there is none.
    #[inline]
    pub fn set(&mut self, number: usize, value: Value)
        ensures own { self.new.own ≡ slice_set self.old.own number value }
        ensures below { self.new.below ≡ self.old.below }
    {
        let _old = self.exchanged(number, value);
    }

    // Sets the value of a number, and gives the old one back; nothing changes where there is none, and the value comes back.
    #[inline]
    fn exchanged(&mut self, number: usize, value: Value) -> Value
        ensures own { self.new.own ≡ slice_set self.old.own number value }
        ensures below { self.new.below ≡ self.old.below }
    {
        let own = self.items.len() - self.base;
        if number < own {
            let place = self.base + number;
            mem::replace(&mut self.items[place], value)
        } else {
            value
        }
    }

    /// Begins a method, and tells where the caller's values begin.
    pub fn enter(&mut self) -> usize
        ensures own { self.new.own ≡ [] }
        ensures stack { self.new.stack ≡ [] }
        ensures caller { drop result self.new.below ≡ self.old.own }
        ensures operands { reverse (drop result self.new.below) ≡ self.old.stack }
        ensures others { take result self.new.below ≡ self.old.below }
    {
        let caller = self.base;
        self.base = self.items.len();
        caller
    }

    /// Ends a method: the caller's values begin there.
    pub fn leave(&mut self, caller: usize)
        ensures own { self.new.own ≡ drop caller self.old.below }
        ensures stack { self.new.stack ≡ reverse (drop caller self.old.below) }
        ensures below { self.new.below ≡ take caller self.old.below }
    {
        self.items.truncate(self.base);
        self.base = caller.min(self.items.len());
    }

    /// Puts the arguments on top, the first one first, and so many nulls.
    pub fn fill(&mut self, arguments: &mut Arguments, nulls: usize) -> Result<(), OutOfMemory>
        ensures own { OnOk result (self.new.own ≡ self.old.own ++ (arguments.old ++ replicate nulls Null)) }
        ensures below { OnOk result (self.new.below ≡ self.old.below) }
    {
        while let Some(value) = arguments.pop() {
            self.push(value)?;
        }
        self.fill_with_nulls(nulls)
    }

    // So many nulls on top.
    #[tactic(auto, using(crate::proofs::PileLemmas::nulls_next))]
    fn fill_with_nulls(&mut self, nulls: usize) -> Result<(), OutOfMemory>
        ensures own { OnOk result (self.new.own ≡ self.old.own ++ replicate nulls Null) }
        ensures below { OnOk result (self.new.below ≡ self.old.below) }
    {
        let mut left = nulls;
        while left > 0 {
            self.push(Value::Null)?;
            left -= 1;
        }
        Ok(())
    }
}
