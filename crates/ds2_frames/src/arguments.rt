//! The arguments of a call.
ghost use Rattle.std.specs.Prelude.{◌≡◌, [], ◌∷◌, MatchOption, OnOk};

use ds2_base::OutOfMemory;
use ds2_value::Value;
use std::alloc::Global;
use std::marker::Model;

/// The arguments of a call on their way from the operands to the locals. A contract sees the first one first, which is the last
/// that was put in.
#[derive(Drop)]
pub struct Arguments {
    items: Vec<Value>,
}

impl Model for Arguments {
    ghost use Rattle.std.specs.Prelude.{reverse};
    ghost use Rattle.ds2_value.specs.Row.{Row};

    ghost Value = { Row };

    ghost view = { λ s. reverse s.items.items };
}

impl Arguments {
    /// None. Takes no memory.
    pub fn new(alloc: Global) -> Arguments
        ensures { result ≡ [] }
    {
        Arguments {
            items: Vec::new(alloc),
        }
    }

    /// Puts one before the others.
    #[inline]
    pub fn push(&mut self, value: Value) -> Result<(), OutOfMemory>
        ensures { OnOk result (self.new ≡ value ∷ self.old) }
    {
        self.items.push(value)?;
        Ok(())
    }

    /// Takes the first one off; None exactly where there is none.
    #[inline]
    pub fn pop(&mut self) -> Option<Value>
        ensures { MatchOption result ((self.old ≡ []) × (self.new ≡ [])) (λ first. self.old ≡ first ∷ self.new) }
    {
        self.items.pop()
    }

    /// Drops all, and keeps their places for the next ones.
    #[inline]
    pub fn clear(&mut self)
        ensures { self.new ≡ [] }
    {
        self.items.clear();
    }
}
