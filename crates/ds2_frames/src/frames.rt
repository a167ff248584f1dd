//! The callers that wait.
ghost use Rattle.std.specs.Prelude.{◌≡◌, [], ◌∷◌, length, MatchOption, OnOk};

use ds2_base::{OutOfMemory, Place};
use std::alloc::Global;
use std::marker::Model;

/// A caller that waits.
#[derive(Clone, Copy)]
pub struct Waiting {
    /// Where its operands begin, among those of all methods that are under way.
    pub operands: usize,
    /// Where its locals begin, likewise.
    pub locals: usize,
    /// The place of the step that the call is part of.
    pub place: Place,
    /// Where the caller goes on.
    pub to: usize,
    /// The number of the method that it called.
    pub callee: u32,
}

/// The callers that wait. A contract sees the last one first.
#[derive(Drop)]
pub struct Frames {
    items: Vec<Waiting>,
}

impl Model for Frames {
    ghost use Rattle.std.specs.Prelude.{List, reverse};
    ghost use Rattle.ds2_frames.specs.declared.frames.Waiting.{Waiting as Item};

    ghost Value = { List Item };

    ghost view = { λ s. reverse s.items.items };
}

impl Frames {
    /// None. Takes no memory.
    pub fn new(alloc: Global) -> Frames
        ensures { result ≡ [] }
    {
        Frames {
            items: Vec::new(alloc),
        }
    }

    /// Drops all, and keeps their places for the next ones.
    pub fn clear(&mut self)
        ensures { self.new ≡ [] }
    {
        self.items.clear();
    }

    /// One more.
    pub fn push(&mut self, caller: Waiting) -> Result<(), OutOfMemory>
        ensures { OnOk result (self.new ≡ caller ∷ self.old) }
    {
        self.items.push(caller)?;
        Ok(())
    }

    /// Takes the last one off; None exactly where there is none.
    pub fn pop(&mut self) -> Option<Waiting>
        ensures { MatchOption result ((self.old ≡ []) × (self.new ≡ [])) (λ last. self.old ≡ last ∷ self.new) }
    {
        self.items.pop()
    }

    /// How many.
    pub fn len(&self) -> usize
        ensures { result ≡ length self.now }
    {
        self.items.len()
    }
}
