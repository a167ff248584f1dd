//! The types of the operands of a frame.
ghost use Rattle.std.specs.Prelude.{◌≡◌, [], ◌∷◌, Some, None, MatchOption, OnOk, replicate, reverse, take, if◌then◌else◌};
ghost use Rattle.ds2_valid_code.specs.OperandStack.{stands_empty, below_classes};

use ds2_base::OutOfMemory;
use ds2_value::{OperandClass, Ty};
use std::alloc::Global;
use std::marker::Model;

/// The types of operands. A contract sees the topmost first.
#[derive(Drop)]
pub(crate) struct TypeStack {
    items: Vec<Ty>,
}

impl Model for TypeStack {
    ghost use Rattle.std.specs.Prelude.{List, reverse};
    ghost use Rattle.ds2_value.specs.declared.ty.Ty.{Ty as Item};

    ghost Value = { List Item };

    ghost view = { λ s. reverse s.items.items };
}

impl TypeStack {
    pub(crate) fn new(alloc: Global) -> TypeStack
        ensures { result ≡ [] }
    {
        TypeStack {
            items: Vec::new(alloc),
        }
    }

    pub(crate) fn push(&mut self, ty: Ty) -> Result<(), OutOfMemory>
        ensures { OnOk result (self.new ≡ ty ∷ self.old) }
    {
        self.items.push(ty)?;
        Ok(())
    }

    pub(crate) fn pop(&mut self) -> Option<Ty>
        ensures { MatchOption result ((self.old ≡ []) × (self.new ≡ [])) (λ top. self.old ≡ top ∷ self.new) }
    {
        self.items.pop()
    }

    /// The types of the last operands, so many where there are, the topmost one last.
    pub(crate) fn last(&self, n: usize) -> &[Ty]
        ensures { result.now ≡ reverse (take n self.now) }
    {
        let first = self.items.len().saturating_sub(n);
        self.items.as_slice().split_at(first).1
    }

    pub(crate) fn is_empty(&self) -> bool
        ensures { result ≡ stands_empty self.now }
    {
        self.items.is_empty()
    }

    pub(crate) fn clear(&mut self)
        ensures { self.new ≡ [] }
    {
        self.items.clear();
    }
}

// Takes an operand of a class off, where there is one on top.
pub(crate) fn take_one(types: &mut TypeStack, class: OperandClass) -> bool
    ensures { below_classes (class ∷ []) types.old ≡ (if result then Some types.new else None) }
{
    match types.pop() {
        None => false,
        Some(ty) => class.takes(ty),
    }
}

// Takes operands off, the topmost one as the first class says.
pub(crate) fn take(types: &mut TypeStack, classes: &[OperandClass]) -> bool
    ensures { below_classes classes.now types.old ≡ (if result then Some types.new else None) }
{
    let mut rest = classes;
    'classes: while let [class, after @ ..] = rest {
        if !take_one(types, *class) {
            return false;
        }
        rest = after;
    }
    true
}

// Takes n operands of a class off.
pub(crate) fn take_many(types: &mut TypeStack, class: OperandClass, n: u32) -> bool
    ensures { below_classes (replicate n class) types.old ≡ (if result then Some types.new else None) }
{
    let mut left = n;
    'operands: while left > 0 {
        if !take_one(types, class) {
            return false;
        }
        left -= 1;
    }
    true
}
