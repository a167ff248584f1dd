//! What is kept of instructions while their code is tested.
ghost use Rattle.std.specs.Prelude.{◌≡◌};

use crate::owner::CodeOwner;
use std::marker::Model;
use std::mem::size_of;

/// What is kept of an instruction: whose code it is, and whether no operand stands before it. A contract sees both.
#[derive(Drop)]
pub(crate) struct CodeMark {
    is_unit: bool,
    is_empty: bool,
    // A method's number; 0 for code of a unit.
    number: u32,
}

// An instruction may take one byte of an object, and its mark takes at most eight times as many.
const _: () = prove!(size_of::<CodeMark>() <= 8);

impl Model for CodeMark {
    ghost use Rattle.std.specs.Prelude.{if◌then◌else◌};
    ghost use Rattle.ds2_valid_code.specs.declared.owner.CodeOwner.TheVariants.{Unit as UnitCode, Method as MethodCode};
    ghost use Rattle.ds2_valid_code.specs.CodeScan.{CodeMark as Mark};

    ghost Value = { Mark };

    ghost view = { λ m. record { owner = if m.is_unit then UnitCode else MethodCode m.number; is_empty = m.is_empty } };
}

impl CodeMark {
    /// The mark of an instruction of this owner's code.
    pub(crate) fn new(owner: CodeOwner, is_empty: bool) -> CodeMark
        ensures { result ≡ record { owner = owner; is_empty = is_empty } }
    {
        match owner {
            CodeOwner::Unit => CodeMark {
                is_unit: true,
                is_empty,
                number: 0,
            },
            CodeOwner::Method(number) => CodeMark {
                is_unit: false,
                is_empty,
                number,
            },
        }
    }

    /// Whose code it is.
    pub(crate) fn owner(&self) -> CodeOwner
        ensures { result ≡ self.now.owner }
    {
        if self.is_unit {
            CodeOwner::Unit
        } else {
            CodeOwner::Method(self.number)
        }
    }

    /// Whether no operand stands before it.
    pub(crate) fn is_empty(&self) -> bool
        ensures { result ≡ self.now.is_empty }
    {
        self.is_empty
    }
}
