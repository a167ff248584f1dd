//! Compiled programs.
ghost use Rattle.std.specs.Prelude.{◌≡◌, SomeIff, IsTrue};
ghost use Rattle.ds2_object.specs.ObjectSpelling.{object_linked, IsValidObject};

use crate::links::programs_are_linked;
use ds2_base::List;
use ds2_valid_code::ProgramCode;
use std::marker::Model;

/// Programs of valid code, fewer than 2 ^ 32. None of them has a thread program's name, and each table that one names is the store's or
/// an output, with its columns, of an earlier one. A contract sees the list of their parts.
#[derive(Drop)]
pub struct ObjectCode {
    programs: List<ProgramCode>,
}

impl Model for ObjectCode {
    ghost use Rattle.std.specs.Prelude.{List as Items, IsTrue};
    ghost use Rattle.ds2_code.specs.declared.parts.StagedParts.{StagedParts as Parts};
    ghost use Rattle.ds2_object.specs.ObjectSpelling.{object_linked as linked};

    ghost Value = { Items Parts };

    ghost view = { λ o. o.programs };

    ghost invariant = { λ o. IsTrue (linked o.programs) };
}

impl ObjectCode {
    /// The object of these programs. None exactly where there are 2 ^ 32 or more of them, where one has a thread program's name, or
    /// where one names a table by a maker that has no such output or is no earlier program.
    pub fn new(programs: List<ProgramCode>) -> Option<ObjectCode>
        ensures { SomeIff result (IsTrue (object_linked programs)) programs }
    {
        if programs_are_linked(programs.as_slice()) {
            Some(ObjectCode { programs })
        } else {
            None
        }
    }

    // The object of programs that are linked.
    pub(crate) fn of_linked(programs: List<ProgramCode>) -> ObjectCode
        requires { IsTrue (object_linked programs) }
        ensures { result ≡ programs }
    {
        ObjectCode { programs }
    }

    /// The programs, in order.
    pub fn programs(&self) -> &List<ProgramCode>
        ensures value { result.now ≡ self.now }
        ensures linked { IsTrue (object_linked self.now) }
    {
        &self.programs
    }
}
