//! What stands before the methods of a program.
ghost use Rattle.std.specs.Prelude.{◌≡◌};
ghost use Rattle.ds2_object_words.specs.Parts.{ReadsPart};
ghost use Rattle.ds2_object_programs.specs.ProgramSpelling.{globals_part};

use ds2_base::{List, Stop};
use ds2_code::{Constant, HashPart, Slot};
use ds2_object_words::{Flaw, Spelled, Unread};
use std::alloc::Global;

/// The slots, constants, hash objects, iterators and thread parameters of a program.
pub struct Globals {
    pub slots: List<Slot>,
    pub constants: List<Constant>,
    pub hashes: List<HashPart>,
    pub iterators: List<u32>,
    pub parameters: List<u32>,
}

// They are let go by a call, so that whoever lets them go need not know what they are.
impl Drop for Globals {
    fn drop(self) {
        let Globals {
            slots: _,
            constants: _,
            hashes: _,
            iterators: _,
            parameters: _,
        } = self;
    }
}

impl Globals {
    /// The lists: slots, constants, hash objects, iterators, parameters. Takes no memory.
    pub fn into_parts(
        self,
    ) -> (
        List<Slot>,
        List<Constant>,
        List<HashPart>,
        List<u32>,
        List<u32>,
    )
        ensures { result ≡ (self.slots, self.constants, self.hashes, self.iterators, self.parameters) }
    {
        let Globals {
            slots,
            constants,
            hashes,
            iterators,
            parameters,
        } = self;
        (slots, constants, hashes, iterators, parameters)
    }
}

// The lists, one behind the other.
type Lists = (
    List<Slot>,
    (List<Constant>, (List<HashPart>, (List<u32>, List<u32>))),
);

/// Takes them off the front of the bytes.
#[tactic(auto, unfolding(crate::specs::ProgramSpelling::globals_part))]
pub fn read_globals(alloc: Global, bytes: &mut Unread<'_>) -> Result<Globals, Stop<Flaw>>
    ensures { ReadsPart result (globals_part.read bytes.old) bytes.new }
{
    let (slots, (constants, (hashes, (iterators, parameters)))) = Lists::read(alloc, bytes)?;
    Ok(Globals {
        slots,
        constants,
        hashes,
        iterators,
        parameters,
    })
}
