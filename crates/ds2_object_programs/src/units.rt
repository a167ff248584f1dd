//! What stands behind the reading of a program, before its instructions.
ghost use Rattle.std.specs.Prelude.{◌≡◌};
ghost use Rattle.ds2_object_words.specs.Parts.{ReadsPart};
ghost use Rattle.ds2_object_programs.specs.ProgramSpelling.{units_part};

use ds2_base::{List, Stop};
use ds2_code::OutputPart;
use ds2_object_words::{Flaw, Spelled, Unread};
use std::alloc::Global;

/// The outputs of a program, and where its units begin.
pub struct Units {
    pub outputs: List<OutputPart>,
    pub init: u32,
    pub run: u32,
    pub term: u32,
}

impl Drop for Units {
    fn drop(self) {
        let Units {
            outputs: _,
            init: _,
            run: _,
            term: _,
        } = self;
    }
}

impl Units {
    /// The outputs and the entries of `init`, `run` and `term`. Takes no memory.
    pub fn into_parts(self) -> (List<OutputPart>, u32, u32, u32)
        ensures { result ≡ (self.outputs, self.init, self.run, self.term) }
    {
        let Units {
            outputs,
            init,
            run,
            term,
        } = self;
        (outputs, init, run, term)
    }
}

// The outputs and the entries, one behind the other.
type Parts = (List<OutputPart>, (u32, (u32, u32)));

/// Takes them off the front of the bytes.
#[tactic(auto, unfolding(crate::specs::ProgramSpelling::units_part))]
pub fn read_units(alloc: Global, bytes: &mut Unread<'_>) -> Result<Units, Stop<Flaw>>
    ensures { ReadsPart result (units_part.read bytes.old) bytes.new }
{
    let (outputs, (init, (run, term))) = Parts::read(alloc, bytes)?;
    Ok(Units {
        outputs,
        init,
        run,
        term,
    })
}
