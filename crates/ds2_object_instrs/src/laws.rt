//! Laws of written instructions.
ghost use Rattle.ds2_object_instrs.specs.LawfulInstrs.{AreLawfulInstrs};

/// What is spelled is read, and what is read is spelled; an instruction is what is written of it, and no other one is written so.
pub fn instructions_have_one_writing()
    ensures { AreLawfulInstrs }
{}
