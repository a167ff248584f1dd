//! Laws of written programs.
ghost use Rattle.ds2_object_programs.specs.ProgramRules.{AreLawfulPrograms};

/// What is spelled is read, and what is read is spelled; a program is what is written of it, and no other one is written so.
pub fn programs_have_one_writing()
    ensures { AreLawfulPrograms }
{}
