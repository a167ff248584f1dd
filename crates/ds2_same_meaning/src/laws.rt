//! Laws of a program's code, over the definitions alone.
ghost use Rattle.ds2_same_meaning.specs.SameMeaning.{OutputsHaveSlots, TypedProgramsMeanSame};

/// The code of a typed program, over tables or with the thread programs that it reads from, means the same as the program: over any tables and
/// with every budget both leave the same rows and lines and end alike, the code mentions the same tables, and its outputs make the same tables. So
/// it is with each of the thread programs, whatever values its parameters have.
pub fn typed_programs_mean_same()
    ensures { TypedProgramsMeanSame }
{
    crate::answer_laws::typed_programs_answer_alike();
    ds2_program_code::count_laws::typed_units_count_by_way();
}

/// In the code of a typed program each output has slots of the types of its columns, so that a later program can name its table.
pub fn outputs_have_slots()
    ensures { OutputsHaveSlots }
{}
