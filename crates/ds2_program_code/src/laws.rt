//! Laws of the code of typed programs, over the definitions alone.
ghost use Rattle.ds2_program_code.specs.LayoutsFit.{TypedLayoutsFit};
ghost use Rattle.ds2_program_code.specs.LoadSettings.{TypedLoadsHaveSlots};
ghost use Rattle.ds2_program_code.specs.Opening.{TypedProgramsOpenAlike};
ghost use Rattle.ds2_program_code.specs.ProgramCodeExamples.{ProgramCodeExamples};
ghost use Rattle.ds2_program_code.specs.ProgramCodeLaws.{TypedProgramsHaveCode, TypedProgramsKeepMeaning};
ghost use Rattle.ds2_program_code.specs.ProgramRuns.{TypedUnitsRunAsMeant};
ghost use Rattle.ds2_program_code.specs.StageRows.{StageRowsSetSlots};
ghost use Rattle.ds2_program_code.specs.TypedCode.{TypedCodeHasTypes};
ghost use Rattle.ds2_program_code.specs.ValidParts.{TypedProgramsHaveValidParts};
ghost use Rattle.ds2_program_code.specs.ValidProgram.{TypedValuesAreAllowed, TypedCodeIsValid, TypedStagesAreValid};

/// The code of a typed program has all that `ds2_gen`'s theorem asks for.
pub fn typed_programs_have_code()
    ensures { TypedProgramsHaveCode }
{
    crate::placement_laws::placements_fit();
    crate::placement_laws::layout_roles_fit();
    crate::placement_laws::each_value_has_type();
    crate::placement_laws::typed_is_covered();
    ds2_gen::laws::bodies_stay_in_list();
}

/// The code of a typed program does what the program means: each unit ends as it means, for every budget, load and state.
pub fn typed_programs_keep_meaning()
    ensures { TypedProgramsKeepMeaning }
{
    typed_programs_have_code();
    ds2_gen::laws::code_keeps_meaning();
}

/// Every global that a load of a typed program sets has its slot in the code.
pub fn typed_loads_have_slots()
    ensures { TypedLoadsHaveSlots }
{}

/// A row of the thread program that a typed program reads from leaves the same slots, whether its columns are set in their order or from the
/// last one on.
pub fn stage_rows_set_slots()
    ensures { StageRowsSetSlots }
{}

/// Each unit of a typed program's code does what the unit means, `run` with each load, and leaves data with which the next unit does so.
pub fn typed_units_run_as_meant()
    ensures { TypedUnitsRunAsMeant }
{
    crate::placement_laws::each_value_has_type();
    typed_loads_have_slots();
    typed_programs_keep_meaning();
}

/// In the code of a typed program each number beside the instructions names a part that is there, outputs have different names, and a jump
/// that does not go forward goes to where a step of the budget begins.
pub fn typed_programs_have_valid_parts()
    ensures { TypedProgramsHaveValidParts }
{
    crate::placement_laws::each_value_has_type();
    typed_programs_have_code();
}

/// Slots and layout of a typed program's code fit its tables, and those of the thread program that it reads from.
pub fn typed_layouts_fit()
    ensures { TypedLayoutsFit }
{
    crate::placement_laws::each_value_has_type();
}

/// The code of a typed program within limits has operand types along its list.
pub fn typed_code_has_types()
    ensures { TypedCodeHasTypes }
{
    crate::placement_laws::each_value_has_type();
    crate::operand_laws::statements_have_types();
}

/// The code of a typed program within limits holds values that an object file can hold.
pub fn typed_values_are_allowed()
    ensures { TypedValuesAreAllowed }
{
    crate::placement_laws::each_value_has_type();
}

/// The code of a typed program within limits is valid.
pub fn typed_code_is_valid()
    ensures { TypedCodeIsValid }
{
    typed_code_has_types();
    typed_programs_have_valid_parts();
    typed_values_are_allowed();
    typed_layouts_fit();
}

/// The code of a typed program within limits is valid with that of the thread program that it reads from.
pub fn typed_stages_are_valid()
    ensures { TypedStagesAreValid }
{
    typed_code_is_valid();
}

/// Before its first unit the data of a typed program's code hold what the program opens with.
pub fn typed_programs_open_alike()
    ensures { TypedProgramsOpenAlike }
{
    crate::placement_laws::each_value_has_type();
}

/// The code of small programs, part by part.
pub fn program_code_examples()
    ensures { ProgramCodeExamples }
{}
