//! Laws of the code of local thread programs, over the definitions alone.
ghost use Rattle.ds2_same_meaning.specs.CodeIndependence.{LocalCodeIsIndependent};
ghost use Rattle.ds2_same_meaning.specs.CodeStates.{LocalCodeMakesStage};
ghost use Rattle.ds2_same_meaning.specs.FixedInCode.{RunsLeaveFixedInCode};
ghost use Rattle.ds2_same_meaning.specs.IndependenceInCode.{FixedIsFixedInCode, IndependenceHoldsInCode, LocalCodeIsIndependentInCode};
ghost use Rattle.ds2_same_meaning.specs.LocalGroups.{LocalCodeHasIndependentGroups};

/// The code of a typed thread program that the verdict calls local at a grain gives for each group there the same rows, lines, ending and
/// numbers of executed instructions, whatever came before.
pub fn local_code_is_independent()
    ensures { LocalCodeIsIndependent }
{
    ds2_locality::laws::local_is_independent();
    ds2_program_code::laws::typed_units_run_as_meant();
    ds2_program_code::count_laws::typed_units_count_by_way();
}

/// The code of a typed thread program that the verdict calls local at a grain makes a stage whose groups are independent there: data of the
/// code are its states, and what they keep at the fixed locations is what they have to agree on.
pub fn local_code_makes_stage()
    ensures { LocalCodeMakesStage }
{
    local_code_is_independent();
}

/// The groups at a grain of the code of a typed thread program that the verdict calls local there are independent over its tables: each gives the
/// same rows, lines and ending and executes equally many instructions, whatever groups ran before it, and so does `term`.
pub fn local_code_has_independent_groups()
    ensures { LocalCodeHasIndependentGroups }
{
    local_code_makes_stage();
    ds2_program_code::laws::typed_units_run_as_meant();
    crate::answer_laws::typed_loads_are_alike();
}

/// `run` of any code, where it ends normally, leaves as it was what is kept from one load to the next and what no instruction changes that can be
/// reached from its entry.
pub fn runs_leave_fixed_in_code()
    ensures { RunsLeaveFixedInCode }
{}

/// What is fixed in the tree of a typed program is fixed in its code: no instruction that can be reached from the entry of `run` changes its cell.
pub fn fixed_is_fixed_in_code()
    ensures { FixedIsFixedInCode }
{
    ds2_program_code::laws::typed_programs_have_code();
    ds2_gen::laws::bodies_stay_in_list();
}

/// Where the code of a typed program is group independent by the locations that are fixed in its tree, it is so by what is fixed in the code.
pub fn independence_holds_in_code()
    ensures { IndependenceHoldsInCode }
{
    fixed_is_fixed_in_code();
    ds2_program_code::laws::typed_loads_have_slots();
}

/// The code of a typed thread program that the verdict calls local at a grain is group independent there by what is fixed in the code.
pub fn local_code_is_independent_in_code()
    ensures { LocalCodeIsIndependentInCode }
{
    local_code_is_independent();
    independence_holds_in_code();
}
