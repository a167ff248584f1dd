//! Laws of the code of expressions, statements and units, over the definitions alone.
ghost use Rattle.ds2_gen.specs.BodyCode.{BodiesStayInList};
ghost use Rattle.ds2_gen.specs.GenLaws.{ExpressionsEvaluate, StatementsAreCarriedOut, WaysFixCounts};
ghost use Rattle.ds2_gen.specs.UnitExample.{UnitExample};
ghost use Rattle.ds2_gen.specs.UnitTheorem.{CodeKeepsMeaning};

/// The code of an expression leaves its value, or its fault ends the run, wherever it stands and whatever a machine holds.
pub fn expressions_evaluate()
    ensures { ExpressionsEvaluate }
{}

/// The code of a statement comes to its end, or to the exit that the statement takes, or its fault ends the run.
pub fn statements_are_carried_out()
    ensures { StatementsAreCarriedOut }
{}

/// The code of a program's units does what they mean: for every budget and load, and all data that holds a state, each unit ends with
/// the meaning's rows, lines, way, place and budget left, by its fault where there is one, and after a normal end with its state.
pub fn code_keeps_meaning()
    ensures { CodeKeepsMeaning }
{
    ds2_code::laws::units_have_their_end();
}

/// Code that is made of the bodies of a program has bounded jumps, and no run leaves it.
pub fn bodies_stay_in_list()
    ensures { BodiesStayInList }
{}

/// The way of such a unit tells how many instructions it executes.
pub fn ways_fix_counts()
    ensures { WaysFixCounts }
{
    ds2_code::laws::units_count_alike();
}

/// A small program with a local, a `select` over a kept value, a call of a method that changes a variable of its caller, and an implicit
/// output has code that meets all that [`code_keeps_meaning`] asks for.
pub fn unit_example()
    ensures { UnitExample }
{}
