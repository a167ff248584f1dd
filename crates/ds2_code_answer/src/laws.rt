//! Laws of valid code, of its loads and of its endings, over the definitions alone.
ghost use Rattle.ds2_code_answer.specs.CodeLoadLaws.{LoadsAreScaled, ReadingsFitTables};
ghost use Rattle.ds2_code_answer.specs.Endings.{UnitsGiveEndings, ValidCodeHasEndings};

use ds2_code::laws::valid_code_ends;

/// Every load sets decimals of the scales of their slots.
pub fn loads_are_scaled()
    ensures { LoadsAreScaled }
{}

/// The reading statement of valid code fits tables with the columns that the code names.
pub fn readings_fit_tables()
    ensures { ReadingsFitTables }
{}

/// A program whose units have ends has an ending, and so has each thread program that it has read from.
pub fn units_give_endings<L, C>()
    ensures { UnitsGiveEndings L C }
{}

/// A program of valid code has an ending, normal or by a fault, and so has each thread program that it has read from.
pub fn valid_code_has_endings()
    ensures { ValidCodeHasEndings }
{
    valid_code_ends();
}
