//! What holds of the values of valid code.
ghost use Rattle.ds2_code.specs.CodeOpening.{CodeOpeningFits, RowsSetWhatFits};
ghost use Rattle.ds2_code.specs.Fitting.{UnitsBeginFitting, InstructionsKeepTypes, UnitsEndFitting, FaultsLeaveRows, ValidCodeLeavesWhatFits};

use crate::laws::{instructions_leave_less, units_begin_with_little, valid_code_ends};
use ds2_value::laws::{assigned_fits, fitting_is_held};

/// A unit begins with values of their types where its data fit.
pub fn units_begin_fitting()
    ensures { UnitsBeginFitting }
{
    units_begin_with_little();
}

/// Each instruction that goes on leaves operands, locals, slots, items and rows of their types where it finds them.
pub fn instructions_keep_types()
    ensures { InstructionsKeepTypes }
{
    fitting_is_held();
    assigned_fits();
    instructions_leave_less();
}

/// A unit that comes to its end leaves data that fit, and rows of its outputs.
pub fn units_end_fitting()
    ensures { UnitsEndFitting }
{
    fitting_is_held();
    assigned_fits();
}

/// A unit that ends by a fault leaves rows of its outputs.
pub fn faults_leave_rows()
    ensures { FaultsLeaveRows }
{
    fitting_is_held();
    assigned_fits();
}

/// A unit of valid code from data and a load that fit ends in time, is never stuck, and leaves what fits.
pub fn valid_code_leaves_what_fits()
    ensures { ValidCodeLeavesWhatFits }
{
    valid_code_ends();
    units_begin_fitting();
    instructions_keep_types();
    units_end_fitting();
    faults_leave_rows();
}

/// The data of valid code before its first unit fit: slots are null but for the program's own parameters, and hash objects are loaded
/// from rows that fit.
pub fn code_opening_fits()
    ensures { CodeOpeningFits }
{
    fitting_is_held();
    assigned_fits();
}

/// What a row that fits its columns sets fits the slots, whatever slots its columns have.
pub fn rows_set_what_fits()
    ensures { RowsSetWhatFits }
{
    fitting_is_held();
    assigned_fits();
}
