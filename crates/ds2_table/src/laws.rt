//! Laws of the definitions: each function's contract is one, and its body is empty.
ghost use Rattle.ds2_table.specs.LoadLaws.{GroupsDivideLoads, LoadsStandInByOrder, PartsRunAsOne, RowsStandInByOrder};

/// Rows in BY order are sorted by their keys, and those of one key stand in the order of the statement: no row is lost or doubled.
pub fn rows_stand_in_by_order()
    ensures { RowsStandInByOrder }
{}

/// The loads of `set` stand in BY order, and so do those of `merge`.
pub fn loads_stand_in_by_order()
    ensures { LoadsStandInByOrder }
{}

/// The groups of loads in BY order, one after the other, are the loads: no load is lost, doubled or moved.
pub fn groups_divide_loads()
    ensures { GroupsDivideLoads }
{}

/// Loads in two parts run as one list: what the first part leaves, and then what the second part leaves from there.
pub fn parts_run_as_one<L, C>()
    ensures { PartsRunAsOne L C }
{}
