//! A law of the code of typed programs, over the definitions alone.
ghost use Rattle.ds2_program_code.specs.CountsByWay.{TypedUnitsCountByWay};

/// The way of a call tells how many instructions it executes: two calls of one unit of a typed program's code whose ways are equal in the
/// meaning execute equally many, whatever their budgets, data and loads.
pub fn typed_units_count_by_way()
    ensures { TypedUnitsCountByWay }
{
    ds2_code::laws::units_count_alike();
    crate::laws::typed_units_run_as_meant();
}
