//! Laws over all decimals, each the contract of a function that does nothing.
ghost use Rattle.ds2_decimal.specs.Laws.{CompareIsTotal, CompareIsExact, RoundIsNearest, FloorIsGreatest, CeilIsLeast, RescaleReturns, QuotientIsNear, ReadsWritten};

/// `compare` is a total order.
pub fn compare_is_total()
    ensures { CompareIsTotal }
{}

/// `compare` orders the numbers that decimals stand for, whatever their scales.
pub fn compare_is_exact()
    ensures { CompareIsExact }
{}

/// Rounding is to the nearest, a half away from zero.
pub fn round_is_nearest()
    ensures { RoundIsNearest }
{}

/// `floor` gives the greatest whole number that is not above.
pub fn floor_is_greatest()
    ensures { FloorIsGreatest }
{}

/// `ceil` gives the least whole number that is not below.
pub fn ceil_is_least()
    ensures { CeilIsLeast }
{}

/// `rescale` to a greater scale and back is the identity where it fits.
pub fn rescale_returns()
    ensures { RescaleReturns }
{}

/// A quotient times the divisor differs from the dividend by at most half a unit of the quotient's last place times the
/// divisor.
pub fn quotient_is_near()
    ensures { QuotientIsNear }
{}

/// `read` of the written text gives the decimal back.
pub fn reads_written()
    ensures { ReadsWritten }
{}
