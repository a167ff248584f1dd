//! What holds of the scales of decimals along the run of valid code.
ghost use Rattle.ds2_code.specs.Scales.{UnitsBeginScaled, InstructionsKeepScales, ProductsHaveScales, UnitsEndScaled, SettingsKeepScales, ClearingKeepsScales, LoadedHashesAreScaled};

/// A unit begins with decimals of their scales where the program's data has them.
pub fn units_begin_scaled()
    ensures { UnitsBeginScaled }
{}

/// Each instruction that goes on leaves decimals of their scales where it finds them.
pub fn instructions_keep_scales()
    ensures { InstructionsKeepScales }
{}

/// The scales of two decimals that are multiplied sum to at most 38.
pub fn products_have_scales()
    ensures { ProductsHaveScales }
{}

/// A unit that comes to its end leaves data with decimals of their scales.
pub fn units_end_scaled()
    ensures { UnitsEndScaled }
{}

/// Settings whose values have the scales of their slots keep the scales of slots.
pub fn settings_keep_scales()
    ensures { SettingsKeepScales }
{}

/// Slots that `run` sets to null keep the scales of slots.
pub fn clearing_keeps_scales()
    ensures { ClearingKeepsScales }
{}

/// Hash objects that are loaded from tables begin with decimals of the scales of their data variables.
pub fn loaded_hashes_are_scaled()
    ensures { LoadedHashesAreScaled }
{}
