//! Laws of numbers, over the definitions alone.
ghost use Rattle.ds2_deeds.specs.CallsByNumber.{OnceToldAreDistinct, OwnMethodsAreFirst, CalleesByNumber, ReachedByNumber};

/// Locations that are told once have the numbers of their places.
pub fn once_told_are_distinct()
    ensures { OnceToldAreDistinct }
{}

/// A program's own methods have the numbers that they have there.
pub fn own_methods_are_first()
    ensures { OwnMethodsAreFirst }
{}

/// What deeds and all methods that they may call do is found by numbers.
pub fn callees_are_found()
    ensures { CalleesByNumber }
{}

/// Which methods deeds may call is found by numbers.
pub fn reached_are_found()
    ensures { ReachedByNumber }
{}
