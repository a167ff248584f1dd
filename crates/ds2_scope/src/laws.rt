//! Laws of the rules of names, over the definitions alone.
ghost use Rattle.ds2_scope.specs.Lesser.{RefusalOfPlaces};

/// The refusal of a unit's names follows from the earliest place at which it breaks each rule.
pub fn refusal_of_places()
    ensures { RefusalOfPlaces }
{}
