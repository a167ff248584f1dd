//! Laws of the definitions: each function's contract is one, and its body is empty.
ghost use Rattle.ds2_value.specs.Keeping.{FittingIsHeld, AssignedFits, AssignKeeps};
ghost use Rattle.ds2_value.specs.Types.{JoinCommutes, JoinTakesBoth, TakesItself, TakesOnward};

/// The order of the two types is of no matter to [`crate::join_types`].
pub fn join_commutes()
    ensures { JoinCommutes }
{}

/// What [`crate::join_types`] gives for types in bounds is in bounds, and takes the values of both.
pub fn join_takes_both()
    ensures { JoinTakesBoth }
{}

/// Each type takes its own values.
pub fn takes_itself()
    ensures { TakesItself }
{}

/// A type that takes the values of a second one takes the values that this one takes from a third: so a join over several
/// tables takes the values of each.
pub fn takes_onward()
    ensures { TakesOnward }
{}

/// A value of a type in bounds is one that can be held.
pub fn fitting_is_held()
    ensures { FittingIsHeld }
{}

/// What [`crate::assign`] gives for a type in bounds is of this type.
pub fn assigned_fits()
    ensures { AssignedFits }
{}

/// [`crate::assign`] loses nothing of a value of a type that the other type takes.
pub fn assign_keeps()
    ensures { AssignKeeps }
{}
