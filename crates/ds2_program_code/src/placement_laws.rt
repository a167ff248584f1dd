//! Laws of the placements of a program, over the definitions alone.
ghost use Rattle.ds2_program_code.specs.KeptTypes.{EachValueHasType};
ghost use Rattle.ds2_program_code.specs.PlacementLaws.{PlacementsFit, LayoutRolesFit};
ghost use Rattle.ds2_program_code.specs.TypedIsCovered.{TypedIsCovered};

/// The placements of a program's system methods and methods are such as the laws of code ask for, and calls may go from each to each
/// method.
pub fn placements_fit()
    ensures { PlacementsFit }
{}

/// `run` sets the slots of a program to null that its meaning sets to null, where they have the roles of its layout.
pub fn layout_roles_fit()
    ensures { LayoutRolesFit }
{}

/// There is a type for each value that the code of a body keeps.
pub fn each_value_has_type()
    ensures { EachValueHasType }
{}

/// Typed statements have all that their code needs, where what they may name has its place, and the constants that they use have their
/// numbers.
pub fn typed_is_covered()
    ensures { TypedIsCovered }
{}
