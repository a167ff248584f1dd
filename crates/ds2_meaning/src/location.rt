//! What the nodes of a typed tree name.

use ds2_base::Name;

/// Something outside the methods that a unit names. A flag and a variable of one name are two globals.
#[derive(Drop)]
pub enum Global {
    /// A declared variable, a column, a hash object or an iterator.
    Named(Name),
    /// The flag `first.v` of a BY variable.
    First(Name),
    /// The flag `last.v` of a BY variable.
    Last(Name),
    /// The flag that an input table's `in=` names.
    Present(Name),
    /// A parameter of a thread program.
    Parameter(Name),
}

/// A variable that a method names.
#[derive(Drop)]
pub enum Reference {
    /// A global of the method's own unit.
    At(Global),
    /// A parameter or a local of the method.
    Local(Name),
}
