//! The locations of a program, by what they are named, and their numbers among locations in order.
ghost use Rattle.std.specs.Prelude.{◌≡◌};
ghost use Rattle.ds2_meaning.specs.declared.location.Global.TheVariants.{Named, First, Last, Present, Parameter};
ghost use Rattle.ds2_meaning.specs.HashObjects.{object_at};
ghost use Rattle.ds2_meaning.specs.Location.{is_same_home, is_same_global, is_same_location};
ghost use Rattle.ds2_locality.specs.Deeds.{global_at};
ghost use Rattle.ds2_program_code.specs.PlacedProgram.{number_of_location};
ghost use Rattle.ds2_deeds.specs.NamedLocations.{code_home, global_named, location_named, locations_named};

use ds2_base::Name;
use ds2_meaning::Global;

/// Whose code it is: the program's own, or that of the package of an instance.
#[derive(Clone, Copy)]
pub enum CodeHome<'p> {
    Program,
    /// That of the instance of this name.
    Instance(&'p Name),
}

/// A global by its sort and its name.
#[derive(Clone, Copy)]
pub enum GlobalName<'p> {
    /// A variable, a hash object or an iterator.
    Named(&'p Name),
    /// `first.v` of a BY variable.
    First(&'p Name),
    /// `last.v` of a BY variable.
    Last(&'p Name),
    /// An `in=` flag.
    Present(&'p Name),
    /// A parameter of a thread program.
    Parameter(&'p Name),
}

/// A location of a program.
#[derive(Clone, Copy)]
pub struct LocationName<'p> {
    pub home: CodeHome<'p>,
    pub global: GlobalName<'p>,
}

/// The home of the instance of a name, or of the program itself.
pub fn home_of(instance: &Option<Name>) -> CodeHome<'_>
    ensures { code_home result ≡ instance.now }
{
    match instance {
        None => CodeHome::Program,
        Some(name) => CodeHome::Instance(name),
    }
}

/// A global by its sort and its name.
pub fn global_of(global: &Global) -> GlobalName<'_>
    ensures { global_named result ≡ global.now }
{
    match global {
        Global::Named(name) => GlobalName::Named(name),
        Global::First(name) => GlobalName::First(name),
        Global::Last(name) => GlobalName::Last(name),
        Global::Present(name) => GlobalName::Present(name),
        Global::Parameter(name) => GlobalName::Parameter(name),
    }
}

/// Whether two homes are one.
pub fn is_one_home(a: CodeHome<'_>, b: CodeHome<'_>) -> bool
    ensures { result ≡ is_same_home (code_home a.entry) (code_home b.entry) }
{
    match a {
        CodeHome::Program => match b {
            CodeHome::Program => true,
            CodeHome::Instance(_) => false,
        },
        CodeHome::Instance(name) => match b {
            CodeHome::Program => false,
            CodeHome::Instance(other) => name == other,
        },
    }
}

// Whether a global is the variable, hash object or iterator of this name.
fn is_named(name: &Name, global: GlobalName<'_>) -> bool
    ensures { result ≡ is_same_global (Named name.now) (global_named global.entry) }
{
    match global {
        GlobalName::Named(other) => name == other,
        GlobalName::First(_) => false,
        GlobalName::Last(_) => false,
        GlobalName::Present(_) => false,
        GlobalName::Parameter(_) => false,
    }
}

// Whether a global is `first.v` of this name.
fn is_first(name: &Name, global: GlobalName<'_>) -> bool
    ensures { result ≡ is_same_global (First name.now) (global_named global.entry) }
{
    match global {
        GlobalName::Named(_) => false,
        GlobalName::First(other) => name == other,
        GlobalName::Last(_) => false,
        GlobalName::Present(_) => false,
        GlobalName::Parameter(_) => false,
    }
}

// Whether a global is `last.v` of this name.
fn is_last(name: &Name, global: GlobalName<'_>) -> bool
    ensures { result ≡ is_same_global (Last name.now) (global_named global.entry) }
{
    match global {
        GlobalName::Named(_) => false,
        GlobalName::First(_) => false,
        GlobalName::Last(other) => name == other,
        GlobalName::Present(_) => false,
        GlobalName::Parameter(_) => false,
    }
}

// Whether a global is the `in=` flag of this name.
fn is_present(name: &Name, global: GlobalName<'_>) -> bool
    ensures { result ≡ is_same_global (Present name.now) (global_named global.entry) }
{
    match global {
        GlobalName::Named(_) => false,
        GlobalName::First(_) => false,
        GlobalName::Last(_) => false,
        GlobalName::Present(other) => name == other,
        GlobalName::Parameter(_) => false,
    }
}

// Whether a global is the parameter of this name.
fn is_parameter(name: &Name, global: GlobalName<'_>) -> bool
    ensures { result ≡ is_same_global (Parameter name.now) (global_named global.entry) }
{
    match global {
        GlobalName::Named(_) => false,
        GlobalName::First(_) => false,
        GlobalName::Last(_) => false,
        GlobalName::Present(_) => false,
        GlobalName::Parameter(other) => name == other,
    }
}

// Whether two globals are one.
fn is_one_global(a: GlobalName<'_>, b: GlobalName<'_>) -> bool
    ensures { result ≡ is_same_global (global_named a.entry) (global_named b.entry) }
{
    match a {
        GlobalName::Named(name) => is_named(name, b),
        GlobalName::First(name) => is_first(name, b),
        GlobalName::Last(name) => is_last(name, b),
        GlobalName::Present(name) => is_present(name, b),
        GlobalName::Parameter(name) => is_parameter(name, b),
    }
}

/// Whether two locations are one.
pub(crate) fn is_one_location(a: LocationName<'_>, b: LocationName<'_>) -> bool
    ensures { result ≡ is_same_location (location_named a.entry) (location_named b.entry) }
{
    is_one_home(a.home, b.home) && is_one_global(a.global, b.global)
}

/// A global of a home.
pub fn global_location<'p>(home: CodeHome<'p>, global: &'p Global) -> LocationName<'p>
    ensures { location_named result ≡ global_at (code_home home.entry) global.now }
{
    LocationName {
        home,
        global: global_of(global),
    }
}

/// The variable, the hash object or the iterator of a name in a home.
pub fn named_location<'p>(home: CodeHome<'p>, name: &'p Name) -> LocationName<'p>
    ensures { location_named result ≡ object_at (code_home home.entry) name.now }
{
    LocationName {
        home,
        global: GlobalName::Named(name),
    }
}

/// The number of a location among locations in order, where it is one of them, by a walk over all.
pub(crate) fn number_by_walk(locations: &[LocationName<'_>], at: LocationName<'_>) -> Option<usize>
    ensures { result ≡ number_of_location (locations_named locations.now) (location_named at.entry) }
{
    let mut number: usize = 0;
    'locations: for other in locations {
        if is_one_location(at, *other) {
            return Some(number);
        }
        number += 1;
    }
    None
}
