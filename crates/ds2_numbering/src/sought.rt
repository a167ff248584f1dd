//! Locations, as a program names them.
ghost use Rattle.std.specs.Prelude.{◌≡◌};
ghost use Rattle.ds2_meaning.specs.declared.location.Global.TheVariants.{Named, Parameter};
ghost use Rattle.ds2_meaning.specs.Location.{is_same_home, is_same_global, is_same_location};
ghost use Rattle.ds2_meaning.specs.HashObjects.{object_at};
ghost use Rattle.ds2_layout.specs.Layout.{location_of_slot};
ghost use Rattle.ds2_numbering.specs.SoughtLocations.{home_of_name, global_of_sort, location_sought, stage_parameter_at};
ghost use Rattle.ds2_numbering.specs.SoughtKeys.{is_same_sort};

use ds2_base::Name;
use ds2_layout::LayoutSlot;
use ds2_meaning::Global;

/// Whose global it is: one of the program itself, or of the instance of a name.
#[derive(Clone, Copy)]
pub enum HomeName<'a> {
    Own,
    Instance(&'a Name),
}

/// A sort of globals.
#[derive(Clone, Copy)]
pub enum GlobalSort {
    Named,
    First,
    Last,
    Present,
    Parameter,
}

/// A location that is looked for.
#[derive(Clone, Copy)]
pub struct Sought<'a> {
    pub home: HomeName<'a>,
    pub sort: GlobalSort,
    pub name: &'a Name,
}

// Whose global it is, by the instance that a slot names.
fn home_name(instance: &Option<Name>) -> HomeName<'_>
    ensures { home_of_name result ≡ instance.now }
{
    match instance {
        None => HomeName::Own,
        Some(name) => HomeName::Instance(name),
    }
}

/// Whether two homes are one.
pub(crate) fn is_one_home(a: HomeName<'_>, b: HomeName<'_>) -> bool
    ensures { result ≡ is_same_home (home_of_name a.entry) (home_of_name b.entry) }
{
    match a {
        HomeName::Own => match b {
            HomeName::Own => true,
            HomeName::Instance(_) => false,
        },
        HomeName::Instance(name) => match b {
            HomeName::Own => false,
            HomeName::Instance(other) => name == other,
        },
    }
}

/// Whether two sorts are one.
pub(crate) fn is_one_sort(a: GlobalSort, b: GlobalSort) -> bool
    ensures { result ≡ is_same_sort a b }
{
    match a {
        GlobalSort::Named => matches!(&b, GlobalSort::Named),
        GlobalSort::First => matches!(&b, GlobalSort::First),
        GlobalSort::Last => matches!(&b, GlobalSort::Last),
        GlobalSort::Present => matches!(&b, GlobalSort::Present),
        GlobalSort::Parameter => matches!(&b, GlobalSort::Parameter),
    }
}

// Whether a global of a sort and a name is the variable, hash object or iterator of another name.
fn is_named(sort: GlobalSort, name: &Name, other: &Name) -> bool
    ensures { result ≡ is_same_global (global_of_sort sort name.now) (Named other.now) }
{
    match sort {
        GlobalSort::Named => name == other,
        GlobalSort::First => false,
        GlobalSort::Last => false,
        GlobalSort::Present => false,
        GlobalSort::Parameter => false,
    }
}

// Whether a global of a sort and a name is the parameter of another name.
fn is_parameter_name(sort: GlobalSort, name: &Name, other: &Name) -> bool
    ensures { result ≡ is_same_global (global_of_sort sort name.now) (Parameter other.now) }
{
    match sort {
        GlobalSort::Named => false,
        GlobalSort::First => false,
        GlobalSort::Last => false,
        GlobalSort::Present => false,
        GlobalSort::Parameter => name == other,
    }
}

impl<'a> Sought<'a> {
    /// A variable, a hash object or an iterator of a home.
    pub fn named(home: HomeName<'a>, name: &'a Name) -> Sought<'a>
        ensures { location_sought result ≡ object_at (home_of_name home.entry) name.now }
    {
        Sought {
            home,
            sort: GlobalSort::Named,
            name,
        }
    }

    /// A global of the program itself, of a sort.
    pub fn own(sort: GlobalSort, name: &'a Name) -> Sought<'a>
        ensures { location_sought result ≡ record { home = None; global = global_of_sort sort name.now } }
    {
        Sought {
            home: HomeName::Own,
            sort,
            name,
        }
    }

    /// A global of a home.
    pub fn global(home: HomeName<'a>, global: &'a Global) -> Sought<'a>
        ensures { location_sought result ≡ record { home = home_of_name home.entry; global = global.now } }
    {
        match global {
            Global::Named(name) => Sought::named(home, name),
            Global::First(name) => Sought {
                home,
                sort: GlobalSort::First,
                name,
            },
            Global::Last(name) => Sought {
                home,
                sort: GlobalSort::Last,
                name,
            },
            Global::Present(name) => Sought {
                home,
                sort: GlobalSort::Present,
                name,
            },
            Global::Parameter(name) => Sought {
                home,
                sort: GlobalSort::Parameter,
                name,
            },
        }
    }

    /// What a slot is for.
    pub fn slot(slot: &'a LayoutSlot) -> Sought<'a>
        ensures { location_sought result ≡ location_of_slot slot.now }
    {
        Sought::global(home_name(&slot.instance), &slot.global)
    }

    /// A parameter of the instance of a thread program.
    pub fn parameter(instance: &'a Name, name: &'a Name) -> Sought<'a>
        ensures { location_sought result ≡ stage_parameter_at instance.now name.now }
    {
        Sought {
            home: HomeName::Instance(instance),
            sort: GlobalSort::Parameter,
            name,
        }
    }

    /// Whether it is the hash object or the iterator of a name in a home.
    pub fn is_object(&self, home: HomeName<'_>, name: &Name) -> bool
        ensures { result ≡ is_same_location (location_sought self.now) (object_at (home_of_name home.entry) name.now) }
    {
        is_one_home(self.home, home) && is_named(self.sort, self.name, name)
    }

    /// Whether it is the parameter of a name of an instance of a thread program.
    pub fn is_parameter(&self, instance: &Name, name: &Name) -> bool
        ensures { result ≡ is_same_location (location_sought self.now) (stage_parameter_at instance.now name.now) }
    {
        is_one_home(self.home, HomeName::Instance(instance))
            && is_parameter_name(self.sort, self.name, name)
    }
}
