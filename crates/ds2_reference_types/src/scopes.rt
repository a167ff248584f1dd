//! What the statements of a method see: names of variables, of methods and of objects, looked up in tables.
ghost use Rattle.std.specs.Prelude.{◌≡◌, nat_eq};
ghost use Rattle.std.specs.Cmp.Lexicographic.{pointwise};
ghost use Rattle.std.specs.HashMap.{get};
ghost use Rattle.std.specs.Option.{option_copied};
ghost use Rattle.ds2_reference_types.specs.Scopes.{known_in, object_in};

use ds2_base::{Bytes, List, Name, Refusal};
use ds2_meaning::{Parameter, TypeKind};
use ds2_scope::NameTable;
use ds2_value::Ty;
use std::collections::HashMap;

/// What kind of variable a name stands for.
#[derive(Clone, Copy, PartialEq, Eq)]
pub enum Standing {
    /// A parameter or a local of the method.
    Local,
    /// A declared variable or a column.
    Variable,
    /// A parameter of a thread program.
    Parameter,
    /// The flag that an input table's `in=` names.
    Flag,
}

/// A variable that a name stands for, with its type, and the rule that is broken where it is a column whose tables do not join.
#[derive(Drop)]
pub struct KnownName {
    pub name: Name,
    pub standing: Standing,
    pub ty: Ty,
    pub refusal: Option<Refusal<TypeKind>>,
}

/// A method that can be called: its number among them, from 0, its parameters, and the type that it returns.
#[derive(Drop)]
pub struct KnownMethod {
    pub number: u32,
    pub parameters: List<Parameter>,
    pub returns: Option<Ty>,
}

/// What can be called on an object.
#[derive(Drop)]
pub enum KnownCalls {
    /// The methods of the package that an instance is one of.
    Methods(KnownMethods),
    /// Those of a hash object.
    Hash,
    /// Those of an iterator.
    Iterator,
    /// `setparms` of an instance of a thread program with these parameters, none of which is in_out.
    Parameters(List<Parameter>),
}

/// An object that a unit declares, with what can be called on it.
#[derive(Drop)]
pub struct KnownObject {
    pub name: Name,
    pub calls: KnownCalls,
}

/// Variables by their names.
pub type KnownNames = HashMap<Bytes, KnownName>;

/// BY variables by their names.
pub type KnownBys = HashMap<Bytes, Name>;

/// Methods by their names.
pub type KnownMethods = NameTable<KnownMethod>;

/// Objects by their names.
pub type KnownObjects = HashMap<Bytes, KnownObject>;

/// What the names of a method stand for: its parameters and locals, behind them the variables of the unit, the BY variables of
/// what it reads, its methods, and its objects.
#[derive(Clone, Copy)]
pub struct Scope<'a> {
    pub locals: &'a KnownNames,
    pub globals: &'a KnownNames,
    pub bys: &'a KnownBys,
    pub methods: &'a KnownMethods,
    pub objects: &'a KnownObjects,
}

/// The one of these methods that has a name.
pub fn method_among<'m>(methods: &'m KnownMethods, name: &Bytes) -> Option<&'m KnownMethod>
    ensures { option_copied result ≡ get (pointwise nat_eq) methods.now name.now }
{
    methods.get(name)
}

impl Scope<'_> {
    /// What a name stands for; a parameter or a local hides a variable of the unit.
    pub fn variable(&self, name: &Bytes) -> Option<&KnownName>
        ensures { option_copied result ≡ known_in self.now name.now }
    {
        match self.locals.get(name) {
            Some(known) => Some(known),
            None => self.globals.get(name),
        }
    }

    /// The BY variable of a name.
    pub fn by_variable(&self, name: &Bytes) -> Option<&Name>
        ensures { option_copied result ≡ get (pointwise nat_eq) self.now.bys.now name.now }
    {
        self.bys.get(name)
    }

    /// The method of a name.
    pub fn method(&self, name: &Bytes) -> Option<&KnownMethod>
        ensures { option_copied result ≡ get (pointwise nat_eq) self.now.methods.now name.now }
    {
        self.methods.get(name)
    }

    /// The object of a name; a parameter or local hides it.
    pub fn object(&self, name: &Bytes) -> Option<&KnownObject>
        ensures { option_copied result ≡ object_in self.now name.now }
    {
        let local = self.locals.get(name);
        match local {
            Some(_) => None,
            None => self.objects.get(name),
        }
    }
}
