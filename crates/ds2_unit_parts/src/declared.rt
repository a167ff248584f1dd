//! The types of declared variables, by their names.
ghost use Rattle.std.specs.Prelude.{◌≡◌, List as Items};
ghost use Rattle.ds2_meaning.specs.IsTyped.{type_in};
ghost use Rattle.ds2_meaning.specs.declared.globals.Variable.{Variable as VariableOf};
ghost use Rattle.ds2_type_tables.specs.Tables.{HasLocals};

use ds2_base::Bytes;
use ds2_reference_types::scopes::KnownNames;
use ds2_value::Ty;

/// The type of the declared variable of a name, where there is one.
pub fn declared_type(declared: &KnownNames, name: &Bytes) -> Option<Ty>
    ensures { (variables : Items VariableOf) → HasLocals declared.now variables → result ≡ type_in variables name.now }
{
    match declared.get(name) {
        None => None,
        Some(known) => Some(known.ty),
    }
}
