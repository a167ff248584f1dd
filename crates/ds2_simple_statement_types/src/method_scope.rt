//! What the statements of a method see.
ghost use Rattle.std.specs.Prelude.{◌≡◌, nat_eq};
ghost use Rattle.std.specs.Cmp.Lexicographic.{pointwise};
ghost use Rattle.std.specs.HashMap.{get};
ghost use Rattle.std.specs.Option.{option_copied};

use ds2_base::Bytes;
use ds2_reference_types::scopes::Scope;
use ds2_value::Ty;
use std::collections::HashMap;

/// The numbers of the outputs of a program, from 0, by their names.
pub type OutputNumbers = HashMap<Bytes, u32>;

/// What the statements of a method see: names, the outputs of the program, and the type that the method returns.
#[derive(Clone, Copy)]
pub struct MethodScope<'a> {
    pub names: Scope<'a>,
    pub outputs: &'a OutputNumbers,
    /// How many outputs there are.
    pub output_count: u32,
    pub returns: Option<Ty>,
}

impl MethodScope<'_> {
    /// The number of the output of a name.
    pub fn output(&self, name: &Bytes) -> Option<&u32>
        ensures { option_copied result ≡ get (pointwise nat_eq) self.now.outputs.now name.now }
    {
        self.outputs.get(name)
    }
}
