//! What the tests of a `select` are.

use ds2_value::Ty;

/// What the tests of a `select` are: conditions, or values that are compared with a kept value of a type.
#[derive(Clone, Copy)]
pub enum Tested {
    Conditions,
    EqualTo { kept: u32, ty: Ty },
}
