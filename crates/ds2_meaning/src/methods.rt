//! Methods.

use crate::{Statement, Variable};
use ds2_base::{List, Name, Place};
use ds2_value::Ty;

/// A parameter of a method.
#[derive(Drop)]
pub struct Parameter {
    pub name: Name,
    pub ty: Ty,
    /// Whether the argument is a variable that gets the parameter's last value back.
    pub is_in_out: bool,
}

/// A method that a program or a package declares.
#[derive(Drop)]
pub struct Method {
    pub name: Name,
    pub parameters: List<Parameter>,
    pub locals: List<Variable>,
    /// The type that it returns, where it returns a value.
    pub returns: Option<Ty>,
    pub body: List<Statement>,
}

/// `init`, `run` or `term`.
#[derive(Drop)]
pub struct SystemMethod {
    /// The place of its name.
    pub place: Place,
    pub locals: List<Variable>,
    pub body: List<Statement>,
}
