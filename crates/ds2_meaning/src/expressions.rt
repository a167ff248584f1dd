//! Typed expressions.
//!
//! The operands of one chain of operators stand in a list, so that no walk goes deeper than a source is nested. Every node
//! knows its type or tells it in one step.

use crate::Reference;
use ds2_base::{List, Name};
use ds2_value::{Comparison, HashFunction, IteratorFunction, Ty, Value, ValueFunction};

/// What stands between two operands of a chain. The operands are of the operation's types.
#[derive(Clone, Copy, PartialEq, Eq)]
pub enum Operation {
    /// `+` of two BIGINT values.
    IntegerAdd,
    /// `-` of two BIGINT values.
    IntegerSubtract,
    /// `*` of two BIGINT values.
    IntegerMultiply,
    /// `+` of two DECIMAL values.
    DecimalAdd,
    /// `-` of two DECIMAL values.
    DecimalSubtract,
    /// `*` of two DECIMAL values.
    DecimalMultiply,
    /// `/` of two DECIMAL values.
    DecimalDivide,
    /// `||` of two texts.
    Concatenate,
    /// `and` of two numbers.
    And,
    /// `or` of two numbers.
    Or,
}

/// An operator before its operand.
#[derive(Clone, Copy, PartialEq, Eq)]
pub enum Prefix {
    /// `-` before a BIGINT.
    IntegerNegate,
    /// `-` before a DECIMAL.
    DecimalNegate,
    /// `+` before a number: its value.
    Plus,
    /// `not` before a number.
    Not,
}

/// A function of the language, by the types of its arguments.
#[derive(Clone, Copy, PartialEq, Eq)]
pub enum Function {
    /// One that gives a value for its arguments alone.
    Value(ValueFunction),
    /// `coalesce(a, ..)`, of arguments in one type.
    Coalesce,
    /// `min(a, b, ..)`, of numbers in one type.
    Least,
    /// `max(a, b, ..)`, of numbers in one type.
    Greatest,
    /// `floor(x)` and `ceil(x)` of a BIGINT: its value.
    Unchanged,
}

/// An expression whose operands and types fit.
#[derive(Drop)]
#[cycle(expression)]
pub enum Expression {
    /// A constant; null has the type that stands where it is used.
    Constant {
        value: Value,
        ty: Ty,
    },
    /// The value of a variable.
    Variable {
        variable: Reference,
        ty: Ty,
    },
    /// A BIGINT as DECIMAL(19,0).
    Widen {
        operand: Box<Expression>,
    },
    /// A value assigned to a type of its kind: a DECIMAL rescaled, a text cut or filled.
    Convert {
        operand: Box<Expression>,
        ty: Ty,
    },
    /// An operator before its operand.
    Prefixed {
        prefix: Prefix,
        operand: Box<Expression>,
        ty: Ty,
    },
    /// `first` and then each further operand, from the left.
    Chain {
        first: Box<Expression>,
        links: List<Link>,
    },
    /// A comparison of two BIGINT values, of two DECIMAL values of any types, or of two texts: 1, 0 or null.
    Compared {
        comparison: Comparison,
        left: Box<Expression>,
        right: Box<Expression>,
    },
    /// A function of its arguments.
    Applied {
        function: Function,
        arguments: List<Expression>,
        ty: Ty,
    },
    /// The result of a method.
    Called {
        call: Call,
        ty: Ty,
    },
    /// The code that a hash object of the same unit answers a call with, or for `num_items` the number of its items.
    HashCalled {
        hash: Name,
        function: HashFunction,
    },
    /// The code that an iterator of the same unit answers a call with.
    IteratorCalled {
        iterator: Name,
        function: IteratorFunction,
    },
}

/// A further operand of a chain.
#[derive(Drop)]
#[cycle(expression)]
pub struct Link {
    /// Whether the value of the chain up to here, a BIGINT, is first widened to DECIMAL(19,0).
    pub widens: bool,
    pub operation: Operation,
    pub operand: Expression,
    /// The type of the chain up to and with this operand.
    pub ty: Ty,
}

/// A call of a declared method.
#[derive(Drop)]
#[cycle(expression)]
pub struct Call {
    /// The instance whose package declares the method; None for a method of the caller's own unit.
    pub instance: Option<Name>,
    /// The number of the method in its program or package, from 0.
    pub method: u32,
    pub arguments: List<Argument>,
}

/// An argument of a call.
#[derive(Drop)]
#[cycle(expression)]
pub enum Argument {
    /// A value of the parameter's type.
    Value(Expression),
    /// A variable of exactly the parameter's type, which gets the parameter's last value back.
    InOut(Reference),
}
