//! Typed statements.
//!
//! Each has its place, that of its first token. The parts of a chain of `if` and `else if` stand in a list.

use crate::{Call, Expression, Reference};
use ds2_base::{List, Name, Place, Text};

/// A statement.
#[derive(Drop)]
#[cycle(statement)]
pub enum Statement {
    /// `;`
    Empty {
        place: Place,
    },
    /// `variable = value;`, the value in the variable's type.
    Assign {
        place: Place,
        variable: Reference,
        value: Expression,
    },
    /// A call whose result, where it has one, is dropped.
    Invoke {
        place: Place,
        call: Call,
    },
    /// A call of a function, a hash object or an iterator, whose value is dropped.
    Evaluate {
        place: Place,
        value: Expression,
    },
    /// `instance.setparms(value, ..);`: the parameters of an instance of a thread program get values.
    SetParameters {
        place: Place,
        instance: Name,
        values: List<ParameterSetting>,
    },
    /// `leave;`
    Leave {
        place: Place,
    },
    /// `continue;`
    Continue {
        place: Place,
    },
    /// `return;`
    Return {
        place: Place,
    },
    /// `return value;`, the value in the type that the method returns.
    ReturnValue {
        place: Place,
        value: Expression,
    },
    /// `output ..;`: a row for each of these outputs, by their numbers in the program, from 0.
    Output {
        place: Place,
        outputs: List<u32>,
    },
    /// `put ..;`
    Put {
        place: Place,
        items: List<PutItem>,
    },
    /// `if condition then ..`, perhaps with `else if` parts and an `else` part.
    If {
        place: Place,
        condition: Expression,
        then: Box<Statement>,
        others: List<Arm>,
        otherwise: Option<Box<Statement>>,
    },
    /// `select; when (condition) .. otherwise .. end;`
    Select {
        place: Place,
        whens: List<When>,
        otherwise: Option<Box<Statement>>,
    },
    /// `select (value); when (other, ..) .. otherwise .. end;`, all values BIGINT, all DECIMAL of any types, or all texts.
    SelectValue {
        place: Place,
        value: Expression,
        whens: List<When>,
        otherwise: Option<Box<Statement>>,
    },
    /// `do; .. end;`
    Block {
        place: Place,
        body: List<Statement>,
    },
    /// `do variable = start to end by step; .. end;`, all BIGINT; a step that is left out is 1.
    Count {
        place: Place,
        variable: Reference,
        start: Expression,
        end: Expression,
        step: Option<Expression>,
        body: List<Statement>,
    },
    /// `do while (condition); .. end;`
    While {
        place: Place,
        condition: Expression,
        body: List<Statement>,
    },
    /// `do until (condition); .. end;`
    Until {
        place: Place,
        condition: Expression,
        body: List<Statement>,
    },
}

/// An `else if` of a chain, at the place of its `if`.
#[derive(Drop)]
#[cycle(statement)]
pub struct Arm {
    pub place: Place,
    pub condition: Expression,
    pub then: Statement,
}

/// A `when` of a `select`.
#[derive(Drop)]
#[cycle(statement)]
pub struct When {
    /// Its conditions, or the values with which that of the `select` is compared.
    pub tests: List<Expression>,
    pub then: Statement,
}

/// A parameter of a thread program, and the value that it gets, in its type.
#[derive(Drop)]
pub struct ParameterSetting {
    pub parameter: Name,
    pub value: Expression,
}

/// An item of `put`.
#[derive(Drop)]
pub enum PutItem {
    /// A text constant, as it is.
    Constant(Text),
    /// The value of a variable.
    Value(Expression),
    /// `name=` and the value of a variable; the text is the name in lower case.
    Named { name: Text, value: Expression },
}
