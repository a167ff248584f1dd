//! Why a source is refused.

/// Why the names of a unit are refused. Of two refusals at one place the one that comes first here is given.
#[derive(Clone, Copy, PartialEq, Eq)]
pub enum ScopeKind {
    /// There is no such variable, flag, instance, package, thread, output or global.
    UnknownName,
    /// The name was given before.
    DuplicateName,
    /// There is no such method, or it is a system method.
    UnknownMethod,
    /// A call has another number of arguments.
    WrongCount,
    /// What is assigned to, or handed to an in_out parameter, is no variable.
    NotVariable,
    /// A variable that is handed to an in_out parameter can be reached on a second way.
    AliasedArgument,
    /// More names than a limit allows.
    TooManyNames,
    /// A number of a declaration lies outside its bounds.
    BadNumber,
    /// A statement, a declaration or an option stands where it may not stand.
    Misplaced,
    /// No column is left for an output.
    NoColumns,
}

/// Why the types of a unit are refused. Of two refusals at one place the one that comes first here is given.
#[derive(Clone, Copy, PartialEq, Eq)]
pub enum TypeKind {
    /// Types do not fit.
    TypeClash,
    /// A product has more than 38 digits after the point.
    ScaleTooLarge,
    /// A text stands where a number is asked for.
    NotTruth,
    /// A method that returns a value does not surely return.
    NoReturn,
}
