//! Typed programs and what they mean.
//!
//! A [`TypedUnit`] is a data program, a thread program or a package whose names and types were checked: each variable is named
//! by its [`Global`] or as a local, each operation is that of its operands' types, and each conversion is a node of its own.
//! What a program means is written in `specs/`, over trees, names and whole lists, and says nothing of slots, jumps or a
//! machine. `specs/Lib.antt` names its files in the order in which a reader needs them: `Location` to `RunState`, trees, what is
//! kept and what a run has made so far; `HashObjects`, what calls of hash objects and iterators do; `ValueOperations` to `Invocation`, what expressions, statements and calls do; `Reading` to
//! `ProgramMeaning`, what loads set, and what the units of a program and the whole of it leave; `View`, the trees that the code
//! holds; examples and laws; `IsTyped`, which trees are typed.
#![tactic(auto)]

mod expressions;
mod globals;
mod hashes;
pub mod laws;
mod location;
mod methods;
mod readings;
mod refusals;
mod shared;
mod statements;
mod units;

pub use expressions::{Argument, Call, Expression, Function, Link, Operation, Prefix};
pub use globals::{OutputColumn, OutputTable, Variable};
pub use hashes::{DeclaredHash, DeclaredIterator, HashVariable, LoadedTable, ThreadInstance};
pub use location::{Global, Reference};
pub use methods::{Method, Parameter, SystemMethod};
pub use readings::{ByVariable, Input, MentionedTable, Reading};
pub use refusals::{ScopeKind, TypeKind};
pub use shared::Shared;
pub use statements::{Arm, ParameterSetting, PutItem, Statement, When};
pub use units::{Instance, Program, TypedData, TypedPackage, TypedThread, TypedUnit};
