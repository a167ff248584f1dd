//! The rules of names: which units of a source are refused for the names in them, and where.
//!
//! Each rule is a definition of `specs/` that gives the places at which it is broken, for a data program, a thread program or a
//! package behind the units that stand before it. `specs/Lib.antt` names its files in the order in which a reader needs them:
//! `SourceUnit`, what a unit gives names to; `Uses`, how its statements use names; `Refusals`, which of several refusals is given;
//! `Functions`, the functions by their names; `NameRules`, the rules on what a name means; `UnitRules`, those that count names and
//! place parts, and all rules together; `SourceLimits`, the limits over a whole source, what stands before each unit, and the refusal
//! of a unit's names.
#![tactic(auto)]

mod functions;
pub mod laws;
mod placed;
mod schemas;

pub use functions::{
    ByType, Counts, FunctionOfMany, FunctionRow, NamedFunction, function_named, null_test,
    takes_so_many,
};
pub use placed::{OutputName, PlacedName};
pub use schemas::{NamedSchema, Schemas};
