//! What a source becomes: typed programs, or its first refusal.
//!
//! `specs/` holds the definitions, `specs/Lib.antt` their files in the order in which a reader needs them: `UnitsBefore`, what is known of
//! the packages and thread programs before a unit; `SourceTypes`, the types of what a unit names; `Typings` to `StatementTypes`, which rules
//! of types expressions and statements break and what they become; `ProgramTypes` and `Elaboration`, what a unit and a source become, or
//! their first refusal. `TypedScopes` and `TypedPrograms` say when what they become is typed.
#![tactic(auto)]

pub mod laws;
