//! The instructions of typed programs, and that they do what the programs mean.
//!
//! `specs/CodeCells.antt` says where code keeps what a program names, and when a machine holds a state of the meaning;
//! `specs/CodePieces.antt`, what it means that a piece of code does what an expression or a statement means;
//! `specs/CallPieces.antt`, what a call does; `specs/ExpressionCode.antt`, `specs/StatementCode.antt`, `specs/MethodCode.antt` and
//! `specs/UnitCode.antt`, the instructions, and `specs/BodyCode.antt`, those of a whole program; `specs/CoveredForms.antt` and
//! `specs/CoveredObjects.antt`, what each form needs to have its place in the code. The laws are in [`laws`].
#![tactic(auto)]

pub mod laws;
