//! The code of a typed program: all its parts, as a definition, and that it does what the program means.
//!
//! `specs/CodeConstants.antt`, `specs/CodeMethods.antt` and `specs/CodeParts.antt` say what stands beside the instructions, and
//! `specs/ProgramCode.antt` puts the whole together. The laws are in [`laws`].
//!
//! Where the code of a program keeps what it names: the slots of its layout, behind them those of its system methods, its hash objects
//! and iterators, and the frames of its methods.
//!
//! `specs/PlacedProgram.antt` says it, and `specs/KeptTypes.antt` the types of the values that code keeps; `specs/UsedConstants.antt`
//! lists the constants of statements, and `specs/TypedIsCovered.antt` says when typed statements have all that their code needs. The
//! laws, that this is what `ds2_gen` asks for, are in [`placement_laws`].
//!
//! The operands that the code of typed programs needs and leaves, by their types.
//!
//! `specs/TypedOperands.antt` says it of expressions. The law is in [`operand_laws`].
//!
//! How many instructions the units of a typed program's code execute: two calls of one unit whose ways are equal execute equally many.
//!
//! `specs/CountsByWay.antt` says it; the law is in [`count_laws`].
#![tactic(auto)]

pub mod count_laws;
pub mod laws;
pub mod operand_laws;
pub mod placement_laws;
