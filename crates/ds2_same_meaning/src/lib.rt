//! When code means the same as a program, and that the code of a typed program does.
//!
//! `specs/SameMeaning.antt` has the definition, [`MeansSame`](laws): code answers as the program means, over the same tables and with the
//! same outputs, with the thread programs that it reads from. [`instances`] tells of programs that stand in code that code can be written for
//! them.
//!
//! The code of a typed program leaves on one thread what the program means.
//!
//! The code of a thread program that the verdict calls local is group independent.
//!
//! `specs/CodeIndependence.antt` says it of any data that hold what may have been kept, with the instructions that each unit executed;
//! `specs/CodeStates.antt` says it as the law on stages asks, with the data as states;
//! `specs/LocalGroups.antt` says it of the groups that its code makes of its tables; `specs/FixedInCode.antt` has what `run` of any code leaves as
//! it is, by what can be reached from its entry, and `specs/IndependenceInCode.antt` says independence by that. The laws are in [`locality_laws`].
#![tactic(auto)]

pub mod answer_laws;
pub mod instances;
pub mod laws;
pub mod locality_laws;
