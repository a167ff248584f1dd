//! What a program's code leaves on one thread, as a definition: its loads over its tables, and its units one after the other.
//!
//! `specs/CodeTables.antt` says which tables code names, `specs/CodeLoads.antt` which loads it has and what each sets, and
//! `specs/CodeAnswer.antt` what the whole program leaves. The laws are in [`laws`].
//!
//! Every schedule of a stage gives its one-thread answer: for the units of any program, and for those of code.
//!
//! The stage machine is that of `ds2_schedule`, the law over any units that of `ds2_schedule`; here the units are those of which the
//! one-thread answer of `ds2_table` is made, and the groups those of loads at a grain. The laws are in [`schedule_laws`].
#![tactic(auto)]

pub mod laws;
pub mod schedule_laws;
