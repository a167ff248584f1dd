//! From a source to an object.
//!
//! [`compile`] gives the object of a source, which has the code of each of its programs, or the source's first refusal. Each program's code
//! means the same as the program: over any tables and with every budget both leave the same rows and lines and end alike.
//!
//! ```text
//! let source = read_source(alloc, &text)?;
//! let compiled = compile(alloc, &source, &schemas)?;
//! ```
//!
//! The code of the thread program that a program of a source reads from is independent at the grain at which its verdict calls it local.
//!
//! `specs/LocalStages.antt` says it; the law is in [`local_laws`].
//!
//! The typed programs of a source.
//!
//! [`typed_source`] gives what a source becomes: its data programs and its thread programs with their types, or the first refusal. A unit's
//! names come before its types, and an earlier unit before a later one, which may declare instances of earlier packages and thread programs
//! and read the tables that earlier programs make. What that is stands in `ds2_elaboration`.
//!
//! ```text
//! let typed = typed_source(alloc, &source, &schemas)?;
//! ```
#![tactic(auto)]

mod compiling;
pub mod local_laws;
mod outputs;
mod programs;
mod refusals;
mod schemas;
mod typed_so_far;
mod typed_units;

pub use compiling::{Compiled, compile};
pub use ds2_code::{HashPart, HashTable, ReadPart, ReadingPart, TableReference};
pub use ds2_names::{NamedSchema, Schemas};
pub use ds2_source::laws::{one_source_answer, sources_are_read};
pub use ds2_source::{SourceRefusal, input_names, read_source};
pub use ds2_tree::Source;
pub use ds2_valid_code::ProgramCode;
pub use ds2_value::Schema;
pub use programs::{TypedSource, typed_source};
