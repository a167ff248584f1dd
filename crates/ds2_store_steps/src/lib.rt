//! What a command does at a store on the way to a run: files are read and written, tables are read for their programs, and outputs are
//! asked for.
//!
//! What surrounds a command is a [`Session`]: its store, and its text for the log. [`read_file`] and [`write_file`] are one call of the
//! store each. [`read_tables`] reads the tables that programs name, each once and in
//! order, as [`KeptTable`]s, and [`ask_outputs`] refuses an output that is there or that an earlier program makes. What ends a command
//! before its last step is a [`Halt`].
//!
//! ```text
//! let references = references_of(alloc, &codes)?;
//! let names = inputs_of(alloc, references.as_slice())?;
//! let tables = read_tables(&mut session, references.as_slice(), names.as_slice())?;
//! ask_outputs(&mut session, &codes)?;
//! ```
#![tactic(auto)]

mod files;
mod halt;
mod kept;
mod outputs;
mod references;
mod session;
mod tables;

pub use files::{read_file, table_file, write_file};
pub use halt::{Halt, end_in_fault, refuse_file};
pub use kept::KeptTable;
pub use outputs::ask_outputs;
pub use references::{inputs_of, names_kept, references_of, references_of_code, tables_referred};
pub use session::Session;
pub use tables::read_tables;
