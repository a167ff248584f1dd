//! The outside: a store of named files, a log that grows, and a gate that workers pass.
//!
//! Everything above is written against the three traits, whose clauses say what a file system and an output promise.
//! [`MemStore`] and [`MemSink`] keep these promises in memory and fail at chosen calls. [`FolderStore`] and [`StdSink`]
//! are the thin edge to the real ones, which tells nothing of contents.
//!
//! ```text
//! let mut store = MemStore::new(alloc);
//! store.put(alloc, &name, bytes)?;
//! let read = store.read(alloc, &name, most)?;
//! ```
#![tactic(auto)]

mod calls;
mod folder;
mod gate;
mod memory;
mod memory_files;
mod memory_sink;
mod output;
mod replacing;
mod sink;
mod store;
mod tear;

pub use folder::FolderStore;
pub use gate::{Gate, NoGate};
pub use memory::MemStore;
pub use memory_files::MemFiles;
pub use memory_sink::MemSink;
pub use output::StdSink;
pub use sink::Sink;
pub use store::{Failed, ReadStop, Store, WriteStop};
pub use tear::Tear;
