//! What surrounds a command.

use ds2_base::Bytes;
use std::alloc::Global;

/// What surrounds a command: where it takes memory, its text for the log, and the store that it asks.
///
/// Whoever has made one takes it apart once the command has ended, so that it is known what the store holds then.
pub struct Session<'s, S> {
    pub alloc: Global,
    /// The text for the log, which is written when the command has ended.
    pub log: Bytes,
    pub store: &'s mut S,
}
