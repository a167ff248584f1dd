//! The tokens that a syntax tree spells, places and written case included.
//!
//! ```text
//! let tokens = source_spelling(alloc, &source)?;
//! ```
//!
//! The program spells no tree; this gives back what a source was read from.
#![tactic(auto)]

mod expressions;
mod globals;
mod readings;
mod statements;
mod tokens;
mod units;

pub use units::source_spelling;
