//! The lexer: from the text of a source to its tokens.
//!
//! [`tokens`] gives the one list of [`Token`]s that stands for a text, or its first refusal, with a [`LexKind`] and a place. Which
//! list stands for a text is a relation between whole texts and lists, in `specs/Standing.antt`; the forms of tokens are in
//! `specs/Forms.antt`, their limits in `specs/Limits.antt`. A token knows whether it is a word, a name or a mark of the grammar, and
//! its value.
//!
//! ```text
//! let text = Text::of(alloc, "total = 1.5n;")?;
//! let tokens = tokens(alloc, &text)?;
//! ```
#![tactic(auto)]

mod kinds;
pub mod laws;
mod lexer;
mod limits;
mod scan;
mod token;
mod values;
mod words;

pub use kinds::{LexKind, TokenKind};
pub use lexer::{end_place, tokens};
pub use token::Token;
pub use words::is_table_name;
