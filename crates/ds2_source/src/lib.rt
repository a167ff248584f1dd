//! A source, and the tables that it reads.
//!
//! [`read_source`] gives the syntax tree of a text or its first refusal, and [`input_names`] gives the tables that must come from the
//! store. [`SourceRefusal`] has the kinds of all refusals of a source. What a text is read as stands in `specs/SourceAnswer.antt`, by the
//! tokens that stand for the text and the grammar that reads them; [`laws`] say that there is exactly one answer for each text.
//!
//! ```text
//! let source = read_source(alloc, &text)?;
//! let tables = input_names(alloc, &source)?;
//! ```
//!
//! The parser: from the tokens of a source to its syntax tree.
//!
//! [`parse`] gives the one tree that the tokens spell, or refuses them at the first token with which no source goes on, or at the
//! first that opens more than [`MOST_LEVELS`] levels. Each function reads exactly its rule of the grammar, whose rules are the
//! definitions of `ds2_parse_rules`; expressions and statements are read by `ds2_parse_statements`, what opens no level by
//! `ds2_parse_declarations`. `specs/ParseAnswer.antt` has what is said of a source. [`grammar_reads_sources`] is the law that of
//! each list of tokens exactly one answer is due.
//!
//! ```text
//! let tokens = tokens(alloc, &text)?;
//! let source = parse(alloc, &tokens, end_place(&text))?;
//! ```
#![tactic(auto)]

mod globals;
mod grammar_laws;
mod inputs;
mod kinds;
pub mod laws;
mod mentions;
mod parsing;
mod source;
mod units;

pub use ds2_meaning::{ScopeKind, TypeKind};
pub use ds2_token::LexKind;
pub use ds2_tree::ParseKind;
pub use grammar_laws::{grammar_reads_sources, reading_examples};
pub use inputs::{MOST_TABLES, input_names};
pub use kinds::{SourceKind, SourceRefusal};
pub use parsing::{MOST_LEVELS, parse};
pub use source::read_source;
