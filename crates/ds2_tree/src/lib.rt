//! The syntax tree of a source.
//!
//! A [`Source`] is a list of parts, among them the units; a [`Method`] of a unit holds [`Statement`]s, and these hold
//! [`Expression`]s. A tree keeps each token, or the place of a mark that has one spelling, so that it says exactly its tokens,
//! and a source and each package how many these are.
//!
//! What tokens a tree spells, which trees are of the grammar, and which levels they open, stands in `specs/`.
//!
//! The words that a grammar is written in, each with its laws.
//!
//! `specs/Parsers.antt` has the words, as parsers on lists of tokens. A rule is written with them as it is read aloud:
//!
//! ```text
//! renaming = seq (kept is_name_token) (seq (kept (is_mark (codes "="))) (kept is_name_token))
//! ```
//!
//! A symbol has a spelling, trees that are of the grammar, and levels that these open (`specs/Levels.antt`).
//! `specs/Acceptance.antt` says of a list of tokens which answer is due and where: the one tree, a token with which nothing
//! goes on, or a level too many. `specs/Promise.antt` says what a function that reads a symbol gives, with want of memory, and
//! [`ParseKind`] why it refuses.
//!
//! `proofs/Words.antt` has the law of each word, and `proofs/Steady.antt` that what is read depends on no token behind the next
//! one. Of a parser that keeps both, `proofs/Theorem.antt` has the answers, each exactly where it is due, and
//! `proofs/Promised.antt` the promise of a function that gives what the parser does. `proofs/Steps.antt` serves the proof of such
//! a function, step by step.
#![tactic(auto)]

mod expressions;
mod globals;
mod kind;
mod laws;
mod readings;
mod source;
mod statements;
mod units;

pub use expressions::{Argument, Callee, ChainKind, Expression, Operand};
pub use globals::{
    Bracketed, BracketedName, Constant, Constants, Declaration, GlobalItem, HashSize, HashTable,
    Method, Parameter, Parameters, Returns, Scale, TypeName, VariableDeclaration,
};
pub use kind::ParseKind;
pub use laws::tree_examples;
pub use readings::{By, ByVariable, Input, InputFlag, MergeRetain, Reading, Threads};
pub use source::Source;
pub use statements::{
    CountedControl, DoControl, ElseIf, Otherwise, PutItem, Selector, Statement, Step,
    TestedControl, When,
};
pub use units::{
    DataProgram, OutputOption, OutputOptions, OutputTable, Package, Renaming, SourcePart, Thread,
};
