//! The rules of the grammar of sources, and what reads one token by them.
//!
//! Each rule is a definition in `specs/`, one file a syntax class (expressions, statements, readings, globals, units), written in
//! the words of `ds2_tree` and of `specs/GrammarTokens.antt`. A parser reads with one token of look-ahead: [`front`] has the
//! tests on the token at the front, what has to stand there, and the refusals; [`front_words`] asks for a token by its class;
//! [`rules`] has them as values, which read rules of many parts, lists and parts that may be absent.
//!
//! `proofs/RuleSteps.antt` serves the proof of a function that reads exactly a rule, step by step, `proofs/PartSteps.antt` that of optional parts and lists; `proofs/GrammarTokenLaws.antt`
//! and `proofs/PlainLaws.antt` have the laws of tokens and of rules that open no level.
#![tactic(auto)]

pub mod front;
pub mod front_words;
pub mod rules;
