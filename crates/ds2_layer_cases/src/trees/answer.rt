//! What is said of a source.
use crate::texts::want_of_memory;
use crate::trees::units::say_source;
use ds2_base::{List, OutOfMemory, Place, Refusal, Stop, Text};
use ds2_source::parse;
use ds2_spelling::source_spelling;
use ds2_token::{LexKind, Token, end_place, tokens};
use ds2_tree::{ParseKind, Source};
use std::alloc::{AllocError, Global};

fn said_of_lexing(alloc: Global, refusal: Refusal<LexKind>) -> Result<String, AllocError> {
    let Refusal { kind, place } = refusal;
    format!(in alloc; "{kind:?} at {}:{}", place.line, place.column)
}

fn said_of_parsing(alloc: Global, refusal: Refusal<ParseKind>) -> Result<String, AllocError> {
    let Refusal { kind, place } = refusal;
    format!(in alloc; "{kind:?} at {}:{}", place.line, place.column)
}

// Whether the tree gives back these very tokens.
fn spells(alloc: Global, source: &Source, tokens: &List<Token>) -> Result<bool, OutOfMemory> {
    let spelling = source_spelling(alloc, source)?;
    Ok(spelling.as_slice() == tokens.as_slice())
}

fn said_of_source(
    alloc: Global,
    source: &Source,
    tokens: &List<Token>,
) -> Result<String, AllocError> {
    let mut said = match spells(alloc, source, tokens) {
        Ok(true) => String::from_str(alloc, "accepted:")?,
        Ok(false) => String::from_str(alloc, "accepted with another spelling:")?,
        Err(OutOfMemory) => return want_of_memory(alloc),
    };
    say_source(&mut said, source)?;
    Ok(said)
}

fn said_of_tokens(alloc: Global, tokens: &List<Token>, end: Place) -> Result<String, AllocError> {
    match parse(alloc, tokens, end) {
        Ok(source) => said_of_source(alloc, &source, tokens),
        Err(Stop::Refused(refusal)) => said_of_parsing(alloc, refusal),
        Err(Stop::OutOfMemory) => want_of_memory(alloc),
    }
}

/// The answer to a source: its refusal, or how its tree is grouped.
pub fn answer(alloc: Global, text: String) -> Result<String, AllocError> {
    let Ok(text) = Text::from_string(alloc, text) else {
        return want_of_memory(alloc);
    };
    match tokens(alloc, &text) {
        Ok(tokens) => said_of_tokens(alloc, &tokens, end_place(&text)),
        Err(Stop::Refused(refusal)) => said_of_lexing(alloc, refusal),
        Err(Stop::OutOfMemory) => want_of_memory(alloc),
    }
}
