//! What is said of a text.
use crate::texts::want_of_memory;
use ds2_base::{List, Place, Refusal, Stop, Text, char_count};
use ds2_token::{LexKind, Token, end_place, tokens};
use std::alloc::{AllocError, Global};

/// The most characters of a spelling that is shown whole.
const SHOWN: usize = 40;

// Adds a spelling, its line feeds, carriage returns and tabs as escapes, or its length where it is long.
fn push_spelling(alloc: Global, said: &mut String, spelling: &str) -> Result<(), AllocError> {
    let count = char_count(spelling);
    if count > SHOWN {
        let length = format!(in alloc; "({count} characters)")?;
        return said.push_str(length.as_str());
    }
    for c in spelling.chars() {
        match c {
            '\n' => said.push_str("\\n")?,
            '\r' => said.push_str("\\r")?,
            '\t' => said.push_str("\\t")?,
            _ => said.push(c)?,
        }
    }
    Ok(())
}

fn push_token(alloc: Global, said: &mut String, token: &Token) -> Result<(), AllocError> {
    let Place { line, column } = token.place;
    let head = format!(in alloc; "{line}:{column} {:?} ", token.kind)?;
    said.push_str(head.as_str())?;
    push_spelling(alloc, said, token.spelling.as_str())?;
    said.push_str(", ")
}

fn said_of_tokens(alloc: Global, tokens: &List<Token>, end: Place) -> Result<String, AllocError> {
    let mut said = String::new(alloc);
    for token in tokens.as_slice() {
        push_token(alloc, &mut said, token)?;
    }
    let tail = format!(in alloc; "{}:{} end", end.line, end.column)?;
    said.push_str(tail.as_str())?;
    Ok(said)
}

fn said_of_refusal(alloc: Global, refusal: Refusal<LexKind>) -> Result<String, AllocError> {
    let Refusal { kind, place } = refusal;
    format!(in alloc; "{}:{} {kind:?}", place.line, place.column)
}

/// The answer to a text: its tokens, or its first refusal.
pub fn answer(alloc: Global, text: String) -> Result<String, AllocError> {
    let Ok(text) = Text::from_string(alloc, text) else {
        return want_of_memory(alloc);
    };
    match tokens(alloc, &text) {
        Ok(tokens) => said_of_tokens(alloc, &tokens, end_place(&text)),
        Err(Stop::Refused(refusal)) => said_of_refusal(alloc, refusal),
        Err(Stop::OutOfMemory) => want_of_memory(alloc),
    }
}
