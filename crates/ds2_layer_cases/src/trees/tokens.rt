//! Tokens as they are said.
use ds2_token::Token;
use std::alloc::AllocError;

// What saying something gives.
pub type Said = Result<(), AllocError>;

pub fn say_token(said: &mut String, token: &Token) -> Said {
    said.push_str(token.spelling.as_str())
}

/// Says tokens, each behind a blank.
pub fn say_tokens(said: &mut String, tokens: &[Token]) -> Said {
    for token in tokens {
        said.push(' ')?;
        say_token(said, token)?;
    }
    Ok(())
}

/// Says `object.member`.
pub fn say_member(said: &mut String, object: &Token, member: &Token) -> Said {
    say_token(said, object)?;
    said.push('.')?;
    say_token(said, member)
}
