//! The kinds of tokens, and why a text has none.
use thiserror::Error;

/// What a token is.
#[derive(Clone, Copy, Debug, PartialEq, Eq)]
pub enum TokenKind {
    /// A letter or `_`, then letters, digits and `_`. Words are compared without case.
    Word,
    /// A name between double quotes, which is never a word of the grammar.
    Quoted,
    /// A text constant between single quotes, in which two of them stand for one.
    Text,
    /// Digits.
    Integer,
    /// Digits with at most one point among or behind them, and `n`.
    Decimal,
    /// A mark, as `;` or `<=`.
    Mark,
}

/// Why a text has no tokens.
#[derive(Clone, Copy, Debug, PartialEq, Eq, Error)]
pub enum LexKind {
    /// A character with which no token begins.
    #[error("no token begins with this character")]
    BadCharacter,
    /// A text constant, or a name between quotes, has no quote at its end.
    #[error("the closing quote is missing")]
    OpenText,
    /// A comment has no end.
    #[error("the comment has no end")]
    OpenComment,
    /// An integer above 9223372036854775807, or a decimal with more than 38 digits, leading zeros not counted, or with more
    /// than 38 behind the point.
    #[error("the number is too long")]
    NumberTooLong,
    /// Digits with a point and no `n`.
    #[error("a number with a point has to end with n")]
    DoubleConstant,
    /// A word of more than 64 characters, or quotes around what is no name.
    #[error("this is no name")]
    BadName,
    /// A text constant of more than 1,024 characters.
    #[error("the text has more than 1,024 characters")]
    TextTooLong,
}
