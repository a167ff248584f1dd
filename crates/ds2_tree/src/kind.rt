//! Why a source is no tree.
use thiserror::Error;

/// Why the tokens of a source are refused.
#[derive(Clone, Copy, Debug, PartialEq, Eq, Error)]
pub enum ParseKind {
    /// A token with which no source goes on, or the end of the text where a source is not complete.
    #[error("nothing goes on here")]
    Unexpected,
    /// A token that opens a level more than a source may have.
    #[error("the nesting is too deep")]
    TooDeep,
}
