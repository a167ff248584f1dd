//! Why a source is refused.
use ds2_base::Place;
use ds2_meaning::{ScopeKind, TypeKind};
use ds2_token::LexKind;
use ds2_tree::ParseKind;

/// Why a source is refused, by the step that refuses it. A new one touches the files that docs/ARCHITECTURE.md lists under 'To add a refusal'.
#[derive(Clone, Copy, PartialEq, Eq)]
pub enum SourceKind {
    /// A part of the text is no token.
    Lex(LexKind),
    /// The tokens are no source.
    Parse(ParseKind),
    /// A rule of names is broken.
    Scope(ScopeKind),
    /// A rule of types is broken.
    Types(TypeKind),
}

/// The first reason why a source is refused, and its place: lines and columns from 1, columns in characters.
#[derive(Clone, Copy, PartialEq, Eq)]
pub struct SourceRefusal {
    pub kind: SourceKind,
    pub place: Place,
}
