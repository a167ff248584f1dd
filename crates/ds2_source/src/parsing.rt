//! The parser of a source.
ghost use Rattle.ds2_source.specs.ParseAnswer.{SaysOfSource};

use crate::units::parts;
use ds2_base::{List, Place, Refusal, Stop};
use ds2_parse_rules::front::unexpected;
use ds2_token::Token;
use ds2_tree::{ParseKind, Source};
use std::alloc::Global;

/// The levels that a source may open: a statement within a statement, a parenthesis, an argument list and a prefix operator each
/// open one.
pub const MOST_LEVELS: u64 = 64;

/// The tree of a source, whose spelling its tokens are. `end` is the place directly after the last character of its text.
///
/// `Unexpected` stands at the first token with which no source goes on, or at `end` where the tokens end too early. `TooDeep`
/// stands at the token that opens a level more than [`MOST_LEVELS`], where that comes first.
pub fn parse(
    alloc: Global,
    tokens: &List<Token>,
    end: Place,
) -> Result<Source, Stop<Refusal<ParseKind>>>
    ensures { SaysOfSource end tokens.now result }
{
    let (parts, rest) = parts(alloc, tokens.as_slice(), end, MOST_LEVELS)?;
    match rest {
        [] => Ok(Source {
            parts,
            tokens: tokens.len(),
        }),
        [..] => Err(unexpected(rest, end)),
    }
}
