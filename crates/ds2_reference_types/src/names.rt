//! The names that tokens spell.
ghost use Rattle.std.specs.Prelude.{◌≡◌, IfOk, if◌then◌else◌};
ghost use Rattle.ds2_elaboration.specs.Typings.{elaborated_nameless};
ghost use Rattle.ds2_names.specs.SourceUnit.{spelled_name};
ghost use Rattle.ds2_token.specs.Forms.{between_quotes};
ghost use Rattle.ds2_token.specs.Words.{quoted_kind};
ghost use Rattle.ds2_types.specs.Judgements.{IsJudged};

use ds2_base::{Bytes, List, OutOfMemory, Place};
use ds2_meaning::TypeKind;
use ds2_token::{Token, TokenKind};
use ds2_types::judgement::{Judgement, Typing};
use ds2_types::refusals::refusal;
use std::alloc::Global;

/// What stands between the first byte and the last.
fn between_quotes(spelling: &[u8]) -> &[u8]
    ensures { result.now ≡ between_quotes spelling.now }
{
    match spelling {
        [_, content @ .., _] => content,
        _ => &[],
    }
}

/// The letters of a token's name.
fn letters(token: &Token) -> &[u8]
    ensures { result.now ≡ (if quoted_kind token.now.kind then between_quotes token.now.spelling else token.now.spelling) }
{
    match token.kind {
        TokenKind::Quoted => between_quotes(token.spelling.as_bytes()),
        _ => token.spelling.as_bytes(),
    }
}

/// The name that a token spells.
pub fn spelled_name(alloc: Global, token: &Token) -> Result<Bytes, OutOfMemory>
    ensures { IfOk result (λ name. name ≡ spelled_name token.now) }
{
    Ok(List::of(letters(token).to_ascii_lowercase(alloc)?))
}

/// What the rules of names refuse, at this place.
pub fn nameless(place: Place) -> Judgement
    ensures { IsJudged (elaborated_nameless place) result }
{
    Judgement {
        typing: Typing::Unknown,
        outcome: Err(refusal(TypeKind::TypeClash, place)),
    }
}
