//! Tokens that are added to a list.
ghost use Rattle.std.specs.Prelude.{◌≡◌, ◌∷◌, ◌++◌, [], OnOk};
ghost use Rattle.ds2_token.specs.Words.{mark_at};
ghost use Rattle.ds2_tree.specs.Lists.{one_token, if_any, all_spelled, comma_spelling};

use ds2_base::{List, OutOfMemory, Place, Text};
use ds2_token::{Token, TokenKind};
use std::alloc::Global;

// What adding tokens gives.
pub type Added = Result<(), OutOfMemory>;

// Adds the token.
pub fn push_token(alloc: Global, out: &mut List<Token>, token: &Token) -> Added
    ensures { OnOk result (out.new ≡ out.old ++ token.now ∷ []) }
{
    out.push(token.copy(alloc)?)
}

// Adds the mark that stands at a place.
pub fn push_mark(alloc: Global, out: &mut List<Token>, mark: &str, place: Place) -> Added
    ensures { OnOk result (out.new ≡ out.old ++ mark_at mark.now place ∷ []) }
{
    out.push(Token {
        kind: TokenKind::Mark,
        spelling: Text::of(alloc, mark)?,
        place,
    })
}

// Adds the tokens.
pub fn push_tokens(alloc: Global, out: &mut List<Token>, tokens: &[Token]) -> Added
    ensures { OnOk result (out.new ≡ out.old ++ all_spelled one_token tokens.now) }
{
    for token in tokens {
        push_token(alloc, out, token)?;
    }
    Ok(())
}

// Adds the token, where there is one.
pub fn push_if_any(alloc: Global, out: &mut List<Token>, token: &Option<Token>) -> Added
    ensures { OnOk result (out.new ≡ out.old ++ if_any one_token token.now) }
{
    match token {
        None => Ok(()),
        Some(token) => push_token(alloc, out, token),
    }
}

// Adds a comma, where there is one.
pub fn push_comma(alloc: Global, out: &mut List<Token>, comma: Option<Place>) -> Added
    ensures { OnOk result (out.new ≡ out.old ++ comma_spelling comma) }
{
    match comma {
        None => Ok(()),
        Some(place) => push_mark(alloc, out, ",", place),
    }
}
