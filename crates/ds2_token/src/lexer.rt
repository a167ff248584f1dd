//! From a text to its tokens.
ghost use Rattle.std.specs.Prelude.{◌≡◌, ◌<◌, [], ◌∷◌, List as Items, length, take, drop, IsTrue, Ok, Err};
ghost use Rattle.std.specs.Str.{bytes_eq, chars, IsUtf8, IsCharBoundary};
ghost use Rattle.ds2_base.specs.Place.{place_past};
ghost use Rattle.ds2_base.specs.Says.{Says};
ghost use Rattle.ds2_base.specs.declared.place.Refusal.{Refusal as RefusalOf};
ghost use Rattle.ds2_token.specs.Forms.{IsGap, is_quoted_form, is_text_form};
ghost use Rattle.ds2_token.specs.Reading as reading;
ghost use Rattle.ds2_token.specs.Scan as scan;
ghost use Rattle.ds2_token.specs.Standing as standing;
ghost use Rattle.ds2_token.specs.declared.kinds.LexKind.{LexKind as Kind};
ghost use Rattle.ds2_token.specs.declared.kinds.TokenKind.TheVariants as variant;
ghost use Rattle.ds2_token.specs.declared.token.Token.{Token as TokenOf};

use crate::limits::limit_fault;
use crate::scan::{Found, find_form, piece_size};
use crate::{LexKind, Token, TokenKind};
use ds2_base::{List, Place, Refusal, Stop, Text};
use std::alloc::Global;

/// A token, and how many bytes it has with the gap before it.
#[derive(Drop)]
pub struct Next {
    pub token: Token,
    pub size: usize,
}

/// Whether a byte order mark stands first.
fn begins_with_mark(text: &[u8]) -> bool
    ensures { result ≡ bytes_eq (take 3 text.now) (239 ∷ 187 ∷ 191 ∷ []) }
{
    match text {
        [239, 187, 191, ..] => true,
        _ => false,
    }
}

/// The text without a byte order mark at its front.
fn without_mark(text: &str) -> &str
    ensures { result.now ≡ standing.without_mark text.now }
{
    if begins_with_mark(text.as_bytes()) {
        text.split_at(3).1
    } else {
        text
    }
}

/// The place directly behind the last character of the text, whose byte order mark is not counted.
pub fn end_place(text: &Text) -> Place
    ensures { result ≡ standing.end_place text.now }
{
    Place::start().past(without_mark(text.as_str()))
}

/// The place directly behind a token.
fn place_behind(token: &Token) -> Place
    ensures { result ≡ place_past token.now.place (chars token.now.spelling) }
{
    token.place.past(token.spelling.as_str())
}

/// How many bytes the gap at the front has.
fn gap_len(text: &[u8]) -> usize
    requires { IsUtf8 text.now }
    ensures gap { standing.IsLongest IsGap (take result text.now) (drop result text.now) }
    ensures none { scan.piece_size (drop result text.now) ≡ 0 }
    ensures edge { IsCharBoundary text.now result }
{
    let mut passed = 0;
    let mut rest = text;
    let mut size = piece_size(rest);
    while size > 0 {
        passed += size;
        rest = rest.split_at(size).1;
        size = piece_size(rest);
    }
    passed
}

/// The token with this spelling, or the limit that it breaks.
fn spelled_token(
    alloc: Global,
    kind: TokenKind,
    spelling: &str,
    place: Place,
) -> Result<Token, Stop<Refusal<LexKind>>>
    requires quoted { kind ≡ variant.Quoted → IsTrue (is_quoted_form spelling.now) }
    requires text_form { kind ≡ variant.Text → IsTrue (is_text_form spelling.now) }
    ensures { Says result (reading.spelled_token kind spelling.now place) }
{
    match limit_fault(alloc, kind, spelling.as_bytes())? {
        Some(kind) => Err(Stop::Refused(Refusal { kind, place })),
        None => Ok(Token {
            kind,
            spelling: Text::of(alloc, spelling)?,
            place,
        }),
    }
}

/// The token at the front of a text that begins with no gap.
fn token_at(alloc: Global, text: &str, place: Place) -> Result<Token, Stop<Refusal<LexKind>>>
    requires some { 0 < length text.now }
    requires none { scan.piece_size text.now ≡ 0 }
    ensures { reading.IsFrontOf place text.now result }
{
    match find_form(text.as_bytes()) {
        None => Err(Stop::Refused(Refusal {
            kind: LexKind::BadCharacter,
            place,
        })),
        Some(
            Found {
                form: Err(kind),
                ..
            },
        ) => Err(Stop::Refused(Refusal { kind, place })),
        Some(
            Found {
                form: Ok(kind),
                size,
            },
        ) => spelled_token(alloc, kind, text.split_at(size).0, place),
    }
}

/// The first token, behind a gap; None where the text is a gap.
fn next_token(
    alloc: Global,
    text: &str,
    place: Place,
) -> Result<Option<Next>, Stop<Refusal<LexKind>>>
    ensures { reading.IsNextOf place text.now result }
{
    let gap = gap_len(text.as_bytes());
    let (passed, rest) = text.split_at(gap);
    if rest.is_empty() {
        return Ok(None);
    }
    let token = token_at(alloc, rest, place.past(passed))?;
    let size = gap + token.spelling.len();
    Ok(Some(Next { token, size }))
}

/// The tokens of a text, or the first refusal in it.
fn read(alloc: Global, text: &str) -> Result<List<Token>, Stop<Refusal<LexKind>>>
    ensures { standing.IsReadOf text.now result }
{
    let mut tokens = List::new(alloc);
    tokens.reserve(text.len() / 4)?;
    let mut place = Place::start();
    let mut rest = without_mark(text);
    while let Some(next) = next_token(alloc, rest, place)? {
        place = place_behind(&next.token);
        rest = rest.split_at(next.size).1;
        tokens.push(next.token)?;
    }
    Ok(tokens)
}

/// The tokens of a text, or the first refusal in it. A byte order mark at the front is no part of it. Places count lines and
/// columns from 1, columns in characters.
pub fn tokens(alloc: Global, text: &Text) -> Result<List<Token>, Stop<Refusal<LexKind>>>
    ensures read { standing.IsReadOf text.now result }
    ensures accepts { (tokens : Items TokenOf) → standing.StandsFor text.now tokens → Says result (Ok tokens) }
    ensures refuses { (refusal : RefusalOf Kind) → standing.IsFirstRefusal text.now refusal → Says result (Err refusal) }
{
    read(alloc, text.as_str())
}
