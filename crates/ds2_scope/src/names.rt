//! The names that tokens spell.
ghost use Rattle.std.specs.Prelude.{◌≡◌, ◌++◌, IfOk, OnOk, map, if◌then◌else◌};
ghost use Rattle.ds2_token.specs.Forms.{between_quotes};
ghost use Rattle.ds2_token.specs.Words.{quoted_kind};
ghost use Rattle.ds2_names.specs.SourceUnit.{spelled_name, placed_name, is_system_name};

use ds2_base::{Bytes, List, OutOfMemory};
use ds2_names::PlacedName;
use ds2_token::{Token, TokenKind};
use std::alloc::Global;

// What stands between the first byte and the last.
fn between_quotes(spelling: &[u8]) -> &[u8]
    ensures { result.now ≡ between_quotes spelling.now }
{
    match spelling {
        [_, content @ .., _] => content,
        _ => &[],
    }
}

// The letters of a token's name.
fn letters(token: &Token) -> &[u8]
    ensures { result.now ≡ (if quoted_kind token.now.kind then between_quotes token.now.spelling else token.now.spelling) }
{
    match token.kind {
        TokenKind::Quoted => between_quotes(token.spelling.as_bytes()),
        _ => token.spelling.as_bytes(),
    }
}

/// The name that a token spells.
pub fn spelled_name(alloc: Global, token: &Token) -> Result<Bytes, OutOfMemory>
    ensures { IfOk result (λ name. name ≡ spelled_name token.now) }
{
    Ok(List::of(letters(token).to_ascii_lowercase(alloc)?))
}

/// The name that a token spells, at its place.
pub fn placed_name(alloc: Global, token: &Token) -> Result<PlacedName, OutOfMemory>
    ensures { IfOk result (λ name. name ≡ placed_name token.now) }
{
    Ok(PlacedName {
        name: spelled_name(alloc, token)?,
        place: token.place,
    })
}

/// Adds the names that tokens spell.
pub fn push_names(
    alloc: Global,
    names: &mut List<PlacedName>,
    tokens: &[Token],
) -> Result<(), OutOfMemory>
    ensures { OnOk result (names.new ≡ names.old ++ map placed_name tokens.now) }
{
    'tokens: for token in tokens {
        names.push(placed_name(alloc, token)?)?;
    }
    Ok(())
}

/// Whether a name is init, run or term.
pub fn is_system_name(name: &[u8]) -> bool
    ensures { result ≡ is_system_name name.now }
{
    name == b"init".as_slice() || name == b"run".as_slice() || name == b"term".as_slice()
}
