//! What a token is to the grammar.
ghost use Rattle.std.specs.Prelude.{◌≡◌, bytes_eq, map};
ghost use Rattle.std.specs.Char.{to_ascii_lowercase};
ghost use Rattle.std.specs.List.{list_all, list_any};
ghost use Rattle.ds2_token.specs.Forms as forms;
ghost use Rattle.ds2_token.specs.Words as words;

use crate::{Token, TokenKind};
use ds2_base::NAME_CHARACTERS;

/// Whether letters are this word, which is in lower case, without regard to their own case.
fn spells(letters: &[u8], word: &[u8]) -> bool
    ensures { result ≡ words.spells letters.now word.now }
{
    if letters.len() != word.len() {
        return false;
    }
    let mut rest = letters;
    let mut wanted = word;
    while let [c, after @ ..] = rest {
        let [w, left @ ..] = wanted else { return false };
        if c.to_ascii_lowercase() != *w {
            return false;
        }
        rest = after;
        wanted = left;
    }
    true
}

/// Whether letters are one of these words, which are in lower case.
fn spells_one_of(letters: &[u8], list: &[&str]) -> bool
    ensures { result ≡ list_any (λ word. words.spells letters.now word.now) list.now }
{
    for word in list {
        if spells(letters, word.as_bytes()) {
            return true;
        }
    }
    false
}

/// Whether letters are a reserved word, of those that begin with their first letter.
fn spells_reserved(letters: &[u8]) -> bool
    ensures { result ≡ words.spells_reserved letters.now }
{
    let [first, ..] = letters else { return false };
    match first.to_ascii_lowercase() {
        b'a' => spells_one_of(letters, &["and"]),
        b'b' => spells_one_of(letters, &["bigint", "by"]),
        b'c' => spells_one_of(letters, &["char", "continue"]),
        b'd' => spells_one_of(
            letters,
            &[
                "data",
                "dcl",
                "decimal",
                "declare",
                "descending",
                "do",
                "drop",
            ],
        ),
        b'e' => spells_one_of(
            letters,
            &["else", "end", "enddata", "endpackage", "endthread", "eq"],
        ),
        b'f' => spells_one_of(letters, &["from"]),
        b'g' => spells_one_of(letters, &["ge", "gt"]),
        b'i' => spells_one_of(letters, &["if", "in_out"]),
        b'k' => spells_one_of(letters, &["keep"]),
        b'l' => spells_one_of(letters, &["le", "leave", "lt"]),
        b'm' => spells_one_of(letters, &["merge", "method"]),
        b'n' => spells_one_of(letters, &["ne", "not", "null", "numeric"]),
        b'o' => spells_one_of(letters, &["or", "otherwise", "output"]),
        b'p' => spells_one_of(letters, &["package", "put"]),
        b'r' => spells_one_of(letters, &["retain", "return", "returns"]),
        b's' => spells_one_of(letters, &["select", "set"]),
        b't' => spells_one_of(letters, &["then", "thread", "to"]),
        b'u' => spells_one_of(letters, &["until"]),
        b'v' => spells_one_of(letters, &["varchar"]),
        b'w' => spells_one_of(letters, &["when", "while"]),
        _ => false,
    }
}

/// What stands between the quotes of a spelling that has some.
pub(crate) fn between_quotes(spelling: &[u8]) -> &[u8]
    ensures { result.now ≡ forms.between_quotes spelling.now }
{
    match spelling {
        [_, content @ .., _] => content,
        _ => &[],
    }
}

/// A letter or `_`.
fn is_word_letter(c: u8) -> bool
    ensures { result ≡ forms.is_word_letter c }
{
    c.is_ascii_alphabetic() || c == b'_'
}

/// A letter, a digit or `_`.
fn is_word_part(c: u8) -> bool
    ensures { result ≡ forms.is_word_part c }
{
    is_word_letter(c) || c.is_ascii_digit()
}

/// Letters, digits and `_` alone.
fn are_word_parts(letters: &[u8]) -> bool
    ensures { result ≡ list_all forms.is_word_part letters.now }
{
    letters.iter().all(|c| is_word_part(*c))
}

/// A letter or `_`, then letters, digits and `_`.
fn is_word_form(letters: &[u8]) -> bool
    ensures { result ≡ forms.is_word_form letters.now }
{
    match letters {
        [] => false,
        [first, rest @ ..] => is_word_letter(*first) && are_word_parts(rest),
    }
}

/// No letter in upper case.
fn is_in_lower_case(letters: &[u8]) -> bool
    ensures { result ≡ bytes_eq (map to_ascii_lowercase letters.now) letters.now }
{
    let mut rest = letters;
    'letters: while let [c, after @ ..] = rest {
        if c.to_ascii_lowercase() != *c {
            return false;
        }
        rest = after;
    }
    true
}

/// Whether letters are the name of a table: a word in lower case that is not reserved.
pub fn is_table_name(letters: &[u8]) -> bool
    ensures { result ≡ words.is_table_name letters.now }
{
    is_word_form(letters) && is_in_lower_case(letters) && !spells_reserved(letters)
}

impl Token {
    /// A word, reserved or not.
    pub fn is_any_word(&self) -> bool
        ensures { result ≡ words.is_any_word self.now }
    {
        matches!(self.kind, TokenKind::Word)
    }

    /// A text constant.
    pub fn is_text(&self) -> bool
        ensures { result ≡ words.is_text self.now }
    {
        matches!(self.kind, TokenKind::Text)
    }

    /// An integer.
    pub fn is_integer(&self) -> bool
        ensures { result ≡ words.is_integer self.now }
    {
        matches!(self.kind, TokenKind::Integer)
    }

    /// A decimal, with its `n`.
    pub fn is_decimal(&self) -> bool
        ensures { result ≡ words.is_decimal self.now }
    {
        matches!(self.kind, TokenKind::Decimal)
    }

    /// This word, which is in lower case, without regard to the token's case. Nothing in quotes is one.
    pub fn is_word(&self, word: &str) -> bool
        ensures { result ≡ words.is_word word.now self.now }
    {
        match self.kind {
            TokenKind::Word => spells(self.spelling.as_bytes(), word.as_bytes()),
            _ => false,
        }
    }

    /// This mark.
    pub fn is_mark(&self, mark: &str) -> bool
        ensures { result ≡ words.is_mark mark.now self.now }
    {
        match self.kind {
            TokenKind::Mark => self.spelling.as_str() == mark,
            _ => false,
        }
    }

    /// A word of the grammar that is no name.
    pub fn is_reserved(&self) -> bool
        ensures { result ≡ words.is_reserved self.now }
    {
        match self.kind {
            TokenKind::Word => spells_reserved(self.spelling.as_bytes()),
            _ => false,
        }
    }

    /// A table: a word that is not reserved.
    pub fn is_table(&self) -> bool
        ensures { result ≡ words.is_table self.now }
    {
        match self.kind {
            TokenKind::Word => !spells_reserved(self.spelling.as_bytes()),
            _ => false,
        }
    }

    /// A name: a word that is not reserved, or a name in quotes.
    pub fn is_name(&self) -> bool
        ensures { result ≡ words.is_name_token self.now }
    {
        match self.kind {
            TokenKind::Quoted => true,
            _ => self.is_table(),
        }
    }

    /// A name, in quotes or not, that is this word, which is in lower case.
    pub fn names_word(&self, word: &str) -> bool
        ensures { result ≡ words.names_word word.now self.now }
    {
        match self.kind {
            TokenKind::Word => spells(self.spelling.as_bytes(), word.as_bytes()),
            TokenKind::Quoted => spells(between_quotes(self.spelling.as_bytes()), word.as_bytes()),
            _ => false,
        }
    }

    /// The name of a package: a name other than `hash` and `hiter`, also in quotes.
    pub fn is_package_name(&self) -> bool
        ensures { result ≡ words.is_package_name self.now }
    {
        self.is_name() && !self.names_word("hash") && !self.names_word("hiter")
    }

    /// A text constant that spells a table: a word of at most 64 characters that is not reserved.
    pub fn spells_table(&self) -> bool
        ensures { result ≡ words.spells_table self.now }
    {
        let content = between_quotes(self.spelling.as_bytes());
        match self.kind {
            TokenKind::Text => is_word_form(content)
                && content.len() <= NAME_CHARACTERS
                && !spells_reserved(content),
            _ => false,
        }
    }
}
