//! Parts of texts, counted in characters.
ghost use Rattle.std.specs.Prelude.{◌≡◌, IfOk};
ghost use Rattle.std.specs.Str.{IsUtf8};
ghost use Rattle.ds2_value.specs.Texts.{trimmed, cut_to, after_characters, filled_to};

use ds2_base::{OutOfMemory, Text, char_count};
use std::alloc::Global;

// The text without the blanks at its end.
pub(crate) fn trimmed(s: &str) -> &str
    ensures { result.now ≡ trimmed s.now }
{
    let mut rest = s;
    'blanks: while let Some(front) = rest.strip_suffix(' ') {
        rest = front;
    }
    rest
}

// What follows the first n characters. In ASCII a character is a byte.
pub(crate) fn after_characters(s: &str, n: usize) -> &str
    ensures { result.now ≡ after_characters n s.now }
{
    if s.is_ascii() {
        return s.split_at(n.min(s.len())).1;
    }
    let mut rest = s.chars();
    for i in 0..n {
        let _ = rest.next();
    }
    rest.as_str()
}

// The first n characters. A text of at most n bytes has no more of them.
pub(crate) fn cut_to(s: &str, n: usize) -> &str
    ensures { result.now ≡ cut_to n s.now }
{
    if s.len() <= n {
        return s;
    }
    let kept = s.len() - after_characters(s, n).len();
    s.split_at(kept).0
}

// The text of its first n characters, where it stands.
pub(crate) fn shortened_to(t: Text, n: usize) -> Text
    ensures text { result ≡ cut_to n t }
    ensures utf8 { IsUtf8 t }
{
    let _bytes = t.as_bytes();
    let kept = cut_to(t.as_str(), n).len();
    let mut text = t;
    text.truncate(kept);
    text
}

// The first n characters, filled with blanks to n.
pub(crate) fn filled_to(alloc: Global, s: &str, n: usize) -> Result<Text, OutOfMemory>
    ensures { IfOk result (λ text. text ≡ filled_to n s.now) }
{
    let kept = cut_to(s, n);
    Text::filled(alloc, kept, n - char_count(kept))
}

// The same of a text that is given away: one of n characters stays as it is.
pub(crate) fn kept_or_filled(alloc: Global, t: Text, n: usize) -> Result<Text, OutOfMemory>
    ensures text { IfOk result (λ text. text ≡ filled_to n t) }
    ensures utf8 { IsUtf8 t }
{
    let _bytes = t.as_bytes();
    let count = char_count(t.as_str());
    if count == n {
        return Ok(t);
    }
    filled_to(alloc, t.as_str(), n)
}
