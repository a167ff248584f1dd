//! Characters of a text.
ghost use Rattle.std.specs.Prelude.{◌≡◌};
ghost use Rattle.ds2_base.specs.Characters.{char_count};

/// The number of characters of a text, in which columns, the lengths of types and the limits on names are counted. In ASCII a
/// character is a byte.
pub fn char_count(s: &str) -> usize
    ensures { result ≡ char_count s.now }
{
    if s.is_ascii() {
        return s.len();
    }
    s.chars().count()
}
