//! Where something stands in a text.
ghost use Rattle.std.specs.Prelude.{◌≡◌};
ghost use Rattle.std.specs.Str.{chars};
ghost use Rattle.ds2_base.specs.Place.{start_place, place_after, place_past};

/// A place in a text. Lines and columns count from 1, columns in characters; a line feed ends a line.
/// A count stays at `u32::MAX` once it is there, which no text that is read here comes near.
#[derive(Clone, Copy, PartialEq, Eq, PartialOrd, Ord)]
pub struct Place {
    pub line: u32,
    pub column: u32,
}

/// A refusal of a kind, at the place where its cause stands.
#[derive(Drop, PartialEq, Eq)]
pub struct Refusal<K> {
    pub kind: K,
    pub place: Place,
}

impl Place {
    /// The place of a text's first character.
    pub fn start() -> Place
        ensures { result ≡ start_place }
    {
        Place { line: 1, column: 1 }
    }

    /// The place directly after the character `c` that stands here.
    pub fn after(self, c: char) -> Place
        ensures { result ≡ place_after self c }
    {
        if c == '\n' {
            Place {
                line: self.line.saturating_add(1),
                column: 1,
            }
        } else {
            Place {
                line: self.line,
                column: self.column.saturating_add(1),
            }
        }
    }

    /// The place directly after the text `s` that begins here.
    pub fn past(self, s: &str) -> Place
        ensures { result ≡ place_past self (chars s.now) }
    {
        s.chars().fold(self, |place: Place, c: char| place.after(c))
    }
}
