//! The types of variables and columns.
ghost use Rattle.std.specs.Prelude.{◌≡◌};
ghost use Rattle.ds2_value.specs.Types.{in_bounds, join_decimals, join_of};

use ds2_decimal::MOST_DIGITS;

/// The most characters of a text in a type, and of texts that are put one after the other.
pub const TEXT_CHARACTERS: u16 = 1024;

/// A type of variables and columns. It is in bounds where 1 <= p <= [`MOST_DIGITS`], s <= p and 1 <= n <= [`TEXT_CHARACTERS`].
#[derive(Clone, Copy, PartialEq, Eq)]
pub enum Ty {
    /// Whole numbers of 64 bits.
    BigInt,
    /// Numbers of at most `p` digits, `s` of them after the point.
    Decimal { p: u8, s: u8 },
    /// Texts of exactly `n` characters.
    Char { n: u16 },
    /// Texts of at most `n` characters.
    Varchar { n: u16 },
}

impl Ty {
    /// Whether the type is in bounds.
    pub fn is_in_bounds(self) -> bool
        ensures { result ≡ in_bounds self }
    {
        match self {
            Ty::BigInt => true,
            Ty::Decimal { p, s } => 1 <= p && p <= MOST_DIGITS && s <= p,
            Ty::Char { n } | Ty::Varchar { n } => 1 <= n && n <= TEXT_CHARACTERS,
        }
    }
}

// The decimals that take both p digits, s of them after the point, and q digits, t after it.
fn join_decimals(p: u8, s: u8, q: u8, t: u8) -> Option<Ty>
    ensures { result ≡ join_decimals p s q t }
{
    let after = s.max(t);
    let before = p.saturating_sub(s).max(q.saturating_sub(t));
    let digits = before as u16 + after as u16;
    if digits <= MOST_DIGITS as u16 {
        Some(Ty::Decimal {
            p: digits as u8,
            s: after,
        })
    } else {
        None
    }
}

/// The type that takes the values of both types. Equal types join to themselves; a BIGINT counts as DECIMAL(19,0) beside a
/// DECIMAL; CHAR only stays beside CHAR. None exactly for a number and a text, and for decimals that need more than 38 digits.
pub fn join_types(a: Ty, b: Ty) -> Option<Ty>
    ensures { result ≡ join_of a b }
{
    match (a, b) {
        (Ty::BigInt, Ty::BigInt) => Some(Ty::BigInt),
        (Ty::BigInt, Ty::Decimal { p, s }) => join_decimals(19, 0, p, s),
        (Ty::Decimal { p, s }, Ty::BigInt) => join_decimals(p, s, 19, 0),
        (Ty::Decimal { p, s }, Ty::Decimal { p: q, s: t }) => join_decimals(p, s, q, t),
        (Ty::Char { n }, Ty::Char { n: m }) => Some(Ty::Char { n: n.max(m) }),
        (Ty::Char { n }, Ty::Varchar { n: m })
        | (Ty::Varchar { n }, Ty::Char { n: m })
        | (Ty::Varchar { n }, Ty::Varchar { n: m }) => Some(Ty::Varchar { n: n.max(m) }),
        _ => None,
    }
}
