//! Truth with three values.
ghost use Rattle.std.specs.Prelude.{◌≡◌};
ghost use Rattle.ds2_value.specs.Value.{and_of, or_of, not_of};

/// Whether a condition holds.
#[derive(Clone, Copy, PartialEq, Eq)]
pub enum Truth {
    Yes,
    No,
    /// A value that the condition needs is null.
    Unknown,
}

/// No where one is No, else Unknown where one is Unknown, else Yes.
pub fn and(a: Truth, b: Truth) -> Truth
    ensures { result ≡ and_of a b }
{
    match (a, b) {
        (Truth::No, _) | (_, Truth::No) => Truth::No,
        (Truth::Unknown, _) | (_, Truth::Unknown) => Truth::Unknown,
        (Truth::Yes, Truth::Yes) => Truth::Yes,
    }
}

/// Yes where one is Yes, else Unknown where one is Unknown, else No.
pub fn or(a: Truth, b: Truth) -> Truth
    ensures { result ≡ or_of a b }
{
    match (a, b) {
        (Truth::Yes, _) | (_, Truth::Yes) => Truth::Yes,
        (_, Truth::Unknown) | (Truth::Unknown, _) => Truth::Unknown,
        (Truth::No, Truth::No) => Truth::No,
    }
}

/// Yes for No, No for Yes, Unknown for Unknown.
pub fn not(a: Truth) -> Truth
    ensures { result ≡ not_of a }
{
    match a {
        Truth::Yes => Truth::No,
        Truth::No => Truth::Yes,
        Truth::Unknown => Truth::Unknown,
    }
}
