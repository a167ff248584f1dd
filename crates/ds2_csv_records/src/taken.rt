//! The first cell of a text.
ghost use Rattle.std.specs.Prelude.{◌≡◌, ◌∷◌, ◌++◌, ◌<◌, ◌≤◌, true, false, List as Items, ℕ, [], length};
ghost use Rattle.csv.specs.declared.parser.State.TheVariants as st;
ghost use Rattle.ds2_csv_records.specs.Cells.{begins_comma, begins_end, begins_quoted, spelled};
ghost use Rattle.ds2_csv_records.specs.Reading.{records_left, rest_behind, rest_of, IsFirst, IsTaken, IsWithin};

use crate::cell::{Cell, bare_len, begins_end, begins_quoted, behind_quote, quoted_len, to_quote};
use crate::part::without_front;

/// A cell of a record, and where the text goes on behind it.
#[derive(Clone, Copy)]
pub struct Taken<'t> {
    pub cell: Cell<'t>,
    /// The text behind the cell, and behind the comma or the end of the line that ends it.
    pub rest: &'t str,
    /// Whether the record goes on with one more cell.
    pub more: bool,
}

fn begins_comma(text: &[u8]) -> bool
    ensures { result ≡ begins_comma text.now }
{
    match text {
        [] => false,
        [c, ..] => *c == b',',
    }
}

// What follows a cell behind which its end stands: a comma, the end of a line, or nothing.
fn ended<'t>(cell: Cell<'t>, behind: &'t str) -> Taken<'t>
    requires { begins_end behind.now ≡ true }
    ensures taken { (cells : Items (Items ℕ)) → rest_of st.InField cells (spelled cell.entry) behind.now ≡ rest_behind cells result }
    ensures shorter { result.more ≡ true → length result.rest.now < length behind.now }
{
    if behind.is_empty() {
        return Taken {
            cell,
            rest: behind,
            more: false,
        };
    }
    let more = begins_comma(behind.as_bytes());
    Taken {
        cell,
        rest: behind.split_at(1).1,
        more,
    }
}

// The rest of a cell behind its opening quote.
#[inline(never)]
fn quoted(inside: &str) -> Taken<'_>
    ensures taken { (cells : Items (Items ℕ)) → rest_of st.InQuoted cells [] inside.now ≡ rest_behind cells result }
    ensures shorter { result.more ≡ true → length result.rest.now < length inside.now }
{
    let (part, behind) = inside.split_at(to_quote(inside.as_bytes()));
    if behind.is_empty() {
        return ended(Cell::Plain(part), behind);
    }
    let after = behind_quote(behind);
    if begins_end(after.as_bytes()) {
        return ended(Cell::Plain(part), after);
    }
    let (raw, after) = inside.split_at(quoted_len(inside.as_bytes()));
    ended(Cell::Quoted(raw), after)
}

// A cell without quotes.
fn bare(text: &str) -> Taken<'_>
    requires { begins_quoted text.now ≡ false }
    ensures taken { IsTaken text.now result }
    ensures shorter { result.more ≡ true → length result.rest.now < length text.now }
{
    let (cell, behind) = text.split_at(bare_len(text.as_bytes()));
    ended(Cell::Plain(cell), behind)
}

// The first cell of a text, which stands at the start of a cell.
#[inline(always)]
fn take_cell(text: &str) -> Taken<'_>
    ensures taken { IsTaken text.now result }
    ensures shorter { result.more ≡ true → length result.rest.now < length text.now }
{
    if begins_quoted(text.as_bytes()) {
        quoted(behind_quote(text))
    } else {
        bare(text)
    }
}

/// The first cell of the next record of a text that stands between two records; None where there is no more record.
#[inline(always)]
pub fn first_cell(text: &str) -> Option<Taken<'_>>
    ensures { IsFirst result text.now }
{
    let start = without_front(text, b'\r', b'\n');
    if start.is_empty() {
        None
    } else {
        Some(take_cell(start))
    }
}

impl<'t> Taken<'t> {
    /// The next cell of the record, which has one more.
    #[inline(always)]
    pub fn next(self) -> Taken<'t>
        requires { self.more ≡ true }
        ensures within { (text : Items ℕ) (cells : Items (Items ℕ)) → IsWithin text cells self.entry → IsWithin text (cells ++ spelled self.entry.cell ∷ []) result }
        ensures shorter { result.more ≡ true → length result.rest.now < length self.entry.rest.now }
    {
        take_cell(self.rest)
    }

    /// The text behind the record, of which this is the last cell.
    #[inline(always)]
    pub fn behind(self) -> &'t str
        requires { self.more ≡ false }
        ensures { (text : Items ℕ) (cells : Items (Items ℕ)) → IsWithin text cells self.entry → records_left text ≡ (cells ++ spelled self.entry.cell ∷ []) ∷ records_left result.now }
    {
        self.rest
    }
}
