//! The type of a column out of its cells, in one pass.
ghost use Rattle.std.specs.Prelude.{◌≡◌, ◌&&◌, ◌||◌, true, false, ℕ, [], ◌∷◌, ◌++◌, max, is_some, IfOk, IfSome, IsTrue, OnOk, List as Items};
ghost use Rattle.ds2_base.specs.Characters.{char_count};
ghost use Rattle.ds2_csv_cells.specs.Cells.{is_missing, value_of};
ghost use Rattle.ds2_csv_cells.specs.ColumnTypes.{without_sign, whole_digits, digits_before, digits_after, text_size, given, decimals_of, type_of_cells};
ghost use Rattle.ds2_csv_cells.specs.Number.{integer_of};
ghost use Rattle.ds2_decimal.specs.Text.{read};
ghost use Rattle.ds2_csv_cells.specs.Held.{held_value};
ghost use Rattle.ds2_csv_cells.specs.Inferred.{IsInferred};
ghost use Rattle.ds2_value.specs.Types.{fits, in_bounds};

use crate::cell::{CellValue, bigint_value, decimal_value, decoded, is_missing, read_cell};
use crate::decimal::decimal;
use crate::number::integer;
use ds2_base::{OutOfMemory, char_count};
use ds2_csv_records::cut;
use ds2_decimal::MOST_DIGITS;
use ds2_value::{Cell, TEXT_CHARACTERS, Ty};
use std::alloc::Global;

/// What is known of a column's cells.
#[derive(Clone, Copy)]
pub struct Inference {
    /// Whether a cell is not null.
    given: bool,
    /// Whether each such cell is an integer.
    integers: bool,
    /// Whether each such cell is a decimal.
    decimals: bool,
    /// The most digits before the point, where each is a decimal.
    before: usize,
    /// The most digits after it.
    after: usize,
    /// The most characters.
    longest: usize,
}

// A number's text without its sign.
fn without_sign(text: &[u8]) -> &[u8]
    ensures { result.now ≡ without_sign text.now }
{
    match text {
        [b'-', digits @ ..] => digits,
        _ => text,
    }
}

// How many digits a whole number has, where `0` has none.
fn whole_digits(whole: &[u8]) -> usize
    ensures { result ≡ whole_digits whole.now }
{
    match whole {
        [b'0', ..] => 0,
        _ => whole.len(),
    }
}

// How many digits stand before the point of a number's text, where `0` counts none, and how many after it. No point is looked for
// in an integer.
fn digits(text: &[u8], integer: bool) -> (usize, usize)
    requires { integer ≡ true → is_some (integer_of text.now) ≡ true }
    ensures before { result.0 ≡ digits_before text.now }
    ensures behind { result.1 ≡ digits_after text.now }
{
    let number = without_sign(text);
    if integer {
        return (whole_digits(number), 0);
    }
    let (whole, fraction) = cut(number, b'.');
    (whole_digits(whole), fraction.len())
}

// The greater of a number and the number of a text's characters. A text of at most so many bytes has no more characters.
fn longer(longest: usize, text: &str) -> usize
    ensures { result ≡ max (char_count text.now) longest }
{
    if text.len() <= longest {
        return longest;
    }
    longest.max(char_count(text))
}

// The greater of a number and the number of characters of a cell's text.
fn with_size(longest: usize, cell: &str) -> usize
    ensures { result ≡ max (text_size cell.now) longest }
{
    match decoded(cell) {
        Some(text) => longer(longest, text),
        None => longest,
    }
}

// Whether cells that are all integers, or not, are so with one more.
fn are_integers(so_far: bool, cell: &[u8]) -> bool
    ensures { result ≡ (so_far && is_some (integer_of cell.now)) }
{
    so_far && integer(cell).is_some()
}

// The same of decimals. Where all cells are integers, they are decimals too.
fn are_decimals(integers: bool, so_far: bool, cell: &str) -> bool
    ensures { result ≡ (integers || (so_far && is_some (read cell.now))) }
{
    integers || (so_far && decimal(cell).is_some())
}

impl Inference {
    /// What is known of no cells.
    pub fn new() -> Inference
        ensures { IsInferred result [] }
    {
        Inference {
            given: false,
            integers: true,
            decimals: true,
            before: 0,
            after: 0,
            longest: 0,
        }
    }

    // One more cell, which is null in a number column.
    #[inline(always)]
    fn add_missing(&mut self, cell: &str)
        requires { is_missing cell.now ≡ true }
        ensures { (cells : Items (Items ℕ)) → IsInferred self.old cells → IsInferred self.new (cells ++ cell.now ∷ []) }
    {
        self.longest = with_size(self.longest, cell);
    }

    // One more cell, which is given in a number column. Whether all such cells are integers, or decimals, is known with it.
    #[inline(always)]
    fn add_given(&mut self, cell: &str, integers: bool, decimals: bool)
        requires given { is_missing cell.now ≡ false }
        requires integers { integers ≡ (self.old.integers && is_some (integer_of cell.now)) }
        requires decimals { decimals ≡ (integers || (self.old.decimals && is_some (read cell.now))) }
        ensures { (cells : Items (Items ℕ)) → IsInferred self.old cells → IsInferred self.new (cells ++ cell.now ∷ []) }
    {
        self.given = true;
        self.integers = integers;
        self.decimals = decimals;
        self.longest = with_size(self.longest, cell);
        if !decimals {
            return;
        }
        let (before, after) = digits(cell.as_bytes(), integers);
        self.before = self.before.max(before);
        self.after = self.after.max(after);
    }

    /// Adds one more cell.
    #[inline(always)]
    pub fn add_cell(&mut self, cell: &str)
        ensures { (cells : Items (Items ℕ)) → IsInferred self.old cells → IsInferred self.new (cells ++ cell.now ∷ []) }
    {
        if is_missing(cell.as_bytes()) {
            self.add_missing(cell);
            return;
        }
        let integers = are_integers(self.integers, cell.as_bytes());
        let decimals = are_decimals(integers, self.decimals, cell);
        self.add_given(cell, integers, decimals);
    }

    // Adds one more cell, and gives its value in a BIGINT column.
    #[inline(always)]
    #[tactic(auto, unfolding(crate::specs::Cells::value_of))]
    fn read_bigint<'t>(&mut self, cell: &'t str) -> CellValue<'t>
        ensures value { held_value result ≡ value_of Ty.BigInt cell.now }
        ensures fit { IfSome (held_value result) (λ v. IsTrue (fits v Ty.BigInt)) }
        ensures known { (cells : Items (Items ℕ)) → IsInferred self.old cells → IsInferred self.new (cells ++ cell.now ∷ []) }
    {
        if is_missing(cell.as_bytes()) {
            self.add_missing(cell);
            return CellValue::Lent(Cell::Null);
        }
        let integer = integer(cell.as_bytes());
        let integers = self.integers && integer.is_some();
        let decimals = are_decimals(integers, self.decimals, cell);
        self.add_given(cell, integers, decimals);
        bigint_value(integer)
    }

    // The same in a DECIMAL(p,s) column.
    #[inline(always)]
    #[tactic(auto, unfolding(crate::specs::Cells::value_of))]
    fn read_decimal<'t>(&mut self, p: u8, s: u8, cell: &'t str) -> CellValue<'t>
        requires { IsTrue (in_bounds (Ty.Decimal p s)) }
        ensures value { held_value result ≡ value_of (Ty.Decimal p s) cell.now }
        ensures fit { IfSome (held_value result) (λ v. IsTrue (fits v (Ty.Decimal p s))) }
        ensures known { (cells : Items (Items ℕ)) → IsInferred self.old cells → IsInferred self.new (cells ++ cell.now ∷ []) }
    {
        if is_missing(cell.as_bytes()) {
            self.add_missing(cell);
            return CellValue::Lent(Cell::Null);
        }
        let decimal = decimal(cell);
        let integers = are_integers(self.integers, cell.as_bytes());
        let decimals = integers || (self.decimals && decimal.is_some());
        self.add_given(cell, integers, decimals);
        decimal_value(p, s, decimal)
    }

    /// Adds one more cell, and gives its value in a column of a type, as [`read_cell`] does. A number is parsed once.
    #[inline(always)]
    pub fn read_cell<'t>(
        &mut self,
        alloc: Global,
        ty: Ty,
        cell: &'t str,
    ) -> Result<CellValue<'t>, OutOfMemory>
        requires { IsTrue (in_bounds ty) }
        ensures value { IfOk result (λ v. held_value v ≡ value_of ty cell.now) }
        ensures fit { IfOk result (λ v. IfSome (held_value v) (λ x. IsTrue (fits x ty))) }
        ensures known { (cells : Items (Items ℕ)) → IsInferred self.old cells → OnOk result (IsInferred self.new (cells ++ cell.now ∷ [])) }
    {
        match ty {
            Ty::BigInt => Ok(self.read_bigint(cell)),
            Ty::Decimal { p, s } => Ok(self.read_decimal(p, s, cell)),
            _ => {
                self.add_cell(cell);
                read_cell(alloc, ty, cell)
            }
        }
    }

    // The decimals that take the cells that are not null, where there is one and each is a decimal.
    fn decimal_type(self) -> Option<Ty>
        ensures { (cells : Items (Items ℕ)) → IsInferred self cells → result ≡ decimals_of (given cells) }
    {
        if !(self.given && self.decimals) {
            return None;
        }
        let digits = self.before.saturating_add(self.after).max(1);
        if digits <= MOST_DIGITS as usize {
            Some(Ty::Decimal {
                p: digits as u8,
                s: self.after as u8,
            })
        } else {
            None
        }
    }

    /// The type out of the cells.
    pub fn ty(self) -> Ty
        ensures { (cells : Items (Items ℕ)) → IsInferred self cells → result ≡ type_of_cells cells }
    {
        if self.given && self.integers {
            return Ty::BigInt;
        }
        match self.decimal_type() {
            Some(ty) => ty,
            None => Ty::Varchar {
                n: self.longest.min(TEXT_CHARACTERS as usize).max(1) as u16,
            },
        }
    }
}
