//! The value of a cell.
ghost use Rattle.std.specs.Prelude.{◌≡◌, ◌≤◌, IfOk, IfSome, IsTrue, Some, true, nat_le, option_map, option_and_then, if◌then◌else◌};
ghost use Rattle.ds2_csv_cells.specs.Cells.{is_missing, decoded, decimal_in, filled, column_text, text_value, value_of};
ghost use Rattle.ds2_csv_cells.specs.Held.{held_value};
ghost use Rattle.std.specs.Str.{is_utf8};
ghost use Rattle.ds2_value.specs.declared.value.Value.TheVariants as Value;
ghost use Rattle.ds2_base.specs.Characters.{char_count};
ghost use Rattle.ds2_value.specs.Cell.{lent_value};
ghost use Rattle.ds2_value.specs.Types.{in_bounds, fits};

use crate::decimal::decimal;
use crate::number::integer;
use ds2_base::{OutOfMemory, Text, char_count};
use ds2_decimal::Dec;
use ds2_value::{Cell, Ty};
use std::alloc::Global;

/// What a cell is in a column of a type.
#[derive(Drop)]
pub enum CellValue<'t> {
    /// It has no value there.
    Bad,
    /// A value, which the cell's text lends.
    Lent(Cell<'t>),
    /// The cell's text with blanks behind it.
    Filled(Text),
}

/// Whether a cell of a number column is null: it is empty, or `\N`.
pub fn is_missing(cell: &[u8]) -> bool
    ensures { result ≡ is_missing cell.now }
{
    match cell {
        [] | [b'\\', b'N'] => true,
        _ => false,
    }
}

/// The text of a cell of a text column, which loses the first of two backslashes at its start; None where it is null.
pub fn decoded(cell: &str) -> Option<&str>
    ensures { option_map (λ s. s.now) result ≡ decoded cell.now }
{
    match cell.as_bytes() {
        [b'\\', b'N'] => None,
        [b'\\', b'\\', ..] => Some(cell.split_at(1).1),
        _ => Some(cell),
    }
}

// The text, which has at most n characters, with blanks behind it, n characters in all.
fn filled(alloc: Global, text: &str, n: usize) -> Result<Text, OutOfMemory>
    requires { char_count text.now ≤ n }
    ensures value { IfOk result (λ t. t ≡ filled n text.now) }
    ensures full { IfOk result (λ t. char_count t ≡ n) }
    ensures utf8 { IfOk result (λ t. IsTrue (is_utf8 t)) }
{
    let filled = Text::filled(alloc, text, n - char_count(text))?;
    Ok(filled)
}

// A text as a value.
#[inline(always)]
fn lent_text(text: &str) -> CellValue<'_>
    ensures value { held_value result ≡ Some (Value.Txt text.now) }
    ensures utf8 { is_utf8 text.now ≡ true }
{
    CellValue::Lent(Cell::Txt(text))
}

// Whether a text has at most n characters. A text of at most n bytes has no more of them.
fn is_short(text: &str, n: usize) -> bool
    ensures { result ≡ nat_le (char_count text.now) n }
{
    text.len() <= n || char_count(text) <= n
}

// A text of at most n characters as a column holds it, where each text has exactly n of them, or not.
#[tactic(auto, using(crate::proofs::CellLemmas::both_hold))]
fn column_text(alloc: Global, n: u16, exact: bool, text: &str) -> Result<CellValue<'_>, OutOfMemory>
    requires { char_count text.now ≤ n }
    ensures value { IfOk result (λ v. held_value v ≡ Some (Value.Txt (column_text n exact text.now))) }
    ensures fit { IfOk result (λ v. IfSome (held_value v) (λ x. IsTrue (fits x (if exact then Ty.Char n else Ty.Varchar n)))) }
{
    if exact {
        Ok(CellValue::Filled(filled(alloc, text, n as usize)?))
    } else {
        Ok(lent_text(text))
    }
}

// The value of a cell in a column of at most, or exactly, n characters.
fn text_cell(alloc: Global, n: u16, exact: bool, cell: &str) -> Result<CellValue<'_>, OutOfMemory>
    ensures value { IfOk result (λ v. held_value v ≡ text_value n exact (decoded cell.now)) }
    ensures fit { IfOk result (λ v. IfSome (held_value v) (λ x. IsTrue (fits x (if exact then Ty.Char n else Ty.Varchar n)))) }
{
    let Some(text) = decoded(cell) else {
        return Ok(CellValue::Lent(Cell::Null));
    };
    if !is_short(text, n as usize) {
        return Ok(CellValue::Bad);
    }
    column_text(alloc, n, exact, text)
}

/// The value of a cell that is given in a BIGINT column, from the integer that it spells.
#[inline(always)]
pub(crate) fn bigint_value<'t>(integer: Option<i64>) -> CellValue<'t>
    ensures value { held_value result ≡ option_map (λ i. Value.Int i) integer }
    ensures fit { IfSome (held_value result) (λ v. IsTrue (fits v Ty.BigInt)) }
{
    match integer {
        Some(i) => CellValue::Lent(Cell::Int(i)),
        None => CellValue::Bad,
    }
}

/// The same in a DECIMAL(p,s) column, from the decimal that it spells.
#[inline(always)]
pub(crate) fn decimal_value<'t>(p: u8, s: u8, decimal: Option<Dec>) -> CellValue<'t>
    requires { IsTrue (in_bounds (Ty.Decimal p s)) }
    ensures value { held_value result ≡ option_and_then (decimal_in p s) decimal }
    ensures fit { IfSome (held_value result) (λ v. IsTrue (fits v (Ty.Decimal p s))) }
{
    let Some(d) = decimal else {
        return CellValue::Bad;
    };
    if d.scale() > s {
        return CellValue::Bad;
    }
    match d.rescale(p, s) {
        Ok(e) => CellValue::Lent(Cell::Dec(e)),
        Err(_) => CellValue::Bad,
    }
}

#[inline(always)]
#[tactic(auto, unfolding(crate::specs::Cells::value_of))]
fn bigint_cell(cell: &[u8]) -> CellValue<'_>
    ensures value { held_value result ≡ value_of Ty.BigInt cell.now }
    ensures fit { IfSome (held_value result) (λ v. IsTrue (fits v Ty.BigInt)) }
{
    if is_missing(cell) {
        CellValue::Lent(Cell::Null)
    } else {
        bigint_value(integer(cell))
    }
}

#[inline(always)]
#[tactic(auto, unfolding(crate::specs::Cells::value_of))]
fn decimal_cell(p: u8, s: u8, cell: &str) -> CellValue<'_>
    requires { IsTrue (in_bounds (Ty.Decimal p s)) }
    ensures value { held_value result ≡ value_of (Ty.Decimal p s) cell.now }
    ensures fit { IfSome (held_value result) (λ v. IsTrue (fits v (Ty.Decimal p s))) }
{
    if is_missing(cell.as_bytes()) {
        CellValue::Lent(Cell::Null)
    } else {
        decimal_value(p, s, decimal(cell))
    }
}

/// The value of a cell's text in a column of a type.
#[inline(always)]
#[tactic(auto, unfolding(crate::specs::Cells::value_of))]
pub fn read_cell(alloc: Global, ty: Ty, cell: &str) -> Result<CellValue<'_>, OutOfMemory>
    requires { IsTrue (in_bounds ty) }
    ensures value { IfOk result (λ v. held_value v ≡ value_of ty cell.now) }
    ensures fit { IfOk result (λ v. IfSome (held_value v) (λ x. IsTrue (fits x ty))) }
{
    match ty {
        Ty::BigInt => Ok(bigint_cell(cell.as_bytes())),
        Ty::Decimal { p, s } => Ok(decimal_cell(p, s, cell)),
        Ty::Char { n } => text_cell(alloc, n, true, cell),
        Ty::Varchar { n } => text_cell(alloc, n, false, cell),
    }
}
