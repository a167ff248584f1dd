//! What a column keeps of its values.
ghost use Rattle.std.specs.Prelude.{◌≡◌, ◌++◌, ◌∷◌, [], length, map, take, OnOk, OnErr};
ghost use Rattle.ds2_value.specs.Cell.{lent_value};
ghost use Rattle.ds2_columns.specs.Columns.{value_in_row};
ghost use Rattle.ds2_columns.specs.Items.{items_values};
ghost use Rattle.ds2_columns.specs.Kept.{HasOneMore};
ghost use Rattle.ds2_value.specs.declared.value.Value.TheVariants.{Int, Dec, Txt};

use crate::decimals::Decimals;
use crate::texts::Texts;
use ds2_base::{List, OutOfMemory};
use ds2_value::{Cell, Ty};
use std::alloc::Global;

/// The values of a column; in the place of a null stands any other one.
#[derive(Drop)]
pub(crate) enum Items {
    /// Of BIGINT.
    Whole(List<i64>),
    /// Of DECIMAL.
    Exact(Decimals),
    /// Of CHAR and VARCHAR.
    Spelled(Texts),
}

// The whole number in a row; null where there is no such row.
#[inline]
fn whole_at(numbers: &List<i64>, row: usize) -> Cell<'static>
    ensures { lent_value result ≡ value_in_row (map (λ number. Int number) numbers.now) row }
{
    match numbers.get(row) {
        None => Cell::Null,
        Some(number) => Cell::Int(*number),
    }
}

// The decimal in a row; null where there is no such row.
#[inline]
fn exact_at(numbers: &Decimals, row: usize) -> Cell<'static>
    ensures { lent_value result ≡ value_in_row (map (λ number. Dec number) numbers.now) row }
{
    match numbers.get(row) {
        None => Cell::Null,
        Some(number) => Cell::Dec(number),
    }
}

// The text in a row; null where there is no such row.
#[inline]
fn text_at(texts: &Texts, row: usize) -> Cell<'_>
    ensures { lent_value result ≡ value_in_row (map (λ text. Txt text) texts.now) row }
{
    match texts.get(row) {
        None => Cell::Null,
        Some(text) => Cell::Txt(text),
    }
}

// Adds a whole number, or refuses another value.
#[inline]
fn push_whole(numbers: &mut List<i64>, cell: &Cell<'_>) -> Result<(), OutOfMemory>
    ensures ok { OnOk result (map (λ number. Int number) numbers.new ≡ map (λ number. Int number) numbers.old ++ lent_value cell.now ∷ []) }
    ensures err { OnErr result (numbers.new ≡ numbers.old) }
{
    match cell {
        Cell::Int(number) => numbers.push(*number),
        _ => Err(OutOfMemory),
    }
}

// Adds a decimal, or refuses another value.
#[inline]
fn push_exact(numbers: &mut Decimals, cell: &Cell<'_>) -> Result<(), OutOfMemory>
    ensures ok { OnOk result (map (λ number. Dec number) numbers.new ≡ map (λ number. Dec number) numbers.old ++ lent_value cell.now ∷ []) }
    ensures err { OnErr result (numbers.new ≡ numbers.old) }
{
    match cell {
        Cell::Dec(number) => numbers.push(*number),
        _ => Err(OutOfMemory),
    }
}

// Adds a text, or refuses another value.
#[inline]
fn push_text(texts: &mut Texts, cell: &Cell<'_>) -> Result<(), OutOfMemory>
    ensures ok { OnOk result (map (λ text. Txt text) texts.new ≡ map (λ text. Txt text) texts.old ++ lent_value cell.now ∷ []) }
    ensures err { OnErr result (texts.new ≡ texts.old) }
{
    match cell {
        Cell::Txt(text) => texts.push(*text),
        _ => Err(OutOfMemory),
    }
}

impl Items {
    /// No values, of a type. Takes no memory.
    pub(crate) fn new(alloc: Global, ty: Ty) -> Items
        ensures { items_values result ≡ [] }
    {
        match ty {
            Ty::BigInt => Items::Whole(List::new(alloc)),
            Ty::Decimal { p: _, s } => Items::Exact(Decimals::new(alloc, s)),
            Ty::Char { n: _ } => Items::Spelled(Texts::new(alloc)),
            Ty::Varchar { n: _ } => Items::Spelled(Texts::new(alloc)),
        }
    }

    /// The number of values.
    pub(crate) fn len(&self) -> usize
        ensures { result ≡ length (items_values self.now) }
    {
        match self {
            Items::Whole(numbers) => numbers.len(),
            Items::Exact(numbers) => numbers.len(),
            Items::Spelled(texts) => texts.len(),
        }
    }

    /// The value in a row; null where there is no such row.
    #[inline]
    pub(crate) fn cell(&self, row: usize) -> Cell<'_>
        ensures { lent_value result ≡ value_in_row (items_values self.now) row }
    {
        match self {
            Items::Whole(numbers) => whole_at(numbers, row),
            Items::Exact(numbers) => exact_at(numbers, row),
            Items::Spelled(texts) => text_at(texts, row),
        }
    }

    /// Adds a value at the end, or refuses it where it is null or of another kind. After a refusal the values are as they were.
    #[inline]
    pub(crate) fn push(&mut self, cell: &Cell<'_>) -> Result<(), OutOfMemory>
        ensures ok { OnOk result (items_values self.new ≡ items_values self.old ++ lent_value cell.now ∷ []) }
        ensures err { OnErr result (items_values self.new ≡ items_values self.old) }
    {
        match self {
            Items::Whole(numbers) => push_whole(numbers, cell),
            Items::Exact(numbers) => push_exact(numbers, cell),
            Items::Spelled(texts) => push_text(texts, cell),
        }
    }

    /// Adds any value at the end, which stands in the place of a null. After a refusal the values are as they were.
    pub(crate) fn push_any(&mut self) -> Result<(), OutOfMemory>
        ensures ok { OnOk result (HasOneMore (items_values self.old) (items_values self.new)) }
        ensures err { OnErr result (items_values self.new ≡ items_values self.old) }
    {
        let cell = match self {
            Items::Whole(_) => Cell::Int(0),
            Items::Exact(numbers) => Cell::Dec(numbers.zero()),
            Items::Spelled(_) => Cell::Txt(""),
        };
        self.push(&cell)
    }

    /// Makes room for `count` more values.
    pub(crate) fn reserve(&mut self, count: usize) -> Result<(), OutOfMemory>
        ensures { items_values self.new ≡ items_values self.old }
    {
        match self {
            Items::Whole(numbers) => numbers.reserve(count),
            Items::Exact(numbers) => numbers.reserve(count),
            Items::Spelled(texts) => texts.reserve(count),
        }
    }

    /// Drops all values but the first `count`.
    pub(crate) fn truncate(&mut self, count: usize)
        ensures { items_values self.new ≡ take count (items_values self.old) }
    {
        match self {
            Items::Whole(numbers) => numbers.truncate(count),
            Items::Exact(numbers) => numbers.truncate(count),
            Items::Spelled(texts) => texts.truncate(count),
        }
    }
}
