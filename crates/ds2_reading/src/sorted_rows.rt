//! The rows of a reading statement in BY order.
ghost use Rattle.std.specs.Prelude.{◌≡◌, ◌||◌, nat_eq, nat_lt, map, ◌+◌, ◌^◌, ◌<◌, ◌≤◌, Some, IsTrue, IfOk, IfSome, length, get_or, slice_get};
ghost use Rattle.std.specs.Option.{option_map};
ghost use Rattle.ds2_table.specs.LoadLaws.{HaveTableKeys};
ghost use Rattle.ds2_table.specs.Loads.{input_rows};
ghost use Rattle.ds2_reading.specs.ReadingFits.{reading_fits_tables};
ghost use Rattle.ds2_reading.specs.GroupStarts.{opens_group_at};
ghost use Rattle.ds2_reading.specs.KeyHeads.{row_of};
ghost use Rattle.ds2_reading.specs.KeyOrder.{row_in, IsThere};
ghost use Rattle.ds2_reading.specs.Numbers.{AreInOrder, common_of_numbers, AreCommonsOf};
ghost use Rattle.ds2_reading.specs.Places.{all_rows, common_before};
ghost use Rattle.ds2_reading.specs.ReadingKeys.{directions_of, keys_of_reading};

use crate::flags::opens_key;
use crate::inputs::Inputs;
use crate::numbers::{head_of, ordered_numbers, row_of};
use crate::settling::level_of_head;
use crate::{Reading, TableRow, Tables};
use ds2_base::{List, OutOfMemory};
use std::alloc::Global;
use std::marker::Model;
use std::sync::Arc;

/// The rows of all tables of a reading statement in BY order, and for each in how many BY variables, from the first one on, it is equal
/// to the row before. A contract sees the keys of the rows of each table, and which BY variables are descending.
#[derive(Drop)]
pub struct SortedRows {
    shared: Arc<Sorted, Global>,
}

// What copies share: the tables, the numbers of their rows in BY order, and the BY variables that each has in common with the row before.
#[derive(Drop)]
struct Sorted {
    inputs: Inputs,
    numbers: List<u32>,
    commons: List<u8>,
}

impl Model for SortedRows {
    ghost use Rattle.std.specs.Prelude.{length, ◌^◌, ◌<◌};
    ghost use Rattle.std.specs.Arc.{arc_value};
    ghost use Rattle.ds2_reading.specs.KeyOrder.{InputKeys};
    ghost use Rattle.ds2_reading.specs.Places.{AreRowNumbers, AreCommons};

    ghost Value = { InputKeys };

    ghost view = { λ t. (arc_value t.shared).inputs };

    ghost invariant = { λ t. AreRowNumbers (arc_value t.shared).inputs (arc_value t.shared).numbers
        × AreCommons (arc_value t.shared).inputs (arc_value t.shared).commons
        × (length (arc_value t.shared).numbers < 2 ^ 32) };
}

// In how many BY variables the row at a place is equal to the row before; none at the first place.
fn common_at(inputs: &Inputs, numbers: &[u128], place: usize) -> usize
    requires place { place < length numbers.now }
    requires keys { HaveTableKeys inputs.now.descending inputs.now.tables }
    requires order { AreInOrder inputs.now numbers.now }
    ensures value { result ≡ common_of_numbers inputs.now numbers.now place }
    ensures bound { result ≤ length inputs.now.descending }
{
    if place == 0 {
        return 0;
    }
    let before = numbers[place - 1];
    let this = numbers[place];
    let head = head_of(this);
    if head_of(before) != head {
        return 0;
    }
    inputs.parts_in_common(level_of_head(inputs, head), row_of(before), row_of(this))
}

// For each place in how many BY variables its row is equal to the row before.
fn commons(alloc: Global, inputs: &Inputs, numbers: &[u128]) -> Result<List<u8>, OutOfMemory>
    requires bys { length inputs.now.descending ≤ 16 }
    requires keys { HaveTableKeys inputs.now.descending inputs.now.tables }
    requires order { AreInOrder inputs.now numbers.now }
    ensures { IfOk result (AreCommonsOf inputs.now numbers.now) }
{
    let mut commons = List::new(alloc);
    commons.reserve(numbers.len())?;
    'places: for place in 0..numbers.len() {
        commons.push(common_at(inputs, numbers, place) as u8)?;
    }
    Ok(commons)
}

// Whether a row at a place that has so many BY variables in common with the row before opens a group.
fn opens_at_grain(grain: usize, place: usize, common: usize) -> bool
    ensures { result ≡ (nat_eq grain 0 || (nat_eq place 0 || nat_lt common grain)) }
{
    grain == 0 || opens_key(place, common, grain)
}

// The numbers of rows without their heads.
fn row_numbers(alloc: Global, numbers: &[u128]) -> Result<List<u32>, OutOfMemory>
    ensures { IfOk result (λ rows. rows ≡ map row_of numbers.now) }
{
    let mut rows = List::new(alloc);
    rows.reserve(numbers.len())?;
    let mut rest = numbers;
    'numbers: while let [first, after @ ..] = rest {
        rows.push(row_of(*first) as u32)?;
        rest = after;
    }
    Ok(rows)
}

impl SortedRows {
    /// Sorts the rows of the tables that the statement reads.
    pub fn open(
        alloc: Global,
        reading: &Reading,
        tables: &Tables,
    ) -> Result<SortedRows, OutOfMemory>
        requires { IsTrue (reading_fits_tables tables.now reading.now) }
        ensures { IfOk result (λ sorted. sorted
            ≡ record { descending = directions_of reading.now.bys; tables = keys_of_reading tables.now reading.now }) }
    {
        let inputs = Inputs::open(alloc, reading, tables)?;
        inputs.have_keys();
        let ordered = ordered_numbers(alloc, &inputs)?;
        let numbers = row_numbers(alloc, ordered.as_slice())?;
        let commons = commons(alloc, &inputs, ordered.as_slice())?;
        let sorted = Sorted {
            inputs,
            numbers,
            commons,
        };
        Ok(SortedRows {
            shared: Arc::new(alloc, sorted)?,
        })
    }

    /// The same rows once more, shared; however many there are, this takes no walk over them.
    pub fn copy(&self, _alloc: Global) -> Result<SortedRows, OutOfMemory>
        ensures { IfOk result (λ copy. copy ≡ self.now) }
    {
        Ok(SortedRows {
            shared: self.shared.clone()?,
        })
    }

    /// Nothing at run time: a contract learns here that each key has a value for each BY variable.
    pub fn have_keys(&self)
        ensures { HaveTableKeys self.now.descending self.now.tables }
    {
        self.shared.inputs.have_keys()
    }

    /// The number of tables.
    pub fn tables(&self) -> usize
        ensures { result ≡ length self.now.tables }
    {
        self.shared.inputs.tables()
    }

    /// The number of BY variables.
    pub fn bys(&self) -> usize
        ensures { result ≡ length self.now.descending }
    {
        self.shared.inputs.bys()
    }

    /// The number of rows of all tables.
    pub fn len(&self) -> usize
        ensures value { result ≡ length (all_rows self.now.descending self.now.tables) }
        ensures bound { result < 2 ^ 32 }
    {
        self.shared.numbers.len()
    }

    /// The row at a place of the BY order, from 0; None exactly past the last one.
    pub fn row_at(&self, place: usize) -> Option<TableRow>
        ensures row { option_map (row_in self.now.tables) result ≡ slice_get (all_rows self.now.descending self.now.tables) place }
        ensures there { IfSome result (IsThere self.now.tables) }
    {
        let number = self.shared.numbers.get(place)?;
        self.shared.inputs.row(*number as usize)
    }

    /// In how many BY variables, from the first one on, the row at a place is equal to the row before; none at the first place, and where
    /// no row is.
    pub fn common_at(&self, place: usize) -> usize
        ensures { result ≡ common_before self.now place }
    {
        match self.shared.commons.get(place) {
            None => 0,
            Some(common) => *common as usize,
        }
    }

    /// Whether the row at a place opens a group at a grain.
    pub fn opens_group(&self, grain: usize, place: usize) -> bool
        requires grain { grain ≤ length self.now.descending }
        requires place { place < length (all_rows self.now.descending self.now.tables) }
        ensures { result ≡ opens_group_at grain (all_rows self.now.descending self.now.tables) place }
    {
        self.have_keys();
        opens_at_grain(grain, place, self.common_at(place))
    }
}
