//! Laws of the definitions, each the contract of a function that does nothing.
ghost use Rattle.ds2_csv_cells.specs.Laws.{CellsAreTexts, ReadsCells, ReadsTypes};

/// What a value that fits a type is written as is a text, and is read as the value. This rests on the same law of decimals.
pub fn reads_cells()
    ensures values { ReadsCells }
    ensures texts { CellsAreTexts }
{
    ds2_decimal::laws::reads_written();
}

/// What a type in bounds is written as spells it.
pub fn reads_types()
    ensures { ReadsTypes }
{}
