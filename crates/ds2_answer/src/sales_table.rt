//! The table of sales, and its total.
ghost use Rattle.std.specs.Prelude.{◌≡◌, ◌≤◌, IfOk};
ghost use Rattle.ds2_answer.specs.Sales.{sale_of, sales_table, sales_total};
ghost use Rattle.ds2_answer.specs.declared.sales_table.TheConstants.{MOST_SALES};

use crate::drawn::{hundredths_of, in_hundredths, next_drawn, region_of};
use crate::schema::sales_schema;
use ds2_base::{List, OutOfMemory};
use ds2_decimal::Dec;
use ds2_table::Table;
use ds2_value::{Row, Value};
use std::alloc::Global;

/// The most rows of a table of sales.
pub const MOST_SALES: u32 = 200_000;

// The row of the region of one number and the amount of another.
fn sale_of(alloc: Global, first: u64, second: u64) -> Result<Row, OutOfMemory>
    ensures { IfOk result (λ row. row ≡ sale_of first second) }
{
    let mut row = List::new(alloc);
    row.push(Value::Txt(region_of(alloc, first)?))?;
    row.push(Value::Dec(in_hundredths(hundredths_of(second))))?;
    Ok(row)
}

/// The table of `n` sales, 1 to [`MOST_SALES`]: a CHAR(3) `region` and a DECIMAL(5,2) `amt`.
pub fn sales(alloc: Global, n: u32) -> Result<Table, OutOfMemory>
    requires some { 1 ≤ n }
    requires most { n ≤ MOST_SALES }
    ensures { IfOk result (λ table. table ≡ sales_table n) }
{
    let mut table = Table::new(alloc, sales_schema(alloc)?);
    let mut number = n as u64;
    'sales: for row in 0..n {
        let first = next_drawn(number);
        let second = next_drawn(first);
        table.push(sale_of(alloc, first, second)?)?;
        number = second;
    }
    Ok(table)
}

/// The total of the amounts of `n` sales, 1 to [`MOST_SALES`]. Takes no memory.
pub fn sales_total(n: u32) -> Dec
    requires some { 1 ≤ n }
    requires most { n ≤ MOST_SALES }
    ensures { result ≡ sales_total n }
{
    let mut hundredths = 0u64;
    let mut number = n as u64;
    'sales: for row in 0..n {
        let second = next_drawn(next_drawn(number));
        hundredths += hundredths_of(second);
        number = second;
    }
    in_hundredths(hundredths)
}
