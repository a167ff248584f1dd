//! The columns of the table.
ghost use Rattle.std.specs.Prelude.{◌≡◌, IfOk, Ok};
ghost use Rattle.ds2_base.specs.Name.{name_of};
ghost use Rattle.ds2_answer.specs.Sales.{sales_columns};

use ds2_base::{List, Name, OutOfMemory, Stop};
use ds2_value::{Column, Schema, Ty};
use std::alloc::Global;

// The column of this name, which is one.
fn column(alloc: Global, name: &str, ty: Ty) -> Result<Column, OutOfMemory>
    requires { name_of name.now ≡ Ok name.now }
    ensures { IfOk result (λ column. column ≡ record { name = name.now; ty = ty }) }
{
    match Name::new(alloc, name) {
        Ok(name) => Ok(Column { name, ty }),
        Err(Stop::Refused(_)) => unreachable!(),
        Err(Stop::OutOfMemory) => Err(OutOfMemory),
    }
}

/// The columns of the table: a region, and an amount.
pub(crate) fn sales_schema(alloc: Global) -> Result<Schema, OutOfMemory>
    ensures { IfOk result (λ schema. schema ≡ sales_columns) }
{
    let mut columns = List::new(alloc);
    columns.push(column(alloc, "region", Ty::Char { n: 3 })?)?;
    columns.push(column(alloc, "amt", Ty::Decimal { p: 5, s: 2 })?)?;
    Ok(Schema::new(columns).unwrap())
}
