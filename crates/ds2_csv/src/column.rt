//! The columns of a table, whose types the header tells or the cells do.
ghost use Rattle.std.specs.Prelude.{◌≡◌, ℕ, [], length, unwrap_or, List as Items, IfOk};
ghost use Rattle.ds2_csv_cells.specs.ColumnTypes.{type_of_cells};
ghost use Rattle.ds2_csv.specs.Columns.{columns_from};
ghost use Rattle.ds2_csv_cells.specs.Inferred.{IsInferred};
ghost use Rattle.ds2_csv.specs.Known.{AreInferred};
ghost use Rattle.ds2_csv.specs.Records.{Rows};

use crate::heading::Heading;
use crate::items::item;
use ds2_base::{List, OutOfMemory};
use ds2_csv_cells::Inference;
use ds2_value::{Column, Ty};
use std::alloc::Global;

/// What is known of so many columns without rows.
pub fn nothing_known(alloc: Global, width: usize) -> Result<List<Inference>, OutOfMemory>
    ensures count { IfOk result (λ known. length known ≡ width) }
    ensures known { IfOk result (λ known. AreInferred known []) }
{
    let mut known = List::new(alloc);
    'columns: for i in 0..width {
        known.push(Inference::new())?;
    }
    Ok(known)
}

fn column_type(heading: &Heading, known: Inference) -> Ty
    ensures { (cells : Items (Items ℕ)) → IsInferred known cells → result ≡ unwrap_or heading.now.ty (type_of_cells cells) }
{
    match heading.ty {
        Some(ty) => ty,
        None => known.ty(),
    }
}

/// The columns of headings over rows of which this is known.
pub fn columns(
    alloc: Global,
    headings: &[Heading],
    known: &[Inference],
) -> Result<List<Column>, OutOfMemory>
    requires { length known.now ≡ length headings.now }
    ensures { (rows : Rows) → AreInferred known.now rows → IfOk result (λ columns. columns ≡ columns_from 0 headings.now rows) }
{
    let mut columns = List::new(alloc);
    'headings: for (i, heading) in headings.iter().enumerate() {
        let name = heading.name.copy(alloc)?;
        let seen = item(known, i);
        let ty = column_type(heading, seen);
        columns.push(Column { name, ty })?;
    }
    Ok(columns)
}
