//! Cells of code, and the instructions that reach them.
ghost use Rattle.std.specs.Prelude.{◌≡◌};
ghost use Rattle.std.specs.Option.{option_map};
ghost use Rattle.ds2_gen.specs.ExpressionCode.{load_instr as loading, store_instr as storing, hash_instr as calling_hash, iterator_instr as calling_iterator};
ghost use Rattle.ds2_numbering.specs.CellNumbers.{code_cell};

use ds2_code::Instr;
use ds2_value::{HashFunction, IteratorFunction, Ty};

/// Where code keeps something: in a slot, in a local of the frame, as a hash object or an iterator, or as a parameter for the thread program.
#[derive(Clone, Copy)]
pub enum Cell {
    Slot(u32),
    Local(u32),
    Hash(u32),
    Iterator(u32),
    Parameter(u32),
}

/// Pushes what a cell holds.
pub fn load_instr(cell: Option<Cell>, ty: Ty) -> Instr
    ensures { result ≡ loading (option_map code_cell cell) ty }
{
    match cell {
        None => Instr::Null(ty),
        Some(cell) => match cell {
            Cell::Slot(n) => Instr::GLoad(n),
            Cell::Local(n) => Instr::LLoad(n),
            Cell::Hash(_) => Instr::Null(ty),
            Cell::Iterator(_) => Instr::Null(ty),
            Cell::Parameter(_) => Instr::Null(ty),
        },
    }
}

/// Pops a value into a cell.
pub fn store_instr(cell: Option<Cell>) -> Instr
    ensures { result ≡ storing (option_map code_cell cell) }
{
    match cell {
        None => Instr::DropTop,
        Some(cell) => match cell {
            Cell::Slot(n) => Instr::GStore(n),
            Cell::Local(n) => Instr::LStore(n),
            Cell::Hash(_) => Instr::DropTop,
            Cell::Iterator(_) => Instr::DropTop,
            Cell::Parameter(n) => Instr::SetParm(n),
        },
    }
}

/// Calls the hash object of a cell.
pub fn hash_instr(cell: Option<Cell>, function: HashFunction) -> Instr
    ensures { result ≡ calling_hash (option_map code_cell cell) function }
{
    match cell {
        None => Instr::NoWhen,
        Some(cell) => match cell {
            Cell::Slot(_) => Instr::NoWhen,
            Cell::Local(_) => Instr::NoWhen,
            Cell::Hash(n) => Instr::HCall(n, function),
            Cell::Iterator(_) => Instr::NoWhen,
            Cell::Parameter(_) => Instr::NoWhen,
        },
    }
}

/// Calls the iterator of a cell.
pub fn iterator_instr(cell: Option<Cell>, function: IteratorFunction) -> Instr
    ensures { result ≡ calling_iterator (option_map code_cell cell) function }
{
    match cell {
        None => Instr::NoWhen,
        Some(cell) => match cell {
            Cell::Slot(_) => Instr::NoWhen,
            Cell::Local(_) => Instr::NoWhen,
            Cell::Hash(_) => Instr::NoWhen,
            Cell::Iterator(n) => Instr::ICall(n, function),
            Cell::Parameter(_) => Instr::NoWhen,
        },
    }
}
