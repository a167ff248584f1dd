//! Cells: types and values as the cells of a CSV file spell them.
//!
//! [`read_cell`] reads the value of a cell in a column of a type, and [`write_cell`] writes it again; [`type_spelled`] and
//! [`type_text`] do the same for types. An [`Inference`] tells the type of a column out of its cells, and may read their values
//! meanwhile.
#![tactic(auto)]

mod cell;
mod decimal;
mod inference;
pub mod laws;
mod number;
mod spelling;
mod text;

pub use cell::{CellValue, read_cell};
pub use inference::Inference;
pub use spelling::type_spelled;
pub use text::{type_text, write_cell};
