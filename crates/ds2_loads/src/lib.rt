//! The loads of a program's code: its reading statement over tables by number, the slots that a load sets straight from the rows of
//! tables, and its loads one after the other and in groups.
//!
//! A [`LoadSource`] gives loads in their order, tells in how many groups they are, and goes to the first load of any group.
//! [`ProgramLoads`] are those of a program over its tables, [`StageRows`] the rows of a thread program. What holds of the groups is in
//! [`laws`].
//!
//! ```text
//! let reading = statement_of(alloc, &program)?;
//! let mut loads = ProgramLoads::open(alloc, &program, &reading, &tables, grain)?;
//! while loads.next_load() { loads.set_into(alloc, &mut slots)?; .. }
//! ```
#![tactic(auto)]

mod columns;
mod kept_loads;
pub mod laws;
mod load_cursor;
mod opening;
mod program_loads;
mod row_place;
mod rows_in_turn;
mod source;
mod stage_rows;
mod statement;
mod table_load;
mod table_rows;

pub use opening::statement_of;
pub use program_loads::ProgramLoads;
pub use source::LoadSource;
pub use stage_rows::StageRows;
pub use statement::loaded_hashes;
pub use table_load::TableLoad;
pub use table_rows::TableRows;
