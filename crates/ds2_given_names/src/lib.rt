//! Names that units give: names that are given twice, outputs and thread programs without a column, names beyond a limit, and numbers outside
//! their bounds, each at the earliest place.
#![tactic(auto)]

mod left_columns;
mod limits;
mod listed;
mod lists;
mod number_order;
mod numbers;
mod output_columns;
mod output_rules;
mod renamed;
mod repetitions;
mod too_many;

pub use left_columns::columns_left;
pub use listed::{option_lists, passes_lists, statement_lists};
pub use lists::KeepDrop;
pub use renamed::{NewNames, new_names};
pub use repetitions::{BrokenNames, broken_names};
