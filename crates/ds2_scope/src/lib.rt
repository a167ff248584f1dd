//! Names of units: which rule of names a unit breaks first, and where.
//!
//! Each rule of `ds2_names` has a function that gives the earliest place at which the rule is broken; `BrokenRules` puts them together.
//! Here stand what these functions share: a unit of any kind (`Unit`), the instances that it declares, the packages and thread programs
//! before it (`KnownUnits`), its names in lists and in sets; and parts of the rule on names that are given twice. No list of names
//! is walked for each use: a table by names that a source may have any number of finds them by their order (`NameTable`).
#![tactic(auto)]

mod collected;
mod columns;
mod duplicates;
mod earliest;
mod instances;
mod known;
pub mod laws;
mod name_table;
mod names;
mod reading;
mod refusal;
mod repeated;
mod unit;
mod unit_names;

pub use collected::{declared_names, local_names, method_names, output_names, renamed_names};
pub use columns::{add_columns, add_name, column_set, columns_of, name_set};
pub use duplicates::{repeated_local, repeated_method, repeated_output, repeated_renaming};
pub use earliest::{earlier, earlier_of, is_earlier, place_unless};
pub use instances::{Instance, InstanceSort, instance_names, instances_of};
pub use known::{KnownThread, KnownUnits, one_more};
pub use name_table::{NameSet, NameTable};
pub use names::{is_system_name, placed_name, push_names, spelled_name};
pub use reading::{
    by_names, bys_of, push_flags, reading_of_run, reads_thread, stage_of, tables_of,
};
pub use refusal::BrokenRules;
pub use repeated::earliest_later;
pub use unit::{Unit, UnitKind, unit_of_data, unit_of_package, unit_of_thread};
pub use unit_names::{
    UnitNames, find_instance, names_of_program, names_of_unit, reading_of_unit, thread_of,
};
