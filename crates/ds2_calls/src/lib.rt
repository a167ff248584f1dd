//! What the calls of a unit may mean: its own methods, functions, and the methods of its instances.
//!
//! `methods` and `instances` have tables of a unit's methods and instances, `known_calls` those of the units that stand before it; `UnitCalls`
//! and `Calls` put them together. `functions` and `sorts` tell how many arguments a call takes, and which parameters are in_out.
//!
//! The walk over the uses of names in a method, for any rule on uses: the earliest place at which a use breaks it.
//!
//! `UseRule` is a rule on uses, told use by use; `in_statements` goes through the statements of a method.
#![tactic(auto)]

mod functions;
mod instances;
mod known_calls;
mod methods;
mod sorts;
mod statement_walk;
mod unit_calls;
mod use_walk;

pub use functions::{counts_of, takes_count};
pub use instances::{Sort, SortTable, instance_sorts, spelled_text};
pub use known_calls::KnownCalls;
pub use methods::{MethodFlags, method_flags, parameters_of};
pub use sorts::{counts_on_sort, is_known_sort, is_known_stage};
pub use statement_walk::in_statements;
pub use unit_calls::{Calls, UnitCalls, calls_of_unit};
pub use use_walk::{UseRule, further_flags, handed_name, is_flag_word, next_flag};
