//! What the statements of a program do, by numbers: which locations they mention and change, which methods they call, where they write.
//!
//! Locations and methods have numbers: `location`, `methods` and `table` give them, `table` by way of `location_table`, which finds what is
//! there by the order of `location_order`, and `numbers` finds them by the digests that it gives too. `scope` has what a body names. `deed`,
//! `object_deeds`, `expression_deeds` and `statement_deeds` list what statements mention, change, call and write, `bodies` does so for
//! whole methods, and `called` tells which methods deeds may call by way of others, kept in `marked_numbers`. [`laws`] says that what is
//! found by numbers is what `ds2_locality` says of names.
#![tactic(auto)]

mod bodies;
mod called;
mod deed;
mod expression_deeds;
pub mod laws;
mod location;
mod location_order;
mod location_table;
mod marked_numbers;
mod methods;
mod numbers;
mod object_deeds;
mod scope;
mod statement_deeds;
mod table;

pub use bodies::{all_method_deeds, init_deeds, run_deeds};
pub use called::{may_call, with_called};
pub use deed::NumberedDeed;
pub use location::{CodeHome, GlobalName, LocationName, global_location, named_location};
pub use marked_numbers::is_among;
pub use methods::{MethodName, called_home, method_at, methods_in_order};
pub use numbers::{DigestedNumber, Numbers, number_of, number_of_method, sorted_numbers};
pub use scope::{BodyScope, find_hash, find_iterator, find_output, method_scope, system_scope};
pub use table::locations_in_order;
