//! The refusal of the names of a unit: that of the least place at which it breaks a rule of names, and at one place that of the first kind.
//!
//! `resolve`, `resolve_package` and `resolve_thread` make a unit's names once and hand them to the rules: `ds2_name_uses` looks at uses of names,
//! `ds2_given_names` at names that are given, `ds2_misplaced` at declarations of instances, `ds2_misplaced` at what is misplaced, and
//! `ds2_aliases` at aliased arguments. The limits over a source stand here: `UnitsBefore` holds what stands before a unit, its packages and
//! thread programs, the data programs and the tables that they make, the tables of the store that are mentioned, and the count of tokens.
#![tactic(auto)]

mod before;
mod chains;
mod makers;
mod resolving;
mod store_mentions;
mod token_counts;

pub use before::UnitsBefore;
pub use makers::{Makers, maker_of};
pub use resolving::{resolve, resolve_package, resolve_thread};
