//! The types of units: what becomes of a package, a thread program or a data program, or which of the rules of types it breaks first.
//!
//! What it decides is what `ds2_elaboration` defines (`ProgramTypes`). [`at_hand`] looks up what a unit reads, [`unit_tables`] makes the
//! tables in which the statements of its methods look up names, [`bodies`] types the statements of a method, [`methods`] and
//! [`package_methods`] have all of them, [`column_clashes`] the rule on columns, [`instances`] that and the rules on instances; [`parts`]
//! puts a program together. [`check::check`], [`check::check_thread`] and [`check::check_package`] give the typed unit, or the refusal of its
//! types.
#![tactic(auto)]

pub mod at_hand;
pub mod bodies;
pub mod check;
pub mod column_clashes;
pub mod instances;
pub mod methods;
pub mod output_numbers;
pub mod package_methods;
pub mod packages;
pub mod parts;
pub mod programs;
pub mod unit_tables;
