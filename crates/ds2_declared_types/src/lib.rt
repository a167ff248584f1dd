//! The types of what the source of a unit names: declared variables, parameters and locals, and the columns of its reading statement,
//! which are joined over its tables or are those of a thread program.
//!
//! What they are is defined in `ds2_elaboration` (`SourceTypes`). [`variables`] has variables, parameters and locals with their types,
//! [`columns`] the types that the columns of a unit are read as, and the places at which they do not join, over tables whose columns
//! [`input_types`] has by their names.
//!
//! What is known of the types of the packages and thread programs that stand before a unit of a source.
//!
//! What they are is defined in `ds2_elaboration` (`UnitsBefore`). A package is kept with its source, from which the types of its methods
//! and of its constructor's parameters come; a look-up goes along the list, since a source has few units.
#![tactic(auto)]

pub mod columns;
pub mod input_types;
pub mod joins;
mod known;
pub mod names;
pub mod spelled;
mod stages;
pub mod variables;

pub use known::{KnownPackage, KnownTypes, parameters_of};
pub use stages::{stage_behind, stage_columns};
