//! The types of the instances that a unit declares: what becomes of instances of packages with their constructors, of hash objects,
//! iterators and instances of thread programs, or which of the rules that their declarations break is given.
//!
//! What they are is defined in `ds2_elaboration` (`ProgramTypes`). [`typed_instances`] gives all of a unit: `constants` has the constants
//! for a constructor, `constructors` instances of packages, `hashes` hash objects and the rules on their tables, `declarations` one
//! declaration of any sort.
#![tactic(auto)]

mod constants;
mod constructors;
mod declarations;
mod hashes;
mod instances;
mod mentions;
mod variables;

pub use instances::{InstancesOutcome, TypedInstances, typed_instances};
pub use mentions::mentioned;
