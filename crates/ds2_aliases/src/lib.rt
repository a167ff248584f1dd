//! Aliased arguments: by which argument a called method reaches a variable on a second way.
//!
//! `links` has tables of what methods mention: which methods mention a name, which call one and which use an instance. `reach` goes from
//! the methods that mention a name back to those that call them, layer by layer, once for each name that is handed to an in_out parameter. A
//! unit that hands none over costs no such walk.
//!
//! What the methods of a unit mention: for each method, in order, the plain names of its body, the calls with the names that they hand to in_out
//! parameters, and the instances; and the key and data variables of the unit's hash objects and iterators.
//!
//! `parts_of_unit` is the call of the crate. `handed` finds the names that a call hands over, `expressions` and `statements` walk a body.
#![tactic(auto)]

mod aliases;
mod expressions;
mod handed;
mod handings;
mod links;
mod mentions;
mod parts;
mod reach;
mod statements;

pub use aliases::aliased_argument;
pub use mentions::Mention;
pub use parts::{MethodParts, UnitParts, parts_of_unit};
