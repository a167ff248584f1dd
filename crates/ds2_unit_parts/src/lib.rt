//! What stands in a typed unit beside its methods and its instances: its reading statement ([`reading`]), the outputs that it makes
//! ([`outputs`]), and the names that it retains ([`retained`]). What they are is what `ds2_elaboration` defines (`ProgramTypes`).
#![tactic(auto)]

pub mod declared;
pub mod outputs;
pub mod reading;
pub mod retained;
