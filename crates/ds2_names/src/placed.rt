//! Names with their places.

use ds2_base::{Bytes, Place};

/// A name that a source gives, and the place at which it gives it.
#[derive(Drop)]
pub struct PlacedName {
    /// Its bytes, the ASCII letters in lower case.
    pub name: Bytes,
    pub place: Place,
}

/// A column of an output.
#[derive(Drop)]
pub struct OutputName {
    /// Its name, the new one where it is renamed.
    pub name: Bytes,
    /// The place of its new name, where it is renamed.
    pub new_place: Option<Place>,
}
