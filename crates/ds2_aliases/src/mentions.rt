//! What a use of a name mentions.

use ds2_base::{Bytes, List};
use ds2_names::PlacedName;

/// What a use of a name mentions.
#[derive(Drop)]
pub enum Mention {
    /// A plain name: its value, a target or an argument.
    Name(Bytes),
    /// A call on an instance, or a member of one.
    Object {
        /// What stands before the point.
        name: Bytes,
        /// The names that are handed to in_out parameters, in order.
        handed: List<PlacedName>,
    },
    /// A call of a method or a function.
    Call {
        name: Bytes,
        /// The names that are handed to in_out parameters, in order.
        handed: List<PlacedName>,
    },
}
