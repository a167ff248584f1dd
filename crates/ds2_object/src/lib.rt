//! Object files: compiled programs as bytes.
//!
//! [`encode`] gives the one spelling of an object, [`decode`] the object of which the bytes are the spelling, or what is wrong first;
//! `specs/ObjectSpelling.antt` says both.
//! An [`ObjectCode`] is valid by its type.
//!
//! ```text
//! let object = decode(alloc, &bytes)?;
//! let same_bytes = encode(alloc, &object)?;
//! ```
#![tactic(auto)]

mod decoding;
mod encoding;
pub mod laws;
mod linked;
mod links;
mod made;
mod object;
mod refusal;

pub use decoding::decode;
pub use encoding::{encode, encode_programs};
pub use object::ObjectCode;
pub use refusal::ObjectRefusal;
